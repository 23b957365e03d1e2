// Settles a quarter: reads its commands, runs them on the seat book and prints the royalty report.
#![tactic(auto)]

mod report;

use quarter::Quarter;
use report::print_report;
use std::io::Read;

fn run(rt: &HostRuntime) -> anyhow::Result<()> {
    let mut text = Vec::new(rt.alloc());
    rt.stdin().read_to_end(&mut text)?;
    let quarter = Quarter::settle(rt.alloc(), &text)?;
    print_report(rt, &quarter)
}

fn main(rt: HostRuntime) -> anyhow::Result<()> {
    run(&rt)
}
