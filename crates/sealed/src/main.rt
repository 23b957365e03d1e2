// Settles a quarter, as seats does, and seals its digest in a record that other hosts can check.
#![tactic(auto)]

mod seal;

use quarter::Quarter;
use seal::print_seal;
use service::Service;
use std::io::Read;

fn run(rt: &HostRuntime) -> anyhow::Result<()> {
    let mut text = Vec::new(rt.alloc());
    rt.stdin().read_to_end(&mut text)?;
    let quarter = Quarter::settle(rt.alloc(), &text)?;
    print_seal(rt, &quarter.book.digest())
}

fn main(rt: HostRuntime) -> anyhow::Result<()> {
    run(&rt)
}
