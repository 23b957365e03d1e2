// Deterministic services that a replica can run.
#![tactic(auto)]

mod orders;
mod seats;
mod service;
mod trail;

pub use orders::{Act, UnknownAct};
pub use seats::{Product, SeatBook};
pub use service::{Command, Service};
pub use trail::Trail;

#[cfg(test)]
mod tests {
    use super::*;
    use std::process::Abort;

    const BUY_7_64: Command = [Act::Buy as u8, 7, 0, 0, 0, 64, 0, 0, 0, 0];

    const BUY_7_65: Command = [Act::Buy as u8, 7, 0, 0, 0, 65, 0, 0, 0, 0];

    const BUY_7_1: Command = [Act::Buy as u8, 7, 0, 0, 0, 1, 0, 0, 0, 0];

    const TAKE_7: Command = [Act::Take as u8, 7, 0, 0, 0, 0, 0, 0, 0, 0];

    const RETURN_7: Command = [Act::Return as u8, 7, 0, 0, 0, 0, 0, 0, 0, 0];

    fn answers(rt: &impl Abort, book: &mut SeatBook, client: u16, command: &Command, answer: u64) {
        assert_eq!(rt; book.step(client, command), answer);
    }

    #[test]
    fn buying(rt: HostRuntime) {
        let mut book = SeatBook::new();
        answers(&rt, &mut book, 0, &BUY_7_65, 0);
        answers(&rt, &mut book, 1, &BUY_7_64, 0);
        answers(&rt, &mut book, 0, &BUY_7_64, 1);
    }

    #[test]
    fn taking(rt: HostRuntime) {
        let mut book = SeatBook::new();
        answers(&rt, &mut book, 5, &TAKE_7, 0);
        answers(&rt, &mut book, 0, &BUY_7_64, 1);
        answers(&rt, &mut book, 5, &TAKE_7, 1);
        answers(&rt, &mut book, 5, &TAKE_7, 0);
        answers(&rt, &mut book, 63, &TAKE_7, 1);
        answers(&rt, &mut book, 64, &TAKE_7, 0);
        answers(&rt, &mut book, 64, &RETURN_7, 0);
    }

    // Fewer bought than out takes nobody's seat, and gives none.
    #[test]
    fn lowering(rt: HostRuntime) {
        let mut book = SeatBook::new();
        answers(&rt, &mut book, 0, &BUY_7_64, 1);
        answers(&rt, &mut book, 5, &TAKE_7, 1);
        answers(&rt, &mut book, 6, &TAKE_7, 1);
        answers(&rt, &mut book, 0, &BUY_7_1, 1);
        answers(&rt, &mut book, 7, &TAKE_7, 0);
        answers(&rt, &mut book, 5, &RETURN_7, 1);
        answers(&rt, &mut book, 7, &TAKE_7, 0);
        answers(&rt, &mut book, 6, &RETURN_7, 1);
        answers(&rt, &mut book, 7, &TAKE_7, 1);
    }
}
