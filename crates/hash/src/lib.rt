// SHA-256 and HMAC-SHA-256, each equal to its definition in specs/.
#![tactic(auto)]

ghost use Rattle.std.specs.Prelude.{◌≤◌};

mod block;
mod mac;
mod sha;

pub use block::HashBytes;
pub use mac::{MacKey, hmac};
pub use sha::{Hasher, sha256};

#[cfg(test)]
mod tests {
    use super::*;
    use std::process::Abort;

    const ZEROS: [u8; 65] = [0; 65];

    // The hash of the first n zeros, taken whole and in two parts, begins with these bytes.
    fn begins(rt: &impl Abort, n: usize, first: u8, second: u8)
        requires { n ≤ 65 }
    {
        let message = &ZEROS[0..n];
        let whole = sha256(message);
        let mut h = Hasher::new();
        h.update(&message[0..n / 2]);
        h.update(&message[n / 2..n]);
        assert_eq!(rt; h.finish(), whole);
        assert_eq!(rt; whole[0], first);
        assert_eq!(rt; whole[1], second);
    }

    #[test]
    fn lengths_around_a_block(rt: HostRuntime) {
        begins(&rt, 55, 0x02, 0x77);
        begins(&rt, 56, 0xd4, 0x81);
        begins(&rt, 63, 0xc7, 0x72);
        begins(&rt, 64, 0xf5, 0xa5);
        begins(&rt, 65, 0x98, 0xce);
    }
}
