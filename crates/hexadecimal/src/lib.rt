// Bytes as hexadecimal text.
#![tactic(auto)]

ghost use Rattle.std.specs.Prelude.{◌≡◌, ◌<◌, Some};
ghost use Rattle.hexadecimal.specs.Texts.{hex_digit, hex_text};

use std::fmt;

// Bytes that are written in lower-case hex, two digits each.
#[derive(Clone, Copy)]
pub struct Hex<'a>(pub &'a [u8]);

impl fmt::Display for Hex<'_> {
    ghost output = { λ hex. Some (hex_text hex.0.now) };

    fn fmt<W: fmt::Write>(&self, f: &mut fmt::Formatter<W>) -> fmt::Result {
        for b in self.0 {
            f.write_char(hex_digit(b / 16))?;
            f.write_char(hex_digit(b % 16))?;
        }
        Ok(())
    }
}

// A digit as a character. Two of them take less time than `{:02x}`, which lays out each byte as a number.
fn hex_digit(d: u8) -> char
    requires { d < 16 }
    ensures value { result ≡ hex_digit d }
    ensures ascii { result < 128 }
{
    char::from_digit(u32::from(d), 16).unwrap()
}

#[cfg(test)]
mod tests {
    use super::*;
    use std::test::Fail;

    #[test]
    fn texts(rt: HostRuntime) -> Result<(), Fail> {
        let hex = Hex(&[0x00, 0x9a, 0xbc, 0xff]).to_string(rt.alloc())?;
        assert_eq!(rt; hex.as_str(), "009abcff");
        Ok(())
    }
}
