//! Reads the lines of a quarter's licence commands: `buy PRODUCT AMOUNT`, `take CLIENT PRODUCT` and
//! `return CLIENT PRODUCT`. A `#` starts a comment.
#![tactic(auto)]

ghost use Rattle.std.specs.Prelude.{◌≡◌, ℕ, Bool, not, ◌≤◌, min, is_some, IfOk, IfSome, Some};
ghost use Rattle.std.specs.Option.{option_map};
ghost use Rattle.quarter.specs.Commands.{client_of, command_of};
ghost use Rattle.quarter.specs.Lines.{absent, act_of, entry_read, line_read};
ghost use Rattle.quarter.specs.Numbers.{decimal, field_read};
ghost use Rattle.quarter.specs.Texts.{fault_text};
ghost use Rattle.quarter.specs.Words.{IsSplit, after_word, blank, first_word, uncommented};

mod settle;

use service::{Act, Command};
pub use settle::{Quarter, Unread};
use std::fmt;

/// One command of a quarter.
#[derive(Clone, Copy, PartialEq, Eq, Debug)]
pub enum Entry {
    Buy { product: u8, amount: u32 },
    Take { client: u16, product: u8 },
    Return { client: u16, product: u8 },
}

/// Why a line is no entry. Fields are the words after the first, counted from 1.
#[derive(Clone, Copy, PartialEq, Eq, Debug)]
pub enum Fault {
    UnknownWord,
    MissingField(u8),
    ExtraField,
    NotANumber(u8),
    OutOfRange(u8),
}

impl Entry {
    /// Who asks; client 0 does the buying.
    pub fn client(&self) -> u16
        ensures { result ≡ client_of self.now }
    {
        match *self {
            Entry::Buy { .. } => 0,
            Entry::Take { client, .. } | Entry::Return { client, .. } => client,
        }
    }

    /// The ten bytes that the service runs. A method beside `client` and no conversion, since a step takes the two.
    pub fn command(&self) -> Command
        ensures { result ≡ command_of self.now }
    {
        let (act, product, amount) = match *self {
            Entry::Buy { product, amount } => (Act::Buy, product, amount),
            Entry::Take { product, .. } => (Act::Take, product, 0),
            Entry::Return { product, .. } => (Act::Return, product, 0),
        };
        let [a, b, c, d] = amount.to_be_bytes();
        [act.number(), product, a, b, c, d, 0, 0, 0, 0]
    }

    /// The entry that an act and its two fields make.
    fn read(act: Act, first: &[u8], second: &[u8]) -> Result<Entry, Fault>
        ensures { result ≡ entry_read act first.now second.now }
    {
        match act {
            Act::Buy => {
                let product = field(first, 1, 255)? as u8;
                let amount = field(second, 2, u32::MAX)?;
                Ok(Entry::Buy { product, amount })
            }
            Act::Take | Act::Return => {
                let client = field(first, 1, 63)? as u16;
                let product = field(second, 2, 255)? as u8;
                if act == Act::Take {
                    Ok(Entry::Take { client, product })
                } else {
                    Ok(Entry::Return { client, product })
                }
            }
        }
    }
}

impl fmt::Display for Fault {
    ghost output = { λ fault. Some (fault_text fault) };

    fn fmt<W: fmt::Write>(&self, f: &mut fmt::Formatter<W>) -> fmt::Result {
        match *self {
            Fault::UnknownWord => write!(f, "unknown word"),
            Fault::MissingField(k) => write!(f, "field {k} is missing"),
            Fault::ExtraField => write!(f, "more than three words"),
            Fault::NotANumber(k) => write!(f, "field {k} is not a number"),
            Fault::OutOfRange(k) => write!(f, "field {k} is out of range"),
        }
    }
}

/// Reads one line, without its newline; a line with no word gives nothing.
pub fn read_line(line: &[u8]) -> Result<Option<Entry>, Fault>
    ensures { result ≡ line_read line.now }
{
    let Some((name, rest)) = next_word(without_comment(line)) else {
        return Ok(None);
    };
    let act = act_named(name).ok_or(Fault::UnknownWord)?;
    let (first, rest) = next_word(rest).ok_or(Fault::MissingField(1))?;
    let (second, rest) = next_word(rest).ok_or(Fault::MissingField(2))?;
    if next_word(rest).is_some() {
        return Err(Fault::ExtraField);
    }
    Ok(Some(Entry::read(act, first, second)?))
}

/// The act that the first word of a line names. No `TryFrom`, which would have to stand beside the act's type.
fn act_named(word: &[u8]) -> Option<Act>
    ensures { result ≡ act_of word.now }
{
    match word {
        b"buy" => Some(Act::Buy),
        b"take" => Some(Act::Take),
        b"return" => Some(Act::Return),
        _ => None,
    }
}

/// What stands before the comment.
fn without_comment(line: &[u8]) -> &[u8]
    ensures { result.now ≡ uncommented line.now }
{
    split_front(line, |b| b != b'#').0
}

/// The first word of a text and what follows it, where a word is left.
fn next_word(text: &[u8]) -> Option<(&[u8], &[u8])>
    ensures found { is_some result ≡ not (absent (first_word text.now)) }
    ensures parts { IfSome result (λ parts. (parts.0.now ≡ first_word text.now) × (parts.1.now ≡ after_word text.now)) }
{
    let (_, text) = split_front(text, is_blank);
    let (word, rest) = split_front(text, |b| !is_blank(b));
    if word.is_empty() {
        None
    } else {
        Some((word, rest))
    }
}

fn is_blank(byte: u8) -> bool
    ensures { result ≡ blank byte }
{
    matches!(byte, b' ' | b'\t' | b'\r')
}

/// The longest front of a text whose bytes all pass a test, and what follows it.
fn split_front<F: Fn(u8) -> bool>(text: &[u8], passes: F) -> (&[u8], &[u8])
    requires { F.IsAlwaysCallable passes }
    ensures { (test : ℕ → Bool) → ((b : ℕ) (r : Bool) → F.post passes b r → r ≡ test b) → IsSplit test text.now result.0.now result.1.now }
{
    let n = text.iter().take_while(|b| passes(**b)).count();
    text.split_at(n)
}

/// Reads field `k`, a number of at most `most`.
// Not generic over the number's type: a contract could name that number only by a trait of ours, and callers' casts are
// proved exact.
fn field(word: &[u8], k: u8, most: u32) -> Result<u32, Fault>
    ensures value { result ≡ field_read most k word.now }
    ensures bound { IfOk result (λ n. n ≤ most) }
{
    match number(word) {
        None => Err(Fault::NotANumber(k)),
        Some(n) if n > u64::from(most) => Err(Fault::OutOfRange(k)),
        Some(n) => Ok(n as u32),
    }
}

/// The number that a word writes. It is held at 2^32, above every limit, so that long words do not overflow; `parse`
/// would take a sign, and refuse such a word as no number.
fn number(word: &[u8]) -> Option<u64>
    ensures { result ≡ option_map (λ n. min n 4294967296) (decimal word.now) }
{
    if word.is_empty() {
        return None;
    }
    let mut n = 0u64;
    for b in word {
        let digit = char::from(*b).to_digit(10)?;
        n = (n * 10 + u64::from(digit)).min(4294967296);
    }
    Some(n)
}

#[cfg(test)]
mod tests {
    use super::*;
    use std::process::Abort;
    use std::test::Fail;

    fn reads(rt: &impl Abort, line: &[u8], entry: Entry) {
        assert_eq!(rt; read_line(line), Ok(Some(entry)));
    }

    fn fails(rt: &impl Abort, line: &[u8], fault: Fault) {
        assert_eq!(rt; read_line(line), Err(fault));
    }

    #[test]
    fn entries(rt: HostRuntime) {
        let (client, product, amount) = (63, 255, 4294967295);
        reads(
            &rt,
            b"buy 255 4294967295 # most",
            Entry::Buy { product, amount },
        );
        reads(&rt, b" take\t63 00255\r", Entry::Take { client, product });
        reads(&rt, b"return 63 255#6", Entry::Return { client, product });
        assert_eq!(rt; read_line(b" \t\r# take 1 2"), Ok(None));
    }

    #[test]
    fn faults(rt: HostRuntime) {
        fails(&rt, b"Buy 1 2", Fault::UnknownWord);
        fails(&rt, b"take # 1 2", Fault::MissingField(1));
        fails(&rt, b"take x", Fault::MissingField(2));
        fails(&rt, b"buy x 2 3", Fault::ExtraField);
        fails(&rt, b"take +1 64", Fault::NotANumber(1));
        fails(&rt, b"return 1 99999999999x", Fault::NotANumber(2));
    }

    #[test]
    fn limits(rt: HostRuntime) {
        fails(&rt, b"take 64 x", Fault::OutOfRange(1));
        fails(&rt, b"return 0 256", Fault::OutOfRange(2));
        fails(&rt, b"buy 256 1", Fault::OutOfRange(1));
        fails(&rt, b"buy 1 4294967296", Fault::OutOfRange(2));
    }

    #[test]
    fn texts(rt: HostRuntime) -> Result<(), Fail> {
        let (product, amount) = (10, 0x1ff);
        assert_eq!(rt;
            Entry::Buy { product, amount }.command(),
            [Act::Buy as u8, 10, 0, 0, 1, 0xff, 0, 0, 0, 0]
        );
        let text = Fault::OutOfRange(2).to_string(rt.alloc())?;
        assert_eq!(rt; text.as_str(), "field 2 is out of range");
        Ok(())
    }

    #[test]
    fn settling(rt: HostRuntime) -> Result<(), Fail> {
        let mut input: &[u8] = b"buy 7 1\ntake 5 7\ntake 6 7\nsell\n";
        let quarter = Quarter::settle_from(rt.alloc(), &mut input)?;
        assert_eq!(rt; quarter.lines, 4);
        assert_eq!(rt; quarter.granted, 2);
        assert_eq!(rt; quarter.refused, 1);
        assert_eq!(rt; quarter.unread.len(), 1);
        Ok(())
    }
}
