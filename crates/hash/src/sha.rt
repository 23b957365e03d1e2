// SHA-256 of a message that comes in one part or in several.
ghost use Rattle.std.specs.Prelude.{◌≡◌, ℕ, ◌+◌, ◌-◌, ◌*◌, ◌/◌, ◌%◌, ◌<◌, ◌≤◌, List, [], ◌∷◌, ◌++◌, length, take, drop, replicate};
ghost use Rattle.hash.specs.Constants.{initial};
ghost use Rattle.hash.specs.Digest.{padding, after_all, sha256, resumed};
ghost use Rattle.hash.specs.Taken.{Took, GoesOn};

use crate::block::{Block, HashBytes, Words, bytes_of, compress, first_value};

// The hash value after the whole blocks of some bytes, read where they lie, and what is left of them.
fn absorb(start: Words, bytes: &[u8]) -> (Words, &[u8])
    ensures value { result.0 ≡ after_all start bytes.now }
    ensures rest { result.1.now ≡ drop (64 * (length bytes.now / 64)) bytes.now }
{
    let mut s = start;
    let (blocks, rest) = bytes.as_chunks();
    for block in blocks {
        s = compress(s, block);
    }
    (s, rest)
}

// The hash value after the blocks that end a message: its last bytes, the one bit, zeros, and its length in bits. They
// are laid out and hashed in one place, so that the last bytes are copied once.
fn after_end<const N: usize>(state: Words, tail: &[u8], bits: &[u8; 8]) -> Words
    requires fits { length tail.now + 9 ≤ N }
    requires few { N ≤ 128 }
    ensures { result ≡ after_all state (tail.now ++ (128 ∷ (replicate (N - (length tail.now + 9)) 0 ++ bits.now))) }
{
    let mut blocks = [0; N];
    let end = &mut blocks[..];
    let n = tail.len();
    end[..n].copy_from_slice(tail);
    end[n] = 128;
    end[N - 8..].copy_from_slice(bits);
    absorb(state, &blocks).0
}

// The hash value after the last bytes of a message and its padding; `len` is the message's length.
fn close(state: Words, tail: &[u8], len: u64) -> Words
    requires { length tail.now ≡ len % 64 }
    ensures { result ≡ after_all state (tail.now ++ padding len) }
{
    let bits = len.wrapping_mul(8).to_be_bytes();
    if tail.len() < 56 {
        after_end::<64>(state, tail, &bits)
    } else {
        after_end::<128>(state, tail, &bits)
    }
}

// The hash of a message from its rest in one piece, where the bytes before it, whole blocks, gave a hash value.
pub(crate) fn hash_from(state: Words, before: u64, rest: &[u8]) -> HashBytes
    requires { before % 64 ≡ 0 }
    ensures rest { result ≡ resumed state before rest.now }
    ensures whole { state ≡ initial → before ≡ 0 → result ≡ sha256 rest.now }
{
    let (value, tail) = absorb(state, rest);
    bytes_of(close(value, tail, before.wrapping_add(rest.len() as u64)))
}

// SHA-256 of bytes that come part by part. Only an unfinished block is copied. What was taken is no function of the
// fields, so contracts say how a hasher goes on, and no field or model can.
#[derive(Clone, Copy)]
pub struct Hasher {
    state: Words,
    // the unfinished block, in place, since nothing is allocated here; its length follows from `len`
    tail: Block,
    len: u64,
}

impl Hasher {
    pub fn new() -> Hasher
        ensures { Took initial 0 result [] }
    {
        Hasher {
            state: first_value(),
            tail: [0; 64],
            len: 0,
        }
    }

    // Brings an unfinished block forward, and gives the bytes that are left.
    fn fill<'a>(&mut self, bytes: &'a [u8]) -> &'a [u8]
        ensures within { length result.now ≤ length bytes.now }
        ensures left { result.now ≡ drop (length bytes.now - length result.now) bytes.now }
        ensures even { 0 < length result.now → self.new.len % 64 ≡ 0 }
        ensures takes { GoesOn self.old (take (length bytes.now - length result.now) bytes.now) self.new }
    {
        let have = (self.len % 64) as usize;
        if have == 0 {
            return bytes;
        }
        let room = 64 - have;
        let n = bytes.len();
        if n < room {
            self.tail[have..have + n].copy_from_slice(bytes);
            self.len = self.len.wrapping_add(n as u64);
            return &[];
        }
        let (front, rest) = bytes.split_at(room);
        self.tail[have..].copy_from_slice(front);
        self.state = compress(self.state, &self.tail);
        self.len = self.len.wrapping_add(room as u64);
        rest
    }

    // Takes bytes at the start of a block.
    fn take_blocks(&mut self, bytes: &[u8])
        requires { self.old.len % 64 ≡ 0 }
        ensures { GoesOn self.old bytes.now self.new }
    {
        let (state, rest) = absorb(self.state, bytes);
        self.state = state;
        self.tail[..rest.len()].copy_from_slice(rest);
        self.len = self.len.wrapping_add(bytes.len() as u64);
    }

    // Takes the next part of the message.
    pub fn update(&mut self, bytes: &[u8])
        ensures { GoesOn self.old bytes.now self.new }
    {
        let rest = self.fill(bytes);
        if !rest.is_empty() {
            self.take_blocks(rest);
        }
    }

    // The hash value after the unfinished block and the padding.
    fn last_value(&self) -> Words
        ensures { result ≡ after_all self.now.state (take (self.now.len % 64) self.now.tail ++ padding self.now.len) }
    {
        let have = (self.len % 64) as usize;
        close(self.state, &self.tail[0..have], self.len)
    }

    // The hash of all that was taken.
    pub fn finish(self) -> HashBytes
        ensures { (m : List ℕ) → Took initial 0 self m → result ≡ sha256 m }
    {
        bytes_of(self.last_value())
    }
}

// SHA-256 of a message in one piece.
pub fn sha256(message: &[u8]) -> HashBytes
    ensures { result ≡ sha256 message.now }
{
    hash_from(first_value(), 0, message)
}
