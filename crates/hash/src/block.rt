// One block of SHA-256: its schedule and its 64 rounds.
ghost use Rattle.std.specs.Prelude.{◌≡◌, ℕ, ◌+◌, ◌-◌, ◌<◌, ◌≤◌, List, length, take};
ghost use Rattle.hash.specs.Compression.{words, word_from, schedule, round, rounds, added, compressed};
ghost use Rattle.hash.specs.Constants.{initial};
ghost use Rattle.hash.specs.Digest.{bytes_of as digest_bytes};
ghost use Rattle.hash.specs.Words.{ch as chosen, maj as most, rotations, rotations_and_shift};

use std::ops::Add;

const K: [u32; 64] = [
    0x428a2f98, 0x71374491, 0xb5c0fbcf, 0xe9b5dba5, 0x3956c25b, 0x59f111f1, 0x923f82a4, 0xab1c5ed5,
    0xd807aa98, 0x12835b01, 0x243185be, 0x550c7dc3, 0x72be5d74, 0x80deb1fe, 0x9bdc06a7, 0xc19bf174,
    0xe49b69c1, 0xefbe4786, 0x0fc19dc6, 0x240ca1cc, 0x2de92c6f, 0x4a7484aa, 0x5cb0a9dc, 0x76f988da,
    0x983e5152, 0xa831c66d, 0xb00327c8, 0xbf597fc7, 0xc6e00bf3, 0xd5a79147, 0x06ca6351, 0x14292967,
    0x27b70a85, 0x2e1b2138, 0x4d2c6dfc, 0x53380d13, 0x650a7354, 0x766a0abb, 0x81c2c92e, 0x92722c85,
    0xa2bfe8a1, 0xa81a664b, 0xc24b8b70, 0xc76c51a3, 0xd192e819, 0xd6990624, 0xf40e3585, 0x106aa070,
    0x19a4c116, 0x1e376c08, 0x2748774c, 0x34b0bcb5, 0x391c0cb3, 0x4ed8aa4a, 0x5b9cca4f, 0x682e6ff3,
    0x748f82ee, 0x78a5636f, 0x84c87814, 0x8cc70208, 0x90befffa, 0xa4506ceb, 0xbef9a3f7, 0xc67178f2,
];

// The bytes of a hash or a tag.
pub type HashBytes = [u8; 32];

// The bytes that are hashed at once.
pub(crate) type Block = [u8; 64];

// Eight words: a hash value, or the working variables of the rounds.
#[repr(C)]
#[derive(Clone, Copy)]
pub struct Words {
    a: u32,
    b: u32,
    c: u32,
    d: u32,
    e: u32,
    f: u32,
    g: u32,
    h: u32,
}

// With one operation less than the standard writes it, and no complement.
fn ch(x: u32, y: u32, z: u32) -> u32
    ensures { result ≡ chosen x y z }
{
    z ^ (x & (y ^ z))
}

fn maj(x: u32, y: u32, z: u32) -> u32
    ensures { result ≡ most x y z }
{
    (x & y) ^ (x & z) ^ (y & z)
}

// Three rotations of a word, mixed.
fn big_sigma<const A: u32, const B: u32, const C: u32>(x: u32) -> u32
    requires { (0 < A) × (A < 32) × (0 < B) × (B < 32) × (0 < C) × (C < 32) }
    ensures { result ≡ rotations A B C x }
{
    x.rotate_right(A) ^ x.rotate_right(B) ^ x.rotate_right(C)
}

// Two rotations of a word and a shift, mixed.
fn small_sigma<const A: u32, const B: u32, const C: u32>(x: u32) -> u32
    requires { (0 < A) × (A < 32) × (0 < B) × (B < 32) × (C < 32) }
    ensures { result ≡ rotations_and_shift A B C x }
{
    x.rotate_right(A) ^ x.rotate_right(B) ^ (x >> C)
}

impl Words {
    // One round.
    fn round(self, k: u32, w: u32) -> Words
        ensures { result ≡ round self k w }
    {
        let t1 = self
            .h
            .wrapping_add(big_sigma::<6, 11, 25>(self.e))
            .wrapping_add(ch(self.e, self.f, self.g))
            .wrapping_add(k)
            .wrapping_add(w);
        let t2 = big_sigma::<2, 13, 22>(self.a).wrapping_add(maj(self.a, self.b, self.c));
        Words {
            a: t1.wrapping_add(t2),
            b: self.a,
            c: self.b,
            d: self.c,
            e: self.d.wrapping_add(t1),
            f: self.e,
            g: self.f,
            h: self.g,
        }
    }

    // Eight rounds, from the round i on. As many are unrolled, and then no word moves from one variable to the next.
    // The schedule is handed over with the place, since the promise names the round, and the constants go by it.
    fn eight_rounds(self, ws: &[u32; 64], i: usize) -> Words
        requires { i + 8 ≤ 64 }
        ensures { (all : List ℕ) (start : Words) → take (i + 8) ws.now ≡ take (i + 8) all → self ≡ rounds all start i → result ≡ rounds all start (i + 8) }
    {
        let mut s = self;
        for (k, w) in K[i..i + 8].iter().zip(&ws[i..i + 8]) {
            s = s.round(*k, *w);
        }
        s
    }
}

// Word by word.
impl Add for Words {
    type Output = Words;

    ghost add_gives = { λ s t r. r ≡ added s t };

    fn add(self, other: Words) -> Words {
        Words {
            a: self.a.wrapping_add(other.a),
            b: self.b.wrapping_add(other.b),
            c: self.c.wrapping_add(other.c),
            d: self.d.wrapping_add(other.d),
            e: self.e.wrapping_add(other.e),
            f: self.f.wrapping_add(other.f),
            g: self.g.wrapping_add(other.g),
            h: self.h.wrapping_add(other.h),
        }
    }
}

// The words of a block, at the front of a schedule.
fn load(block: &Block, ws: &mut [u32; 64])
    ensures { take 16 ws.new ≡ words block.now 16 }
{
    let (fours, _) = block.as_chunks();
    // By index on one side: a zip with `iter_mut` was tried, and what the schedule ends as stayed unproved.
    for (i, four) in fours.iter().enumerate() {
        ws[i] = u32::from_be_bytes(*four);
    }
}

// A word of a schedule from those that stand 2, 7, 15 and 16 places before it.
fn word_from(w2: u32, w7: u32, w15: u32, w16: u32) -> u32
    ensures { result ≡ word_from w2 w7 w15 w16 }
{
    small_sigma::<17, 19, 10>(w2)
        .wrapping_add(w7)
        .wrapping_add(small_sigma::<7, 18, 3>(w15))
        .wrapping_add(w16)
}

// Eight words more of a schedule that stands so far.
fn extend(ws: &mut [u32; 64], from: usize)
    requires { (16 ≤ from) × (from + 8 ≤ 64) }
    ensures { (first : List ℕ) → take from ws.old ≡ schedule first (from - 16) → take (from + 8) ws.new ≡ schedule first (from - 8) }
{
    // By index, since each word is made from earlier ones of the same array.
    for i in from..from + 8 {
        ws[i] = word_from(ws[i - 2], ws[i - 7], ws[i - 15], ws[i - 16]);
    }
}

// All rounds over a block's sixteen words. The schedule is made between the rounds, so that the two overlap:
// one loop over the whole schedule is plainer, and takes a fifth more time.
fn all_rounds(start: Words, ws: &mut [u32; 64]) -> Words
    ensures { result ≡ rounds (schedule (take 16 ws.old) 48) start 64 }
{
    let mut s = start;
    for j in 0..6 {
        s = s.eight_rounds(ws, 8 * j);
        extend(ws, 8 * j + 16);
    }
    let t = s.eight_rounds(ws, 48);
    t.eight_rounds(ws, 56)
}

// The hash value after one more block.
pub(crate) fn compress(start: Words, block: &Block) -> Words
    ensures { result ≡ compressed start block.now }
{
    let mut ws = [0u32; 64];
    load(block, &mut ws);
    start + all_rounds(start, &mut ws)
}

// The 32 bytes of a hash value.
pub(crate) fn bytes_of(s: Words) -> HashBytes
    ensures { result ≡ digest_bytes s }
{
    let words = [s.a, s.b, s.c, s.d, s.e, s.f, s.g, s.h];
    *words
        .map(u32::to_be_bytes)
        .as_flattened()
        .as_array()
        .unwrap()
}

// The hash value before the first block.
pub(crate) fn first_value() -> Words
    ensures { result ≡ initial }
{
    Words {
        a: 0x6a09e667,
        b: 0xbb67ae85,
        c: 0x3c6ef372,
        d: 0xa54ff53a,
        e: 0x510e527f,
        f: 0x9b05688c,
        g: 0x1f83d9ab,
        h: 0x5be0cd19,
    }
}
