// HMAC-SHA-256, with what depends on the key alone computed once.
ghost use Rattle.std.specs.Prelude.{◌≡◌, ◌≤◌, length, replicate};
ghost use Rattle.hash.specs.Compression.{compressed};
ghost use Rattle.hash.specs.Constants.{initial};
ghost use Rattle.hash.specs.Digest.{resumed};
ghost use Rattle.hash.specs.Hmac.{filled, block_key, mixed, hmac, kept, tag_under, TagsAsKey};

use crate::block::{Block, HashBytes, Words, compress, first_value};
use crate::sha::{hash_from, sha256};

// Writes bytes over the front of a block of zeros.
fn put(out: &mut [u8], bytes: &[u8])
    requires out_value { out.old ≡ replicate 64 0 }
    requires bytes_len_bound { length bytes.now ≤ 64 }
    ensures { out.new ≡ filled bytes.now }
{
    let n = bytes.len();
    out[0..n].copy_from_slice(bytes);
}

// The key as one block.
fn key_block(key: &[u8]) -> Block
    ensures { result ≡ block_key key.now }
{
    let mut out = [0u8; 64];
    if key.len() <= 64 {
        put(&mut out, key);
    } else {
        let d = sha256(key);
        put(&mut out, &d);
    }
    out
}

// Each byte of a block, mixed with one byte.
fn mix(block: &Block, b: u8) -> Block
    ensures { result ≡ mixed block.now b }
{
    let mut out = *block;
    for byte in out.iter_mut() {
        *byte ^= b;
    }
    out
}

// The hash value after a block mixed with a byte.
fn after_mixed(block: &Block, b: u8) -> Words
    ensures { result ≡ compressed initial (mixed block.now b) }
{
    compress(first_value(), &mix(block, b))
}

// The hash of a block and a text, where the block gave a hash value.
fn after_block(value: Words, text: &[u8]) -> HashBytes
    ensures { result ≡ resumed value 64 text.now }
{
    hash_from(value, 64, text)
}

// A key whose two first blocks are hashed: a tag of up to 55 bytes costs two blocks more.
#[repr(C)]
#[derive(Clone, Copy)]
pub struct MacKey {
    inner: Words,
    outer: Words,
}

impl MacKey {
    pub fn new(key: &[u8]) -> MacKey
        ensures { result ≡ kept key.now }
    {
        let block = key_block(key);
        MacKey {
            inner: after_mixed(&block, 0x36),
            outer: after_mixed(&block, 0x5c),
        }
    }

    // The tag of a text.
    pub fn tag(&self, text: &[u8]) -> HashBytes
        ensures value { result ≡ tag_under self.now text.now }
        ensures tags_as_key { TagsAsKey }
    {
        after_block(self.outer, &after_block(self.inner, text))
    }
}

// HMAC-SHA-256 under a key of any length.
pub fn hmac(key: &[u8], text: &[u8]) -> HashBytes
    ensures { result ≡ hmac key.now text.now }
{
    MacKey::new(key).tag(text)
}
