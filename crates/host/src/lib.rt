// What a host written in C calls: numbers and byte buffers in, numbers out.
#![tactic(auto)]

ghost use Rattle.std.specs.Prelude.{◌≡◌, length, ◌==◌};
ghost use Rattle.hash.specs.Digest.{sha256 as hash_of};
ghost use Rattle.hash.specs.Hmac.{hmac as mac_of, kept, tag_under};
ghost use Rattle.host.specs.Answers.{group_check, host_check, answer_of};
ghost use Rattle.wire.specs.Forms.{filled};

use device::{GroupKey, KeyBytes, check_record};
use hash::{HashBytes, MacKey, hmac, sha256};
use wire::{Buffer, Message, RECORD_LEN, Refusal, is_member};

// The number of the question that was answered with no, its layer and its place; all 0 where none was. C takes it as
// three numbers.
#[repr(C)]
#[derive(Clone, Copy, PartialEq, Eq, Debug)]
pub struct Answer {
    pub number: u32,
    pub layer: u32,
    pub place: u32,
}

// Checks at a device. Size, owner and buffers stand apart here and below, as C hands them over.
fn check_at(
    size: u8,
    owner: u8,
    key: &KeyBytes,
    record: &[u8],
    tag: &[u8],
) -> Result<Message, Refusal>
    ensures { result ≡ group_check size owner key.now «record».now tag.now }
{
    // It only checks, so it needs no count.
    let device = GroupKey::new(size, owner, key, 0);
    check_record(&device, size, record, tag)
}

fn check(size: u32, owner: u32, key: &[u8], record: &[u8], tag: &[u8]) -> Result<Message, Refusal>
    ensures { result ≡ host_check size owner key.now «record».now tag.now }
{
    if !is_member(size, owner) {
        return Err(Refusal::NotInGroup { replica: owner });
    }
    Buffer::Record.fits(record, RECORD_LEN)?;
    Buffer::Tag.fits(tag, 32)?;
    Buffer::Key.fits(key, 32)?;
    let key: &KeyBytes = key.as_array().unwrap();
    check_at(size as u8, owner as u8, key, record, tag)
}

impl From<Result<Message, Refusal>> for Answer {
    ghost from_gives = { λ checked answer. answer ≡ answer_of checked };

    fn from(checked: Result<Message, Refusal>) -> Answer {
        match checked {
            Ok(_) => Answer {
                number: 0,
                layer: 0,
                place: 0,
            },
            Err(refusal) => Answer {
                number: refusal.number(),
                layer: refusal.layer().number(),
                place: refusal.place(),
            },
        }
    }
}

// Checks a record and its tag at the group-key device of a size, owner and key.
#[unsafe(no_mangle)]
pub extern "C" fn ruddelfo_check(
    size: u32,
    owner: u32,
    key: &[u8],
    record: &[u8],
    tag: &[u8],
) -> Answer
    ensures { result ≡ answer_of (host_check size owner key.now «record».now tag.now) }
{
    Answer::from(check(size, owner, key, record, tag))
}

// Writes a hash into a buffer of 32 bytes; a buffer of another length stays as it is. C is told by a `bool`.
fn put(hash: &HashBytes, out: &mut [u8]) -> bool
    ensures value { result ≡ (length out.old == 32) }
    ensures bytes { out.new ≡ filled 32 hash.now out.old }
{
    if out.len() != 32 {
        return false;
    }
    out.copy_from_slice(hash);
    true
}

// SHA-256 of bytes. The three hashes are a function each, since C calls them by name.
#[unsafe(no_mangle)]
pub extern "C" fn ruddelfo_sha256(bytes: &[u8], out: &mut [u8]) -> bool
    ensures value { result ≡ (length out.old == 32) }
    ensures bytes { out.new ≡ filled 32 (hash_of bytes.now) out.old }
{
    put(&sha256(bytes), out)
}

// HMAC-SHA-256 of bytes under a key of any length.
#[unsafe(no_mangle)]
pub extern "C" fn ruddelfo_hmac(key: &[u8], bytes: &[u8], out: &mut [u8]) -> bool
    ensures value { result ≡ (length out.old == 32) }
    ensures bytes { out.new ≡ filled 32 (mac_of key.now bytes.now) out.old }
{
    put(&hmac(key, bytes), out)
}

// A key whose first blocks are hashed, to be kept by the host.
#[unsafe(no_mangle)]
pub extern "C" fn ruddelfo_keep_key(key: &[u8]) -> MacKey
    ensures { result ≡ kept key.now }
{
    MacKey::new(key)
}

// HMAC-SHA-256 of bytes under a kept key.
#[unsafe(no_mangle)]
pub extern "C" fn ruddelfo_kept_hmac(key: &MacKey, bytes: &[u8], out: &mut [u8]) -> bool
    ensures value { result ≡ (length out.old == 32) }
    ensures bytes { out.new ≡ filled 32 (tag_under key.now bytes.now) out.old }
{
    put(&key.tag(bytes), out)
}
