// Reading records and requests: what bytes say, and whether they have the right form.
ghost use Rattle.std.specs.Prelude.{◌≡◌, ◌+◌, ◌*◌, ◌<◌, ◌≤◌, true, false, Some, MatchResult, length, take, drop, slice_index};
ghost use Rattle.hash.specs.Bytes.{number_at};
ghost use Rattle.wire.specs.Forms.{request_fault, pairs_fault, body_fault, named_end, unnamed_fault, record_fault, unless_fault, body_at, message_at, parse, parse_request};
ghost use Rattle.wire.specs.Laws.{ReadIsWritten, ReadRequestIsWritten};
ghost use Rattle.wire.specs.Messages.{number_of_kind, request_at, digest_at, vouch_at, pair_at};
ghost use Rattle.wire.specs.declared.refusal.Refusal.TheVariants.{BadForm};

use crate::group::{is_member, quorum_of};
use crate::message::{
    Body, Checkpoint, Digest, Kind, Message, Pair, RECORD_LEN, REQUEST_LEN, RecordBytes, Request,
    Vouch,
};
use crate::refusal::{Buffer, Refusal};
use hash::HashBytes;
use std::array;

// The bytes that begin at a place: each field has a fixed one.
fn bytes_at<const N: usize>(bytes: &[u8], at: usize) -> [u8; N]
    requires { at + N ≤ length bytes.now }
    ensures value { result ≡ take N (drop at bytes.now) }
    ensures number { number_at N result 0 ≡ number_at N bytes.now at }
{
    *bytes[at..].first_chunk().unwrap()
}

fn request_of(bytes: &[u8; REQUEST_LEN]) -> Request
    ensures { result ≡ request_at bytes.now 0 }
{
    Request {
        client: u16::from_be_bytes(bytes_at(bytes, 0)),
        number: u32::from_be_bytes(bytes_at(bytes, 2)),
        command: bytes_at(bytes, 6),
    }
}

pub(crate) fn digest_of(bytes: &HashBytes) -> Digest
    ensures { result ≡ digest_at bytes.now 0 }
{
    Digest {
        first: u64::from_be_bytes(bytes_at(bytes, 0)),
        second: u64::from_be_bytes(bytes_at(bytes, 8)),
        third: u64::from_be_bytes(bytes_at(bytes, 16)),
        fourth: u64::from_be_bytes(bytes_at(bytes, 24)),
    }
}

fn vouch_of(bytes: &[u8; 8]) -> Vouch
    ensures { result ≡ vouch_at bytes.now 0 }
{
    Vouch {
        view: u32::from_be_bytes(bytes_at(bytes, 0)),
        length: u32::from_be_bytes(bytes_at(bytes, 4)),
    }
}

fn pair_of(bytes: &[u8; 5]) -> Pair
    ensures { result ≡ pair_at bytes.now 0 }
{
    Pair {
        replica: bytes[0],
        count: u32::from_be_bytes(bytes_at(bytes, 1)),
    }
}

#[tactic(auto, using(crate::proofs::Parts::request_part, crate::proofs::Parts::digest_part, crate::proofs::Parts::pair_part))]
fn body_at(kind: Kind, record: &RecordBytes) -> Body
    requires { slice_index «record».now 0 ≡ number_of_kind kind }
    ensures { Some result ≡ body_at «record».now }
{
    match kind {
        Kind::Prepare => Body::Prepare {
            view: u32::from_be_bytes(bytes_at(record, 8)),
            request: request_of(&bytes_at(record, 12)),
        },
        Kind::Commit => Body::Commit {
            vouch: vouch_of(&bytes_at(record, 8)),
        },
        Kind::Checkpoint => Body::Checkpoint {
            checkpoint: Checkpoint {
                position: u32::from_be_bytes(bytes_at(record, 8)),
                digest: digest_of(&bytes_at(record, 12)),
            },
        },
        Kind::ViewChange => Body::ViewChange {
            view: u32::from_be_bytes(bytes_at(record, 8)),
            vouch: vouch_of(&bytes_at(record, 12)),
        },
        Kind::NewView => Body::NewView {
            view: u32::from_be_bytes(bytes_at(record, 8)),
            pairs: array::from_fn(
                |i: usize| -> Pair
                    requires { i < 4 }
                    ensures { result ≡ pair_at «record».entry.now (12 + 5 * i) }
                { pair_of(&bytes_at(record, 12 + 5 * i)) },
            ),
        },
    }
}

// What a record of a kind says.
fn message_at(kind: Kind, record: &RecordBytes) -> Message
    requires { slice_index «record».now 0 ≡ number_of_kind kind }
    ensures body { Some result.body ≡ body_at «record».now }
    ensures fields { result ≡ message_at «record».now result.body }
{
    Message {
        sender: record[1],
        count: u32::from_be_bytes(bytes_at(record, 4)),
        body: body_at(kind, record),
    }
}

// A field that begins at a byte is good, or refused at that byte.
fn field(byte: u8, good: bool) -> Result<(), Refusal>
    ensures { MatchResult result (λ _. good ≡ true) (λ e. (good ≡ false) × (e ≡ BadForm byte)) }
{
    if good {
        Ok(())
    } else {
        Err(Refusal::BadForm { byte })
    }
}

// The fields of a request that begins at a place.
fn check_request(at: u8, request: &Request) -> Result<(), Refusal>
    requires { at < 32 }
    ensures { result ≡ unless_fault (request_fault at request.now) tt }
{
    field(at, request.client < 64)?;
    field(at + 2, request.number > 0)
}

// The fields of pairs that begin at byte 12: replicas are members, and each is above the one before.
fn check_pairs(size: u8, pairs: &[Pair]) -> Result<(), Refusal>
    requires { length pairs.now ≤ 4 }
    ensures { result ≡ unless_fault (pairs_fault size 12 0 pairs.now) tt }
{
    let mut least = 0;
    for (i, pair) in pairs.iter().enumerate() {
        let at = 12 + 5 * i as u8;
        let replica = u32::from(pair.replica);
        field(at, least <= replica && is_member(u32::from(size), replica))?;
        field(at + 1, pair.count > 0)?;
        least = replica + 1;
    }
    Ok(())
}

// The fields of a body.
fn check_body(size: u8, body: &Body) -> Result<(), Refusal>
    ensures { result ≡ unless_fault (body_fault size body.now) tt }
{
    match body {
        Body::Prepare { view: _, request } => check_request(12, request),
        Body::Checkpoint { checkpoint } => field(
            8,
            checkpoint.position >= 16 && checkpoint.position % 16 == 0,
        ),
        Body::NewView { view: _, pairs } => check_pairs(
            size,
            &pairs[..usize::from(quorum_of(size))],
        ),
        Body::Commit { .. } | Body::ViewChange { .. } => Ok(()),
    }
}

// Where the bytes begin that no field of a body has.
fn named_end(size: u8, body: &Body) -> usize
    ensures { result ≡ named_end size body.now }
{
    match body {
        Body::Prepare { .. } => 28,
        Body::Commit { .. } => 16,
        Body::Checkpoint { .. } => 44,
        Body::ViewChange { .. } => 20,
        Body::NewView { .. } => 12 + 5 * usize::from(quorum_of(size)),
    }
}

// The bytes from a place on, each a field of its own, are zero.
fn check_unnamed(from: usize, bytes: &[u8]) -> Result<(), Refusal>
    requires { from + length bytes.now ≤ 48 }
    ensures { result ≡ unless_fault (unnamed_fault from bytes.now) tt }
{
    match bytes.iter().position(|byte| *byte != 0) {
        None => Ok(()),
        Some(i) => Err(Refusal::BadForm {
            byte: (from + i) as u8,
        }),
    }
}

// The fields of a record of a known kind, and the bytes that no field has.
fn check_form(size: u8, record: &RecordBytes, message: &Message) -> Result<(), Refusal>
    ensures { result ≡ unless_fault (record_fault size «record».now message.now) tt }
{
    field(1, is_member(u32::from(size), u32::from(message.sender)))?;
    field(2, record[2] == 0)?;
    field(3, record[3] == 0)?;
    field(4, message.count > 0)?;
    check_body(size, &message.body)?;
    let end = named_end(size, &message.body);
    check_unnamed(end, &record[end..])
}

// Reads a record in a group of a size.
pub fn read(size: u8, record: &[u8]) -> Result<Message, Refusal>
    ensures value { result ≡ parse size «record».now }
    ensures read_is_written { ReadIsWritten }
{
    Buffer::Record.fits(record, RECORD_LEN)?;
    let record: &RecordBytes = record.as_array().unwrap();
    let message = message_at(Kind::try_from(record[0])?, record);
    check_form(size, record, &message)?;
    Ok(message)
}

// Reads a request.
pub fn read_request(request: &[u8]) -> Result<Request, Refusal>
    ensures value { result ≡ parse_request request.now }
    ensures read_request_is_written { ReadRequestIsWritten }
{
    Buffer::Request.fits(request, REQUEST_LEN)?;
    let said = request_of(request.as_array().unwrap());
    check_request(0, &said)?;
    Ok(said)
}
