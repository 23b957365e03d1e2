// Writing records and requests.
ghost use Rattle.std.specs.Prelude.{◌≡◌, ◌+◌, ◌≤◌, ◌++◌, length, replicate};
ghost use Rattle.std.specs.List.{flat_map};
ghost use Rattle.wire.specs.Forms.{fitted, filled};
ghost use Rattle.wire.specs.Laws.{WrittenIsRead, WrittenRequestIsRead};
ghost use Rattle.wire.specs.Messages.{request_length, record_length, request_bytes, digest_bytes, vouch_bytes, pair_bytes, body_bytes, bytes_of, overwritten};
ghost use Rattle.wire.specs.declared.refusal.Buffer.TheVariants.{Record, Request as Asked};

use crate::message::{
    Body, Digest, Message, Pair, RECORD_LEN, REQUEST_LEN, RecordBytes, Request, Vouch,
};
use crate::refusal::{Buffer, Refusal};
use hash::HashBytes;

// Writes bytes over those that begin at a place: each field has a fixed one.
fn put<const N: usize>(out: &mut [u8], at: usize, bytes: &[u8; N])
    requires { at + N ≤ length out.old }
    ensures { out.new ≡ overwritten N out.old at bytes.now }
{
    out[at..at + N].copy_from_slice(bytes);
}

fn request_bytes(request: &Request) -> [u8; REQUEST_LEN]
    ensures { result ≡ request_bytes request.now }
{
    let mut out = [0; REQUEST_LEN];
    put(&mut out, 0, &request.client.to_be_bytes());
    put(&mut out, 2, &request.number.to_be_bytes());
    put(&mut out, 6, &request.command);
    out
}

pub(crate) fn digest_bytes(digest: &Digest) -> HashBytes
    ensures { result ≡ digest_bytes digest.now }
{
    let mut out = [0; 32];
    put(&mut out, 0, &digest.first.to_be_bytes());
    put(&mut out, 8, &digest.second.to_be_bytes());
    put(&mut out, 16, &digest.third.to_be_bytes());
    put(&mut out, 24, &digest.fourth.to_be_bytes());
    out
}

fn vouch_bytes(vouch: &Vouch) -> [u8; 8]
    ensures { result ≡ vouch_bytes vouch.now }
{
    let mut out = [0; 8];
    put(&mut out, 0, &vouch.view.to_be_bytes());
    put(&mut out, 4, &vouch.length.to_be_bytes());
    out
}

fn pair_bytes(pair: Pair) -> [u8; 5]
    ensures { result ≡ pair_bytes pair }
{
    let [a, b, c, d] = pair.count.to_be_bytes();
    [pair.replica, a, b, c, d]
}

fn pairs_bytes(pairs: &[Pair; 4]) -> [u8; 20]
    ensures { result ≡ flat_map pair_bytes pairs.now }
{
    let mut out = [0; 20];
    out.copy_from_slice(pairs.map(pair_bytes).as_flattened());
    out
}

// A record with the fields of a body, and zeros before and between.
fn body_bytes(body: &Body) -> RecordBytes
    ensures { result ≡ replicate 8 0 ++ body_bytes body.now }
{
    let mut out = [0; RECORD_LEN];
    match body {
        Body::Prepare { view, request } => {
            put(&mut out, 8, &view.to_be_bytes());
            put(&mut out, 12, &request_bytes(request));
        }
        Body::Commit { vouch } => put(&mut out, 8, &vouch_bytes(vouch)),
        Body::Checkpoint { checkpoint } => {
            put(&mut out, 8, &checkpoint.position.to_be_bytes());
            put(&mut out, 12, &digest_bytes(&checkpoint.digest));
        }
        Body::ViewChange { view, vouch } => {
            put(&mut out, 8, &view.to_be_bytes());
            put(&mut out, 12, &vouch_bytes(vouch));
        }
        Body::NewView { view, pairs } => {
            put(&mut out, 8, &view.to_be_bytes());
            put(&mut out, 12, &pairs_bytes(pairs));
        }
    }
    out
}

// The 48 bytes of a message.
fn record_bytes(message: &Message) -> RecordBytes
    ensures { result ≡ bytes_of message.now }
{
    let mut out = body_bytes(&message.body);
    out[0] = message.body.kind().number();
    out[1] = message.sender;
    put(&mut out, 4, &message.count.to_be_bytes());
    out
}

// Writes a message into a record of 48 bytes.
pub fn write(message: &Message, record: &mut [u8]) -> Result<(), Refusal>
    ensures value { result ≡ fitted record_length Record «record».old }
    ensures bytes { «record».new ≡ filled record_length (bytes_of message.now) «record».old }
    ensures written_is_read { WrittenIsRead }
{
    Buffer::Record.fits(record, RECORD_LEN)?;
    record.copy_from_slice(&record_bytes(message));
    Ok(())
}

// Writes a request into a buffer of 16 bytes.
pub fn write_request(request: &Request, out: &mut [u8]) -> Result<(), Refusal>
    ensures value { result ≡ fitted request_length Asked out.old }
    ensures bytes { out.new ≡ filled request_length (request_bytes request.now) out.old }
    ensures written_request_is_read { WrittenRequestIsRead }
{
    Buffer::Request.fits(out, REQUEST_LEN)?;
    out.copy_from_slice(&request_bytes(request));
    Ok(())
}
