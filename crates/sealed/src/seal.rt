// Seals a quarter's digest in a record that other hosts can check.
ghost use Rattle.std.specs.Prelude.{◌≡◌, ◌+◌, true, is_ok};
ghost use Rattle.device.specs.Makes.{stamped};
ghost use Rattle.sealed.specs.Seal.{sealed_message};
ghost use Rattle.wire.specs.Messages.{bytes_of};

use anyhow::anyhow;
use device::{GroupKey, KeyBytes, Usig, check_record};
use hash::HashBytes;
use hexadecimal::Hex;
use wire::{Body, Checkpoint, Digest, Message, RECORD_LEN, Refusal, write};

// The sample's key is public: the seal shows the form of a record, and protects nothing.
const SAMPLE_KEY: KeyBytes = [
    0, 1, 2, 3, 4, 5, 6, 7, 8, 9, 10, 11, 12, 13, 14, 15, 16, 17, 18, 19, 20, 21, 22, 23, 24, 25,
    26, 27, 28, 29, 30, 31,
];

const SIZE: u8 = 3;

// A checkpoint of the digest, at the first position that one can have. The device writes sender and count.
fn message_of(digest: &HashBytes) -> Message
    ensures { result ≡ sealed_message digest.now }
{
    Message {
        sender: 0,
        count: 1,
        body: Body::Checkpoint {
            checkpoint: Checkpoint {
                position: 16,
                digest: Digest::from(digest),
            },
        },
    }
}

fn seal(
    device: &mut GroupKey,
    digest: &HashBytes,
    record: &mut [u8],
    tag: &mut [u8],
) -> Result<(), Refusal>
    ensures { is_ok result ≡ true → «record».new ≡ stamped (bytes_of (sealed_message digest.now)) device.old.counter.owner (device.old.counter.made + 1) }
{
    write(&message_of(digest), record)?;
    device.make(record, tag)
}

// Prints the sealed record and its tag, and what a check says once a byte is damaged.
pub(crate) fn print_seal(rt: &HostRuntime, digest: &HashBytes) -> anyhow::Result<()> {
    let mut device = GroupKey::new(SIZE, 0, &SAMPLE_KEY, 1);
    let mut record = [0; RECORD_LEN];
    let mut tag = [0; 32];
    seal(&mut device, digest, &mut record, &mut tag).map_err(|_| anyhow!(
        "the digest could not be sealed"
    ))?;
    println!(rt; "Sealed as a checkpoint by replica 0 of {SIZE}, under a public sample key")?;
    println!(rt; "Record       {}", Hex(&record))?;
    println!(rt; "Tag          {}", Hex(&tag))?;
    print_check(rt, "As sealed", &device, &record, &tag)?;
    record[12] ^= 1;
    print_check(rt, "Damaged  ", &device, &record, &tag)
}

fn print_check(
    rt: &HostRuntime,
    what: &str,
    device: &GroupKey,
    record: &[u8],
    tag: &[u8],
) -> anyhow::Result<()> {
    match check_record(device, SIZE, record, tag) {
        Ok(_) => println!(rt; "{what}    passes")?,
        Err(refusal) => println!(rt; "{what}    refused by {refusal}")?,
    }
    Ok(())
}
