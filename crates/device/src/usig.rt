// What a counter device means, whatever its kind.
ghost use Rattle.std.specs.Prelude.{◌≡◌, ℕ, ◌+◌, ◌^◌, ◌<◌, ◌≤◌, Bool, true, false, List, length, is_ok};
ghost use Rattle.device.specs.Makes.{make_refusal, answered, if_made, stamped, checked};

use wire::{Buffer, Message, RECORD_LEN, Refusal, read};

// A device has an owner, a count of what it has made, a last count, a length of its tags (`width`),
// and a rule which pairs of record and tag pass at it. Only the count ever changes.
pub trait Usig {
    ghost owner: { Self → ℕ };

    ghost made: { Self → ℕ };

    ghost last: { Self → ℕ };

    ghost width: { Self → ℕ };

    ghost passes: { Self → List ℕ → List ℕ → Bool };

    fn owner(&self) -> u8
        ensures { result ≡ owner self.now };

    fn made(&self) -> u32
        ensures { result ≡ made self.now };

    fn last(&self) -> u32
        ensures { result ≡ last self.now };

    fn tag_len(&self) -> usize
        ensures { result ≡ width self.now };

    // Gives the next count to a record: writes owner and count into it, and a tag that passes here. Record and tag are
    // two buffers, lent to be written here and to be read in check, so no one struct of both would serve.
    fn make(&mut self, record: &mut [u8], tag: &mut [u8]) -> Result<(), Refusal>
        ensures answer { result ≡ answered (make_refusal (made self.old) (last self.old) (width self.old) «record».old tag.old) }
        ensures recorded { «record».new ≡ if_made (make_refusal (made self.old) (last self.old) (width self.old) «record».old tag.old) (stamped «record».old (owner self.old) (made self.old + 1)) «record».old }
        ensures passing { is_ok result ≡ true → passes self.old «record».new tag.new ≡ true }
        ensures counted { made self.new ≡ if_made (make_refusal (made self.old) (last self.old) (width self.old) «record».old tag.old) (made self.old + 1) (made self.old) }
        ensures kept { (owner self.new ≡ owner self.old) × (last self.new ≡ last self.old) × (width self.new ≡ width self.old) × (passes self.new ≡ passes self.old) }
        ensures refused { is_ok result ≡ false → (self.new ≡ self.old) × (tag.new ≡ tag.old) };

    // Whether a record and a tag pass here.
    fn check(&self, record: &[u8], tag: &[u8]) -> bool
        ensures { result ≡ passes self.now «record».now tag.now };

    // The laws of every kind.
    ghost owner_fits: { (d : Self) → owner d < 256 };

    ghost made_within: { (d : Self) → made d ≤ last d };

    ghost last_fits: { (d : Self) → last d < 2 ^ 32 };

    ghost right_lengths: { (d : Self) (bs tag : List ℕ) → passes d bs tag ≡ true → (length bs ≡ 48) × (length tag ≡ width d) };
}

// Checks a record and its tag at a device of a group: lengths, form, and whether the pair passes.
pub fn check_record<D: Usig>(
    device: &D,
    size: u8,
    record: &[u8],
    tag: &[u8],
) -> Result<Message, Refusal>
    ensures { result ≡ checked (D.passes device.now) (D.width device.now) size «record».now tag.now }
{
    Buffer::Record.fits(record, RECORD_LEN)?;
    Buffer::Tag.fits(tag, device.tag_len())?;
    let message = read(size, record)?;
    if device.check(record, tag) {
        Ok(message)
    } else {
        Err(Refusal::BadTag {
            count: message.count,
        })
    }
}
