// The count of a device, which only rises.
ghost use Rattle.std.specs.Prelude.{◌≡◌, ◌+◌, ◌^◌, ◌<◌, ◌≤◌, true, length, if◌then◌else◌};
ghost use Rattle.device.specs.Keys.{may_pass};
ghost use Rattle.device.specs.Makes.{make_refusal, answered, stamped};
ghost use Rattle.wire.specs.Groups.{member};

use wire::{Buffer, RECORD_LEN, Refusal, is_member};

// Who counts, in a group of which size, how many counts were made, and which is the last.
// It cannot be copied, and so no device can: a copy would give its counts again.
#[derive(Drop)]
pub struct Counter {
    pub(crate) size: u8,
    pub(crate) owner: u8,
    pub(crate) made: u32,
    pub(crate) last: u32,
    ghost byte: { owner < 256 },
    ghost within: { made ≤ last },
    ghost fits: { last < 2 ^ 32 },
    // only a member of the group has counts
    ghost inside: { 0 < last → member size owner ≡ true },
}

impl Counter {
    // A counter that has made nothing. An owner that is no member of the group has no counts.
    pub(crate) fn new(size: u8, owner: u8, last: u32) -> Counter
        ensures size { result.size ≡ size }
        ensures owner { result.owner ≡ owner }
        ensures made { result.made ≡ 0 }
        ensures last { result.last ≡ (if member size owner then last else 0) }
    {
        let last = if is_member(u32::from(size), u32::from(owner)) {
            last
        } else {
            0
        };
        Counter {
            size,
            owner,
            made: 0,
            last,
        }
    }

    // Whether a pair can pass at the owner's device, the tag aside.
    pub(crate) fn may_pass(&self, width: usize, record: &[u8], tag: &[u8]) -> bool
        ensures { result ≡ may_pass self.now.size self.now.owner width «record».now tag.now }
    {
        is_member(u32::from(self.size), u32::from(self.owner))
            && record.len() == RECORD_LEN
            && tag.len() == width
            && is_member(u32::from(self.size), u32::from(record[1]))
    }

    // Refuses two buffers in which no record can be made. The two lengths are two lines, here and in check_record, which a
    // function of both would not shorten.
    pub(crate) fn ready(&self, width: usize, record: &[u8], tag: &[u8]) -> Result<(), Refusal>
        ensures { result ≡ answered (make_refusal self.now.made self.now.last width «record».now tag.now) }
    {
        Buffer::Record.fits(record, RECORD_LEN)?;
        Buffer::Tag.fits(tag, width)?;
        if self.made == self.last {
            return Err(Refusal::DeviceSpent { made: self.made });
        }
        Ok(())
    }

    // Writes the owner and the next count into a record, and counts it. The record is a slice, as it was lent to make.
    pub(crate) fn stamp(&mut self, record: &mut [u8])
        requires made_lt_last { self.old.made < self.old.last }
        requires record_len { length «record».old ≡ 48 }
        ensures recorded { «record».new ≡ stamped «record».old self.old.owner (self.old.made + 1) }
        ensures counted { self.new.made ≡ self.old.made + 1 }
        ensures kept { (self.new.size ≡ self.old.size) × (self.new.owner ≡ self.old.owner) × (self.new.last ≡ self.old.last) }
    {
        let count = self.made + 1;
        record[1] = self.owner;
        record[4..8].copy_from_slice(&count.to_be_bytes());
        self.made = count;
    }
}
