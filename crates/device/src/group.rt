// Devices that share one key.
ghost use Rattle.device.specs.Groups.{group_passes, group_passes_at};
ghost use Rattle.hash.specs.Hmac.{hmac, tag_under};
ghost use Rattle.std.proofs.Common.{rules};

use crate::compare::same;
use crate::counter::Counter;
use crate::device::Device;
use crate::keys::Keys;
use hash::MacKey;

// The bytes of a key.
pub type KeyBytes = [u8; 32];

// The tag is the HMAC of the record under the key of the group.
pub type GroupKey = Device<MacKey>;

// The bytes of a tag.
const TAG_LEN: usize = 32;

impl Keys for MacKey {
    type Shared = KeyBytes;

    ghost width = { 32 };

    ghost tag_of = { λ key _ bs. tag_under key bs };

    ghost passes = { λ key n owner bs tag. group_passes_at n owner key bs tag };

    ghost tag_by = { λ key _ bs. hmac key bs };

    ghost passes_by = { λ key n owner bs tag. group_passes n owner key bs tag };

    ghost right_lengths = { Prim.search rules };

    fn hashed(shared: &KeyBytes) -> MacKey {
        MacKey::new(shared)
    }

    fn tag_len(&self) -> usize {
        TAG_LEN
    }

    fn write_tag(&self, _size: u8, record: &[u8], tag: &mut [u8]) {
        tag.copy_from_slice(&self.tag(record));
    }

    fn passes(&self, counter: &Counter, record: &[u8], tag: &[u8]) -> bool {
        counter.may_pass(TAG_LEN, record, tag) && same(tag, &self.tag(record))
    }
}
