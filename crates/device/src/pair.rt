// Devices that share a key with each other device.
ghost use Rattle.std.specs.Prelude.{◌≡◌, ◌<◌};
ghost use Rattle.device.specs.Pairs.{part, kept_tag, pair_tag, pair_tag_at, pair_passes, pair_passes_at};
ghost use Rattle.hash.specs.Hmac.{kept};
ghost use Rattle.std.proofs.Common.{rules};

use crate::compare::same;
use crate::counter::Counter;
use crate::device::Device;
use crate::group::KeyBytes;
use crate::keys::Keys;
use hash::{HashBytes, MacKey};
use std::array;

// The keys that an owner shares with replicas 0 to 6; those from the size on are not used.
pub type SharedKeys = [KeyBytes; 7];

// The tag has a part for each replica, under the key that the owner shares with it.
pub type PairKey = Device<[MacKey; 7]>;

// The bytes of a tag: seven parts.
const TAG_LEN: usize = 224;

impl Keys for [MacKey; 7] {
    type Shared = SharedKeys;

    ghost width = { 224 };

    ghost tag_of = { λ keys n bs. pair_tag_at n keys bs };

    ghost passes = { λ keys n owner bs tag. pair_passes_at n owner keys bs tag };

    ghost tag_by = { λ keys n bs. pair_tag n keys bs };

    ghost passes_by = { λ keys n owner bs tag. pair_passes n owner keys bs tag };

    ghost right_lengths = { Prim.search rules };

    fn hashed(shared: &SharedKeys) -> [MacKey; 7] {
        shared.map(
            |key: KeyBytes| -> MacKey
                ensures { result ≡ kept key }
            { MacKey::new(&key) },
        )
    }

    fn tag_len(&self) -> usize {
        TAG_LEN
    }

    fn write_tag(&self, size: u8, record: &[u8], tag: &mut [u8]) {
        let parts: [HashBytes; 7] = array::from_fn(
            |r: usize| -> HashBytes
                requires { r < 7 }
                ensures { result ≡ part size (kept_tag self.entry.now «record».entry.now) r }
            {
                if r < usize::from(size) {
                    self[r].tag(record)
                } else {
                    [0; 32]
                }
            },
        );
        tag.copy_from_slice(parts.as_flattened());
    }

    fn passes(&self, counter: &Counter, record: &[u8], tag: &[u8]) -> bool {
        if !counter.may_pass(TAG_LEN, record, tag) {
            return false;
        }
        let at = 32 * usize::from(counter.owner);
        same(&tag[at..at + 32], &self[usize::from(record[1])].tag(record))
    }
}
