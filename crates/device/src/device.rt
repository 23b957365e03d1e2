// A device of any kind: a counter, and the keys of its tags.
ghost use Rattle.std.specs.Prelude.{◌≡◌, ℕ, ◌+◌, true, false, List, is_ok, if◌then◌else◌};
ghost use Rattle.device.specs.Keys.{StampNames};
ghost use Rattle.device.specs.Makes.{make_refusal, answered, if_made, stamped};
ghost use Rattle.device.specs.Pairs.{PassesAtPartner};
ghost use Rattle.wire.specs.Groups.{member};
ghost use Rattle.std.proofs.Common.{rules};

use crate::counter::Counter;
use crate::keys::Keys;
use crate::usig::Usig;
use wire::Refusal;

#[derive(Drop)]
pub struct Device<K> {
    counter: Counter,
    keys: K,
}

impl<K: Keys> Device<K> {
    // From the keys that its owner shares. Size and owner come as two numbers, as a host has them; from here on the
    // counter has both.
    pub fn new(size: u8, owner: u8, shared: &K::Shared, last: u32) -> Device<K>
        ensures owner { result.counter.owner ≡ owner }
        ensures made { result.counter.made ≡ 0 }
        ensures last { result.counter.last ≡ (if member size owner then last else 0) }
        ensures tagging { (bs : List ℕ) → K.tag_of result.keys result.counter.size bs ≡ K.tag_by shared.now size bs }
        ensures passing { (bs tag : List ℕ) → K.passes result.keys result.counter.size result.counter.owner bs tag ≡ K.passes_by shared.now size owner bs tag }
        ensures stamp_names { StampNames }
        ensures passes_at_partner { PassesAtPartner }
    {
        Device {
            counter: Counter::new(size, owner, last),
            keys: K::hashed(shared),
        }
    }
}

impl<K: Keys> Usig for Device<K> {
    ghost owner = { λ d. d.counter.owner };

    ghost made = { λ d. d.counter.made };

    ghost last = { λ d. d.counter.last };

    ghost width = { λ _. K.width };

    ghost passes = { λ d bs tag. K.passes d.keys d.counter.size d.counter.owner bs tag };

    ghost owner_fits = { Prim.search rules };

    ghost made_within = { Prim.search rules };

    ghost last_fits = { Prim.search rules };

    ghost right_lengths = { λ d bs tag h. K.right_lengths d.keys d.counter.size d.counter.owner bs tag h };

    fn owner(&self) -> u8 {
        self.counter.owner
    }

    fn made(&self) -> u32 {
        self.counter.made
    }

    fn last(&self) -> u32 {
        self.counter.last
    }

    fn tag_len(&self) -> usize {
        self.keys.tag_len()
    }

    fn make(&mut self, record: &mut [u8], tag: &mut [u8]) -> Result<(), Refusal>
        ensures answer { result ≡ answered (make_refusal self.old.counter.made self.old.counter.last K.width «record».old tag.old) }
        ensures recorded { «record».new ≡ if_made (make_refusal self.old.counter.made self.old.counter.last K.width «record».old tag.old) (stamped «record».old self.old.counter.owner (self.old.counter.made + 1)) «record».old }
        ensures passing { is_ok result ≡ true → K.passes self.old.keys self.old.counter.size self.old.counter.owner «record».new tag.new ≡ true }
        ensures counted { self.new.counter.made ≡ if_made (make_refusal self.old.counter.made self.old.counter.last K.width «record».old tag.old) (self.old.counter.made + 1) self.old.counter.made }
        ensures kept { (self.new.counter.owner ≡ self.old.counter.owner) × (self.new.counter.last ≡ self.old.counter.last) × (self.new.counter.size ≡ self.old.counter.size) × (self.new.keys ≡ self.old.keys) }
        ensures refused { is_ok result ≡ false → (self.new ≡ self.old) × (tag.new ≡ tag.old) }
        ensures tagged { is_ok result ≡ true → tag.new ≡ K.tag_of self.old.keys self.old.counter.size «record».new }
    {
        self.counter.ready(self.keys.tag_len(), record, tag)?;
        self.counter.stamp(record);
        self.keys.write_tag(self.counter.size, record, tag);
        Ok(())
    }

    fn check(&self, record: &[u8], tag: &[u8]) -> bool {
        self.keys.passes(&self.counter, record, tag)
    }
}
