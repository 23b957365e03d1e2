// The keys of a device's tags, whatever its kind.
ghost use Rattle.std.specs.Prelude.{◌≡◌, ℕ, Bool, true, List, length};
ghost use Rattle.device.specs.Keys.{sender_of};
ghost use Rattle.wire.specs.Groups.{member};

use crate::counter::Counter;

// Keys are kept hashed, from what the owners share. They give the tag of a record in a group of a size, and say which
// pairs of record and tag pass at an owner; both are fixed by what is shared. The trait stays in this crate, so nothing
// outside calls what requires a length.
pub trait Keys {
    type Shared;

    ghost width: { ℕ };

    ghost tag_of: { Self → ℕ → List ℕ → List ℕ };

    ghost passes: { Self → ℕ → ℕ → List ℕ → List ℕ → Bool };

    ghost tag_by: { Self.Shared → ℕ → List ℕ → List ℕ };

    ghost passes_by: { Self.Shared → ℕ → ℕ → List ℕ → List ℕ → Bool };

    fn hashed(shared: &Self::Shared) -> Self
        ensures tagging { (size : ℕ) (bs : List ℕ) → tag_of result size bs ≡ tag_by shared.now size bs }
        ensures passing { (size owner : ℕ) (bs t : List ℕ) → passes result size owner bs t ≡ passes_by shared.now size owner bs t };

    fn tag_len(&self) -> usize
        ensures { result ≡ width };

    // Writes the tag of a record, which passes at the member that the record names.
    fn write_tag(&self, size: u8, record: &[u8], tag: &mut [u8])
        requires { length tag.old ≡ width }
        ensures value { tag.new ≡ tag_of self.now size «record».now }
        ensures own_passes { length «record».now ≡ 48 → member size (sender_of «record».now) ≡ true → passes self.now size (sender_of «record».now) «record».now tag.new ≡ true };

    fn passes(&self, counter: &Counter, record: &[u8], tag: &[u8]) -> bool
        ensures { result ≡ passes self.now counter.now.size counter.now.owner «record».now tag.now };

    ghost right_lengths: { (k : Self) (size owner : ℕ) (bs t : List ℕ) → passes k size owner bs t ≡ true → (length bs ≡ 48) × (length t ≡ width) };
}
