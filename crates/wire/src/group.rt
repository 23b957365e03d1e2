// The sizes of a group, its members, quorum and primaries.
ghost use Rattle.std.specs.Prelude.{◌≡◌, if◌then◌else◌, Some, None};
ghost use Rattle.wire.specs.Groups.{is_size, member, quorum_of, primary_of, LeastMajority};

fn is_size(size: u32) -> bool
    ensures { result ≡ is_size size }
{
    matches!(size, 3 | 5 | 7)
}

// Whether a number is one of a group's replicas. A group has 3, 5 or 7; another size has none.
pub fn is_member(size: u32, number: u32) -> bool
    ensures { result ≡ member size number }
{
    is_size(size) && number < size
}

// The quorum of a good size.
pub(crate) fn quorum_of(size: u8) -> u8
    ensures { result ≡ quorum_of size }
{
    match size {
        3 => 2,
        5 => 3,
        _ => 4,
    }
}

// How many replicas are a quorum; none where no group has the size.
pub fn quorum(size: u8) -> Option<u8>
    ensures value { result ≡ (if is_size size then Some (quorum_of size) else None) }
    ensures least_majority { LeastMajority }
{
    is_size(u32::from(size)).then(|| quorum_of(size))
}

// The primary of a view; none where no group has the size.
pub fn primary(size: u8, view: u32) -> Option<u8>
    ensures { result ≡ (if is_size size then Some (primary_of size view) else None) }
{
    is_size(u32::from(size)).then(|| (view % u32::from(size)) as u8)
}
