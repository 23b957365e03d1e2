// Comparing tags.
ghost use Rattle.std.specs.Prelude.{◌≡◌, length};
ghost use Rattle.device.specs.Keys.{same_bytes};

use hash::HashBytes;

// Whether a part of a tag is as it should be. By hand and not by `==`, since all bytes are looked at, wherever the
// first difference stands.
pub(crate) fn same(part: &[u8], wanted: &HashBytes) -> bool
    requires { length part.now ≡ 32 }
    ensures { result ≡ same_bytes part.now wanted.now }
{
    let mut differ = 0u8;
    for (byte, good) in part.iter().zip(wanted) {
        differ |= byte ^ good;
    }
    differ == 0
}
