// The bytes of entries 0, a block at a time.
ghost use Rattle.std.specs.Prelude.{◌≡◌, ◌≤◌};
ghost use Rattle.line_text.specs.Texts.{zero_bytes};

/// How many bytes a block has.
pub const BLOCK: usize = 128;

/// A block of entries 0, each behind a comma.
const ZEROS: &[u8; 128] =
    b",0,0,0,0,0,0,0,0,0,0,0,0,0,0,0,0,0,0,0,0,0,0,0,0,0,0,0,0,0,0,0,0,0,0,0,0,0,0,0,0,0,0,0,0,0,0,0,0,0,0,0,0,0,0,0,0,0,0,0,0,0,0,0,0";

/// The first bytes of a block, so many.
pub fn zeros(count: usize) -> &'static [u8]
    requires { count ≤ 128 }
    ensures { result.now ≡ zero_bytes count }
{
    &ZEROS[..count]
}
