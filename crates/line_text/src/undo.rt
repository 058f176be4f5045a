// What was written before an error is taken away again.
ghost use Rattle.std.specs.Prelude.{◌≡◌, OnErr, OnOk, take};

use crate::{LineText, NoMemory};

/// Keeps what was written, and after an error only so many bytes as there were before.
pub fn whole_or_none(
    out: &mut LineText,
    before: u128,
    written: Result<(), NoMemory>,
) -> Result<(), NoMemory>
    ensures same { result ≡ written }
    ensures ok { OnOk written (out.new ≡ out.old) }
    ensures err { OnErr written (out.new ≡ take before out.old) }
{
    if written.is_err() {
        out.truncate(before);
    }
    written
}
