// What stands between the entries of a vector. After an error what was written so far stands there.
ghost use Rattle.std.specs.Prelude.{◌≡◌, ◌++◌, ◌≤◌, OnOk, OnErr};
ghost use Rattle.poly_text.specs.Writing.{between};

use crate::NoMemory;
use line_text::LineText;

/// Appends what stands between two terms that follow one another.
pub fn append_between(out: &mut LineText, last: u128, position: u128) -> Result<(), NoMemory>
    requires { last ≤ position }
    ensures ok { OnOk result (out.new ≡ out.old ++ between last position) }
    ensures err { OnErr result (out.new ≡ out.old) }
{
    if position == last {
        return out.push(b'+');
    }
    out.push_gap(position - last - 1)
}
