// The text of a list of vectors. After an error the lines that were written stand there.
ghost use Rattle.std.specs.Prelude.{◌≡◌, ◌++◌, OnOk, OnErr};
ghost use Rattle.formal_sums.specs.FormalSums.{Each};
ghost use Rattle.term_lists.specs.Rings.{variables};
ghost use Rattle.term_lists.specs.Vectors.{HasVariables};
ghost use Rattle.poly_text.specs.Texts.{list_text, names_of};
ghost use Rattle.poly_text.specs.Writing.{IsFront};

use crate::{NoMemory, push_vect};
use line_text::LineText;
use module_vectors::{Ring, Vect};
use std::alloc::Global;

/// Appends each vector on a line of its own.
pub fn append_list(
    alloc: Global,
    out: &mut LineText,
    ring: &Ring,
    rank: u128,
    vectors: &[Vect],
) -> Result<(), NoMemory>
    requires { Each (λ v. Each (HasVariables (variables ring.now)) v) vectors.now }
    ensures ok { OnOk result (out.new ≡ out.old ++ list_text (names_of ring.now) rank vectors.now) }
    ensures err { OnErr result (IsFront out.old out.new) }
{
    for v in vectors {
        match push_vect(alloc, out, ring, rank, v) {
            Ok(()) => {}
            Err(early) => return Err(early),
        }
        out.push(b'\n')?;
    }
    Ok(())
}
