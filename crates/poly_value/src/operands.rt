//! Operands on the stack. Terms that are added up are merged whenever there are twice as many, so that an operand takes no
//! more memory than a few times its greatest normal form.

ghost use Rattle.std.specs.Prelude.{◌≡◌, ◌++◌, IfOk};
ghost use Rattle.formal_sums.specs.FormalSums.{FormalSum};
ghost use Rattle.term_lists.specs.Rings.{variables};
ghost use Rattle.poly_value.specs.Parts.{IsOperandPart, IsSum};

use crate::parts::normal;
use module_vectors::{Frame, Key, NoMemory};
use std::alloc::Global;

/// A sum of terms at position 0, and how many it had when it was last in normal form.
#[derive(Drop)]
pub struct Operand {
    pub terms: Vec<(Key, u32)>,
    pub settled: usize,
}

/// So few terms are not merged.
const FEW: usize = 64;

/// The operand with these terms, which are a normal form.
pub fn operand_of(terms: Vec<(Key, u32)>) -> Operand
    ensures { result.terms ≡ terms }
{
    let settled = terms.len();
    Operand { terms, settled }
}

/// The sum of two operands.
pub fn joined<F: Frame>(
    alloc: Global,
    frame: &F,
    left: Operand,
    right: Operand,
) -> Result<Operand, NoMemory>
    requires left { IsSum (F.over frame.now) left.terms.items }
    requires right { IsSum (F.over frame.now) right.terms.items }
    ensures { (v w : FormalSum (variables (F.over frame.now))) → IsOperandPart (F.over frame.now) v left.terms.items → IsOperandPart (F.over frame.now) w right.terms.items
        → IfOk result (λ sum. IsOperandPart (F.over frame.now) (v ++ w) sum.terms.items) }
{
    let settled = left.settled.max(right.settled);
    let mut terms = left.terms;
    let mut more = right.terms;
    terms.append(&mut more)?;
    merged(alloc, frame, Operand { terms, settled })
}

/// The operand, in normal form where its terms have more than doubled since it last was.
fn merged<F: Frame>(alloc: Global, frame: &F, operand: Operand) -> Result<Operand, NoMemory>
    requires { IsSum (F.over frame.now) operand.terms.items }
    ensures { (v : FormalSum (variables (F.over frame.now))) → IsOperandPart (F.over frame.now) v operand.terms.items
        → IfOk result (λ sum. IsOperandPart (F.over frame.now) v sum.terms.items) }
{
    let count = operand.terms.len();
    if count <= FEW || count <= operand.settled.saturating_mul(2) {
        return Ok(operand);
    }
    let sum = normal(alloc, frame, operand.terms)?;
    Ok(operand_of(sum.into_terms()))
}
