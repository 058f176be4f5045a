//! Working out steps.

ghost use Rattle.std.specs.Prelude.{◌≡◌, ◌<◌, ◌^◌, ℕ, Some, IfOk};
ghost use Rattle.std.specs.List.{AllByRecursion};
ghost use Rattle.formal_sums.specs.FormalSums.{FormalSum};
ghost use Rattle.poly_grammar.specs.Algebras.{worth_of_steps};
ghost use Rattle.poly_grammar.specs.Numerals.{numeral_value};
ghost use Rattle.poly_grammar.specs.Steps.{numbers_of_steps};
ghost use Rattle.term_lists.specs.Rings.{variables};
ghost use Rattle.term_lists.specs.Vectors.{HasPositions, IsVectorOver, StandsFor};
ghost use Rattle.poly_value.specs.Values.{line_degrees, polynomials_of};

use crate::parts::normal;
use crate::stack::{do_step, take_top};
use module_vectors::{Frame, NoMemory, Vect};
use poly_grammar::PolyStep;
use std::alloc::Global;

/// The vector of rank 1 that steps are worth, in the order of the frame, where tokens are those of the line.
///
/// The steps have a worth: their names are variables and there are operands for each; their formal degree by the ring's weights,
/// and that of each part, is at most 1,000, and their numbers are below 2^128. Answers `NoMemory` where a growth was refused.
pub fn polynomial_value<F: Frame>(
    alloc: Global,
    frame: &F,
    line: &[u8],
    steps: &[PolyStep],
) -> Result<Vect, NoMemory>
    requires worth { (x : FormalSum (variables (F.over frame.now))) × (worth_of_steps (polynomials_of (F.over frame.now) line.now) steps.now ≡ Some x) }
    requires degree { (d : ℕ) × (worth_of_steps (line_degrees (F.over frame.now) line.now) steps.now ≡ Some d) }
    requires numerals { AllByRecursion (λ t. numeral_value line.now t < 2 ^ 128) (numbers_of_steps steps.now) }
    ensures vector { IfOk result (λ v. IsVectorOver (F.over frame.now) (F.compare frame.now) v) }
    ensures polynomial { IfOk result (λ v. HasPositions 1 v) }
    ensures value { (x : FormalSum (variables (F.over frame.now)))
        → worth_of_steps (polynomials_of (F.over frame.now) line.now) steps.now ≡ Some x
        → IfOk result (λ v. StandsFor (F.over frame.now) v x) }
{
    let mut stack = Vec::new(alloc);
    for step in steps {
        do_step(alloc, frame, line, *step, &mut stack)?;
    }
    let Some(sum) = take_top(&mut stack) else {
        unreachable!()
    };
    normal(alloc, frame, sum.terms)
}
