// Rows in echelon form.
ghost use Rattle.std.specs.Prelude.{◌≡◌, ◌<◌, ◌≤◌, ◌*◌, ℕ, List, get_or, length, slice_index};
ghost use Rattle.residues.specs.Residues.{IsCongruent};
ghost use Rattle.monomials.specs.Exponents.{Exponents};
ghost use Rattle.formal_sums.specs.FormalSums.{FormalSum};
ghost use Rattle.change_laws.specs.Combinations.{IsSameModulo, expansion};
ghost use Rattle.order_change.specs.Forms.{AreResidues};
ghost use Rattle.order_change.specs.Rows.{AreRows, AreSame, IsClearedModulo};
ghost use Rattle.order_change.specs.declared.rows.Row.{Row as RowValue};

use crate::forms::Form;
use crate::sums::Sums;
use zp_field::Modulus;

/// Residues over the standard monomials of the old order, with 1 at the pivot, at which later rows are 0, and the same vector by its
/// residues over those of the new order.
pub(crate) struct Row {
    pub(crate) form: Form,
    pub(crate) combination: Form,
    pub(crate) pivot: usize,
}

// By hand, so that each drop of one is a call.
impl Drop for Row {
    fn drop(self) {
        let Row {
            form: _,
            combination: _,
            pivot: _,
        } = self;
    }
}

/// Takes multiples of the rows away until the form is 0 at each pivot, and the same multiples of their combinations.
pub(crate) fn clear_pivots(modulus: &Modulus, rows: &[Row], form: &mut Sums, combination: &mut Sums)
    requires rows { AreRows modulus.now.value (length form.old) (length combination.old) rows.now }
    requires form { AreResidues (modulus.now.value * modulus.now.value) (length form.old) form.old }
    requires combination { AreResidues (modulus.now.value * modulus.now.value) (length combination.old) combination.old }
    ensures form { AreResidues (modulus.now.value * modulus.now.value) (length form.old) form.new }
    ensures combination { AreResidues (modulus.now.value * modulus.now.value) (length combination.old) combination.new }
    ensures cleared { IsClearedModulo modulus.now.value rows.now form.new (length rows.now) }
    ensures same { (n : ℕ) (F : List (FormalSum n)) (B N : List (Exponents n)) → AreSame modulus.now.value F B N rows.now
        → IsSameModulo modulus.now.value F (expansion B (slice_index form.old)) (expansion N (slice_index combination.old))
        → IsSameModulo modulus.now.value F (expansion B (slice_index form.new)) (expansion N (slice_index combination.new)) }
    ensures kept { (k : ℕ) → ((l : ℕ) (row : RowValue) → l < length rows.now → get_or rows.now l row ≡ row → slice_index row.combination k ≡ 0)
        → IsCongruent modulus.now.value (slice_index combination.new k) (slice_index combination.old k) }
{
    for row in rows {
        let c = form.residue_at(modulus, row.pivot);
        if c > 0 {
            let minus = modulus.neg(c);
            form.add_multiple(modulus, minus, &row.form);
            combination.add_multiple(modulus, minus, &row.combination);
        }
    }
}
