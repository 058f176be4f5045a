// The first exponents of a monomial in unary, in one word: a test that most leads fail which do not divide a key.
ghost use Rattle.std.specs.Prelude.{◌≡◌, ◌<◌, ◌+◌, ◌-◌, ℕ, List, slice_index};
ghost use Rattle.vector_division.specs.Marks.{HasBitsTo};
ghost use Rattle.symbolic_prep.specs.Unary.{HasUnaryBits};

// The word with this bit too, where the exponent is greater than t.
fn with_place(word: u64, exponent: u16, t: u16, at: usize) -> u64
    requires { at < 64 }
    ensures { (places : List ℕ) → HasBitsTo places word at → slice_index places at ≡ exponent - t → HasBitsTo places result (at + 1) }
{
    if exponent > t {
        return word | 1u64 << at;
    }
    word
}

// The word with the four bits of this exponent, from bit `at` on.
fn with_exponent(word: u64, exponent: u16, at: usize) -> u64
    requires { at < 61 }
    ensures { (places : List ℕ) → HasBitsTo places word at → slice_index places at ≡ exponent → slice_index places (at + 1) ≡ exponent - 1
        → slice_index places (at + 2) ≡ exponent - 2 → slice_index places (at + 3) ≡ exponent - 3 → HasBitsTo places result (at + 4) }
{
    let first = with_place(word, exponent, 0, at);
    let second = with_place(first, exponent, 1, at + 1);
    let third = with_place(second, exponent, 2, at + 2);
    with_place(third, exponent, 3, at + 3)
}

/// Four bits for each of the first sixteen exponents: as many of them are set as it is great, the lowest first.
///
/// Where a monomial divides another, its word is within the other's.
pub(crate) fn unary_word(exponents: &[u16]) -> u64
    ensures { HasUnaryBits exponents.now result }
{
    let mut word = 0u64;
    for i in 0..exponents.len().min(16) {
        word = with_exponent(word, exponents[i], 4 * i);
    }
    word
}
