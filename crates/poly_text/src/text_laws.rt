//! One text for each value: equal texts come from equal values.

ghost use Rattle.std.specs.Prelude.{List, ℕ, ℤ, length, ◌≡◌};
ghost use Rattle.std.specs.Fmt.{signed_decimal};
ghost use Rattle.std.specs.declared.cmp.Ordering.{Ordering};
ghost use Rattle.formal_sums.specs.FormalSums.{Each, Key as KeyOf};
ghost use Rattle.orders.specs.KeyOrders.{IsKeyOrder};
ghost use Rattle.term_lists.specs.declared.key.Key.{Key};
ghost use Rattle.poly_text.specs.Names.{AreDistinctNames};
ghost use Rattle.poly_text.specs.Printable.{IsPrintableNumber, IsPrintablePolynomial, IsPrintableVector};
ghost use Rattle.poly_text.specs.Texts.{list_text, poly_text, vector_text};

/// Over distinct names and given weights a polynomial's text says its terms and their order.
pub fn polynomials()
    ensures { (names : List (List ℕ)) (ws : List ℕ) (v w : List (Key × ℕ)) → AreDistinctNames names
        → IsPrintablePolynomial (length names) ws v → IsPrintablePolynomial (length names) ws w
        → poly_text names v ≡ poly_text names w → v ≡ w }
{}

/// Over distinct names, at one rank and in one order of keys, a vector's text says the vector.
pub fn vectors()
    ensures { (names : List (List ℕ)) (ws : List ℕ) (rank : ℕ) (compare : KeyOf (length names) → KeyOf (length names) → Ordering) (v w : List (Key × ℕ))
        → AreDistinctNames names → IsKeyOrder rank compare
        → IsPrintableVector (length names) ws rank compare v → IsPrintableVector (length names) ws rank compare w
        → vector_text names rank v ≡ vector_text names rank w → v ≡ w }
{}

/// And a list's text says the list.
pub fn lists()
    ensures { (names : List (List ℕ)) (ws : List ℕ) (rank : ℕ) (compare : KeyOf (length names) → KeyOf (length names) → Ordering) (xs ys : List (List (Key × ℕ)))
        → AreDistinctNames names → IsKeyOrder rank compare
        → Each (IsPrintableVector (length names) ws rank compare) xs → Each (IsPrintableVector (length names) ws rank compare) ys
        → list_text names rank xs ≡ list_text names rank ys → xs ≡ ys }
{}

/// The text of a number of 128 bits says the number.
pub fn numbers()
    ensures { (y z : ℤ) → IsPrintableNumber y → IsPrintableNumber z → signed_decimal y ≡ signed_decimal z → y ≡ z }
{}
