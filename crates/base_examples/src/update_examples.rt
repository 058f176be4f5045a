//! Updates of the queue as a new member comes, over Z/101 in grevlex.

ghost use Rattle.std.specs.Prelude.{[], ◌∷◌};
ghost use Rattle.base_examples.specs.Examples.{plane_setting};
ghost use Rattle.base_examples.specs.Products.{products, space};
ghost use Rattle.base_examples.specs.Sharing.{monomial_members};
ghost use Rattle.basis_steps.specs.States.{vectors};
ghost use Rattle.basis_steps.specs.Updates.{UpdatesWith};

/// As y^2 comes to x^2 and xy, the pair (1, 2) is queued, and (0, 2) is dropped for 1: the lcm xy^2 of (1, 2) properly divides
/// its lcm x^2 y^2 (Gebauer and Möller 1988).
pub fn update_with_third_member()
    ensures { UpdatesWith plane_setting (vectors monomial_members) 2 ((0, 1) ∷ []) [] ((1, 2) ∷ ((0, 1) ∷ [])) (((0, 2), 1) ∷ []) }
{}

/// As xyz comes to x^2 z and y^2 z, the queued pair (0, 1) leaves for it: xyz divides its lcm x^2 y^2 z, which is the lcm of
/// neither new pair; and both of these are queued (Gebauer and Möller 1988).
pub fn update_with_third_product()
    ensures { UpdatesWith space products 2 ((0, 1) ∷ []) [] ((1, 2) ∷ ((0, 2) ∷ [])) (((0, 1), 2) ∷ []) }
{}
