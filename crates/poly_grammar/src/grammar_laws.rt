//! Laws of the grammar.

ghost use Rattle.std.specs.Prelude.{ℕ, ◌≡◌, ◌≤◌, Some};
ghost use Rattle.script_tokens.specs.declared.token.Token.{Token};
ghost use Rattle.poly_grammar.specs.Algebras.{Algebra, worth, worth_of_steps};
ghost use Rattle.poly_grammar.specs.Degrees.{formal_degree};
ghost use Rattle.poly_grammar.specs.Lexemes.{names_in, numbers_in};
ghost use Rattle.poly_grammar.specs.Steps.{names_of_steps, numbers_of_steps, steps};
ghost use Rattle.poly_grammar.specs.Trees.{Poly, spelling};

/// Tokens are the spelling of at most one tree.
pub fn one_tree()
    ensures { (p q : Poly) → spelling p ≡ spelling q → p ≡ q }
{}

/// The steps of a tree, done on an empty stack, leave the tree's worth, whatever its numbers and names stand for.
pub fn worths_of_steps<A>()
    ensures { (g : Algebra A) (p : Poly) → worth_of_steps g (steps p) ≡ worth g p }
{}

/// A formal degree is at most 1,000, whatever the weights.
pub fn formal_degrees()
    ensures { (weight value : Token → ℕ) (p : Poly) (d : ℕ) → formal_degree weight value p ≡ Some d → d ≤ 1000 }
{}

/// The names and numbers of a polynomial are those of its steps, in the same order.
pub fn tokens_of_steps()
    ensures names { (p : Poly) → names_of_steps (steps p) ≡ names_in (spelling p) }
    ensures numbers { (p : Poly) → numbers_of_steps (steps p) ≡ numbers_in (spelling p) }
{}
