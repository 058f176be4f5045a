//! Laws of lines: one thing is true of each.

ghost use Rattle.std.specs.Prelude.{◌≡◌, ℕ, List, Option};
ghost use Rattle.term_lists.specs.declared.ring.Ring.{Ring as RingValue};
ghost use Rattle.script_parse.specs.Refusals.{Refuses};
ghost use Rattle.script_parse.specs.Statements.{IsSameStatement, States};
ghost use Rattle.script_parse.specs.declared.named.NameInfo.{NameInfo as NameValue};
ghost use Rattle.script_parse.specs.declared.kind.Kind.{Kind as KindValue};
ghost use Rattle.script_parse.specs.declared.stated.Statement.{Statement as StatementValue};

/// A line states one statement, or is refused for one kind, and not both.
pub fn one_answer()
    ensures statement { (ring : Option RingValue) (names : List NameValue) (line : List ℕ) (a b : StatementValue) → States ring names line a → States ring names line b → IsSameStatement a b }
    ensures kind { (ring : Option RingValue) (names : List NameValue) (line : List ℕ) (a b : KindValue) → Refuses ring names line a → Refuses ring names line b → a ≡ b }
    ensures apart { (ring : Option RingValue) (names : List NameValue) (line : List ℕ) (a : StatementValue) (b : KindValue) → States ring names line a → Refuses ring names line b → ⊥ }
{}
