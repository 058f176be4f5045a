//! Laws of lines. Each function's contract is proved here.

ghost use Rattle.std.specs.Prelude.{◌≡◌, ◌≤◌, ◌↔◌, ◌++◌, ℕ, List, codes};
ghost use Rattle.formal_sums.specs.FormalSums.{Each};
ghost use Rattle.term_lists.specs.Vectors.{HasPositions};
ghost use Rattle.term_lists.specs.declared.key.Key.{Key as KeyValue};
ghost use Rattle.term_lists.specs.declared.ring.Ring.{Ring as RingValue};
ghost use Rattle.poly_text.specs.Names.{AreDistinctNames};
ghost use Rattle.poly_text.specs.Texts.{names_of};
ghost use Rattle.script_parse.specs.Statements.{IsSameStatement};
ghost use Rattle.script_parse.specs.declared.kind.Kind.{Kind as KindValue};
ghost use Rattle.script_parse.specs.declared.stated.Statement.{Statement as StatementValue};
ghost use Rattle.script_parse.specs.declared.stated.Statement.TheVariants as statements;
ghost use Rattle.session_lang.specs.Lines.{Line, RefusesLine, RefusesReading, RunOf, StatesLine};
ghost use Rattle.session_lang.specs.Runs.{MayRun, runs_for, runs_for_both};
ghost use Rattle.session_values.specs.Answers.{AreMembersOf, IsAnswer, IsOneModule, basis};
ghost use Rattle.session_values.specs.Names.{ScriptState, Value, after_run};
ghost use Rattle.session_values.specs.Texts.{heading};

/// A line that is done has one state behind it and one text, a refused one has one kind, and no line is both: so what a
/// script prints is its own, whatever engine found the bases.
pub fn one_result()
    ensures done { (before : ScriptState) (line : List ℕ) (p q : ScriptState) (x y : List ℕ) → Line before line p x → Line before line q y → (p ≡ q) × (x ≡ y) }
    ensures kind { (before : ScriptState) (line : List ℕ) (j k : KindValue) → RefusesLine before line j → RefusesLine before line k → j ≡ k }
    ensures apart { (before : ScriptState) (line : List ℕ) (p : ScriptState) (x : List ℕ) (kind : KindValue) → Line before line p x → RefusesLine before line kind → ⊥ }
{}

/// Of two values of one rank `gb` prints the same members exactly where they generate one module (IVA chapter 2, section 7):
/// what it prints behind its heading is the module's own, by whatever list the value was given. The variables of the ring have
/// names of their own, as those of every ring that a line states.
pub fn same_members()
    ensures names { (before : ScriptState) (line : List ℕ) (ring : RingValue) → StatesLine before line (statements.Ring ring) → AreDistinctNames (names_of ring) }
    ensures printed { (ring : RingValue) (value : Value) (members : List ℕ) → AreMembersOf ring value members
        → (count : ℕ) × IsAnswer ring value basis (heading (codes "gb") value.name count ++ members) }
    ensures same { (ring : RingValue) (left right : Value) (x y : List ℕ) → AreDistinctNames (names_of ring) → left.rank ≡ right.rank
        → Each (HasPositions left.rank) left.list → Each (HasPositions right.rank) right.list
        → AreMembersOf ring left x → AreMembersOf ring right y → (x ≡ y) ↔ IsOneModule ring left.list right.list }
{}

/// A line states one thing at most, and one that is refused as it is read states nothing: so the statement of which a stop
/// speaks is the line's own.
pub fn one_statement()
    ensures same { (before : ScriptState) (line : List ℕ) (s t : StatementValue) → StatesLine before line s → StatesLine before line t → IsSameStatement s t }
    ensures apart { (before : ScriptState) (line : List ℕ) (s : StatementValue) (kind : KindValue) → StatesLine before line s → RefusesReading before line kind → ⊥ }
{}

/// A line that is refused as it is read needs no run: so no budget of pairs and no degree in a run stops a script at such a
/// line.
pub fn no_run_of_refused()
    ensures { (before : ScriptState) (line : List ℕ) (kind : KindValue) (ring : RingValue) (rank : ℕ) (list : List (List (KeyValue × ℕ)))
        → RefusesReading before line kind → RunOf before line ring rank list → ⊥ }
{}

/// A line runs the engine for one value once at most, by whatever names it asks for it; and once the value's reduced basis is kept no
/// line runs it again, until the name is given anew or a ring is stated. All that a line needs takes five runs at most.
pub fn few_runs()
    ensures value { (before : ScriptState) (name : List ℕ) → runs_for before name ≤ 1 }
    ensures kept { (before : ScriptState) (name : List ℕ) → runs_for (after_run name before) name ≡ 0 }
    ensures both { (before : ScriptState) (name : List ℕ) → runs_for_both before name name ≤ 1 }
    ensures line { (before : ScriptState) (statement : StatementValue) (most : ℕ) → MayRun before statement most → most ≤ 5 }
{}
