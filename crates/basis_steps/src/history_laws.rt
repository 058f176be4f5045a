//! What a history says of each worker.

ghost use Rattle.std.specs.Prelude.{ℕ, Bool, ◌≡◌, ◌<◌, ◌++◌, List, [], None, Some, false, get_or, length, true};
ghost use Rattle.basis_steps.specs.Pairs.{Pair};
ghost use Rattle.basis_steps.specs.States.{Event, Member, Run, State, StopReason, job_of};
ghost use Rattle.basis_steps.specs.Histories.{HasStopped, has_ended, job_after, members_made, own_events, took_since};
ghost use Rattle.basis_steps.specs.Steps.{Reaches, Replays, ReplaysFrom, Step, begun_of};
ghost use Rattle.basis_steps.specs.Trails.{HasGiven};

/// What is true of a worker in a state that replays its history is read from the history: its job, which a Take gave, whether it
/// has ended, and that a stop is kept where somebody has stopped. The members are those of the beginning and those of the Puts.
pub fn replayed_workers()
    ensures job { (n : ℕ) (r : Run n) (s : State n) (w : ℕ)
        → Replays r s → job_of w s.out ≡ job_after w s.history [] }
    ensures given { (n : ℕ) (r : Run n) (s : State n) (w : ℕ)
        → Replays r s → 0 < length (job_of w s.out) → HasGiven s.history (job_of w s.out) }
    ensures ended { (n : ℕ) (r : Run n) (s : State n) (w : ℕ)
        → Replays r s → w < r.workers → get_or s.ended w true ≡ has_ended w s.history false }
    ensures stopped { (n : ℕ) (r : Run n) (s : State n) (w : ℕ)
        → Replays r s → HasStopped w s.history → s.stop ≡ None → ⊥ }
    ensures members { (n : ℕ) (r : Run n) (begun : List (Member n)) (s : State n)
        → ReplaysFrom r begun s → s.members ≡ begun ++ members_made s.history }
    ensures replays { (n : ℕ) (r : Run n) (begun : List (Member n)) (s : State n)
        → ReplaysFrom r begun s → Replays r s }
    ensures begun { (n : ℕ) (r : Run n) (s : State n)
        → Replays r s → ReplaysFrom r (begun_of s) s }
    ensures more { (n : ℕ) (r : Run n) (begun : List (Member n)) (s t : State n) (e : Event n)
        → ReplaysFrom r begun s → Step r s e t → ReplaysFrom r begun t }
{}

/// A worker's own events tell its job, whether it has ended, its Takes since its last End and its Stop: those of others
/// change none of these.
pub fn own_parts()
    ensures job { (n : ℕ) (w : ℕ) (es : List (Event n)) (job : List Pair)
        → job_after w (own_events w es) job ≡ job_after w es job }
    ensures ended { (n : ℕ) (w : ℕ) (es : List (Event n)) (ended : Bool)
        → has_ended w (own_events w es) ended ≡ has_ended w es ended }
    ensures took { (n : ℕ) (w : ℕ) (es : List (Event n)) (took : Bool)
        → took_since w (own_events w es) took ≡ took_since w es took }
    ensures stopped { (n : ℕ) (w : ℕ) (es : List (Event n))
        → HasStopped w es → HasStopped w (own_events w es) }
    ensures append { (n : ℕ) (w : ℕ) (es later : List (Event n))
        → own_events w (es ++ later) ≡ own_events w es ++ own_events w later }
{}

/// As events go on, the history and the members grow by what they name, and a stop that is kept stays.
pub fn later_events()
    ensures history { (n : ℕ) (r : Run n) (s t : State n) (es : List (Event n))
        → Reaches r s es t → t.history ≡ s.history ++ es }
    ensures members { (n : ℕ) (r : Run n) (s t : State n) (es : List (Event n))
        → Reaches r s es t → t.members ≡ s.members ++ members_made es }
    ensures stop { (n : ℕ) (r : Run n) (s t : State n) (es : List (Event n)) (reason : StopReason n)
        → Reaches r s es t → s.stop ≡ Some reason → t.stop ≡ Some reason }
{}
