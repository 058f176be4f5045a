//! Counts of what happened: what it means that one rose. The functions' contracts are laws, proved here.
#![tactic(auto)]

ghost use Rattle.std.specs.Prelude.{ℕ, ◌+◌, ◌-◌, ◌<◌, ◌^◌, ◌≡◌, ◌≤◌};
ghost use Rattle.risen_counts.specs.Counts.{Rose, RoseAtMost, count_after, next_count};

/// The next count rose, and a count below 2^64 - 1 that rose is greater than before.
pub fn risen_counts()
    ensures next { (before : ℕ) → Rose before (next_count before) }
    ensures greater { (before now : ℕ) → before < 2 ^ 64 - 1 → Rose before now → before + 1 ≤ now }
{}

/// What happened so often, and so often again, happened as often as both together; what did not happen is within any bound.
pub fn counted_times()
    ensures both { (first second count : ℕ) → count_after second (count_after first count) ≡ count_after (first + second) count }
    ensures none { (most count : ℕ) → RoseAtMost most count count }
    ensures once { (most before : ℕ) → 1 ≤ most → RoseAtMost most before (next_count before) }
    ensures more { (less most before now : ℕ) → less ≤ most → RoseAtMost less before now → RoseAtMost most before now }
    ensures twice { (first second before between now : ℕ)
        → RoseAtMost first before between → RoseAtMost second between now → RoseAtMost (first + second) before now }
{}
