// The table of Betti numbers, and what is read off it.
ghost use Rattle.std.specs.Prelude.{◌≡◌, ◌+◌, ◌≤◌, ◌⊎◌, ◌-ℤ◌, ◌≤ℤ◌, ℕ, List, None, IfOk, IfSome, OnOk, pos};
ghost use Rattle.formal_sums.specs.FormalSums.{Each, FormalSum};
ghost use Rattle.betti_laws.specs.Tables.{occurrences, step_count};
ghost use Rattle.minimal_laws.specs.Gradings.{GradedMaps};
ghost use Rattle.minimal_laws.specs.Minimal.{IsMinimal, Presents};
ghost use Rattle.term_lists.specs.Rings.{variables};
ghost use Rattle.vector_division.specs.Progress.{AreWeighed};
ghost use Rattle.resolution_maps.specs.Resolved.{AreJoined, columns_of};
ghost use Rattle.minimal_betti.specs.Graded.{graded_of};
ghost use Rattle.minimal_betti.specs.Growing.{IsTableTo};
ghost use Rattle.minimal_betti.specs.Tables.{IsLastStep, IsNone, IsRegularity, IsBettiTable};

use crate::counting::{NONE, count_of, least_from};
use module_vectors::{NoMemory, Ring, lawful_setting};
use resolution_maps::{Resolution, column_degrees};
use std::alloc::Global;

/// How many positions of this degree stand at this step; step 0 has the positions, step k the columns of map k.
#[derive(Clone, Copy)]
pub struct BettiEntry {
    pub step: u32,
    pub degree: u32,
    pub count: u64,
}

/// What a table tells of its module.
#[derive(Clone, Copy)]
pub struct TableInvariants {
    /// The greatest step with a count: the projective dimension.
    pub last_step: u32,
    /// The greatest degree less step with a count: the regularity.
    pub regularity: i64,
}

/// Puts the entries of a step behind those of the steps before it.
pub(crate) fn push_step(
    step: u32,
    degrees: &[u32],
    entries: &mut Vec<BettiEntry>,
) -> Result<(), NoMemory>
    ensures { (counts : ℕ → ℕ → ℕ) → ((d : ℕ) → counts step d ≡ occurrences d degrees.now)
        → IsTableTo counts entries.old.items step 0 → OnOk result (IsTableTo counts entries.new.items (step + 1) 0) }
{
    let mut from: u64 = 0;
    loop {
        let least = least_from(degrees, from);
        if least == NONE {
            return Ok(());
        }
        let degree = least as u32;
        let count = count_of(degrees, degree);
        entries.push(BettiEntry {
            step,
            degree,
            count,
        })?;
        from = least + 1;
    }
}

/// The step of the columns of map k, where it is below 2^32.
pub(crate) fn step_above(k: usize) -> Result<u32, NoMemory>
    ensures { IfOk result (λ step. step ≡ k + 1) }
{
    if k >= u32::MAX as usize {
        return Err(NoMemory);
    }
    Ok(k as u32 + 1)
}

/// How many positions of each degree stand at each step, by step and then degree; what is 0 is not listed. Where the resolution
/// is minimal, they are the counts of every minimal resolution of its module: the Betti numbers (UAG chapter 6, section 3).
/// `NoMemory` where there is none, and where the degree of a column or the number of maps is 2^32 or more.
pub fn table(
    alloc: Global,
    ring: &Ring,
    resolution: &Resolution,
) -> Result<Vec<BettiEntry>, NoMemory>
    requires joined { AreJoined ring.now resolution.now.positions.items resolution.now.maps.items }
    requires weighed { Each (AreWeighed (variables ring.now) ring.now.weights) (columns_of resolution.now) }
    ensures counts { let C = graded_of ring.now resolution.now in
        IfOk result (λ entries. IsBettiTable (step_count C.positions C.maps) entries.items) }
    ensures every { let ws = ring.now.weights in let p = ring.now.modulus.value in let C = graded_of ring.now resolution.now in
        (places : List ℕ) (A : List (FormalSum (variables ring.now))) (D : GradedMaps (variables ring.now))
        → IsMinimal ws p C → Presents ws p C places A → IsMinimal ws p D → Presents ws p D places A
        → IfOk result (λ entries. IsBettiTable (step_count D.positions D.maps) entries.items) }
{
    lawful_setting(ring);
    let mut entries = Vec::new(alloc);
    push_step(0, &resolution.positions, &mut entries)?;
    for k in 0..resolution.maps.len() {
        let map = &resolution.maps[k];
        let degrees = column_degrees(alloc, ring, &map.row_degrees, &map.columns)?;
        push_step(step_above(k)?, &degrees, &mut entries)?;
    }
    Ok(entries)
}

// The degree of an entry less its step.
fn excess(entry: &BettiEntry) -> i64
    ensures { result ≡ pos entry.now.degree -ℤ pos entry.now.step }
{
    i64::from(entry.degree) - i64::from(entry.step)
}

// What is read off one entry more.
fn with_entry(found: TableInvariants, entry: &BettiEntry) -> TableInvariants
    ensures last_step { (result.last_step ≡ found.last_step) × (entry.now.step ≤ found.last_step)
        ⊎ (result.last_step ≡ entry.now.step) × (found.last_step ≤ entry.now.step) }
    ensures regularity { let e = pos entry.now.degree -ℤ pos entry.now.step in
        (result.regularity ≡ found.regularity) × (e ≤ℤ found.regularity) ⊎ (result.regularity ≡ e) × (found.regularity ≤ℤ e) }
{
    TableInvariants {
        last_step: found.last_step.max(entry.step),
        regularity: found.regularity.max(excess(entry)),
    }
}

/// The last step and the regularity of a table, or none where it has no entry.
pub fn invariants(entries: &[BettiEntry]) -> Option<TableInvariants>
    ensures none { (counts : ℕ → ℕ → ℕ) → IsBettiTable counts entries.now → result ≡ None → IsNone counts }
    ensures last_step { (counts : ℕ → ℕ → ℕ) → IsBettiTable counts entries.now → IfSome result (λ i. IsLastStep counts i.last_step) }
    ensures regularity { (counts : ℕ → ℕ → ℕ) → IsBettiTable counts entries.now → IfSome result (λ i. IsRegularity counts i.regularity) }
{
    let (first, rest) = entries.split_first()?;
    let mut found = TableInvariants {
        last_step: first.step,
        regularity: excess(first),
    };
    for entry in rest {
        found = with_entry(found, entry);
    }
    Some(found)
}
