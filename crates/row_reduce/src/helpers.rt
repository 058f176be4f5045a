// All helpers of a pass: the first in the caller's thread, others in threads of their own, as many as there is work for.
ghost use Rattle.std.specs.Prelude.{◌≡◌, ◌<◌, ◌≤◌, ◌++◌, [], List, ℕ, length, IfOk};
ghost use Rattle.std.specs.List.Sorted.{IsPermutation};
ghost use Rattle.std.specs.Thread.{IsSync};
ghost use Rattle.formal_sums.specs.FormalSums.{Each};
ghost use Rattle.pivot_table.specs.Law.{IsSeatOf, LeadsFit, told};
ghost use Rattle.pivot_table.specs.declared.law.Entry.{Entry as Told};
ghost use Rattle.row_matrix.specs.Rows.{RowShown};
ghost use Rattle.dense_reduction.specs.Words.{AreRowsReady};
ghost use Rattle.row_reduce.specs.Passes.{AreHelped, IsPass};

use crate::helping::help;
use dense_reduction::{Left, PassShared};
use module_vectors::NoMemory;
use pivot_table::{ClaimSeat, Claims};
use row_matrix::Row;
use std::alloc::Global;
use std::thread::{Threads, join};
use worker_gate::SharedGate;
use zp_field::Modulus;

// Rows for the last of so many helpers, each n-th one, and for those before it.
struct Dealt {
    last: Vec<u64>,
    others: Vec<u64>,
}

// By hand, so that each drop of one is a call.
impl Drop for Dealt {
    fn drop(self) {
        let Dealt { last: _, others: _ } = self;
    }
}

// Deals rows to n helpers in turn, those of the last apart.
fn deal(alloc: Global, mine: &[u64], n: u32) -> Result<Dealt, NoMemory>
    requires { 1 < n }
    ensures { IfOk result (λ d. IsPermutation mine.now (d.others.items ++ d.last.items)) }
{
    let mut dealt = Dealt {
        last: Vec::new(alloc),
        others: Vec::with_capacity(alloc, mine.len())?,
    };
    for i in 0..mine.len() {
        if i % n as usize == n as usize - 1 {
            dealt.last.push(mine[i])?;
        } else {
            dealt.others.push(mine[i])?;
        }
    }
    Ok(dealt)
}

// What both left, in one list.
fn gather(
    ours: Result<Vec<Left>, NoMemory>,
    theirs: Result<Vec<Left>, NoMemory>,
) -> Result<Vec<Left>, NoMemory>
    ensures { (p columns inputs : ℕ) (rows : List RowShown) (mine more : List ℕ) (known new : List Told)
        → IfOk ours (λ left. AreHelped p columns inputs rows mine known left.items)
        → IfOk theirs (λ left. AreHelped p columns inputs rows more new left.items)
        → IfOk result (λ left. AreHelped p columns inputs rows (mine ++ more) (known ++ new) left.items) }
{
    let mut left = ours?;
    let mut more = theirs?;
    left.append(&mut more)?;
    Ok(left)
}

// What both left, and one seat that was told what both were.
fn unite(
    claims: &Claims,
    ours: (Result<Vec<Left>, NoMemory>, ClaimSeat),
    theirs: (Result<Vec<Left>, NoMemory>, ClaimSeat),
) -> (Result<Vec<Left>, NoMemory>, ClaimSeat)
    requires { IsSeatOf claims.now.table.shared.table_id claims.now.rows.leads.items ours.1
        × IsSeatOf claims.now.table.shared.table_id claims.now.rows.leads.items theirs.1 }
    ensures seat { IsSeatOf claims.now.table.shared.table_id claims.now.rows.leads.items result.1 }
    ensures helped { (p columns inputs : ℕ) (rows : List RowShown) (mine more : List ℕ)
        → IfOk ours.0 (λ left. AreHelped p columns inputs rows mine (told ours.1) left.items)
        → IfOk theirs.0 (λ left. AreHelped p columns inputs rows more (told theirs.1) left.items)
        → IfOk result.0 (λ left. AreHelped p columns inputs rows (mine ++ more) (told result.1) left.items) }
{
    let (left, mut seat) = ours;
    let (more, other) = theirs;
    claims.join(&mut seat, other);
    (gather(left, more), seat)
}

// The helpers below n side by side, of which the seat is the first's: helper h has the rows h, h + n, and so on. Each claims free
// columns for the rows `free`, from a share of its own on.
fn help_all<R: Threads + Sync>(
    rt: &R,
    alloc: Global,
    shared: PassShared<'_>,
    columns: usize,
    gate: &SharedGate,
    mut seat: ClaimSeat,
    mine: &[u64],
    n: u32,
    free: &[u64],
    share: usize,
) -> (Result<Vec<Left>, NoMemory>, ClaimSeat)
    requires ready { AreRowsReady shared.modulus.now.value columns shared.inputs shared.rows.now
        shared.claims.now.rows.leads.items shared.claims.now.rows.held.items }
    requires seat { IsSeatOf shared.claims.now.table.shared.table_id shared.claims.now.rows.leads.items seat }
    requires fresh { told seat ≡ [] }
    requires mine { Each (λ m. m < length shared.rows.now) mine.now }
    requires free { Each (λ m. m < length shared.rows.now) free.now }
    ensures seat { IsSeatOf shared.entry.claims.now.table.shared.table_id shared.entry.claims.now.rows.leads.items result.1 }
    ensures helped { IfOk result.0 (λ left. AreHelped shared.entry.modulus.now.value columns shared.entry.inputs shared.entry.rows.now
        mine.now (told result.1) left.items) }
{
    if n <= 1 {
        return help(alloc, shared, columns, gate, 0, seat, mine, free, 0);
    }
    let last = n - 1;
    let from = share.saturating_mul(last as usize);
    let dealt = match deal(alloc, mine, n) {
        Ok(dealt) => dealt,
        Err(stop) => return (Err(stop), seat),
    };
    let (late, others) = (dealt.last.as_slice(), dealt.others.as_slice());
    let other = shared.claims.split(&mut seat);
    // Nothing is known of what a closure returns that holds a struct of references, so these hold each apart.
    let PassShared {
        modulus,
        rows,
        inputs,
        claims,
    } = shared;
    let (theirs, ours) = join(
        rt,
        || -> (Result<Vec<Left>, NoMemory>, ClaimSeat)
            requires { AreRowsReady modulus.now.value columns inputs rows.now claims.now.rows.leads.items claims.now.rows.held.items
                × IsSeatOf claims.now.table.shared.table_id claims.now.rows.leads.items other
                × (told other ≡ []) × Each (λ m. m < length rows.now) late.now × Each (λ m. m < length rows.now) free.now }
            ensures { IsSeatOf claims.entry.now.table.shared.table_id claims.entry.now.rows.leads.items result.1
                × IfOk result.0 (λ left. AreHelped modulus.entry.now.value columns inputs rows.entry.now late.entry.now (told result.1) left.items) }
        {
            let shared = PassShared {
                modulus,
                rows,
                inputs,
                claims,
            };
            help(alloc, shared, columns, gate, last, other, late, free, from)
        },
        || -> (Result<Vec<Left>, NoMemory>, ClaimSeat)
            requires { IsSync R.row × AreRowsReady modulus.now.value columns inputs rows.now claims.now.rows.leads.items claims.now.rows.held.items
                × IsSeatOf claims.now.table.shared.table_id claims.now.rows.leads.items seat
                × (told seat ≡ []) × Each (λ m. m < length rows.now) others.now × Each (λ m. m < length rows.now) free.now }
            ensures { IsSeatOf claims.entry.now.table.shared.table_id claims.entry.now.rows.leads.items result.1
                × IfOk result.0 (λ left. AreHelped modulus.entry.now.value columns inputs rows.entry.now others.entry.now (told result.1) left.items) }
        {
            let shared = PassShared {
                modulus,
                rows,
                inputs,
                claims,
            };
            help_all(
                rt, alloc, shared, columns, gate, seat, others, last, free, share,
            )
        },
    );
    unite(claims, ours, theirs)
}

// The first of these rows, so many at most.
fn front(numbers: &[u64], count: usize) -> &[u64]
    ensures { (n : ℕ) → Each (λ m. m < n) numbers.now → Each (λ m. m < n) result.now }
{
    let end = count.min(numbers.len());
    &numbers[0..end]
}

/// The words at the end of a pass, and the rows left.
#[derive(Drop)]
pub(crate) struct Passed {
    pub(crate) words: Vec<Option<u64>>,
    pub(crate) left: Vec<Left>,
}

/// One pass over the rows with these numbers by so many helpers, where each column has the old row that `held` names, or none. The
/// first `free` of these rows have a free column each.
pub(crate) fn pass<R: Threads + Sync>(
    rt: &R,
    alloc: Global,
    modulus: &Modulus,
    gate: &SharedGate,
    rows: &[Row],
    inputs: usize,
    leads: &[u64],
    held: &[Option<u64>],
    pending: &[u64],
    free: usize,
    helpers: u32,
) -> Result<Passed, NoMemory>
    requires some { 0 < length held.now }
    requires ready { AreRowsReady modulus.now.value (length held.now) inputs rows.now leads.now held.now }
    requires fits { LeadsFit leads.now held.now }
    requires pending { Each (λ m. m < length rows.now) pending.now }
    ensures { IfOk result (λ p. IsPass modulus.now.value (length held.now) inputs rows.now held.now pending.now p.words.items p.left.items) }
{
    let (claims, seat) = match Claims::new(alloc, held.len() as u64, leads, held) {
        Ok(made) => made,
        Err(NoMemory) => return Err(NoMemory),
    };
    let shared = PassShared {
        modulus,
        rows,
        inputs,
        claims: &claims,
    };
    let first = front(pending, free);
    let share = first.len() / helpers.max(1) as usize;
    let (left, seat) = help_all(
        rt,
        alloc,
        shared,
        held.len(),
        gate,
        seat,
        pending,
        helpers,
        first,
        share,
    );
    let left = left?;
    let words = claims.close(seat);
    Ok(Passed { words, left })
}
