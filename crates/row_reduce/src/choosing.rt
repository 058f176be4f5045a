// Which pending rows the next pass is over.
ghost use Rattle.std.specs.Prelude.{◌≡◌, ◌<◌, ◌≤◌, ◌++◌, ℕ, length, IfOk};
ghost use Rattle.std.specs.List.Sorted.{IsPermutation};
ghost use Rattle.formal_sums.specs.FormalSums.{Each};
ghost use Rattle.row_reduce.specs.Echelons.{AreBetween};

use module_vectors::NoMemory;
use row_matrix::Row;
use std::alloc::Global;

// After so many additions for each helper a pass ends, so that each helper soon reads what the others left.
const PART: usize = 4_000_000;

/// The numbers of the rows of the next pass, those of the rows for later ones, and how many helpers the pass has.
#[derive(Drop)]
pub(crate) struct Chosen {
    pub(crate) now: Vec<u64>,
    // How many of them, the first, have a free column each.
    pub(crate) free: usize,
    pub(crate) later: Vec<u64>,
    pub(crate) helpers: u32,
}

// The pending rows in two parts.
#[derive(Drop)]
struct Parts {
    first: Vec<u64>,
    others: Vec<u64>,
}

// The first pending row of each column that no row has yet, and the others.
fn free_rows(
    alloc: Global,
    leads: &[u64],
    held: &[Option<u64>],
    pending: &[u64],
) -> Result<Parts, NoMemory>
    requires known { Each (λ k. k < length leads.now) pending.now }
    requires within { Each (λ c. c < length held.now) leads.now }
    ensures { IfOk result (λ parts. IsPermutation pending.now (parts.first.items ++ parts.others.items)) }
{
    let mut parts = Parts {
        first: Vec::new(alloc),
        others: Vec::with_capacity(alloc, pending.len())?,
    };
    let mut taken = vec![in alloc; false; held.len()]?;
    for i in 0..pending.len() {
        let column = leads[pending[i] as usize] as usize;
        if taken[column] || held[column].is_some() {
            parts.others.push(pending[i])?;
        } else {
            parts.first.push(pending[i])?;
        }
        taken[column] = true;
    }
    Ok(parts)
}

// About how many entries a row has.
fn average(rows: &[Row]) -> usize {
    let mut all: usize = 0;
    for row in rows {
        all = all.saturating_add(row.entries().len());
    }
    all / rows.len().max(1)
}

// How many of these rows make so many additions of a product, or all of them; one at least where there is one. For each entry of a row
// there are about as many as a row has entries. And about how many additions these rows make.
fn enough(rows: &[Row], numbers: &[u64], most: usize) -> (usize, usize)
    requires { Each (λ k. k < length rows.now) numbers.now }
    ensures within { result.0 ≤ length numbers.now }
    ensures some { 0 < length numbers.now → 0 < result.0 }
{
    let weight = average(rows);
    let mut made: usize = 0;
    for i in 0..numbers.len() {
        let entries = rows[numbers[i] as usize].entries().len();
        made = made.saturating_add(entries.saturating_mul(weight));
        if made >= most {
            return (i + 1, made);
        }
    }
    (numbers.len(), made)
}

// All pending rows at once, by one helper.
fn all_rows(alloc: Global, pending: &[u64]) -> Result<Chosen, NoMemory>
    ensures parts { IfOk result (λ c. IsPermutation pending.now (c.now.items ++ c.later.items)) }
    ensures now { IfOk result (λ c. c.now.items ≡ pending.now) }
{
    let now = Vec::from_slice(alloc, pending)?;
    Ok(Chosen {
        now,
        free: 0,
        later: Vec::new(alloc),
        helpers: 1,
    })
}

// The rows that have free columns, one of each, and so many of the others that all helpers have enough to do.
fn some_rows(alloc: Global, rows: &[Row], parts: Parts, helpers: u32) -> Result<Chosen, NoMemory>
    requires known { Each (λ k. k < length rows.now) parts.others.items }
    requires some { 0 < length (parts.first.items ++ parts.others.items) }
    ensures parts { IfOk result (λ c. (c.now.items ++ c.later.items) ≡ (parts.first.items ++ parts.others.items)) }
    ensures some { IfOk result (λ c. 0 < length c.now.items) }
{
    let Parts { first, mut others } = parts;
    let most = PART.saturating_mul(helpers as usize);
    let (count, _) = enough(rows, &others, most);
    let later = others.split_off(count)?;
    let free = first.len();
    let mut now = first;
    now.append(&mut others)?;
    Ok(Chosen {
        now,
        free,
        later,
        helpers,
    })
}

/// Which of the pending rows the next pass is over, one at least, and by how many of so many helpers.
///
/// One helper has all rows at once, since it reads what it left itself. So it is where there is too little work for threads of more:
/// for each `thread` additions a pass has one helper more. Several helpers have the first row of each free column at first, so that
/// each claims for these before others, and then as many others as keep all helpers at work for a few milliseconds: what one helper
/// leaves, the others read from the next pass on.
pub(crate) fn choose(
    alloc: Global,
    rows: &[Row],
    leads: &[u64],
    held: &[Option<u64>],
    pending: &[u64],
    helpers: u32,
    thread: usize,
) -> Result<Chosen, NoMemory>
    requires some { 0 < length pending.now }
    requires ready { (p inputs : ℕ) × AreBetween p (length held.now) inputs rows.now leads.now held.now pending.now }
    ensures parts { IfOk result (λ c. IsPermutation pending.now (c.now.items ++ c.later.items)) }
    ensures some { IfOk result (λ c. 0 < length c.now.items) }
{
    let most = helpers.min(u32::try_from(pending.len()).unwrap_or(u32::MAX));
    if most <= 1 {
        return all_rows(alloc, pending);
    }
    let parts = free_rows(alloc, leads, held, pending)?;
    let (_, work) = enough(rows, &parts.others, usize::MAX);
    let threads = u32::try_from(work / thread.max(1)).unwrap_or(u32::MAX);
    if threads == 0 {
        return all_rows(alloc, pending);
    }
    some_rows(alloc, rows, parts, most.min(threads.saturating_add(1)))
}
