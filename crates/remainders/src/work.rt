// What a division has come to: its sums, what it knows of keys, and which numbers wait.
ghost use Rattle.std.specs.Prelude.{◌≡◌, ◌++◌, ◌∷◌, [], IfOk, List, OnOk};
ghost use Rattle.term_lists.specs.declared.key.Key.{Key};
ghost use Rattle.remainders.specs.Leaving.{AreEntriesOf, IsLonger};
ghost use Rattle.remainders.specs.UnderWay.{IsUnderWay};

use crate::hints::KeyHints;
use module_vectors::{NoMemory, Ring, Vect};
use monomial_orders::Mono;
use numbered_sums::add_multiple;
use row_matrix::{KeyTable, kept_number};
use std::alloc::Global;
use std::cmp::Reverse;
use std::collections::BinaryHeap;

/// Room for so many keys is there from the start, so that nothing grows where there are few.
pub(crate) const FIRST_KEYS: usize = 640;

// The same for keys that a lead divides.
const FIRST_FACTORS: usize = 400;

/// The place of factors that are not known.
pub(crate) const NOWHERE: u32 = u32::MAX;

/// A number that waits, behind the hint of its key. The greatest hint comes first, and of equal hints the least number: keys of the
/// vector have their numbers in its order.
pub(crate) type Waiting = (u64, Reverse<u32>);

/// For each number of a key the sum of what was added to it, whether it is known that no lead of the list divides the key, and else
/// the place of the factors whose product has the key as its lead, once they were looked for. Besides these the numbers whose sums
/// may not be 0, and those that wait for their residues to be taken away. That these wait in the right order is not proved: a wrong
/// one could but leave something.
pub(crate) struct Work {
    pub(crate) sums: Vec<u64>,
    pub(crate) touched: Vec<u32>,
    pub(crate) free: Vec<bool>,
    pub(crate) places: Vec<u32>,
    pub(crate) factors: Vec<(u64, Mono)>,
    pub(crate) hints: KeyHints,
    pub(crate) queue: BinaryHeap<Waiting>,
    pub(crate) room: Vec<(u32, u32)>,
}

// By hand, so that each drop of one is a call.
impl Drop for Work {
    fn drop(self) {
        let Work {
            sums: _,
            touched: _,
            free: _,
            places: _,
            factors: _,
            hints: _,
            queue: _,
            room: _,
        } = self;
    }
}

/// The entries of a vector as sums. Of keys nothing is known.
pub(crate) fn begin(
    alloc: Global,
    ring: &Ring,
    list: &[Vect],
    numbers: &KeyTable,
    v: &Vect,
    start: &[(u32, u32)],
) -> Result<Work, NoMemory>
    requires { AreEntriesOf ring.now numbers.now v.now start.now }
    ensures { IfOk result (IsUnderWay ring.now list.now numbers.now v.now) }
{
    let _list = list;
    let _v = v;
    let modulus = &ring.modulus;
    modulus.domain();
    let count = numbers.len();
    let mut sums = Vec::with_capacity(alloc, FIRST_KEYS)?;
    sums.resize(count, 0)?;
    let mut touched = Vec::with_capacity(alloc, FIRST_KEYS)?;
    add_multiple(modulus, 1, start, sums.as_mut_slice(), &mut touched)?;
    let mut free = Vec::with_capacity(alloc, FIRST_KEYS)?;
    free.resize(count, false)?;
    let mut places = Vec::with_capacity(alloc, FIRST_KEYS)?;
    places.resize(count, NOWHERE)?;
    Ok(Work {
        sums,
        touched,
        free,
        places,
        factors: Vec::with_capacity(alloc, FIRST_FACTORS)?,
        hints: KeyHints::of(alloc, ring)?,
        queue: BinaryHeap::with_capacity(alloc, FIRST_FACTORS)?,
        room: Vec::new(alloc),
    })
}

// Makes room for the places of so many numbers, and more, so that it is not asked for often.
fn widen_places(count: usize, places: &mut Vec<u32>) -> Result<(), NoMemory> {
    if places.len() < count {
        places.resize(count.saturating_mul(2), NOWHERE)?;
    }
    Ok(())
}

/// Makes the sums as many as the keys, and so what is known of keys. Of those that have come nothing is known.
pub(crate) fn widen(
    ring: &Ring,
    list: &[Vect],
    numbers: &KeyTable,
    v: &Vect,
    work: &mut Work,
) -> Result<(), NoMemory>
    requires { (keys : List Key) × IsLonger keys numbers.now × IsUnderWay ring.now list.now keys v.now work.old }
    ensures { OnOk result (IsUnderWay ring.now list.now numbers.now v.now work.new) }
{
    let _ring = ring;
    let _list = list;
    let _v = v;
    let count = numbers.len();
    work.sums.resize(count, 0)?;
    work.free.resize(count, false)?;
    widen_places(count, &mut work.places)?;
    Ok(())
}

/// Lets the number wait, if it is to.
pub(crate) fn wait(
    ring: &Ring,
    numbers: &KeyTable,
    number: u32,
    waits: bool,
    hints: &KeyHints,
    queue: &mut BinaryHeap<Waiting>,
) -> Result<(), NoMemory> {
    let keys = numbers.keys();
    let at = number as usize;
    if waits && at < keys.len() {
        queue.push((hints.hint(ring, &keys[at]), Reverse(number)))?;
    }
    Ok(())
}

/// Keeps the factors, a vector's index and a monomial, whose product has the key with this number as its lead.
pub(crate) fn keep_factors(
    number: u32,
    found: (u64, Mono),
    places: &mut Vec<u32>,
    factors: &mut Vec<(u64, Mono)>,
) -> Result<(), NoMemory>
    ensures { OnOk result (factors.new.items ≡ factors.old.items ++ found ∷ []) }
{
    let at = number as usize;
    if at < places.len() {
        places[at] = kept_number(factors.len())?;
    }
    factors.push(found)?;
    Ok(())
}
