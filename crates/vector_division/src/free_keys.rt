// Keys that no lead of a list divides, found by hashes.
ghost use Rattle.std.specs.Prelude.{◌≡◌, ◌<◌, ◌≤◌, ◌+◌, ◌++◌, ◌∷◌, [], ℕ, Contains, IfOk, IfSome, IsTrue, OnOk, length};
ghost use Rattle.formal_sums.specs.FormalSums.{Each};
ghost use Rattle.term_lists.specs.Rings.{variables};
ghost use Rattle.term_lists.specs.Vectors.{key_of, AreVectorsOver, IsMonomialOver};
ghost use Rattle.vector_division.specs.Divisors.{AreDivisors, AreFreeKeys, HaveNumbers};
ghost use Rattle.vector_division.specs.Progress.{AreWeighed, IsFound};

use crate::divisors::{Divisor, find_divisor};
use module_vectors::{Frame, Key, NoMemory, Vectors};
use monomial_orders::Mono;
use std::alloc::Global;
use std::marker::Model;

// An odd number with its bits spread, for hashing by multiplication (Knuth, *The Art of Computer Programming*, volume
// 3, section 6.4).
const SPREAD: u64 = 11400714819323198485;

// Exponents are hashed as digits to this base, by which a multiplication is a shift and a subtraction.
const DIGIT: u64 = 31;

// A key stands in one of so many slots. One that finds all of them taken is not found again, which costs a search for a divisor.
const TRIED: usize = 8;

const FIRST_SLOTS: usize = 64;

/// Keys that are known to be divisible by no lead of a list, so that a division need not look for a divisor. Contracts see their list.
pub struct FreeKeys {
    keys: Vec<Key>,
    // the number of a key, from 1, or 0 for an empty slot
    slots: Vec<usize>,
}

// By hand, so that each drop of one is a call.
impl Drop for FreeKeys {
    fn drop(self) {
        let FreeKeys { keys: _, slots: _ } = self;
    }
}

impl Model for FreeKeys {
    ghost use Rattle.std.specs.Prelude.{List, length};
    ghost use Rattle.term_lists.specs.declared.key.Key.{Key};
    ghost use Rattle.vector_division.specs.Divisors.{HaveNumbers};

    ghost Value = { List Key };

    ghost view = { λ f. f.keys.items };

    ghost invariant = { λ f. HaveNumbers (length f.keys.items) f.slots.items };
}

// The first of the slots for a key, where there are so many slots.
fn first_slot(count: usize, key: &Key) -> usize
    requires { 8 < count }
    ensures { result + 8 ≤ count }
{
    let mut hash = key.position;
    for exponent in key.monomial.exponents() {
        hash = hash.wrapping_mul(DIGIT).wrapping_add(u64::from(*exponent));
    }
    let spread = hash.wrapping_mul(SPREAD);
    ((u128::from(spread) * (count - TRIED) as u128) >> 64) as usize
}

// The first empty slot of those for a key.
fn empty_slot(slots: &[usize], key: &Key) -> Option<usize>
    requires { 8 < length slots.now }
    ensures { IfSome result (λ slot. slot < length slots.now) }
{
    let first = first_slot(slots.len(), key);
    for step in 0..TRIED {
        if slots[first + step] == 0 {
            return Some(first + step);
        }
    }
    None
}

// Puts the number of a key, from 1, into the first empty slot of those for it, if there is one.
fn fill_slot(slots: &mut Vec<usize>, key: &Key, number: usize)
    requires { 8 < length slots.old.items }
    ensures count { length slots.new.items ≡ length slots.old.items }
    ensures numbers { (count : ℕ) → HaveNumbers count slots.old.items → number ≤ count → HaveNumbers count slots.new.items }
{
    if let Some(slot) = empty_slot(slots, key) {
        slots[slot] = number;
    }
}

// Takes four slots to a key where there are no more than two, and at least so many.
fn widen(alloc: Global, keys: &[Key], slots: &mut Vec<usize>) -> Result<(), NoMemory>
    requires { HaveNumbers (length keys.now) slots.old.items }
    ensures numbers { HaveNumbers (length keys.now) slots.new.items }
    ensures some { OnOk result (8 < length slots.new.items) }
{
    if slots.len() > 2 * keys.len() + TRIED {
        return Ok(());
    }
    let mut wide = vec![in alloc; 0; 4 * keys.len() + FIRST_SLOTS]?;
    for i in 0..keys.len() {
        fill_slot(&mut wide, &keys[i], i + 1);
    }
    *slots = wide;
    Ok(())
}

impl FreeKeys {
    /// No keys, without taking memory.
    pub fn new(alloc: Global) -> FreeKeys
        ensures { result ≡ [] }
    {
        FreeKeys {
            keys: Vec::new(alloc),
            slots: Vec::new(alloc),
        }
    }

    /// Is it one of the keys?
    pub(crate) fn has(&self, key: &Key) -> bool
        ensures { IsTrue result → Contains self.now key.now }
    {
        let count = self.slots.len();
        if count <= TRIED {
            return false;
        }
        let first = first_slot(count, key);
        for step in 0..TRIED {
            let number = self.slots[first + step];
            if number == 0 {
                return false;
            }
            if self.keys[number - 1].equal(key) {
                return true;
            }
        }
        false
    }

    // Puts a copy of the key behind the others.
    fn put(&mut self, alloc: Global, key: &Key) -> Result<(), NoMemory>
        ensures { OnOk result (self.new ≡ self.old ++ key.now ∷ []) }
    {
        widen(alloc, &self.keys, &mut self.slots)?;
        let copy = key.try_copy(alloc)?;
        self.keys.push(copy)?;
        fill_slot(&mut self.slots, key, self.keys.len());
        Ok(())
    }

    // Puts the key behind the others where it is not one of them and no lead of the list divides it.
    fn put_if_free<F: Frame, L: Vectors>(
        &mut self,
        alloc: Global,
        frame: &F,
        key: &Key,
        list: &L,
        divisors: &[Divisor],
    ) -> Result<(), NoMemory>
        requires key { IsMonomialOver (F.over frame.now) key.now.monomial }
        requires list { AreVectorsOver (F.over frame.now) (F.compare frame.now) (L.listed list.now) }
        requires divisors { AreDivisors (variables (F.over frame.now)) (L.listed list.now) divisors.now }
        requires free { AreFreeKeys (variables (F.over frame.now)) (L.listed list.now) self.old }
        ensures { OnOk result (AreFreeKeys (variables (F.over frame.now)) (L.listed list.now) self.new) }
    {
        if self.has(key) {
            return Ok(());
        }
        match find_divisor(alloc, frame, key, list, divisors)? {
            Some(_) => Ok(()),
            None => self.put(alloc, key),
        }
    }

    /// Puts those keys of the terms behind the others that no lead of the list divides, each once. `NoMemory` where there is none.
    pub fn put_free<F: Frame, L: Vectors>(
        &mut self,
        alloc: Global,
        frame: &F,
        terms: &[(Key, u32)],
        list: &L,
        divisors: &[Divisor],
    ) -> Result<(), NoMemory>
        requires terms { Each (λ t. IsMonomialOver (F.over frame.now) t.0.monomial) terms.now }
        requires list { AreVectorsOver (F.over frame.now) (F.compare frame.now) (L.listed list.now) }
        requires divisors { AreDivisors (variables (F.over frame.now)) (L.listed list.now) divisors.now }
        requires free { AreFreeKeys (variables (F.over frame.now)) (L.listed list.now) self.old }
        ensures { OnOk result (AreFreeKeys (variables (F.over frame.now)) (L.listed list.now) self.new) }
    {
        for term in terms {
            match self.put_if_free(alloc, frame, &term.0, list, divisors) {
                Ok(()) => {}
                Err(NoMemory) => return Err(NoMemory),
            }
        }
        Ok(())
    }
}

/// The first of the divisors whose lead divides the key, as `find_divisor` gives it: none is looked for where the key is one of
/// these, which no lead of the list divides.
#[inline(always)]
pub(crate) fn find_unless_free<F: Frame, L: Vectors>(
    alloc: Global,
    frame: &F,
    key: &Key,
    list: &L,
    divisors: &[Divisor],
    free: &FreeKeys,
) -> Result<Option<(usize, Mono)>, NoMemory>
    requires key { IsMonomialOver (F.over frame.now) key.now.monomial }
    requires list { AreWeighed (variables (F.over frame.now)) (F.over frame.now).weights (L.listed list.now) }
    requires divisors { AreDivisors (variables (F.over frame.now)) (L.listed list.now) divisors.now }
    requires free { AreFreeKeys (variables (F.over frame.now)) (L.listed list.now) free.now }
    ensures { let n = variables (F.over frame.now) in IfOk result (IsFound n (F.over frame.now).weights (L.listed list.now) (key_of n key.now)) }
{
    if free.has(key) {
        return Ok(None);
    }
    find_divisor(alloc, frame, key, list, divisors)
}
