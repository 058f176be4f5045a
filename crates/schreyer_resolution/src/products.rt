// Products of columns over numbers of their keys, each made once for all columns of the next map.
ghost use Rattle.std.specs.Prelude.{◌≡◌, ◌<◌, ◌≤◌, ◌+◌, ◌++◌, ◌∷◌, [], OnOk, length, get_or, true};
ghost use Rattle.formal_sums.specs.FormalSums.{Each};
ghost use Rattle.term_lists.specs.Rings.{variables};
ghost use Rattle.term_lists.specs.Vectors.{IsMonomialOver};
ghost use Rattle.vector_division.specs.Progress.{AreWeighed};
ghost use Rattle.row_matrix.specs.Hashes.{factor_hash, hash_of, no_key};
ghost use Rattle.row_matrix.specs.Told.{TellsProduct};
ghost use Rattle.induced_leads.specs.Pairs.{AreNonzero};
ghost use Rattle.induced_leads.specs.Spans.{IsIndexOf};
ghost use Rattle.schreyer_resolution.specs.FreeKeys.{AreFreeNumbers, HasMore};
ghost use Rattle.schreyer_resolution.specs.Sharing.{ArePartProducts, IsEntryPushed, IsFoundProduct, row_at};

use induced_leads::{LeadIndex, last_divisor};
use module_vectors::{Key, NoMemory, Ring, Vect};
use monomial_orders::{Mono, MonoStop};
use row_matrix::{KeyTable, ProductStop, kept_number};
use std::alloc::Global;

/// Where the entries of a product stand among those of all products.
#[derive(Clone, Copy)]
pub(crate) struct Stretch {
    pub(crate) from: usize,
    pub(crate) to: usize,
}

/// The product of a monomial and the column with this index, the last one that divides the key with this number; and where its entries
/// stand, once they are made.
pub(crate) struct Product {
    pub(crate) number: u32,
    pub(crate) index: u64,
    pub(crate) monomial: Mono,
    pub(crate) stretch: Stretch,
}

// By hand, so that each drop of one is a call.
impl Drop for Product {
    fn drop(self) {
        let Product {
            number: _,
            index: _,
            monomial: _,
            stretch: _,
        } = self;
    }
}

/// Products that share the numbers of their keys. `free` says of each number whether no lead divides its key; to each other number there
/// is a product in the list. The entries of a product are those without a free key, each a number and a residue.
pub(crate) struct Products {
    pub(crate) numbers: KeyTable,
    pub(crate) free: Vec<bool>,
    pub(crate) list: Vec<Product>,
    pub(crate) entries: Vec<(u32, u32)>,
}

// By hand, so that each drop of one is a call.
impl Drop for Products {
    fn drop(self) {
        let Products {
            numbers: _,
            free: _,
            list: _,
            entries: _,
        } = self;
    }
}

/// The entries that stand there.
pub(crate) fn row_of(entries: &[(u32, u32)], stretch: Stretch) -> &[(u32, u32)]
    requires from { stretch.from ≤ stretch.to }
    requires inside { stretch.to ≤ length entries.now }
    ensures { result.now ≡ row_at entries.now stretch }
{
    &entries[stretch.from..stretch.to]
}

// Puts the product behind the others.
fn keep_product(product: Product, list: &mut Vec<Product>) -> Result<(), NoMemory>
    ensures { OnOk result (list.new.items ≡ list.old.items ++ product ∷ []) }
{
    list.push(product)?;
    Ok(())
}

// Puts the flag behind the others.
fn keep_flag(flag: bool, free: &mut Vec<bool>) -> Result<(), NoMemory>
    ensures { OnOk result (free.new.items ≡ free.old.items ++ flag ∷ []) }
{
    free.push(flag)?;
    Ok(())
}

// Puts the entry behind the others.
fn keep_entry(entry: (u32, u32), entries: &mut Vec<(u32, u32)>) -> Result<(), NoMemory>
    ensures { OnOk result (entries.new.items ≡ entries.old.items ++ entry ∷ []) }
{
    entries.push(entry)?;
    Ok(())
}

// Looks for the last column whose lead divides the key with this number, the next one: its flag, and its product if there is one, are
// put behind the others.
fn find_divisor(
    alloc: Global,
    ring: &Ring,
    columns: &[Vect],
    index: &LeadIndex,
    number: usize,
    numbers: &KeyTable,
    free: &mut Vec<bool>,
    list: &mut Vec<Product>,
) -> Result<(), NoMemory>
    requires number { number < length numbers.now }
    requires next { length free.old.items ≡ number }
    requires monomial { IsMonomialOver ring.now (get_or numbers.now number no_key).monomial }
    requires some { AreNonzero columns.now }
    requires weighed { AreWeighed (variables ring.now) ring.now.weights columns.now }
    requires index { IsIndexOf columns.now index.now }
    requires free { AreFreeNumbers (variables ring.now) columns.now numbers.now free.old.items }
    requires found { Each (IsFoundProduct ring.now columns.now) list.old.items }
    ensures next { OnOk result (length free.new.items ≡ number + 1) }
    ensures free { OnOk result (AreFreeNumbers (variables ring.now) columns.now numbers.now free.new.items) }
    ensures found { OnOk result (Each (IsFoundProduct ring.now columns.now) list.new.items) }
    ensures more { OnOk result (HasMore list.old.items list.new.items) }
{
    let found = last_divisor(alloc, ring, columns, index, &numbers.keys()[number])?;
    match found {
        None => {
            keep_flag(true, free)?;
            Ok(())
        }
        Some((at, monomial)) => {
            let product = Product {
                number: kept_number(number)?,
                index: at,
                monomial,
                stretch: Stretch { from: 0, to: 0 },
            };
            keep_product(product, list)?;
            keep_flag(false, free)?;
            Ok(())
        }
    }
}

// Sees that the key with this number has its flag: one with the next number gets it, and its product if there is one.
fn know_key(
    alloc: Global,
    ring: &Ring,
    columns: &[Vect],
    index: &LeadIndex,
    number: usize,
    numbers: &KeyTable,
    free: &mut Vec<bool>,
    list: &mut Vec<Product>,
) -> Result<(), NoMemory>
    requires number { number < length numbers.now }
    requires next { number ≤ length free.old.items }
    requires monomial { IsMonomialOver ring.now (get_or numbers.now number no_key).monomial }
    requires some { AreNonzero columns.now }
    requires weighed { AreWeighed (variables ring.now) ring.now.weights columns.now }
    requires index { IsIndexOf columns.now index.now }
    requires free { AreFreeNumbers (variables ring.now) columns.now numbers.now free.old.items }
    requires found { Each (IsFoundProduct ring.now columns.now) list.old.items }
    ensures known { OnOk result (number < length free.old.items → length free.new.items ≡ length free.old.items) }
    ensures next { OnOk result (length free.old.items ≡ number → length free.new.items ≡ number + 1) }
    ensures free { OnOk result (AreFreeNumbers (variables ring.now) columns.now numbers.now free.new.items) }
    ensures found { OnOk result (Each (IsFoundProduct ring.now columns.now) list.new.items) }
    ensures more { OnOk result (HasMore list.old.items list.new.items) }
{
    if number < free.len() {
        return Ok(());
    }
    find_divisor(alloc, ring, columns, index, number, numbers, free, list)?;
    Ok(())
}

/// Puts the entry of the product of t and this term, the k-th of its column, behind the others, unless no lead divides the product's
/// key. The key has a number from then on. `hash` is the term's, `added` what t adds to it; `told` says that hashes tell the product.
pub(crate) fn push_entry(
    alloc: Global,
    ring: &Ring,
    columns: &[Vect],
    index: &LeadIndex,
    t: &Mono,
    added: u64,
    told: bool,
    term: &(Key, u32),
    k: usize,
    hash: u64,
    products: &mut Products,
) -> Result<(), ProductStop>
    requires monomial { IsMonomialOver ring.now t.now }
    requires term { IsMonomialOver ring.now term.now.0.monomial }
    requires added { added ≡ factor_hash t.now }
    requires hash { hash ≡ hash_of term.now.0 }
    requires told { told ≡ true → TellsProduct products.old.numbers t.now term.now.0 }
    requires some { AreNonzero columns.now }
    requires weighed { AreWeighed (variables ring.now) ring.now.weights columns.now }
    requires index { IsIndexOf columns.now index.now }
    requires part { ArePartProducts ring.now columns.now products.old }
    ensures part { OnOk result (ArePartProducts ring.now columns.now products.new) }
    ensures pushed { OnOk result (IsEntryPushed ring.now columns.now t.now term.now products.old products.new) }
{
    let found = products
        .numbers
        .number_of_told_product(alloc, told, t, added, &term.0, hash);
    let number = match found {
        Ok(number) => number,
        Err(MonoStop::Memory) => return Err(ProductStop::Memory),
        Err(MonoStop::Degree) => return Err(ProductStop::Degree(k)),
    };
    know_key(
        alloc,
        ring,
        columns,
        index,
        number,
        &products.numbers,
        &mut products.free,
        &mut products.list,
    )?;
    if !products.free[number] {
        keep_entry((kept_number(number)?, term.1), &mut products.entries)?;
    }
    Ok(())
}
