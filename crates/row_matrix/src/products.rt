// Products of monomials and vectors as rows.
ghost use Rattle.std.specs.Prelude.{◌≡◌, ◌<◌, ◌≤◌, ◌+◌, ◌++◌, List, [], ◌∷◌, ℕ, length, get_or, true, IfOk, IfErr, OnOk};
ghost use Rattle.monomials.specs.Exponents.{exponents_of};
ghost use Rattle.formal_sums.specs.FormalSums.{Each, scale};
ghost use Rattle.term_lists.specs.Stops.{Fits};
ghost use Rattle.term_lists.specs.Vectors.{sum_of};
ghost use Rattle.monomial_orders.specs.Kept.{IsWeighed};
ghost use Rattle.row_matrix.specs.Told.{AreHashesOf};
ghost use Rattle.row_matrix.specs.Naming.{AreNamed, IsGrown};
ghost use Rattle.row_matrix.specs.Rows.{AreKeys};
ghost use Rattle.row_matrix.specs.Products.{ProductStops};
ghost use Rattle.row_matrix.specs.declared.products.ProductStop.TheVariants.{Memory};

use crate::{KeyTable, TermHashes, hash_of_factor, kept_number};
use module_vectors::{Key, NoMemory};
use monomial_orders::{Mono, MonoStop};
use std::alloc::{AllocError, Global};

/// Why a product is no row.
#[derive(Clone, Copy, Debug, PartialEq, Eq)]
pub enum ProductStop {
    Memory,
    /// The product with the monomial of the term with this index is of too great a degree.
    Degree(usize),
}

impl From<AllocError> for ProductStop {
    ghost from_gives = { λ _ stop. stop ≡ Memory };

    fn from(_error: AllocError) -> ProductStop {
        ProductStop::Memory
    }
}

impl From<NoMemory> for ProductStop {
    ghost from_gives = { λ _ stop. stop ≡ Memory };

    fn from(_error: NoMemory) -> ProductStop {
        ProductStop::Memory
    }
}

/// The product t v as a row: the number of each key and its residue. `hashes` are those of v's keys. Keys that have no
/// number yet are put into the table, after an error too.
pub fn product_row(
    alloc: Global,
    keys: &mut KeyTable,
    t: &Mono,
    v: &[(Key, u32)],
    hashes: &TermHashes,
) -> Result<Vec<(u32, u32)>, ProductStop>
    requires weighed { let n = length t.now.exponents in (ws : List ℕ) × IsWeighed n ws t.now
        × Each (λ u. IsWeighed n ws u.0.monomial) v.now × AreKeys n ws keys.old }
    requires hashes { AreHashesOf hashes.now v.now }
    ensures named { let n = length t.now.exponents in
        IfOk result (λ entries. AreNamed n keys.new entries.items (scale 1 (exponents_of n t.now.exponents) (sum_of n v.now))) }
    ensures grown { IfOk result (λ entries. IsGrown keys.old keys.new entries.items) }
    ensures weighed { let n = length t.now.exponents in OnOk result ((ws : List ℕ) → IsWeighed n ws t.now
        → Each (λ u. IsWeighed n ws u.0.monomial) v.now → AreKeys n ws keys.old → AreKeys n ws keys.new) }
    ensures fits { OnOk result (Fits t.now v.now) }
    ensures stop { IfErr result (ProductStops t.now v.now) }
{
    let room = Vec::with_capacity(alloc, v.len())?;
    product_row_in(alloc, keys, t, v, hashes, room)
}

/// The same in the room of a row that is not needed any more.
pub fn product_row_in(
    alloc: Global,
    keys: &mut KeyTable,
    t: &Mono,
    v: &[(Key, u32)],
    hashes: &TermHashes,
    room: Vec<(u32, u32)>,
) -> Result<Vec<(u32, u32)>, ProductStop>
    requires weighed { let n = length t.now.exponents in (ws : List ℕ) × IsWeighed n ws t.now
        × Each (λ u. IsWeighed n ws u.0.monomial) v.now × AreKeys n ws keys.old }
    requires hashes { AreHashesOf hashes.now v.now }
    ensures named { let n = length t.now.exponents in
        IfOk result (λ entries. AreNamed n keys.new entries.items (scale 1 (exponents_of n t.now.exponents) (sum_of n v.now))) }
    ensures grown { IfOk result (λ entries. IsGrown keys.old keys.new entries.items) }
    ensures weighed { let n = length t.now.exponents in OnOk result ((ws : List ℕ) → IsWeighed n ws t.now
        → Each (λ u. IsWeighed n ws u.0.monomial) v.now → AreKeys n ws keys.old → AreKeys n ws keys.new) }
    ensures fits { OnOk result (Fits t.now v.now) }
    ensures stop { IfErr result (ProductStops t.now v.now) }
{
    let added = hash_of_factor(t);
    let told = keys.tells(t, hashes.position(), hashes.degree());
    let hashes = hashes.hashes();
    let mut entries = room;
    entries.clear();
    entries.reserve(v.len())?;
    loop {
        entries = keys.push_known(told, t, added, v, hashes, entries);
        let i = entries.len();
        if i == v.len() {
            return Ok(entries);
        }
        let term = &v[i];
        match keys.number_of_product(alloc, t, added, &term.0, hashes[i]) {
            Ok(number) => entries.push_reserved((kept_number(number)?, term.1)),
            Err(MonoStop::Memory) => return Err(ProductStop::Memory),
            Err(MonoStop::Degree) => return Err(ProductStop::Degree(i)),
        }
    }
}
