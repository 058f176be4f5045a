// Division by the last divisors as a forward substitution, with a sum of products of residues for each key.
ghost use Rattle.std.specs.Prelude.{◌≡◌, ◌<◌, [], IfOk, IsTrue, OnOk, length};
ghost use Rattle.formal_sums.specs.FormalSums.{Each};
ghost use Rattle.numbered_sums.specs.KeySums.{AreZeroSums};
ghost use Rattle.schreyer_resolution.specs.FreeKeys.{AreFreeMembersZero, IsProductUpToFree};
ghost use Rattle.schreyer_resolution.specs.Sharing.{AreLastProducts, AreLastQuotients, AreTakenAway};
ghost use Rattle.schreyer_resolution.specs.Turns.{quotients_at};

use crate::products::{Products, row_of};
use module_vectors::{Key, NoMemory, Ring, Vect};
use numbered_sums::{Work, add_multiple, clear_sums, first_group, mark, residue_at, take_bit};
use row_matrix::kept_number;

// Takes the product at this place away so often as its lead is there.
fn take_product(
    ring: &Ring,
    columns: &[Vect],
    key: &Key,
    products: &Products,
    places: &[u32],
    place: usize,
    taken: &mut Vec<(u32, u32)>,
    work: &mut Work,
) -> Result<(), NoMemory>
    requires products { AreLastProducts ring.now columns.now products.now }
    requires place { place < length products.now.list.items }
    requires taken { AreTakenAway ring.now columns.now key.now products.now taken.old.items work.old }
    ensures { OnOk result (AreTakenAway ring.now columns.now key.now products.now taken.new.items work.new) }
{
    let _columns = columns;
    let _key = key;
    let modulus = &ring.modulus;
    modulus.domain();
    let product = &products.list[place];
    let residue = residue_at(modulus, work.sums.as_slice(), product.number);
    if residue == 0 {
        return Ok(());
    }
    let from = work.touched.len();
    add_multiple(
        modulus,
        modulus.neg(residue),
        row_of(&products.entries, product.stretch),
        work.sums.as_mut_slice(),
        &mut work.touched,
    )?;
    mark(
        places,
        work.touched.as_slice(),
        from,
        &mut work.marks,
        &mut work.words,
    );
    taken.push((kept_number(place)?, residue))?;
    Ok(())
}

// Takes the products away whose places are marked in this word.
fn take_word(
    ring: &Ring,
    columns: &[Vect],
    key: &Key,
    products: &Products,
    places: &[u32],
    word: usize,
    taken: &mut Vec<(u32, u32)>,
    work: &mut Work,
) -> Result<(), NoMemory>
    requires products { AreLastProducts ring.now columns.now products.now }
    requires taken { AreTakenAway ring.now columns.now key.now products.now taken.old.items work.old }
    ensures { OnOk result (AreTakenAway ring.now columns.now key.now products.now taken.new.items work.new) }
{
    'bits: for _ in 0..64 {
        let place = match take_bit(word, &mut work.marks) {
            None => return Ok(()),
            Some(place) => place,
        };
        if place < products.list.len() {
            take_product(ring, columns, key, products, places, place, taken, work)?;
        }
    }
    Ok(())
}

// Takes the products away whose places are marked in the words that have a bit in this one. A word whose own marks come to be set
// while it is looked at is looked at once more.
fn take_words(
    ring: &Ring,
    columns: &[Vect],
    key: &Key,
    products: &Products,
    places: &[u32],
    group: usize,
    taken: &mut Vec<(u32, u32)>,
    work: &mut Work,
) -> Result<(), NoMemory>
    requires products { AreLastProducts ring.now columns.now products.now }
    requires taken { AreTakenAway ring.now columns.now key.now products.now taken.old.items work.old }
    ensures { OnOk result (AreTakenAway ring.now columns.now key.now products.now taken.new.items work.new) }
{
    'words: for _ in 0..128 {
        let word = match take_bit(group, &mut work.words) {
            None => return Ok(()),
            Some(word) => word,
        };
        take_word(ring, columns, key, products, places, word, taken, work)?;
    }
    Ok(())
}

// Takes the products away whose places are or come to be marked, from this word of words on.
fn take_all(
    ring: &Ring,
    columns: &[Vect],
    key: &Key,
    products: &Products,
    places: &[u32],
    first: usize,
    taken: &mut Vec<(u32, u32)>,
    work: &mut Work,
) -> Result<(), NoMemory>
    requires products { AreLastProducts ring.now columns.now products.now }
    requires taken { AreTakenAway ring.now columns.now key.now products.now taken.old.items work.old }
    ensures { OnOk result (AreTakenAway ring.now columns.now key.now products.now taken.new.items work.new) }
{
    for group in first..work.words.len() {
        take_words(ring, columns, key, products, places, group, taken, work)?;
    }
    Ok(())
}

/// The quotients of the key's product by these products, as their places, which ascend where nothing is marked behind, and their
/// residues. Is nothing left then? `start` has the entries of the key's product without some whose keys no lead divides.
pub(crate) fn take_quotients(
    ring: &Ring,
    columns: &[Vect],
    key: &Key,
    products: &Products,
    places: &[u32],
    start: &[(u32, u32)],
    taken: &mut Vec<(u32, u32)>,
    work: &mut Work,
) -> Result<bool, NoMemory>
    requires products { AreLastProducts ring.now columns.now products.now }
    requires base { AreFreeMembersZero ring.now columns.now }
    requires start { IsProductUpToFree ring.now columns.now products.now.numbers key.now.position key.now.monomial start.now }
    requires count { length work.old.sums.items ≡ length products.now.numbers }
    requires idle { AreZeroSums work.old.sums.items }
    ensures quotients { IfOk result (λ done. IsTrue done → AreLastQuotients ring.now columns.now key.now (quotients_at products.now.list.items taken.new.items)) }
    ensures idle { IfOk result (λ done. IsTrue done → AreZeroSums work.new.sums.items) }
    ensures count { IfOk result (λ done. IsTrue done → length work.new.sums.items ≡ length products.now.numbers) }
{
    let modulus = &ring.modulus;
    modulus.domain();
    taken.clear();
    work.touched.clear();
    add_multiple(
        modulus,
        1,
        start,
        work.sums.as_mut_slice(),
        &mut work.touched,
    )?;
    mark(
        places,
        work.touched.as_slice(),
        0,
        &mut work.marks,
        &mut work.words,
    );
    let first = first_group(places, work.touched.as_slice());
    take_all(ring, columns, key, products, places, first, taken, work)?;
    Ok(clear_sums(modulus, work.touched.as_slice(), &mut work.sums))
}
