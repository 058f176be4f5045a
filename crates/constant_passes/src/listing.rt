// The constants of a column, with the places of their rows.
ghost use Rattle.std.specs.Prelude.{◌≡◌, ◌<◌, ◌≤◌, ◌++◌, ◌∷◌, [], List, ℕ, IfOk, IfSome, OnOk};
ghost use Rattle.formal_sums.specs.FormalSums.{Each};
ghost use Rattle.term_lists.specs.Rings.{variables};
ghost use Rattle.term_lists.specs.Vectors.{AreTermsOver, IsMonomialOver};
ghost use Rattle.constant_rows.specs.Rows.{entry_constants};
ghost use Rattle.column_passes.specs.Placing.{ArePlacesAfter};
ghost use Rattle.constant_passes.specs.Listing.{constants_at, entry_list};

use column_passes::{Leaving, place_of};
use constant_rows::Constants;
use module_vectors::{Key, NoMemory, Ring};

// Places from here on have no number of 32 bits.
const PLACES: u64 = 1 << 32;

// The place and the residue of the term, where it is a constant in a row that stays.
fn constant_of(
    ring: &Ring,
    leaving: &Leaving,
    term: &(Key, u32),
) -> Result<Option<(u32, u32)>, NoMemory>
    requires { IsMonomialOver ring.now term.now.0.monomial }
    ensures constant { (rows : List ℕ) → ArePlacesAfter rows leaving.now → let n = variables ring.now in
        IfOk result (λ found. constants_at n rows (term.now ∷ []) ≡ entry_constants n (entry_list found)) }
    ensures residue { IfOk result (λ found. IfSome found (λ e. e.1 ≡ term.now.1)) }
{
    let _ring = ring;
    if term.0.monomial.degree() > 0 {
        return Ok(None);
    }
    let place = match place_of(leaving, term.0.position) {
        None => return Ok(None),
        Some(place) => place,
    };
    if place >= PLACES {
        return Err(NoMemory);
    }
    Ok(Some((place as u32, term.1)))
}

// Puts the constant behind the others, if there is one.
fn put_entry(entry: Option<(u32, u32)>, found: &mut Constants) -> Result<(), NoMemory>
    ensures entries { OnOk result (found.new.entries.items ≡ found.old.entries.items ++ entry_list entry) }
    ensures wider { OnOk result (found.old.width ≤ found.new.width) }
    ensures below { OnOk result (IfSome entry (λ e. e.0 < found.new.width)) }
{
    let constant = match entry {
        None => return Ok(()),
        Some(constant) => constant,
    };
    found.entries.push(constant)?;
    if found.width <= constant.0 as usize {
        found.width = constant.0 as usize + 1;
    }
    Ok(())
}

/// Finds the constants of a column's terms, with the places that are left to their rows; those in rows that leave are left out. Room
/// for the constants is taken over. `NoMemory` where there is none, and where a place is 2^32 or more.
pub(crate) fn find_constants(
    ring: &Ring,
    leaving: &Leaving,
    terms: &[(Key, u32)],
    found: &mut Constants,
) -> Result<(), NoMemory>
    requires { AreTermsOver ring.now terms.now }
    ensures constants { (rows : List ℕ) → ArePlacesAfter rows leaving.now → let n = variables ring.now in
        OnOk result (entry_constants n found.new.entries.items ≡ constants_at n rows terms.now) }
    ensures below { OnOk result (Each (λ e. e.0 < found.new.width) found.new.entries.items) }
    ensures reduced { OnOk result (Each (λ e. e.1 < ring.now.modulus.value) found.new.entries.items) }
{
    found.entries.clear();
    found.width = 0;
    for term in terms {
        put_entry(constant_of(ring, leaving, term)?, found)?;
    }
    Ok(())
}
