// Members, which carry their cofactors.
ghost use Rattle.std.specs.Prelude.{◌≡◌, ◌<◌, IfOk, OnOk, length};
ghost use Rattle.std.specs.Arc.{arc_value};

use crate::vectors::{number_of, write_stop};
use check_texts::{NoValue, Sheet, product_of, setting_of, vectors_of};
use cofactor_track::Member;
use member_products::Shared;
use module_vectors::VectStop;
use std::alloc::Global;
use std::sync::Arc;

// What the members of a run over these generators share.
fn shared_of(alloc: Global, setting: &str, text: &str) -> Result<Arc<Shared, Global>, NoValue> {
    let (ring, rank) = setting_of(alloc, setting)?;
    let generators = vectors_of(alloc, &ring, rank, text)?;
    Ok(Arc::new(
        alloc,
        Shared {
            ring,
            rank,
            generators,
        },
    )?)
}

// The generator whose index the word is.
fn generator_of(alloc: Global, shared: &Arc<Shared, Global>, word: &str) -> Result<Member, NoValue>
    ensures { IfOk result (λ m. arc_value m.shared ≡ arc_value shared.now) }
{
    let index = number_of(word)?;
    if index >= shared.generators.len() as u64 {
        return Err(NoValue);
    }
    Ok(Member::from_generator(alloc, shared, index)?)
}

// Multiplies by the residue and the monomial of this text.
fn multiply(
    alloc: Global,
    sheet: &mut Sheet,
    member: &mut Member,
    text: &str,
) -> Result<(), NoValue> {
    let (monomial, residue) = product_of(alloc, &member.shared.ring, text)?;
    if residue == 0 {
        return Err(NoValue);
    }
    match member.times(alloc, &monomial) {
        Ok(mut product) => {
            product.scale(residue);
            *member = product;
            Ok(())
        }
        Err(stop) => {
            write_stop(sheet, &stop);
            Err(NoValue)
        }
    }
}

// Takes the product of this text times a generator away.
fn subtract(
    alloc: Global,
    sheet: &mut Sheet,
    member: &mut Member,
    text: &str,
    index: &str,
) -> Result<(), NoValue> {
    let (monomial, residue) = product_of(alloc, &member.shared.ring, text)?;
    let other = generator_of(alloc, &member.shared, index)?;
    match member.subtract(alloc, residue, &monomial, &other) {
        Ok(()) => Ok(()),
        Err(stop) => {
            write_stop(sheet, &stop);
            Err(NoValue)
        }
    }
}

// Does these changes: each is `PRODUCT`, by which the member is multiplied, or `PRODUCT:INDEX`, which times the generator
// with the index is taken away.
fn change(
    alloc: Global,
    sheet: &mut Sheet,
    member: &mut Member,
    changes: &str,
) -> Result<(), NoValue> {
    for text in changes.split(' ') {
        match text.split_once(':') {
            Some((product, index)) => subtract(alloc, sheet, member, product, index)?,
            None => multiply(alloc, sheet, member, text)?,
        }
    }
    Ok(())
}

/// Writes a member with its cofactors on a line of its own.
pub fn write_member(sheet: &mut Sheet, member: &Member) {
    sheet.text("  ");
    sheet.member(member);
    sheet.text("\n");
}

/// Writes a generator after changes, with its cofactors: `INDEX {CHANGE}`.
pub fn write_tracked(
    alloc: Global,
    sheet: &mut Sheet,
    setting: &str,
    argument: &str,
    text: &str,
) -> Result<(), NoValue> {
    let (index, changes) = argument.split_once(' ').unwrap_or((argument, "1"));
    let shared = shared_of(alloc, setting, text)?;
    let mut member = generator_of(alloc, &shared, index)?;
    change(alloc, sheet, &mut member, changes)?;
    write_member(sheet, &member);
    Ok(())
}
