// What a run begins with: the members that its generators make.
ghost use Rattle.std.specs.Prelude.{◌≡◌, ◌+◌, ◌<◌, [], get_or, length, IfOk, IfErr, OnOk};
ghost use Rattle.term_lists.specs.Rings.{variables};
ghost use Rattle.basis_steps.specs.Steps.{none_ended};
ghost use Rattle.basis_core.specs.Answers.{BeginningStops, IsBeginningTrail};
ghost use Rattle.basis_core.specs.Beginning.{HaveMade, IsUnitMultiple};
ghost use Rattle.basis_core.specs.Rows.{IsRowTrail, RowStops};
ghost use Rattle.member_products.specs.Generators.{IsVectorOf};

use crate::copies::trail_over;
use crate::members::Members;
use crate::row_division::{RowStop, RowTrail, make_member};
use member_products::Reduct;
use module_vectors::{KeptTrail, Key, NoMemory, Ring, TrailStart, Vect, WorkStop};
use monomial_orders::Mono;
use std::alloc::{AllocError, Global};

/// Nobody has ended.
pub(crate) fn nobody_ended(alloc: Global, workers: u32) -> Result<Vec<bool>, AllocError>
    ensures { IfOk result (λ ended. ended.items ≡ none_ended workers) }
{
    let mut ended = Vec::new(alloc);
    for _ in 0..workers {
        ended.push(false)?;
    }
    Ok(ended)
}

// The trail of the generator with this number, which the members do not divide within the degrees.
fn beginning_trail(
    alloc: Global,
    members: &Members,
    number: u64,
    row: &Reduct,
    trail: RowTrail,
) -> Result<KeptTrail, NoMemory>
    requires known { number < length members.now.shared.generators }
    requires vector { row.now.vector ≡ get_or members.now.shared.generators number [] }
    requires makes { HaveMade members.now.shared number members.now.list }
    requires trail { IsRowTrail (variables members.now.shared.ring) members.now.shared.ring.weights members.now.list
        row.now.vector trail.products.items trail.last }
    ensures { IfOk result (IsBeginningTrail (variables members.now.shared.ring) members.now.shared) }
{
    let _number = number;
    members.kept();
    let vector = row.vector.try_copy(alloc)?;
    let kept = trail_over(
        alloc,
        members,
        TrailStart::Term,
        vector,
        trail.products,
        trail.last,
    )?;
    Ok(kept)
}

// 1 times the generator with this number.
fn unit_multiple(alloc: Global, ring: &Ring, number: u64) -> Result<Vect, NoMemory>
    ensures vector { IfOk result (IsVectorOf ring.now) }
    ensures unit { IfOk result (IsUnitMultiple ring.now number) }
{
    let monomial = Mono::unit(alloc, ring.vars.len())?;
    let key = Key {
        position: number,
        monomial,
    };
    let terms = vec![in alloc; (key, 1)]?;
    ring.modulus.domain();
    let multiple = Vect::from_terms(alloc, ring, terms)?;
    Ok(multiple)
}

// The generator with this number as a row, of which no members are products.
fn generator_row(alloc: Global, members: &Members, number: u64) -> Result<Reduct, NoMemory>
    requires { number < length members.now.shared.generators }
    ensures vector { IfOk result (λ row. row.vector ≡ get_or members.now.shared.generators number []) }
    ensures products { IfOk result (λ row. row.products ≡ []) }
{
    let generators = members.generators().as_slice();
    Ok(Reduct {
        vector: generators[number as usize].try_copy(alloc)?,
        products: Vect::zero(alloc),
    })
}

// The stop of a generator whose row stopped. Where it has no memory for the trail it says so.
fn beginning_stop(
    alloc: Global,
    members: &Members,
    number: u64,
    row: &Reduct,
    stop: RowStop,
) -> WorkStop
    requires known { number < length members.now.shared.generators }
    requires vector { row.now.vector ≡ get_or members.now.shared.generators number [] }
    requires makes { HaveMade members.now.shared number members.now.list }
    requires row { RowStops (variables members.now.shared.ring) members.now.shared.ring.weights members.now.list row.now.vector stop }
    ensures { BeginningStops (variables members.now.shared.ring) members.now.shared result }
{
    match stop {
        RowStop::Memory => WorkStop::Memory,
        RowStop::Degree(trail) => match beginning_trail(alloc, members, number, row, trail) {
            Ok(trail) => WorkStop::Degree(trail),
            Err(NoMemory) => WorkStop::Memory,
        },
    }
}

// The generator with this number is divided by the members that those before it made.
fn make_generator(alloc: Global, members: &mut Members, number: u64) -> Result<(), WorkStop>
    requires known { number < length members.old.shared.generators }
    requires makes { HaveMade members.old.shared number members.old.list }
    ensures shared { members.new.shared ≡ members.old.shared }
    ensures makes { OnOk result (HaveMade members.old.shared (number + 1) members.new.list) }
    ensures stop { IfErr result (BeginningStops (variables members.old.shared.ring) members.old.shared) }
{
    members.generators();
    let row = generator_row(alloc, members, number)?;
    let multiple = unit_multiple(alloc, members.ring(), number)?;
    match make_member(alloc, members, &row, &multiple) {
        Ok(()) => Ok(()),
        Err(stop) => Err(beginning_stop(alloc, members, number, &row, stop)),
    }
}

/// Each generator in turn is divided by the members so far, and makes a member where it is not zero.
///
/// `Degree` comes with a trail to a product of degree above 65,535, `Memory` where there is none.
pub(crate) fn make_generators(alloc: Global, members: &mut Members) -> Result<(), WorkStop>
    requires { members.old.list ≡ [] }
    ensures shared { members.new.shared ≡ members.old.shared }
    ensures makes { OnOk result (HaveMade members.old.shared (length members.old.shared.generators) members.new.list) }
    ensures stop { IfErr result (BeginningStops (variables members.old.shared.ring) members.old.shared) }
{
    let count = members.shared().generators.len() as u64;
    for number in 0..count {
        match make_generator(alloc, members, number) {
            Ok(()) => {}
            Err(stop) => return Err(stop),
        }
    }
    Ok(())
}
