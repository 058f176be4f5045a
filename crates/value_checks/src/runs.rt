// Runs: their beginning, their first job, and reduced bases.
ghost use Rattle.formal_sums.specs.FormalSums.{Each};
ghost use Rattle.term_lists.specs.Rings.{ring_comparison};
ghost use Rattle.term_lists.specs.Vectors.{AreVectorsOver, HasPositions};

use crate::members::write_member;
use crate::trails::{write_run_stop, write_trail};
use crate::vectors::{number_of, write_list, write_stop, write_vector};
use basis_core::{BasisState, Job, Members, Outcome, Taken};
use check_texts::{NoValue, Sheet, setting_of, vectors_of};
use cofactor_track::run_members;
use groebner_iface::Stop;
use module_vectors::{Ring, VectList, WorkStop};
use plain_buchberger::PlainEngine;
use queue_updates::Update;
use s_vectors::solve;
use std::alloc::Global;
use std::thread::Threads;

// The most pairs of a first job.
const MOST: u64 = 10;

// A run's beginning on these generators.
fn begun(
    alloc: Global,
    setting: &str,
    text: &str,
) -> Result<Result<BasisState, WorkStop>, NoValue> {
    let (ring, rank) = setting_of(alloc, setting)?;
    let list = vectors_of(alloc, &ring, rank, text)?;
    Ok(BasisState::begin(alloc, ring, rank, list, MOST, 1, Update::Plain))
}

// Writes the vectors of members.
fn write_vectors(sheet: &mut Sheet, members: &Members) {
    let shared = members.shared();
    for i in 0..members.len() {
        write_vector(sheet, &shared.ring, shared.rank, &members.get(i).vector);
    }
}

// Writes the members, with their cofactors unless these are of too great a degree.
fn write_members(alloc: Global, sheet: &mut Sheet, state: &BasisState) {
    match run_members(alloc, state) {
        Ok(members) => {
            for member in &members {
                write_member(sheet, member);
            }
        }
        Err(stop) => {
            write_stop(sheet, &stop);
            write_vectors(sheet, state.members());
        }
    }
}

// Writes the members, and the queued pairs.
fn write_state(alloc: Global, sheet: &mut Sheet, state: &BasisState) {
    write_members(alloc, sheet, state);
    sheet.text("  queued");
    for pair in state.queued() {
        sheet.count(" ", pair.i);
        sheet.count(",", pair.j);
    }
    sheet.text("\n");
}

/// Writes a run's beginning on these generators.
pub fn write_beginning(
    alloc: Global,
    sheet: &mut Sheet,
    setting: &str,
    text: &str,
) -> Result<(), NoValue> {
    match begun(alloc, setting, text)? {
        Ok(state) => write_state(alloc, sheet, &state),
        Err(stop) => write_run_stop(sheet, &stop),
    }
    Ok(())
}

// Writes the rows of a job by their products of its members, and all products.
fn write_outcome(sheet: &mut Sheet, outcome: &Outcome) {
    let members = outcome.job().members();
    let shared = members.shared();
    let count = members.len() as u128;
    for row in outcome.rows() {
        sheet.text("  ");
        sheet.made(&shared.ring, shared.rank, &row.vector, count, &row.products);
        sheet.text("\n");
    }
    sheet.text("  products");
    sheet.products(&shared.ring, outcome.products());
    sheet.text("\n");
}

// Writes what a job comes to.
fn write_solved(alloc: Global, sheet: &mut Sheet, job: Job) {
    match solve(alloc, job) {
        Ok(outcome) => write_outcome(sheet, &outcome),
        Err((stop, _)) => write_run_stop(sheet, &stop),
    }
}

// Writes what the first job of a run comes to.
fn write_first_job(
    alloc: Global,
    sheet: &mut Sheet,
    state: &mut BasisState,
) -> Result<(), NoValue> {
    if !state.may_take(0, MOST) {
        return Err(NoValue);
    }
    match state.take(alloc, 0, MOST)? {
        Taken::Job(job) => write_solved(alloc, sheet, job),
        Taken::Empty => sheet.text("  empty\n"),
        Taken::Stopped => sheet.text("  stopped\n"),
    }
    Ok(())
}

/// Writes what the first job of a run on these generators comes to.
pub fn write_solution(
    alloc: Global,
    sheet: &mut Sheet,
    setting: &str,
    text: &str,
) -> Result<(), NoValue> {
    match begun(alloc, setting, text)? {
        Ok(mut state) => write_first_job(alloc, sheet, &mut state),
        Err(stop) => {
            write_run_stop(sheet, &stop);
            Ok(())
        }
    }
}

// Writes how many pairs were taken and are queued, and whether the work itself was stopped.
fn write_counts(sheet: &mut Sheet, state: &BasisState) {
    sheet.count(" taken ", state.taken());
    sheet.count(" queued ", state.queued().len() as u64);
    sheet.text(if state.stop_reason().is_some() {
        " stopped\n"
    } else {
        " done\n"
    });
}

// Writes what is kept of a stopped run.
fn write_kept(sheet: &mut Sheet, rank: u128, word: &str, engine: &PlainEngine) {
    sheet.count(word, engine.stops());
    let (state, trail) = engine.last_stop();
    match state {
        Some(state) => write_counts(sheet, state),
        None => sheet.text(" at the beginning\n"),
    }
    if let Some(trail) = trail {
        write_trail(sheet, rank, trail);
    }
}

// Writes the reduced basis of a list, or what is kept where there is none.
fn write_run<R: Threads + Sync>(
    rt: &R,
    alloc: Global,
    sheet: &mut Sheet,
    ring: &Ring,
    rank: u128,
    list: &VectList,
    engine: &mut PlainEngine,
)
    requires vectors { AreVectorsOver ring.now (ring_comparison ring.now) list.now }
    requires positions { Each (HasPositions rank) list.now }
{
    match engine.run(rt, alloc, ring, rank, list) {
        Ok(basis) => write_list(sheet, ring, rank, &basis),
        Err(Stop::Memory) => sheet.text("  no memory\n"),
        Err(Stop::Pairs) => write_kept(sheet, rank, "  pairs, stops ", engine),
        Err(Stop::Degree) => write_kept(sheet, rank, "  degree, stops ", engine),
    }
}

/// Writes the reduced basis of a list, with so many pairs at most, or what is kept where there is none.
pub fn write_basis<R: Threads + Sync>(
    rt: &R,
    alloc: Global,
    sheet: &mut Sheet,
    ring: &Ring,
    rank: u128,
    pairs: &str,
    list: &VectList,
) -> Result<(), NoValue>
    requires vectors { AreVectorsOver ring.now (ring_comparison ring.now) list.now }
    requires positions { Each (HasPositions rank) list.now }
{
    let pairs = number_of(pairs)?;
    let mut engine = PlainEngine::new(pairs, Update::Plain);
    write_run(rt, alloc, sheet, ring, rank, list, &mut engine);
    Ok(())
}
