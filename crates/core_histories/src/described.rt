// What the readers of a state say.
use crate::play::{Play, Turn};
use basis_core::{BasisState, Ending, Event, Outcome, StopReason};
use check_texts::Sheet;
use cofactor_track::run_members;
use module_vectors::{VectStop, WorkStop};
use monomial_orders::Mono;
use std::alloc::Global;

fn write_pair(sheet: &mut Sheet, i: u64, j: u64) {
    sheet.count(" ", i);
    sheet.count(",", j);
}

fn write_pairs(sheet: &mut Sheet, pairs: &[(u64, u64)]) {
    if pairs.is_empty() {
        sheet.text(" none");
    }
    for pair in pairs {
        write_pair(sheet, pair.0, pair.1);
    }
}

// Writes the members, each with its cofactors over the generators.
fn write_members(alloc: Global, sheet: &mut Sheet, state: &BasisState) {
    let members = match run_members(alloc, state) {
        Ok(members) => members,
        Err(VectStop::Memory) => return sheet.text("  no memory\n"),
        Err(VectStop::Degree(_, _)) => return sheet.text("  cofactors of too great a degree\n"),
    };
    for (i, member) in members.iter().enumerate() {
        sheet.count("  ", i as u64);
        sheet.text(": ");
        sheet.member(member);
        sheet.text("\n");
    }
}

fn write_queued(sheet: &mut Sheet, state: &BasisState) {
    sheet.text("  queued");
    if state.queued().is_empty() {
        sheet.text(" none");
    }
    for pair in state.queued() {
        write_pair(sheet, pair.i, pair.j);
    }
}

// Those that new members dropped, each with the member that it was dropped for; where none was it writes nothing.
fn write_dropped(sheet: &mut Sheet, state: &BasisState) {
    if !state.dropped().is_empty() {
        sheet.text("; dropped");
    }
    for drop in state.dropped() {
        write_pair(sheet, drop.i, drop.j);
        sheet.count(" for ", drop.k);
    }
}

fn write_out(sheet: &mut Sheet, state: &BasisState) {
    sheet.text("; out");
    if state.out().is_empty() {
        sheet.text(" none");
    }
    for pair in state.out() {
        write_pair(sheet, pair.i, pair.j);
        sheet.count(" with ", u64::from(pair.worker));
    }
}

fn write_ended(sheet: &mut Sheet, state: &BasisState) {
    sheet.count("; taken ", state.taken());
    sheet.count(" of ", state.budget());
    sheet.text("; ended");
    for worker in 0..state.workers() {
        sheet.text(if state.has_ended(worker) {
            " yes"
        } else {
            " no"
        });
    }
    sheet.text(match state.stop_reason() {
        None => "\n",
        Some(StopReason::Pairs) => "; stop pairs\n",
        Some(StopReason::Memory) => "; stop memory\n",
        Some(StopReason::Degree(_)) => "; stop degree\n",
    });
}

fn write_event(sheet: &mut Sheet, event: &Event) {
    match event {
        Event::Take(worker, skipped, job) => {
            sheet.count(": take ", u64::from(*worker));
            sheet.text(" skipped");
            write_pairs(sheet, skipped);
            sheet.text(" job");
            write_pairs(sheet, job);
        }
        Event::Put(worker, first, made) => {
            sheet.count(": put ", u64::from(*worker));
            sheet.count(" first ", *first);
            sheet.count(" made ", *made);
        }
        Event::End(worker, ending) => {
            sheet.count(": end ", u64::from(*worker));
            sheet.text(match ending {
                Ending::Ended => " ended",
                Ending::MoreWork => " more work",
            });
        }
        Event::Stop(worker, _) => sheet.count(": stop ", u64::from(*worker)),
    }
}

/// Writes what all readers of the state say.
pub fn write_state(alloc: Global, sheet: &mut Sheet, state: &BasisState) {
    write_members(alloc, sheet, state);
    write_queued(sheet, state);
    write_dropped(sheet, state);
    write_out(sheet, state);
    write_ended(sheet, state);
    sheet.count("  events ", state.history().len() as u64);
    if let Some(event) = state.history().last() {
        write_event(sheet, event);
    }
    sheet.text("\n");
}

// Writes how many members the job had, and the rows of its outcome by their products of these members.
fn write_outcome(sheet: &mut Sheet, outcome: &Outcome) {
    sheet.count("job of ", outcome.job().base());
    sheet.text(" members, rows");
    if outcome.rows().is_empty() {
        sheet.text(" none");
    }
    let members = outcome.job().members();
    let shared = members.shared();
    let count = members.len() as u128;
    for row in outcome.rows() {
        sheet.text(" ");
        sheet.made(&shared.ring, shared.rank, &row.vector, count, &row.products);
    }
}

fn degree_of(monomial: &Mono) -> u64 {
    u64::try_from(monomial.degree()).unwrap_or(u64::MAX)
}

/// Writes why work stopped: of a trail, how many members and products it has, and the two degrees whose sum is too great.
pub fn write_stop(sheet: &mut Sheet, stop: &WorkStop) {
    let WorkStop::Degree(trail) = stop else {
        return sheet.text("memory");
    };
    sheet.count("degree by ", trail.members.len() as u64);
    sheet.count(" members in ", trail.products.len() as u64);
    sheet.text(" products");
    if let Some((index, monomial)) = trail.products.last() {
        sheet.count(", the last by member ", *index);
        sheet.count(" with degrees ", degree_of(monomial));
        sheet.count(" and ", degree_of(&trail.last));
    }
}

/// Writes what became of a worker's turn.
pub fn write_turn(sheet: &mut Sheet, play: &Play, worker: u32, turn: Turn) {
    match turn {
        Turn::Illegal => sheet.text("may not be"),
        Turn::NoMemory => sheet.text("memory"),
        Turn::Empty => sheet.text("empty"),
        Turn::Stopped => sheet.text("stopped"),
        Turn::Done => sheet.text("done"),
        Turn::Ended => sheet.text("ended"),
        Turn::MoreWork => sheet.text("more work"),
        Turn::Job => {
            if let Some(outcome) = play.outcome(worker) {
                write_outcome(sheet, outcome);
            }
        }
        Turn::Failed => {
            if let Some(stop) = play.failure() {
                write_stop(sheet, stop);
            }
        }
    }
    sheet.text("\n");
}
