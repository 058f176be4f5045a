// Lists of events: random legal ones until all workers have ended, and many Takes and Puts.
use crate::desk::Input;
use crate::leading::write_leads;
use crate::play::{Play, Turn, begin};
use basis_core::BasisState;
use check_texts::Sheet;
use std::alloc::Global;
use std::thread::Threads;

const TURNS: u32 = 100_000;

const BUDGET: u64 = 1_000_000;

const SEEDS: u64 = 3;

// The next of a sequence of numbers below 2^31, by a linear congruence.
fn next_draw(draw: u64) -> u64 {
    (draw % 2147483648 * 1103515245 + 12345) % 2147483648
}

fn have_all_ended(state: &BasisState) -> bool {
    for worker in 0..state.workers() {
        if !state.has_ended(worker) {
            return false;
        }
    }
    true
}

// One event of a worker, or none where what is drawn may not be: a Put of its outcome, an End, or a Take.
fn random_event<R: Threads + Sync>(
    rt: &R,
    alloc: Global,
    play: &mut Play,
    worker: u32,
    draw: u64,
) -> Turn {
    if play.outcome(worker).is_some() {
        play.put(alloc, worker)
    } else if draw % 3 == 0 {
        play.end(worker)
    } else {
        play.take(rt, alloc, worker, draw % 4 + 1)
    }
}

// Does random events; false where they do not end, or work stops.
fn has_ended<R: Threads + Sync>(
    rt: &R,
    alloc: Global,
    play: &mut Play,
    workers: u32,
    seed: u64,
) -> bool {
    let mut draw = seed;
    for _ in 0..TURNS {
        if have_all_ended(play.state()) {
            return true;
        }
        draw = next_draw(draw);
        let worker = (draw / 65536 % u64::from(workers.max(1))) as u32;
        draw = next_draw(draw);
        match random_event(rt, alloc, play, worker, draw / 65536) {
            Turn::NoMemory | Turn::Failed => return false,
            _ => {}
        }
    }
    false
}

// The minimal leads at the end of a random list of events.
fn random_run<R: Threads + Sync>(
    rt: &R,
    alloc: Global,
    input: &Input,
    workers: u32,
    seed: u64,
) -> Sheet {
    let mut leads = Sheet::new(alloc);
    if let Some(mut play) = begin(alloc, &mut leads, input, BUDGET, workers, None) {
        if has_ended(rt, alloc, &mut play, workers, seed) {
            write_leads(alloc, &mut leads, play.state());
        } else {
            leads.text("none: it does not end\n");
        }
    }
    leads
}

// Writes leads where they are not those of the first run.
fn compare(sheet: &mut Sheet, first: &str, leads: &str) {
    if leads != first {
        sheet.text("  other leads: ");
        sheet.text(leads);
    }
}

// Random runs of so many workers.
fn drive_workers<R: Threads + Sync>(
    rt: &R,
    alloc: Global,
    sheet: &mut Sheet,
    input: &Input,
    first: &str,
    workers: u32,
) {
    for seed in 1..=SEEDS {
        let leads = random_run(rt, alloc, input, workers, seed);
        compare(sheet, first, leads.whole());
    }
}

/// Random runs of 1, 2, 3 and 5 workers: writes the minimal leads of the first one, and each that differs.
pub fn drive<R: Threads + Sync>(rt: &R, alloc: Global, sheet: &mut Sheet, input: &Input) {
    let first = random_run(rt, alloc, input, 1, 1);
    for workers in [1u32, 2, 3, 5] {
        drive_workers(rt, alloc, sheet, input, first.whole(), workers);
    }
    sheet.text("  leads ");
    sheet.text(first.whole());
}

// So many workers take a pair each, and so many of them hand in; how many jobs there were.
fn take_and_put<R: Threads + Sync>(
    rt: &R,
    alloc: Global,
    play: &mut Play,
    takes: u32,
    puts: u32,
) -> u64 {
    let mut jobs = 0;
    for worker in 0..takes {
        if let Turn::Job = play.take(rt, alloc, worker, 1) {
            jobs = u64::from(worker) + 1;
        }
    }
    for worker in 0..puts {
        play.put(alloc, worker);
    }
    jobs
}

// Writes how many members, jobs and queued pairs there are.
fn write_counts(sheet: &mut Sheet, state: &BasisState, jobs: u64) {
    sheet.count("members ", state.members().len() as u64);
    sheet.count(", jobs ", jobs);
    sheet.count(", queued ", state.queued().len() as u64);
    sheet.text("\n");
}

/// Takes of so many workers, and Puts of so many of them: writes how many members, jobs and queued pairs there are then.
pub fn busy<R: Threads + Sync>(
    rt: &R,
    alloc: Global,
    sheet: &mut Sheet,
    input: &Input,
    takes: u32,
    puts: u32,
) {
    if let Some(mut play) = begin(alloc, sheet, input, BUDGET, takes.max(1), None) {
        let jobs = take_and_put(rt, alloc, &mut play, takes, puts);
        write_counts(sheet, play.state(), jobs);
    }
}
