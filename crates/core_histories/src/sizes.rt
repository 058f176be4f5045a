// The jobs of a run in one way alone, and what their matrices hold.
ghost use Rattle.std.specs.Prelude.{◌≡◌};

use crate::desk::Input;
use crate::play::{Play, Turn, begin};
use basis_core::Job;
use check_texts::Sheet;
use module_vectors::{NoMemory, Ring};
use row_matrix::{Matrix, Row};
use std::alloc::Global;
use std::thread::Threads;
use symbolic_prep::prepare;

const BUDGET: u64 = 1_000_000;

// Sums over the matrices of jobs: rows, columns, entries, and the entries of rows whose first column an earlier row has.
#[derive(Clone, Copy)]
struct Sizes {
    rows: u64,
    columns: u64,
    entries: u64,
    cleared: u64,
}

fn add(sum: &mut u64, more: usize) {
    *sum = sum.saturating_add(more as u64);
}

// Marks the row's first column, and tells whether it was marked before.
fn is_led(led: &mut Vec<bool>, row: &Row) -> bool {
    let Some(first) = row.entries().first() else {
        return true;
    };
    let column = first.0 as usize;
    if column < led.len() {
        let was = led[column];
        led[column] = true;
        was
    } else {
        false
    }
}

fn add_matrix(alloc: Global, sizes: &mut Sizes, matrix: &Matrix) -> Result<(), NoMemory> {
    let mut led = vec![in alloc; false; matrix.columns().len()]?;
    add(&mut sizes.columns, matrix.columns().len());
    add(&mut sizes.rows, matrix.rows().len());
    for row in matrix.rows() {
        add(&mut sizes.entries, row.entries().len());
        if is_led(&mut led, row) {
            add(&mut sizes.cleared, row.entries().len());
        }
    }
    Ok(())
}

// The job's matrix, where it has one, is added; `ring` is that of the job.
fn add_job(alloc: Global, sizes: &mut Sizes, ring: &Ring, job: &Job)
    requires over { ring.now ≡ job.now.shared.ring }
{
    job.kept();
    let members = job.members();
    members.kept();
    if let Ok(prepared) = prepare(alloc, ring, members, job.pairs()) {
        let _ = add_matrix(alloc, sizes, &prepared.matrix);
    }
}

// One job, taken, solved, measured and handed in; false where there is none.
fn has_job<R: Threads + Sync>(
    rt: &R,
    alloc: Global,
    play: &mut Play,
    sizes: &mut Sizes,
    most: u64,
    measure: bool,
) -> bool {
    match play.take(rt, alloc, 0, most) {
        Turn::Job => {}
        _ => return false,
    }
    if measure {
        if let Some(outcome) = play.outcome(0) {
            let job = outcome.job();
            add_job(alloc, sizes, &job.shared().ring, job);
        }
    }
    play.put(alloc, 0);
    true
}

fn write_run(sheet: &mut Sheet, play: &Play, jobs: u64) {
    sheet.count("  jobs ", jobs);
    sheet.count(", members ", play.state().members().len() as u64);
}

fn write_sizes(sheet: &mut Sheet, sizes: &Sizes) {
    sheet.count(", rows ", sizes.rows);
    sheet.count(", columns ", sizes.columns);
    sheet.count(", entries ", sizes.entries);
    sheet.count(", entries of rows reduced ", sizes.cleared);
}

fn play_jobs<R: Threads + Sync>(
    rt: &R,
    alloc: Global,
    sheet: &mut Sheet,
    play: &mut Play,
    count: u32,
    most: u64,
    measure: bool,
) {
    let mut sizes = Sizes {
        rows: 0,
        columns: 0,
        entries: 0,
        cleared: 0,
    };
    let mut jobs: u64 = 0;
    for _ in 0..count {
        if !has_job(rt, alloc, play, &mut sizes, most, measure) {
            break;
        }
        jobs = jobs.saturating_add(1);
    }
    write_run(sheet, play, jobs);
    if measure {
        write_sizes(sheet, &sizes);
    }
    sheet.text("\n");
}

/// Up to so many jobs of one worker, each of so many pairs at most, solved by their matrices with so many helpers, or
/// by plain division: writes how many there were and how many members there are then.
pub fn solve_jobs<R: Threads + Sync>(
    rt: &R,
    alloc: Global,
    sheet: &mut Sheet,
    input: &Input,
    count: u32,
    most: u64,
    helpers: Option<u32>,
) {
    if let Some(mut play) = begin(alloc, sheet, input, BUDGET, 1, helpers) {
        play_jobs(rt, alloc, sheet, &mut play, count, most, false);
    }
}

/// The same by matrices, with the sums of their sizes.
pub fn measure_jobs<R: Threads + Sync>(
    rt: &R,
    alloc: Global,
    sheet: &mut Sheet,
    input: &Input,
    count: u32,
    most: u64,
) {
    if let Some(mut play) = begin(alloc, sheet, input, BUDGET, 1, Some(input.helpers)) {
        play_jobs(rt, alloc, sheet, &mut play, count, most, true);
    }
}
