// Jobs that are solved by plain division, and the same run with jobs that are solved by their matrices.
use crate::desk::Input;
use crate::leading::write_leads;
use crate::play::{Play, Turn, begin};
use check_texts::Sheet;
use std::alloc::Global;
use std::thread::Threads;

const BUDGET: u64 = 1_000_000;

// One job, taken, solved and handed in; false where there is none.
fn has_job<R: Threads + Sync>(rt: &R, alloc: Global, play: &mut Play, most: u64) -> bool {
    match play.take(rt, alloc, 0, most) {
        Turn::Job => {
            play.put(alloc, 0);
            true
        }
        _ => false,
    }
}

// The minimal leads of the members.
fn leads_of(alloc: Global, play: &Play) -> Sheet {
    let mut leads = Sheet::new(alloc);
    write_leads(alloc, &mut leads, play.state());
    leads
}

// Writes the leads where they are not the same, and tells whether they are.
fn are_same(sheet: &mut Sheet, plain: &str, by_matrix: &str) -> bool {
    if plain == by_matrix {
        return true;
    }
    sheet.text("  by division ");
    sheet.text(plain);
    sheet.text("  by matrices ");
    sheet.text(by_matrix);
    false
}

// Are the minimal leads of both the same?
fn are_alike(alloc: Global, sheet: &mut Sheet, plain: &Play, by_matrix: &Play) -> bool {
    let left = leads_of(alloc, plain);
    let right = leads_of(alloc, by_matrix);
    are_same(sheet, left.whole(), right.whole())
}

// A job of each; false where neither has one.
fn have_jobs<R: Threads + Sync>(
    rt: &R,
    alloc: Global,
    plain: &mut Play,
    by_matrix: &mut Play,
    most: u64,
) -> bool {
    let left = has_job(rt, alloc, plain, most);
    let right = has_job(rt, alloc, by_matrix, most);
    left || right
}

// Up to so many jobs in both ways: writes how many, and after how many of them the leads are the same.
fn play_both<R: Threads + Sync>(
    rt: &R,
    alloc: Global,
    sheet: &mut Sheet,
    plain: &mut Play,
    by_matrix: &mut Play,
    count: u32,
    most: u64,
) {
    let mut jobs: u64 = 0;
    let mut alike: u64 = 0;
    for _ in 0..count {
        if !have_jobs(rt, alloc, plain, by_matrix, most) {
            break;
        }
        jobs = jobs.saturating_add(1);
        if are_alike(alloc, sheet, plain, by_matrix) {
            alike = alike.saturating_add(1);
        }
    }
    sheet.count("  jobs ", jobs);
    sheet.count(", alike ", alike);
    sheet.text("\n");
}

// The same run by matrices beside that by plain division.
fn play_beside<R: Threads + Sync>(
    rt: &R,
    alloc: Global,
    sheet: &mut Sheet,
    input: &Input,
    plain: &mut Play,
    count: u32,
    most: u64,
) {
    if let Some(mut by_matrix) = begin(alloc, sheet, input, BUDGET, 1, Some(input.helpers)) {
        play_both(rt, alloc, sheet, plain, &mut by_matrix, count, most);
    }
}

/// Up to so many jobs of one worker, each of so many pairs at most, by plain division and by matrices: writes how many there were,
/// after how many of them the minimal leads of the members are the same, and the leads where they are not.
pub fn compare_jobs<R: Threads + Sync>(
    rt: &R,
    alloc: Global,
    sheet: &mut Sheet,
    input: &Input,
    count: u32,
    most: u64,
) {
    if let Some(mut plain) = begin(alloc, sheet, input, BUDGET, 1, None) {
        play_beside(rt, alloc, sheet, input, &mut plain, count, most);
    }
}
