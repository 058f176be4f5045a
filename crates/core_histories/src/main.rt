//! Histories of the basis core. Standard input has lines `ring P VARIABLE{,VARIABLE} ORDER`, `rank N` and `generator VECTOR`,
//! with texts of `check_texts`, `helpers N`, without which a matrix has one helper, and `update N`, without which all
//! pairs of a new member are queued, and then `begin WORKERS BUDGET` and the
//! events `take WORKER MOST`, `put WORKER`, `end WORKER` and `stop WORKER`, or `drive`, or `jobs COUNT MOST`, or `busy TAKES
//! PUTS`. An outcome comes from plain division at its Take. After each event it prints the answer and what all readers of the
//! state say. `drive` runs random legal events of 1, 2, 3 and 5 workers to their end, and prints the minimal leads of the
//! members, as one sum, and again where they differ. `jobs COUNT MOST` lets one worker take so many jobs of at most so many
//! pairs, twice: solved by plain division, and by their matrices, with so many helpers. It prints after how many of them the
//! minimal leads are the same, and those that differ. `solve COUNT MOST`, `divide COUNT MOST` and `sizes COUNT MOST`, which
//! `bench/jobs` times, do it in one way alone: by matrices, by plain division, and by matrices with the sums of their rows,
//! columns and entries. `busy`, which `bench/core` times, lets each of TAKES workers take and
//! solve one pair and PUTS of them hand in their outcome, and prints how many members, jobs and queued pairs there are then.
#![tactic(auto)]

mod described;
mod desk;
mod driving;
mod leading;
mod matrices;
mod play;
mod sizes;

use crate::desk::Desk;
use check_texts::Sheet;
use std::io;
use std::thread::Threads;

// Does each line of standard input.
fn do_lines<R: Threads + Sync>(
    host: &HostRuntime,
    rt: &R,
    desk: &mut Desk,
    sheet: &mut Sheet,
) -> io::Result<()> {
    for line in host.lines(host.alloc()) {
        desk.line(rt, host.alloc(), sheet, line?.as_str());
    }
    Ok(())
}

// Does all lines, from no ring on.
fn do_all<R: Threads + Sync>(host: &HostRuntime, rt: &R, sheet: &mut Sheet) -> io::Result<()> {
    let mut desk = Desk::new(host.alloc());
    do_lines(host, rt, &mut desk, sheet)
}

// What is written of all lines.
fn answers<R: Threads + Sync>(host: &HostRuntime, rt: &R) -> io::Result<Sheet> {
    let mut sheet = Sheet::new(host.alloc());
    do_all(host, rt, &mut sheet)?;
    Ok(sheet)
}

fn main(rt: HostRuntime) -> io::Result<()> {
    let sheet = answers(&rt, &rt)?;
    print!(rt; "{}", sheet.whole())
}
