//! Values of calls that lie below the statements of a script, to be compared with those of other programs. Each line of
//! standard input is a job, and is answered by the line and what it gives:
//!
//!     power SETTING / A / N               the power of a residue
//!     list SETTING / LIST                 the vectors of the list
//!     add SETTING / PRODUCT / LIST        the first vector, and the product times the second
//!     combine SETTING / VECTOR / LIST     the combination of the list by the entries of the vector
//!     table SETTING / LIST                the product of the two polynomials by a table, or that none serves
//!     track SETTING / CHANGES / LIST      a generator after changes, with its cofactors
//!     pair SETTING / I J / LIST           the pair of two leads, and the criteria
//!     divide SETTING / VECTOR / LIST      quotients and rest
//!     reduce SETTING / VECTOR / LIST      the products INDEX:RESIDUE*MONOMIAL that are taken away in turn, and the rest
//!     lead SETTING / VECTOR / LIST        the same until no lead divides the vector's lead
//!     interreduce SETTING / LIST          the list interreduced
//!     begin SETTING / LIST                the members of a run on the list, with cofactors, and the queued pairs
//!     solve SETTING / LIST                the rows of the run's first job, by members, and the products INDEX:MONOMIAL
//!     basis SETTING / PAIRS / LIST        the reduced basis, where it takes at most so many pairs
//!     colon SETTING / LIST / LIST         the colon of the ideal of the second list by the first, and how many runs count
//!     line SETTING / LINE                 what a line states of the vector that it divides, or the kind of its refusal
//!
//! SETTING, VECTOR, LIST and PRODUCT are texts of `check_texts`. A job that meets a product of too great a degree answers its
//! trail. A line that begins with `#` is a comment.
#![tactic(auto)]

mod colons;
mod divisions;
mod members;
mod pairs;
mod runs;
mod statements;
mod trails;
mod vectors;

ghost use Rattle.formal_sums.specs.FormalSums.{Each};
ghost use Rattle.term_lists.specs.Rings.{ring_comparison};
ghost use Rattle.term_lists.specs.Vectors.{AreVectorsOver, HasPositions};

use crate::colons::write_colon;
use crate::divisions::{write_division, write_interreduction};
use crate::members::write_tracked;
use crate::pairs::write_pair;
use crate::runs::{write_basis, write_beginning, write_solution};
use crate::statements::write_stated;
use crate::vectors::{write_combination, write_list, write_power, write_sum, write_table};
use check_texts::{NoValue, Sheet, setting_of, vectors_of};
use module_vectors::{Ring, VectList};
use std::alloc::Global;
use std::io;
use std::sync::Wait;
use std::thread::Threads;

// Writes the answer to a job with this argument on a list.
fn write_on_list<R: Threads + Wait + Sync>(
    rt: &R,
    alloc: Global,
    sheet: &mut Sheet,
    work: &str,
    ring: &Ring,
    rank: u128,
    argument: &str,
    list: &VectList,
) -> Result<(), NoValue>
    requires vectors { AreVectorsOver ring.now (ring_comparison ring.now) list.now }
    requires positions { Each (HasPositions rank) list.now }
{
    match work {
        "list" => {
            write_list(sheet, ring, rank, list);
            Ok(())
        }
        "add" => write_sum(alloc, sheet, ring, rank, argument, list),
        "table" => write_table(alloc, sheet, ring, rank, list),
        "combine" => write_combination(alloc, sheet, ring, rank, argument, list),
        "pair" => write_pair(alloc, sheet, ring, rank, argument, list),
        "interreduce" => {
            write_interreduction(rt, alloc, sheet, ring, rank, list);
            Ok(())
        }
        "basis" => write_basis(rt, alloc, sheet, ring, rank, argument, list),
        "colon" => write_colon(rt, alloc, sheet, ring, rank, argument, list),
        _ => write_division(alloc, sheet, work, ring, rank, argument, list),
    }
}

// Writes the answer to a job with this argument on the list of a text.
fn write_on_text<R: Threads + Wait + Sync>(
    rt: &R,
    alloc: Global,
    sheet: &mut Sheet,
    work: &str,
    setting: &str,
    argument: &str,
    text: &str,
) -> Result<(), NoValue> {
    let (ring, rank) = setting_of(alloc, setting)?;
    let list = vectors_of(alloc, &ring, rank, text)?;
    write_on_list(rt, alloc, sheet, work, &ring, rank, argument, &list)
}

// Writes the answer to a job.
fn write_answer<R: Threads + Wait + Sync>(
    rt: &R,
    alloc: Global,
    sheet: &mut Sheet,
    line: &str,
) -> Result<(), NoValue> {
    let (front, text) = line.rsplit_once(" / ").unwrap_or((line, ""));
    let (head, argument) = front.split_once(" / ").unwrap_or((front, ""));
    let (work, setting) = head.split_once(' ').unwrap_or((head, ""));
    match work {
        "" | "#" => Ok(()),
        "power" => write_power(alloc, sheet, setting, argument, text),
        "track" => write_tracked(alloc, sheet, setting, argument, text),
        "begin" => write_beginning(alloc, sheet, setting, text),
        "solve" => write_solution(alloc, sheet, setting, text),
        "line" => write_stated(alloc, sheet, setting, text),
        _ => write_on_text(rt, alloc, sheet, work, setting, argument, text),
    }
}

// Writes a line and its answer.
fn write_line<R: Threads + Wait + Sync>(rt: &R, alloc: Global, sheet: &mut Sheet, line: &str) {
    sheet.text(line);
    sheet.text("\n");
    if write_answer(rt, alloc, sheet, line).is_err() {
        sheet.text("  no value\n");
    }
}

fn main(rt: HostRuntime) -> io::Result<()> {
    let mut sheet = Sheet::new(rt.alloc());
    for line in rt.lines(rt.alloc()) {
        write_line(&rt, rt.alloc(), &mut sheet, line?.as_str());
    }
    print!(rt; "{}", sheet.whole())
}
