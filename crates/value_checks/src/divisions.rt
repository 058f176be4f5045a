// Divisions of a vector by a list, and interreductions.
ghost use Rattle.term_lists.specs.Rings.{ring_comparison};
ghost use Rattle.term_lists.specs.Vectors.{AreVectorsOver, IsVectorOver};

use crate::trails::write_stop;
use crate::vectors::write_list;
use check_texts::{NoValue, Sheet, vector_of};
use interreduce::interreduce;
use module_vectors::{Ring, Vect, VectList, WorkStop};
use std::alloc::Global;
use std::thread::Threads;
use vector_division::{Division, Reduction, ScaledProduct, divide, reduce, reduce_lead};

// Writes the quotients and the rest.
fn write_quotients(sheet: &mut Sheet, ring: &Ring, rank: u128, count: u128, division: &Division) {
    sheet.text("  quotients ");
    sheet.vector(ring, count, &division.quotients);
    sheet.text("\n  rest ");
    sheet.vector(ring, rank, &division.rest);
    sheet.text("\n");
}

// Writes what was taken away: the index of a vector, the residue and the monomial.
fn write_products(sheet: &mut Sheet, ring: &Ring, quotients: &[ScaledProduct]) {
    for quotient in quotients {
        sheet.count(" ", quotient.index);
        sheet.count(":", u64::from(quotient.residue));
        sheet.text("*");
        sheet.monomial(ring, &quotient.monomial);
    }
}

// Writes what was taken away, and the rest.
fn write_reduction(
    sheet: &mut Sheet,
    ring: &Ring,
    rank: u128,
    reduction: &Result<Reduction, WorkStop>,
) {
    match reduction {
        Ok(reduction) => {
            sheet.text("  products");
            write_products(sheet, ring, &reduction.quotients);
            sheet.text("\n  rest ");
            sheet.vector(ring, rank, &reduction.rest);
            sheet.text("\n");
        }
        Err(stop) => write_stop(sheet, rank, stop),
    }
}

fn write_divided(
    alloc: Global,
    sheet: &mut Sheet,
    ring: &Ring,
    rank: u128,
    v: &Vect,
    list: &VectList,
)
    requires vector { IsVectorOver ring.now (ring_comparison ring.now) v.now }
    requires list { AreVectorsOver ring.now (ring_comparison ring.now) list.now }
{
    match divide(alloc, ring, v, list) {
        Ok(division) => write_quotients(sheet, ring, rank, list.len() as u128, &division),
        Err(stop) => write_stop(sheet, rank, &stop),
    }
}

fn write_reduced(
    alloc: Global,
    sheet: &mut Sheet,
    ring: &Ring,
    rank: u128,
    v: &Vect,
    list: &VectList,
)
    requires vector { IsVectorOver ring.now (ring_comparison ring.now) v.now }
    requires list { AreVectorsOver ring.now (ring_comparison ring.now) list.now }
{
    write_reduction(sheet, ring, rank, &reduce(alloc, ring, v, list));
}

fn write_lead_reduced(
    alloc: Global,
    sheet: &mut Sheet,
    ring: &Ring,
    rank: u128,
    v: &Vect,
    list: &VectList,
)
    requires vector { IsVectorOver ring.now (ring_comparison ring.now) v.now }
    requires list { AreVectorsOver ring.now (ring_comparison ring.now) list.now }
{
    write_reduction(sheet, ring, rank, &reduce_lead(alloc, ring, v, list));
}

/// Writes what the division of this kind of the vector of this text gives.
pub fn write_division(
    alloc: Global,
    sheet: &mut Sheet,
    work: &str,
    ring: &Ring,
    rank: u128,
    text: &str,
    list: &VectList,
) -> Result<(), NoValue>
    requires { AreVectorsOver ring.now (ring_comparison ring.now) list.now }
{
    let v = vector_of(alloc, ring, rank, text)?;
    match work {
        "divide" => write_divided(alloc, sheet, ring, rank, &v, list),
        "reduce" => write_reduced(alloc, sheet, ring, rank, &v, list),
        "lead" => write_lead_reduced(alloc, sheet, ring, rank, &v, list),
        _ => sheet.text("  no job\n"),
    }
    Ok(())
}

/// Writes the interreduction of a list.
pub fn write_interreduction<R: Threads + Sync>(
    rt: &R,
    alloc: Global,
    sheet: &mut Sheet,
    ring: &Ring,
    rank: u128,
    list: &VectList,
)
    requires { AreVectorsOver ring.now (ring_comparison ring.now) list.now }
{
    match interreduce(rt, alloc, ring, list) {
        Ok(answer) => write_list(sheet, ring, rank, &answer),
        Err(stop) => write_stop(sheet, rank, &stop),
    }
}
