// Residues, sums and combinations.
ghost use Rattle.std.specs.Prelude.{IsOk};
ghost use Rattle.formal_sums.specs.FormalSums.{Each};
ghost use Rattle.term_lists.specs.Rings.{ring_comparison};
ghost use Rattle.term_lists.specs.Vectors.{AreVectorsOver, HasPositions};

use check_texts::{NoValue, Sheet, product_of, setting_of, vector_of};
use module_vectors::{Ring, Vect, VectList, VectStop};
use std::alloc::Global;
use term_tables::multiply;

/// The number that a word is.
pub fn number_of(word: &str) -> Result<u64, NoValue> {
    match word.parse::<u64>() {
        Ok(number) => Ok(number),
        Err(_) => Err(NoValue),
    }
}

/// Writes why there is no vector: the two monomials whose product has too great a degree.
pub fn write_stop(sheet: &mut Sheet, stop: &VectStop) {
    match stop {
        VectStop::Memory => sheet.text("  no memory\n"),
        VectStop::Degree(left, right) => {
            sheet.text("  degree of ");
            sheet.exponents(left.exponents());
            sheet.text(" ");
            sheet.exponents(right.exponents());
            sheet.text("\n");
        }
    }
}

/// Writes a vector on a line of its own.
pub fn write_vector(sheet: &mut Sheet, ring: &Ring, rank: u128, v: &Vect) {
    sheet.text("  ");
    sheet.vector(ring, rank, v);
    sheet.text("\n");
}

/// Writes vectors, each on a line of its own.
pub fn write_list(sheet: &mut Sheet, ring: &Ring, rank: u128, list: &VectList) {
    for v in list.as_slice() {
        write_vector(sheet, ring, rank, v);
    }
}

/// Writes the power of a residue.
pub fn write_power(
    alloc: Global,
    sheet: &mut Sheet,
    setting: &str,
    residue: &str,
    exponent: &str,
) -> Result<(), NoValue> {
    let modulus = setting_of(alloc, setting)?.0.modulus;
    match (residue.parse::<u128>(), exponent.parse::<u128>()) {
        (Ok(residue), Ok(exponent)) => {
            let power = modulus.power(modulus.from_u128(residue), exponent);
            sheet.count("  ", u64::from(power));
            sheet.text("\n");
            Ok(())
        }
        _ => Err(NoValue),
    }
}

/// Writes the first vector of the list, and the product of this text times the second.
pub fn write_sum(
    alloc: Global,
    sheet: &mut Sheet,
    ring: &Ring,
    rank: u128,
    product: &str,
    list: &VectList,
) -> Result<(), NoValue>
    requires { AreVectorsOver ring.now (ring_comparison ring.now) list.now }
{
    let vectors = list.as_slice();
    if vectors.len() != 2 {
        return Err(NoValue);
    }
    let (monomial, residue) = product_of(alloc, ring, product)?;
    let mut sum = vectors[0].try_copy(alloc)?;
    match sum.add_scaled(alloc, ring, residue, &monomial, &vectors[1]) {
        Ok(()) => write_vector(sheet, ring, rank, &sum),
        Err(stop) => write_stop(sheet, &stop),
    }
    Ok(())
}

/// Writes the combination of the list by the entries of the vector of this text.
pub fn write_combination(
    alloc: Global,
    sheet: &mut Sheet,
    ring: &Ring,
    rank: u128,
    cofactors: &str,
    list: &VectList,
) -> Result<(), NoValue>
    requires { AreVectorsOver ring.now (ring_comparison ring.now) list.now }
{
    let cofactors = vector_of(alloc, ring, list.len() as u128, cofactors)?;
    match Vect::combine(alloc, ring, &cofactors, list) {
        Ok(sum) => write_vector(sheet, ring, rank, &sum),
        Err(stop) => write_stop(sheet, &stop),
    }
    Ok(())
}

/// Writes the product of the two polynomials of the list by a table, or that none serves.
pub fn write_table(
    alloc: Global,
    sheet: &mut Sheet,
    ring: &Ring,
    rank: u128,
    list: &VectList,
) -> Result<(), NoValue>
    requires { AreVectorsOver ring.now (ring_comparison ring.now) list.now }
{
    let factors = list.as_slice();
    if rank != 1 || factors.len() != 2 {
        return Err(NoValue);
    }
    match multiply(alloc, ring, factors[0].terms(), factors[1].terms())? {
        Some(product) => write_vector(sheet, ring, rank, &product),
        None => sheet.text("  none\n"),
    }
    Ok(())
}
