// Products of vectors over numbers of keys.
ghost use Rattle.std.specs.Prelude.{◌<◌, [], IfErr, IfOk, OnOk, get_or, length};
ghost use Rattle.term_lists.specs.Rings.{variables};
ghost use Rattle.term_lists.specs.Vectors.{IsMonomialOver};
ghost use Rattle.vector_division.specs.Progress.{AreWeighed};
ghost use Rattle.row_matrix.specs.Naming.{IsGrown};
ghost use Rattle.row_matrix.specs.Products.{ProductStops};
ghost use Rattle.row_matrix.specs.Rows.{AreKeys};
ghost use Rattle.row_matrix.specs.Told.{AreHashesOf};
ghost use Rattle.numbered_sums.specs.ProductEntries.{AreReduced, IsProductEntries};

use module_vectors::{Ring, Vect};
use monomial_orders::Mono;
use row_matrix::{KeyTable, ProductStop, TermHashes, product_row};
use std::alloc::Global;

/// The product of a monomial and the vector with this index, whose keys have these hashes. Its keys have numbers from then on.
pub fn numbered_product(
    alloc: Global,
    ring: &Ring,
    list: &[Vect],
    index: usize,
    monomial: &Mono,
    hashes: &TermHashes,
    numbers: &mut KeyTable,
) -> Result<Vec<(u32, u32)>, ProductStop>
    requires index { index < length list.now }
    requires monomial { IsMonomialOver ring.now monomial.now }
    requires weighed { AreWeighed (variables ring.now) ring.now.weights list.now }
    requires reduced { AreReduced ring.now.modulus.value list.now }
    requires hashes { AreHashesOf hashes.now (get_or list.now index []) }
    requires keys { AreKeys (variables ring.now) ring.now.weights numbers.old }
    ensures row { IfOk result (λ row. IsProductEntries ring.now list.now numbers.new index monomial.now row.items) }
    ensures keys { OnOk result (AreKeys (variables ring.now) ring.now.weights numbers.new) }
    ensures grown { IfOk result (λ row. IsGrown numbers.old numbers.new row.items) }
    ensures stop { IfErr result (ProductStops monomial.now (get_or list.now index [])) }
{
    let _ring = ring;
    product_row(alloc, numbers, monomial, list[index].terms(), hashes)
}
