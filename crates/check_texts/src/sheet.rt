// A sheet, on which values are written.
ghost use Rattle.std.specs.Prelude.{◌↔◌, IsTrue};
ghost use Rattle.formal_sums.specs.FormalSums.{Each};
ghost use Rattle.term_lists.specs.Vectors.{HasVariables};

use byte_ports::StdSink;
use cofactor_track::Member;
use line_text::{LineText, NoMemory, Pieces};
use module_vectors::{Key, Ring, Vect};
use monomial_orders::Mono;
use poly_text::{push_entries, push_number, push_vect};
use std::alloc::Global;
use std::mem::replace;

// Has each term so many exponents?
fn have_variables(terms: &[(Key, u32)], count: usize) -> bool
    ensures { IsTrue result ↔ Each (HasVariables count) terms.now }
{
    for term in terms {
        if term.0.monomial.variables() != count {
            return false;
        }
    }
    true
}

/// What is written, part behind part. Where a part finds no memory, the whole says so; so no call gives up.
#[derive(Drop)]
pub struct Sheet {
    alloc: Global,
    bytes: Vec<u8>,
    line: LineText,
    is_whole: bool,
}

impl Sheet {
    /// Nothing is written.
    pub fn new(alloc: Global) -> Sheet {
        Sheet {
            alloc,
            bytes: Vec::new(alloc),
            line: LineText::new(alloc),
            is_whole: true,
        }
    }

    /// All that is written.
    pub fn whole(&self) -> &str {
        if !self.is_whole {
            return "no memory\n";
        }
        match std::str::from_utf8(&self.bytes) {
            Ok(text) => text,
            Err(_) => "no text\n",
        }
    }

    /// Writes a text.
    pub fn text(&mut self, text: &str) {
        if self.bytes.extend_from_slice(text.as_bytes()).is_err() {
            self.is_whole = false;
        }
    }

    // Writes what stands in the line, if it is whole, and clears that.
    fn take_line(&mut self, written: Result<(), NoMemory>) {
        let Ok(mut pieces) = Pieces::new(self.alloc) else {
            self.is_whole = false;
            return;
        };
        let mut sink = StdSink::new(replace(&mut self.bytes, Vec::new(self.alloc)));
        if written.is_err() || self.line.write_to(&mut pieces, &mut sink).is_err() {
            self.is_whole = false;
        }
        self.bytes = sink.into_parts().0;
        self.line.clear();
    }

    /// Writes a number.
    pub fn number(&mut self, number: i128) {
        let written = push_number(self.alloc, &mut self.line, number);
        self.take_line(written);
    }

    /// Writes a text and a number.
    pub fn count(&mut self, before: &str, count: u64) {
        self.text(before);
        self.number(i128::from(count));
    }

    /// Writes exponents in brackets.
    pub fn exponents(&mut self, exponents: &[u16]) {
        let mut before = "(";
        for exponent in exponents {
            self.count(before, u64::from(*exponent));
            before = ",";
        }
        self.text(")");
    }

    // Writes a power of a variable, behind a `*` unless it is the first.
    fn power(&mut self, is_first: bool, name: &str, exponent: u16) {
        if !is_first {
            self.text("*");
        }
        self.text(name);
        if exponent != 1 {
            self.count("^", u64::from(exponent));
        }
    }

    /// Writes a monomial.
    pub fn monomial(&mut self, ring: &Ring, monomial: &Mono) {
        let mut is_first = true;
        for (name, exponent) in ring.vars.as_slice().iter().zip(monomial.exponents()) {
            if *exponent != 0 {
                self.power(is_first, name.as_str(), *exponent);
                is_first = false;
            }
        }
        if is_first {
            self.text("1");
        }
    }

    /// Writes products: the index of a vector, and the monomial.
    pub fn products(&mut self, ring: &Ring, products: &[(u64, Mono)]) {
        for (index, monomial) in products {
            self.count(" ", *index);
            self.text(":");
            self.monomial(ring, monomial);
        }
    }

    /// Writes a vector: at rank 1 the polynomial, else its entries.
    pub fn vector(&mut self, ring: &Ring, rank: u128, v: &Vect) {
        if !have_variables(v.terms(), ring.vars.len()) {
            self.text("no vector of the ring");
        } else {
            let written = push_vect(self.alloc, &mut self.line, ring, rank, v);
            self.take_line(written);
        }
    }

    /// Writes vectors, each behind a space, or that there are none.
    pub fn vectors(&mut self, ring: &Ring, rank: u128, vectors: &[Vect]) {
        if vectors.is_empty() {
            self.text(" none");
        }
        for v in vectors {
            self.text(" ");
            self.vector(ring, rank, v);
        }
    }

    /// Writes a vector, and by how much of each of `count` others it is made: the entries of `factors`.
    pub fn made(&mut self, ring: &Ring, rank: u128, v: &Vect, count: u128, factors: &Vect) {
        self.vector(ring, rank, v);
        self.text(" by ");
        if !have_variables(factors.terms(), ring.vars.len()) {
            self.text("no vector of the ring");
        } else {
            let written = push_entries(self.alloc, &mut self.line, ring, count, factors);
            self.take_line(written);
        }
    }

    /// Writes a member, and its cofactors over the generators.
    pub fn member(&mut self, member: &Member) {
        let shared = &member.shared;
        let count = shared.generators.len() as u128;
        self.made(
            &shared.ring,
            shared.rank,
            &member.vector,
            count,
            &member.cof,
        );
    }
}
