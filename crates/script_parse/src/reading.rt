//! Reading a line.

ghost use Rattle.std.specs.Option.{option_copied};
ghost use Rattle.script_parse.specs.Answers.{AnswersLine};
ghost use Rattle.script_parse.specs.Tests.{IsFormed};

use crate::kind::{Kind, ParseStop};
use crate::name_table::NameTable;
use crate::ring_line::ring_statement;
use crate::ring_needed::line_statement;
use crate::stated::Statement;
use module_vectors::Ring;
use poly_grammar::{ReadStop, numerals_fit};
use script_forms::{Form, read_form};
use script_tokens::{TokenStop, tokens};
use std::alloc::Global;

/// The form of a line whose numbers are below 2^128.
fn formed(alloc: Global, line: &[u8]) -> Result<Form, ParseStop>
    ensures { IsFormed line.now result }
{
    let found = match tokens(alloc, line) {
        Ok(found) => found,
        Err(TokenStop::Memory) => return Err(ParseStop::Memory),
        Err(TokenStop::At(_)) => return Err(ParseStop::Refused(Kind::Syntax)),
    };
    let form = match read_form(alloc, line, &found) {
        Ok(form) => form,
        Err(ReadStop::Memory) => return Err(ParseStop::Memory),
        Err(ReadStop::Syntax) => return Err(ParseStop::Refused(Kind::Syntax)),
    };
    if !numerals_fit(line, &found) {
        return Err(ParseStop::Refused(Kind::Numeral));
    }
    Ok(form)
}

/// What a line states, where this ring is stated before it and values have these names.
///
/// The lines are `ring NUM NAME {, NAME} order [top] [weights NUM {, NUM}]` with the orders `lex`, `grevlex` and
/// `elim NUM`, `show POLY`, `ideal NAME = POLY {, POLY}`, `module NAME NUM = VEC {, VEC}`, `let NAME = operation`,
/// `gens NAME`, `gb NAME`, `size NAME`, `hilb NAME`, `res NAME`, `minres NAME`, `betti NAME`, `reg NAME`, `nf NAME VEC`,
/// `member NAME VEC`, `lift NAME VEC`, `equal NAME NAME`, `fglm NAME order`, `ext NAME NUM`, `express POLY by POLY {, POLY}` and
/// blank ones, where VEC is POLY or `[ POLY {, POLY} ]`. The operations are `sum NAME NAME`, `product NAME NAME`,
/// `intersect NAME NAME`, `colon NAME NAME`, `quotient NAME POLY`, `saturate NAME POLY`, `eliminate NAME NUM`, `syz NAME` and
/// `preimage NAME POLY {, POLY}`.
/// A number stands for its residue, `-x^2` for minus the square, and each power with exponent 0 for 1. Entry i of a VEC is at
/// position i, from 0. A ring has the weight 1 for each variable where its line states none.
///
/// Answers `Refused` exactly for the first `Kind` that holds, and `Memory` where a growth was refused. The ring is as it
/// was.
pub fn statement(
    alloc: Global,
    line: &[u8],
    ring: Option<&Ring>,
    names: &NameTable,
) -> Result<Statement, ParseStop>
    ensures { AnswersLine (option_copied ring.entry) names.now line.now result }
{
    let form = match formed(alloc, line) {
        Ok(form) => form,
        Err(stop) => return Err(stop),
    };
    match form {
        Form::Nothing => Ok(Statement::Nothing),
        Form::Ring(form) => ring_statement(alloc, line, &form),
        Form::Line(head, polynomials) => {
            line_statement(alloc, line, ring, names, head, &polynomials)
        }
    }
}
