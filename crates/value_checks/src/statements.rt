// What lines state where values have ranks above 1, or the name of a variable, which no script reaches.
use check_texts::{NoValue, Sheet, setting_of};
use module_vectors::{Ring, Vect};
use script_parse::{Kind, NameInfo, NameTable, ParseStop, Statement, statement};
use std::alloc::Global;

// Values `A`, `B` and `C` of ranks 1, 2 and 3, with stored lists of 0, 2 and 65 vectors.
fn names(alloc: Global) -> Result<NameTable, NoValue> {
    let mut names = NameTable::new(alloc);
    for (name, rank, length) in [("A", 1, 0), ("B", 2, 2), ("C", 3, 65)] {
        names.give(NameInfo {
            name: String::from_str(alloc, name)?,
            rank,
            length,
        })?;
    }
    Ok(names)
}

fn kind_text(kind: Kind) -> &'static str {
    match kind {
        Kind::Syntax => "  syntax\n",
        Kind::Numeral => "  numeral\n",
        Kind::Ring => "  ring\n",
        Kind::Modulus => "  modulus\n",
        Kind::Name => "  name\n",
        Kind::OfKind => "  kind\n",
        Kind::Rank => "  rank\n",
        Kind::Degree => "  degree\n",
        Kind::Leads => "  leads\n",
        Kind::Large => "  large\n",
        Kind::Infinite => "  infinite\n",
        Kind::Homogeneous => "  homogeneous\n",
        Kind::Many => "  many\n",
    }
}

// Writes a word and a vector that is of the rank of the value with this name.
fn write_question(sheet: &mut Sheet, ring: &Ring, word: &str, name: &str, v: &Vect) {
    let rank = match name {
        "A" => 1,
        "B" => 2,
        _ => 3,
    };
    sheet.text(word);
    sheet.vector(ring, rank, v);
    sheet.text("\n");
}

fn write_statement(sheet: &mut Sheet, ring: &Ring, stated: &Statement) {
    match stated {
        Statement::NormalForm(name, v) => write_question(sheet, ring, "  nf ", name.as_str(), v),
        Statement::Member(name, v) => write_question(sheet, ring, "  member ", name.as_str(), v),
        Statement::Lift(name, v) => write_question(sheet, ring, "  lift ", name.as_str(), v),
        _ => sheet.text("  another statement\n"),
    }
}

/// Writes what a line states of the vector that it divides, or the kind for which it is refused, where the setting states
/// the ring.
pub fn write_stated(
    alloc: Global,
    sheet: &mut Sheet,
    setting: &str,
    line: &str,
) -> Result<(), NoValue> {
    let ring = setting_of(alloc, setting)?.0;
    let names = names(alloc)?;
    match statement(alloc, line.as_bytes(), Some(&ring), &names) {
        Ok(stated) => write_statement(sheet, &ring, &stated),
        Err(ParseStop::Memory) => sheet.text("  no memory\n"),
        Err(ParseStop::Refused(kind)) => sheet.text(kind_text(kind)),
    }
    Ok(())
}
