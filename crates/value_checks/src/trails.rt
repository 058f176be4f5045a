// Why work stopped, with every field of a trail.
use check_texts::Sheet;
use module_vectors::{KeptTrail, Ring, TrailStart, WorkStop};
use monomial_orders::{ModOrder, Order};

// Writes a variable behind a space or a comma, with its weight unless that is 1.
fn write_variable(sheet: &mut Sheet, is_first: bool, name: &str, weight: u8) {
    sheet.text(if is_first { " " } else { "," });
    sheet.text(name);
    if weight != 1 {
        sheet.count(":", u64::from(weight));
    }
}

fn write_variables(sheet: &mut Sheet, ring: &Ring) {
    let mut is_first = true;
    for (name, weight) in ring.vars.as_slice().iter().zip(ring.weights.as_slice()) {
        write_variable(sheet, is_first, name.as_str(), *weight);
        is_first = false;
    }
}

fn write_ring(sheet: &mut Sheet, ring: &Ring) {
    sheet.count("  ring ", u64::from(ring.modulus.value()));
    write_variables(sheet, ring);
    match ring.order {
        Order::Lex => sheet.text(" lex"),
        Order::Grevlex => sheet.text(" grevlex"),
        Order::Elim(first) => sheet.count(" elim", u64::from(first)),
    }
    match ring.module_order {
        ModOrder::Pot => sheet.text(" pot\n"),
        ModOrder::Top => sheet.text(" top\n"),
    }
}

// Of which run the trail is.
fn write_run(sheet: &mut Sheet, rank: u128, trail: &KeptTrail) {
    sheet.text("  rank ");
    sheet.number(i128::try_from(trail.rank).unwrap_or(-1));
    sheet.text(", generators");
    sheet.vectors(&trail.ring, rank, trail.generators.as_slice());
    sheet.count(", below ", trail.below.len() as u64);
    sheet.text("\n");
}

fn write_start(sheet: &mut Sheet, start: TrailStart) {
    match start {
        TrailStart::Pair(i, j) => {
            sheet.count("  start pair ", i);
            sheet.count(" ", j);
        }
        TrailStart::Term => sheet.text("  start term"),
        TrailStart::Product => sheet.text("  start product"),
    }
}

/// Writes a trail of vectors of this rank.
pub fn write_trail(sheet: &mut Sheet, rank: u128, trail: &KeptTrail) {
    write_ring(sheet, &trail.ring);
    write_run(sheet, rank, trail);
    write_start(sheet, trail.start);
    sheet.text(", vector ");
    sheet.vector(&trail.ring, rank, &trail.vector);
    sheet.text("\n  members");
    sheet.vectors(&trail.ring, rank, trail.members.as_slice());
    sheet.text("\n  products");
    sheet.products(&trail.ring, &trail.products);
    sheet.text("\n  last ");
    sheet.monomial(&trail.ring, &trail.last);
    sheet.text("\n");
}

/// Writes why work on vectors of this rank stopped.
pub fn write_stop(sheet: &mut Sheet, rank: u128, stop: &WorkStop) {
    match stop {
        WorkStop::Memory => sheet.text("  no memory\n"),
        WorkStop::Degree(trail) => {
            sheet.text("  degree\n");
            write_trail(sheet, rank, trail);
        }
    }
}

/// Writes why a run stopped, whose rank the trail has.
pub fn write_run_stop(sheet: &mut Sheet, stop: &WorkStop) {
    let rank = match stop {
        WorkStop::Memory => 1,
        WorkStop::Degree(trail) => trail.rank,
    };
    write_stop(sheet, rank, stop);
}
