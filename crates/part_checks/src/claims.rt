ghost use Rattle.std.specs.Prelude.{◌≡◌, ◌+◌, ◌<◌, ◌∷◌, [], ◌++◌, length, slice_index, IfSome};
ghost use Rattle.pivot_table.specs.Law.{IsSeatOf, told, entry, found_by, claim_word};

use pivot_table::{Claim, ClaimSeat, Claims};
use std::alloc::Global;
use std::test::Fail;
use std::thread::{Threads, join};

fn is_won(claim: Claim) -> bool {
    match claim {
        Claim::Won => true,
        Claim::Lost(_) => false,
    }
}

#[test]
fn worked_row(rt: HostRuntime) -> Result<(), Fail> {
    let (claims, mut seat) = Claims::new(rt.alloc(), 3, &[0, 0, 2], &[None, None, None])?;
    let first = claims.claim(&mut seat, 0);
    let second = claims.claim(&mut seat, 1);
    let none = claims.look(&mut seat, 1);
    let third = claims.claim(&mut seat, 2);
    let rows = claims.close(seat);
    assert!(rt; is_won(first) && !is_won(second) && none.is_none() && is_won(third));
    assert!(rt; rows.len() == 3 && rows[0] == Some(0) && rows[1].is_none() && rows[2] == Some(2));
    Ok(())
}

// One helper's claim, with its seat.
fn helped(claims: &Claims, mut seat: ClaimSeat, row: u64) -> (Claim, ClaimSeat)
    requires seat { IsSeatOf claims.now.table.shared.table_id claims.now.rows.leads.items seat }
    requires row { row < length claims.now.rows.leads.items }
    ensures seat { IsSeatOf claims.now.table.shared.table_id claims.now.rows.leads.items result.1 }
    ensures told { told result.1 ≡ told seat ++ entry (slice_index claims.now.rows.leads.items row) (found_by result.0) (claim_word row result.0) ∷ [] }
{
    let claim = claims.claim(&mut seat, row);
    (claim, seat)
}

// Two threads claim one column.
fn two<R: Threads>(rt: &R, alloc: Global) -> Option<(Claim, Claim, Vec<Option<u64>>)> {
    let Ok((shared, mut seat)) = Claims::new(alloc, 1, &[0, 0], &[None]) else {
        return None;
    };
    let claims = &shared;
    let other = claims.split(&mut seat);
    let (a, b) = join(rt, || helped(claims, seat, 0), || helped(claims, other, 1));
    let (first, mut seat) = a;
    let (second, other) = b;
    claims.join(&mut seat, other);
    Some((first, second, shared.close(seat)))
}

#[test]
fn one_of_two_threads_wins(rt: HostRuntime) -> Result<(), Fail> {
    let Some((first, second, rows)) = two(&rt, rt.alloc()) else {
        panic!(rt; "memory")
    };
    assert!(rt; is_won(first) != is_won(second) && rows.len() == 1 && rows[0].is_some());
    Ok(())
}
