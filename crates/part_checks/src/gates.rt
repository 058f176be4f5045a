// Two threads at one gate.
use std::test::Fail;
use std::thread;
use worker_gate::{Gate, HeldGate, OpenGate, Point};

fn pass_both<G: Gate + Sync>(gate: &G, worker: u32) -> u32 {
    gate.pass(worker, Point::JobTaken);
    gate.pass(worker, Point::RowClaimed);
    worker
}

#[test]
fn two_threads_share_an_open_gate(rt: HostRuntime) -> Result<(), Fail> {
    let gate = OpenGate;
    let (first, second) = thread::join(&rt, || pass_both(&gate, 0), || pass_both(&gate, 1));
    assert_eq!(rt; (first, second), (0, 1));
    Ok(())
}

#[test]
fn a_held_gate_lets_the_first_go_once_another_has_passed(rt: HostRuntime) -> Result<(), Fail> {
    let gate = HeldGate::new(rt.alloc(), Point::RowClaimed)?;
    let theirs = gate.shared();
    let (first, second) = thread::join(&rt, || pass_both(&theirs, 0), || pass_both(&gate, 1));
    assert_eq!(rt; (first, second), (0, 1));
    assert!(rt; gate.met());
    assert!(rt; !gate.ran_out());
    Ok(())
}

#[test]
fn a_gate_of_no_turns_holds_nobody(rt: HostRuntime) -> Result<(), Fail> {
    let gate = HeldGate::for_turns(rt.alloc(), Point::RowClaimed, 0)?;
    assert_eq!(rt; pass_both(&gate, 0), 0);
    assert!(rt; !gate.met());
    assert_eq!(rt; pass_both(&gate, 1), 1);
    assert!(rt; gate.met());
    Ok(())
}
