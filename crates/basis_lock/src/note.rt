// What contracts see of a run under its lock. No value of these types is made.
use basis_core::BasisState;
use std::marker::Model;

/// What never changes in a run: ring, rank and generators, its budget, its number of workers and what is queued as
/// members come, and the members that it began with.
pub struct RunBase {
    pub state: BasisState,
}

impl Model for RunBase {
    ghost use Rattle.basis_core.specs.Logs.{Base, base};

    ghost Value = { Base };

    ghost view = { λ b. base b.state };

    ghost invariant = { λ b. Unit {0} };
}

/// One event of a worker as contracts see it: a Take with the pairs that it skipped and gave out, a Put with the members that
/// it made, an End with its answer, or a Stop.
pub struct Note {
    pub worker: u32,
}

impl Model for Note {
    ghost use Rattle.basis_core.specs.Logs.{Noted, Stop};

    ghost Value = { Noted };

    ghost view = { λ n. Stop n.worker };

    ghost invariant = { λ n. Unit {0} };
}
