// Why there is no answer.
ghost use Rattle.std.specs.Prelude.{◌≡◌};
ghost use Rattle.groebner_iface.specs.Stops.{op_stop_of_run, op_stop_of_work};

use module_vectors::{KeptTrail, NoMemory, WorkStop};
use std::alloc::{AllocError, AllocFailed};

/// Why a run has no reduced basis.
#[derive(Clone, Copy, Debug, PartialEq, Eq)]
pub enum Stop {
    /// There was no memory.
    Memory,
    /// The run met its budget of pairs; the engine counted it and keeps what run it was.
    Pairs,
    /// The run needed a product of degree above 65,535; the engine counted it and keeps what run it was.
    Degree,
}

impl From<AllocError> for Stop {
    ghost use Rattle.groebner_iface.specs.declared.stop.Stop.TheVariants.{Memory};

    ghost from_gives = { λ _ stop. stop ≡ Memory };

    fn from(_error: AllocError) -> Stop {
        Stop::Memory
    }
}

impl<T: Drop> From<AllocFailed<T>> for Stop {
    ghost use Rattle.groebner_iface.specs.declared.stop.Stop.TheVariants.{Memory};

    ghost from_gives = { λ _ stop. stop ≡ Memory };

    fn from(_error: AllocFailed<T>) -> Stop {
        Stop::Memory
    }
}

impl From<NoMemory> for Stop {
    ghost use Rattle.groebner_iface.specs.declared.stop.Stop.TheVariants.{Memory};

    ghost from_gives = { λ _ stop. stop ≡ Memory };

    fn from(_error: NoMemory) -> Stop {
        Stop::Memory
    }
}

/// Why an operation that stands on runs and on products of its own has no answer.
#[derive(Drop)]
pub enum OpStop {
    /// There was no memory.
    Memory,
    /// A run met its budget of pairs; the engine counted it and keeps what run it was.
    Pairs,
    /// A run needed a product of degree above 65,535; the engine counted it and keeps what run it was.
    Degree,
    /// The operation itself needed a product of degree above 65,535, outside a run.
    Trail(KeptTrail),
}

impl From<AllocError> for OpStop {
    ghost use Rattle.groebner_iface.specs.declared.stop.OpStop.TheVariants.{Memory};

    ghost from_gives = { λ _ stop. stop ≡ Memory };

    fn from(_error: AllocError) -> OpStop {
        OpStop::Memory
    }
}

impl<T: Drop> From<AllocFailed<T>> for OpStop {
    ghost use Rattle.groebner_iface.specs.declared.stop.OpStop.TheVariants.{Memory};

    ghost from_gives = { λ _ stop. stop ≡ Memory };

    fn from(_error: AllocFailed<T>) -> OpStop {
        OpStop::Memory
    }
}

impl From<NoMemory> for OpStop {
    ghost use Rattle.groebner_iface.specs.declared.stop.OpStop.TheVariants.{Memory};

    ghost from_gives = { λ _ stop. stop ≡ Memory };

    fn from(_error: NoMemory) -> OpStop {
        OpStop::Memory
    }
}

/// A run's stop is the operation's.
impl From<Stop> for OpStop {
    ghost from_gives = { λ run stop. stop ≡ op_stop_of_run run };

    fn from(stop: Stop) -> OpStop {
        match stop {
            Stop::Memory => OpStop::Memory,
            Stop::Pairs => OpStop::Pairs,
            Stop::Degree => OpStop::Degree,
        }
    }
}

/// The trail of a piece of work outside a run is the operation's.
impl From<WorkStop> for OpStop {
    ghost from_gives = { λ work stop. stop ≡ op_stop_of_work work };

    fn from(stop: WorkStop) -> OpStop {
        match stop {
            WorkStop::Memory => OpStop::Memory,
            WorkStop::Degree(trail) => OpStop::Trail(trail),
        }
    }
}
