// The state of a run is the core that the lock holds: its log is the core's own, a note for each event of its history.
ghost use Rattle.basis_core.specs.Logs.{base, by, log, workers};

use crate::note::{Note, RunBase};
use basis_core::BasisState;
use ruled_lock::Core;

impl Core<Note, RunBase> for BasisState {
    ghost base = { base };

    ghost log = { log };

    ghost by = { by };

    ghost workers = { workers };

    fn count(&self) -> u64 {
        self.history().len() as u64
    }
}
