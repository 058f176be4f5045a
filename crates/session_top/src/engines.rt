// Engines for reduced bases.
ghost use Rattle.std.specs.Prelude.{◌≡◌, ◌<◌};
ghost use Rattle.session_top.specs.Limits.{limits_in, limits_of};

use command_words::Request;
use degree_engine::{Attempts, DegreeEngine};
use f4_engine::F4Engine;
use queue_updates::Update;
use worker_gate::{Gate, SharedGate};

/// Makes engines whose runs take as many pairs as the request says, by as many workers and helpers, which pass this gate: a helper
/// more for each `thread` additions that a pass over rows makes.
pub(crate) struct Engines {
    request: Request,
    thread: usize,
    gate: SharedGate,
    ghost workers: { 0 < request.workers },
    ghost helpers: { 0 < request.helpers },
}

// By hand, so that each drop of one is a call.
impl Drop for Engines {
    fn drop(self) {
        let Engines {
            request: _,
            thread: _,
            gate: _,
        } = self;
    }
}

impl Attempts<F4Engine> for Engines {
    // An attempt is told of by its basis alone, so it may queue as few pairs as there need be, and have one worker, which takes a degree
    // at a time, whatever the request says.
    fn engine(&self) -> F4Engine {
        F4Engine::new(
            self.request.pairs,
            1,
            self.request.helpers,
            Update::Gebauer,
            self.thread,
            self.gate.shared(),
        )
    }
}

/// The engine of a script: over one that computes by matrices, with workers and helpers.
pub(crate) fn engine_of(
    request: Request,
    thread: usize,
    gate: SharedGate,
) -> DegreeEngine<Engines, F4Engine>
    requires workers { 0 < request.workers }
    requires helpers { 0 < request.helpers }
    ensures { limits_in result.direct ≡ limits_of request }
{
    let direct = F4Engine::new(
        request.pairs,
        request.workers,
        request.helpers,
        request.update,
        thread,
        gate.shared(),
    );
    let attempts = Engines {
        request,
        thread,
        gate,
    };
    DegreeEngine::new(attempts, direct)
}
