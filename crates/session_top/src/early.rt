// What is refused, and why a run does not come to the end of its script.
ghost use Rattle.std.specs.Prelude.{◌≡◌};

use basis_core::BasisState;
use module_vectors::KeptTrail;
use script_parse::Kind;

/// What is refused: a line, for its kind, or the script as a whole, for its length.
#[derive(Clone, Copy, Debug, PartialEq, Eq)]
pub enum Refusal {
    OfLine(Kind),
    Length,
}

/// What is kept of a stop: a state at a stop by the budget of pairs; a trail at one by the degree, and a state too where it
/// came in a run that had begun.
pub struct Kept {
    pub state: Option<BasisState>,
    pub trail: Option<KeptTrail>,
}

// By hand, so that each drop of one is a call.
impl Kept {
    /// The state and the trail, without taking memory.
    pub fn into_parts(self) -> (Option<BasisState>, Option<KeptTrail>)
        ensures state { result.0 ≡ self.state }
        ensures trail { result.1 ≡ self.trail }
    {
        let Kept { state, trail } = self;
        (state, trail)
    }
}

impl Drop for Kept {
    fn drop(self) {
        let Kept { state: _, trail: _ } = self;
    }
}

/// Why a run did not come to the end of its script.
#[derive(Drop)]
pub enum Early {
    /// This line was refused (0 for the length), and its error line was written.
    Refused(u32),

    /// A read failed.
    ReadFault,

    /// A write failed.
    WriteFault,

    /// Memory ran out while this line was done (0 while none was).
    NoMemory(u32),

    /// This line met its budget of pairs or needed a product of too great a degree, and its stop line was written.
    Stopped(u32, Kept),
}
