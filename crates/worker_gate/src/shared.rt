// The gate that threads pass.
use crate::held::Hold;
use crate::{Gate, Point};
use std::alloc::Global;
use std::sync::Arc;

/// A gate of one type for all kinds, which threads pass: open, or the hold of a held gate. Each takes part in the same hold.
#[derive(Drop)]
pub struct SharedGate {
    hold: Option<Arc<Hold, Global>>,
}

impl SharedGate {
    /// A gate that lets everyone through at once.
    pub fn open() -> SharedGate {
        SharedGate { hold: None }
    }

    // This hold again. It takes no memory: an `Arc` is refused where 2^63 of it are alive, which no memory has room for.
    pub(crate) fn holding(hold: &Arc<Hold, Global>) -> SharedGate {
        SharedGate {
            hold: Arc::try_clone(hold).ok(),
        }
    }
}

impl Gate for SharedGate {
    fn pass(&self, worker: u32, point: Point) {
        if let Some(hold) = &self.hold {
            hold.pass(worker, point);
        }
    }

    fn shared(&self) -> SharedGate {
        match &self.hold {
            Some(hold) => SharedGate::holding(hold),
            None => SharedGate::open(),
        }
    }
}
