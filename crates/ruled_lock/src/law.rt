//! The rule of the lock's table, and what each step on it tells.
//! Word 0 is the turn, which is 0 where nobody has it, and word 1 the number of events. Slot 0 has the core.
ghost use Rattle.std.specs.Prelude.{ℕ};

use crate::core_trait::Core;
use atomic_table::{Join, Play, Split, TableRule};
use std::collections::LinkedList;
use std::marker::{Brand, PhantomData};
use std::snapshot::Snapshot;

/// A worker whose seat was joined into another: what it had seen, and its events.
pub struct Old<N> {
    pub worker: u32,
    pub seen: LinkedList<N>,
    pub mine: LinkedList<N>,
}

/// What a seat knows: whether it is there, whether it has the turn, what never changes in the core, its worker's number, and
/// what the worker has seen and done. No value of it is made.
pub struct View<N, B> {
    pub live: bool,
    pub turn: bool,
    pub base: Option<B>,
    pub worker: u32,
    /// The numbers that it can still give to new seats.
    pub give: LinkedList<u32>,
    pub olds: LinkedList<Old<N>>,
    pub seen: LinkedList<N>,
    pub mine: LinkedList<N>,
    /// How often it had the turn.
    pub holds: u64,
}

/// The rule: what holds of the table between any two steps.
pub struct Law;

impl<C: Core<N, B>, N, B> TableRule<Option<C>, View<N, B>, Snapshot<C>> for Law {
    ghost use Rattle.ruled_lock.specs.Law.{LockKept, opener};

    ghost holds = { λ key. LockKept C.base C.log C.by C.workers (C.base key.value) };

    ghost first = { λ key. opener C.workers (C.base key.value) };
}

/// The number that a split gives away, which each call picks.
pub trait Number {
    ghost number: { ℕ };
}

impl Number for Brand {
    ghost number = { 0 };
}

// The turn is taken where nobody has it.
pub(crate) struct Win;

impl<C: Core<N, B>, N, B> Play<Option<C>, View<N, B>> for Win {
    ghost use Rattle.ruled_lock.specs.Plays.{tried};

    ghost then = { tried C.base C.log C.by };
}

// The number of events becomes that of the core in the hand.
pub(crate) struct Append;

impl<C: Core<N, B>, N, B> Play<Option<C>, View<N, B>> for Append {
    ghost use Rattle.ruled_lock.specs.Plays.{appended};

    ghost then = { appended C.log };
}

// The core is laid back, and the turn is free.
pub(crate) struct Release;

impl<C: Core<N, B>, N, B> Play<Option<C>, View<N, B>> for Release {
    ghost use Rattle.ruled_lock.specs.Plays.{released};

    ghost then = { released };
}

// The number of events is read.
pub(crate) struct Look;

impl<C: Core<N, B>, N, B> Play<Option<C>, View<N, B>> for Look {
    ghost use Rattle.ruled_lock.specs.Plays.{looked};

    ghost then = { looked C.by };
}

// A seat gives the number K to a new seat.
pub(crate) struct Cut<K> {
    number: PhantomData<K>,
}

impl<N, B, K: Number> Split<View<N, B>> for Cut<K> {
    ghost use Rattle.ruled_lock.specs.Law.{parted, newcomer};

    ghost left = { parted K.number };

    ghost right = { newcomer K.number };
}

// A seat takes in another.
pub(crate) struct Glue;

impl<N, B> Join<View<N, B>> for Glue {
    ghost use Rattle.ruled_lock.specs.Law.{joined_views, spent};

    ghost both = { joined_views };

    ghost spent = { spent };
}
