//! The lock and its seats.
ghost use Rattle.std.specs.Prelude.{◌≡◌, ℕ, ◌<◌, [], ◌∷◌, ◌++◌, length, Some, None, IfOk, IfErr, All};
ghost use Rattle.std.specs.List.{Contains};
ghost use Rattle.ruled_lock.specs.Law.{opener, parted, newcomer, joined_views};
ghost use Rattle.ruled_lock.specs.Plays.{Sees, IsIdle, IsHolding, Looks, AllBack, Tallied, OldSees, held, freed, added};

use crate::core_trait::Core;
use crate::law::{Append, Cut, Glue, Law, Look, Number, Release, View, Win};
use atomic_table::{Refused, Seat, Table};
use crossbeam_utils::Backoff;
use std::alloc::Global;
use std::marker::Brand;
use std::snapshot::Snapshot;
use std::sync::Wait;

/// A seat at the lock's table: what it knows, and the core while it holds it.
pub type Place<C, N, B> = Seat<Option<C>, View<N, B>>;

// The word that is 1 while somebody has the turn.
const TURN: usize = 0;

// The word with the number of events.
const COUNT: usize = 1;

/// The seat of one worker. It knows what the worker has seen of the history, and the worker's own events.
#[derive(Drop)]
pub struct WorkerSeat<C, N, B> {
    pub worker: u32,
    pub place: Place<C, N, B>,
    pub ghost own: { worker ≡ place.me.0.worker },
}

/// The lock round a core. Workers share it by reference, each with a seat of its own.
#[derive(Drop)]
pub struct Lock<C: Core<N, B>, N, B> {
    pub table: Table<Option<C>, View<N, B>, Snapshot<C>, Law, Global>,
    pub ghost sized: { (table.shared.table_id.words ≡ 2) × (table.shared.table_id.slots ≡ 1) },
}

impl<C: Core<N, B>, N, B> Lock<C, N, B> {
    /// A lock round the core, whose history is empty, and the seat of worker 0, which can give all other numbers to seats.
    /// Where there is no memory the core comes back.
    pub fn new(alloc: Global, core: C) -> Result<(Lock<C, N, B>, WorkerSeat<C, N, B>), C>
        requires empty { C.log core ≡ [] }
        requires workers { 0 < C.workers (C.base core) }
        ensures lock { IfOk result (λ t. t.0.table.shared.key.value ≡ core) }
        ensures seat { IfOk result (λ t. IsIdle t.0.table.shared.table_id (C.base core) t.1.place × (t.1.place.me.0 ≡ opener C.workers (C.base core))) }
        ensures err { IfErr result (λ c. c ≡ core) }
    {
        let key = Snapshot::of(&core);
        let Ok(mut slots) = Vec::with_capacity(alloc, 1) else {
            return Err(core);
        };
        slots.push_reserved(Some(core));
        match Table::new(alloc, &[0, 0], slots, &key) {
            Ok((table, place)) => Ok((Lock { table }, WorkerSeat { worker: 0, place })),
            Err(Refused { mut slots }) => Err(slots.pop().unwrap().unwrap()),
        }
    }

    // Takes the core into the hand of the seat that has the turn.
    fn lift(&self, place: &mut Place<C, N, B>) -> C
        requires { (b : C) × IsHolding self.now.table.shared.table_id (C.base self.now.table.shared.key.value) place.old (Some b) }
        ensures seat { IsHolding self.now.table.shared.table_id (C.base self.now.table.shared.key.value) place.new None }
        ensures view { place.new.me.0 ≡ place.old.me.0 }
        ensures value { place.old.me.1 ≡ (0, Some result) ∷ [] }
    {
        self.table.shared.exchange(place, 0, None).unwrap()
    }

    // Lays the core back at its place in the table.
    fn lay(&self, place: &mut Place<C, N, B>, core: C)
        requires { IsHolding self.now.table.shared.table_id (C.base self.now.table.shared.key.value) place.old None }
        ensures seat { IsHolding self.now.table.shared.table_id (C.base self.now.table.shared.key.value) place.new (Some core) }
        ensures view { place.new.me.0 ≡ place.old.me.0 }
    {
        drop(self.table.shared.exchange(place, 0, Some(core)));
    }

    /// Waits until nobody has the turn, takes it, and gives the core with the whole history so far. The core has to come back
    /// by `put` or `put_event`: no other seat gets the turn before.
    ///
    /// The wait may last for ever where a seat keeps the turn; nothing is said of the order in which seats get it.
    pub fn take<R: Wait>(&self, rt: &R, place: &mut Place<C, N, B>) -> C
        requires { IsIdle self.now.table.shared.table_id (C.base self.now.table.shared.key.value) place.old }
        ensures seat { IsHolding self.now.table.shared.table_id (C.base self.now.table.shared.key.value) place.new None }
        ensures view { place.new.me.0 ≡ held place.old.me.0 (C.log result) }
        ensures sees { Sees C.by place.old.me.0 (C.log result) }
        ensures base { C.base result ≡ C.base self.now.table.shared.key.value }
    {
        let backoff = Backoff::new();
        for _ in rt.forever() {
            let turn = self.table.shared.compare_exchange::<Win>(place, TURN, 0, 1);
            if turn == 0 {
                return self.lift(place);
            }
            if backoff.is_completed() {
                self.table.shared.park(rt, TURN, 1);
            } else {
                backoff.snooze();
            }
        }
        unreachable!()
    }

    /// Gives the turn back, and the core as it was taken: the hold was no event. It does not wait and cannot fail.
    pub fn put(&self, place: &mut Place<C, N, B>, core: C)
        requires seat { IsHolding self.now.table.shared.table_id (C.base self.now.table.shared.key.value) place.old None }
        requires same { (C.log core ≡ place.old.me.0.seen) × (C.base core ≡ C.base self.now.table.shared.key.value) }
        ensures seat { IsIdle self.now.table.shared.table_id (C.base self.now.table.shared.key.value) place.new }
        ensures view { place.new.me.0 ≡ freed place.old.me.0 }
    {
        self.lay(place, core);
        self.table.shared.store::<Release>(place, TURN, 0);
        self.table.shared.wake_one(TURN);
    }

    /// Gives the turn back, and the core with one event more, which is of the seat's worker. It does not wait and cannot
    /// fail.
    pub fn put_event(&self, place: &mut Place<C, N, B>, core: C)
        requires seat { IsHolding self.now.table.shared.table_id (C.base self.now.table.shared.key.value) place.old None }
        requires event { (e : N) × (C.log core ≡ place.old.me.0.seen ++ e ∷ []) × (C.by e ≡ place.old.me.0.worker) }
        requires base { C.base core ≡ C.base self.now.table.shared.key.value }
        ensures seat { IsIdle self.now.table.shared.table_id (C.base self.now.table.shared.key.value) place.new }
        ensures view { place.new.me.0 ≡ freed (added place.old.me.0 (C.log core)) }
    {
        let count = core.count();
        self.lay(place, core);
        self.table.shared.store::<Append>(place, COUNT, count);
        self.table.shared.store::<Release>(place, TURN, 0);
        self.table.shared.wake_one(TURN);
    }

    /// Lets the seat see the history so far without the turn, and gives its number of events. It does not wait: a hold that
    /// goes on is not seen.
    pub fn look(&self, seat: &mut WorkerSeat<C, N, B>) -> u64
        requires { IsIdle self.now.table.shared.table_id (C.base self.now.table.shared.key.value) seat.old.place }
        ensures seat { IsIdle self.now.table.shared.table_id (C.base self.now.table.shared.key.value) seat.new.place }
        ensures looks { Looks C.by seat.old.place.me.0 seat.new.place.me.0 × (result ≡ length seat.new.place.me.0.seen) }
        ensures olds { All (OldSees C.by seat.new.place.me.0.seen) seat.old.place.me.0.olds }
    {
        self.table.shared.load::<Look>(&mut seat.place, COUNT)
    }

    // The seat of the worker whose number K tells.
    fn split_at<K: Number>(&self, place: &mut Place<C, N, B>, worker: u32) -> Place<C, N, B>
        requires { IsIdle self.now.table.shared.table_id (C.base self.now.table.shared.key.value) place.old
            × Contains place.old.me.0.give worker
            × (worker ≡ K.number) }
        ensures old { IsIdle self.now.table.shared.table_id (C.base self.now.table.shared.key.value) place.new
            × (place.new.me.0 ≡ parted worker place.old.me.0) }
        ensures new { IsIdle self.now.table.shared.table_id (C.base self.now.table.shared.key.value) result
            × (result.me.0 ≡ newcomer worker place.old.me.0) }
    {
        self.table.shared.split_seat::<Cut<K>>(place)
    }

    /// A seat for the worker of this number, which the old seat could give and now gives away. It has seen what the old seat
    /// had, and its worker has done nothing.
    pub fn split(&self, seat: &mut WorkerSeat<C, N, B>, worker: u32) -> WorkerSeat<C, N, B>
        requires { IsIdle self.now.table.shared.table_id (C.base self.now.table.shared.key.value) seat.old.place × Contains seat.old.place.me.0.give worker }
        ensures old { IsIdle self.now.table.shared.table_id (C.base self.now.table.shared.key.value) seat.new.place
            × (seat.new.place.me.0 ≡ parted worker seat.old.place.me.0) }
        ensures new { IsIdle self.now.table.shared.table_id (C.base self.now.table.shared.key.value) result.place
            × (result.place.me.0 ≡ newcomer worker seat.old.place.me.0) }
    {
        let place = self.split_at::<Brand>(&mut seat.place, worker);
        WorkerSeat { worker, place }
    }

    /// Ends the other seat. This one keeps what its worker had seen and done, and the numbers that it could give.
    pub fn join(&self, seat: &mut WorkerSeat<C, N, B>, other: WorkerSeat<C, N, B>)
        requires seat { IsIdle self.now.table.shared.table_id (C.base self.now.table.shared.key.value) seat.old.place }
        requires other { IsIdle self.now.table.shared.table_id (C.base self.now.table.shared.key.value) other.place }
        ensures { IsIdle self.now.table.shared.table_id (C.base self.now.table.shared.key.value) seat.new.place
            × (seat.new.place.me.0 ≡ joined_views seat.old.place.me.0 other.place.me.0) }
    {
        let WorkerSeat { worker: _, place } = other;
        self.table.shared.join_seat::<Glue>(&mut seat.place, place);
    }

    /// The core at the end, where the number of each worker is with this seat: its own, one that it did not give, or that of
    /// a seat that was joined. The history begins with all that those seats had seen, and of each worker it has just the
    /// events of its seat. It waits for nobody.
    pub fn close(self, seat: WorkerSeat<C, N, B>) -> C
        requires seat { IsIdle self.table.shared.table_id (C.base self.table.shared.key.value) seat.place }
        requires all { AllBack (C.workers (C.base self.table.shared.key.value)) seat.place.me.0 }
        ensures base { C.base result ≡ C.base self.table.shared.key.value }
        ensures history { Tallied C.by (C.workers (C.base self.table.shared.key.value)) seat.place.me.0 (C.log result) }
    {
        let Lock { table } = self;
        let WorkerSeat { worker: _, place } = seat;
        let mut closed = table.close_with(place);
        let core = closed.take(0).unwrap();
        closed.free();
        core
    }
}
