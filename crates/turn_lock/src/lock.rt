//! The calls of the lock.
ghost use Rattle.std.specs.Prelude.{◌≡◌, ◌≢◌, ◌++◌, ◌<◌, ℕ, Some, [], ◌∷◌, length, drop, IfOk, IfErr, vec_len, vec_capacity, slice_index_or, ◌≤◌, max};
ghost use Rattle.std.specs.List.{All};
ghost use Rattle.turn_lock.specs.Journals.{StartsWith, entries_by, durable_of, GrownBy, GrownByOthers};
ghost use Rattle.turn_lock.specs.Rule.{first_view};
ghost use Rattle.turn_lock.specs.Passes.{number, seen, own, known, turn_known, IsSamePass, turn_number, turn_seen, turn_own, pass_origin, turn_origin, passes_of, IsPassOf, IsTurnOf, IsNewPass};

use crate::door::Door;
use crate::journaled::Journaled;
use crate::pass::{Pass, PassOf, Turn, TurnLock, TurnOf};
use crate::steps::{DrawTicket, JoinAll, LookForTurn, Publish, ReadHorizon, Release, SplitFirst};
use crate::view::{Opening, View};
use atomic_table::{Refused, Seat, Table};
use crossbeam_utils::Backoff;
use std::alloc::Global;
use std::snapshot::Snapshot;
use std::sync::Wait;

/// There was no memory for it.
#[derive(Drop)]
pub struct Memory;

// The value of the slots of a table that wasn't made: it was put into the only one.
fn value_of<T>(mut slots: Vec<Option<T>>) -> T
    requires { (value : T) × (slots.items ≡ Some value ∷ []) }
    ensures { slots.items ≡ Some result ∷ [] }
{
    let Some(Some(value)) = slots.pop() else {
        unreachable!()
    };
    slots.destroy_empty();
    value
}

impl<T: Journaled> TurnLock<T> {
    /// A lock round the value, and its passes, numbered from 0. `Memory` comes for want of memory alone, and the value comes back with it.
    pub fn new(
        alloc: Global,
        value: T,
        passes: usize,
    ) -> Result<(TurnLock<T>, Vec<PassOf<T>>), (Memory, T)>
        requires some { 0 < passes }
        requires empty { T.journal value ≡ [] }
        requires sound { T.sound value }
        ensures lock { IfOk result (λ r. passes_of r.0 ≡ passes) }
        ensures passes { IfOk result (λ r. (vec_len r.1 ≡ passes) × ((k : ℕ) (d : _) → k < passes → IsNewPass r.0 (T.origin value) k (slice_index_or r.1.items k d))) }
        ensures err { IfErr result (λ e. e.1 ≡ value) }
    {
        let Ok(all) = Vec::with_capacity(alloc, passes) else {
            return Err((Memory, value));
        };
        let Ok(mut slots) = Vec::with_capacity(alloc, 1) else {
            return Err((Memory, value));
        };
        let about = Opening {
            value: Snapshot::of(&value),
            passes,
        };
        slots.push_reserved(Some(value));
        match Table::new(alloc, &[0, 0, 0], slots, &about) {
            Ok((table, seat)) => {
                let lock = TurnLock {
                    table,
                    door: Door::new(),
                };
                let all = lock.deal(seat, passes, all);
                Ok((lock, all))
            }
            Err(Refused { slots }) => Err((Memory, value_of(slots))),
        }
    }

    // Makes the passes out of the first seat, which has the records of all.
    fn deal(
        &self,
        mut seat: Seat<Option<T>, View<T::Entry, T::Origin>>,
        passes: usize,
        mut all: Vec<PassOf<T>>,
    ) -> Vec<PassOf<T>>
        requires room { (vec_len all ≡ 0) × (passes ≤ vec_capacity all) × (0 < passes) × (passes ≡ passes_of self.now) }
        requires seat { (seat.table_id ≡ self.now.table.shared.table_id) × (seat.me ≡ (first_view passes (T.origin self.now.table.shared.key.value.value), [])) }
        ensures { (vec_len result ≡ passes) × ((k : ℕ) (d : _) → k < passes → IsNewPass self.now (T.origin self.now.table.shared.key.value.value) k (slice_index_or result.items k d)) }
    {
        let shared = &self.table.shared;
        for given in 0..passes - 1 {
            let first = shared.split_seat::<SplitFirst>(&mut seat);
            all.push_reserved(Pass { seat: first });
        }
        all.push_reserved(Pass { seat });
        all
    }

    /// Waits until nobody is behind the door, unless who comes stayed behind it. Turns between this and `go_out_unless` are taken by `enter_in` and
    /// `leave_in`. No proof rests on it.
    pub fn come_in<R: Wait>(&self, rt: &R, who: u32) {
        if !self.door.has_stayed(who) {
            self.door.come_in(rt);
        }
    }

    /// Leaves the door, or stays behind it for the next turn, where it has had few turns there. Who stays goes out by its next turn or by `go_out_if`, and
    /// waits for nothing else before.
    pub fn go_out_unless(&self, who: u32, stays: bool) {
        self.door.go_out_unless(who, stays);
    }

    /// Leaves the door, if who goes stayed behind it.
    pub fn go_out_if(&self, who: u32) {
        if self.door.has_stayed(who) {
            self.door.go_out_unless(who, false);
        }
    }

    /// Waits for a turn and takes the value out. Its journal is what the pass had seen, with what others have added since; and it says at least so much to be durable as the pass knows of.
    pub fn enter<R: Wait>(&self, rt: &R, pass: PassOf<T>) -> (TurnOf<T>, T)
        requires { IsPassOf self.now pass }
        ensures turn { IsTurnOf self.now result.0 × (turn_number result.0 ≡ number pass) × (turn_own result.0 ≡ own pass) × (turn_seen result.0 ≡ T.journal result.1) × (turn_known result.0 ≡ known pass) × (turn_origin result.0 ≡ pass_origin pass) }
        ensures origin { pass_origin pass ≡ Some (T.origin result.1) }
        ensures grown { GrownByOthers T.maker (number pass) (seen pass) (T.journal result.1) }
        ensures durable { known pass ≤ durable_of T.durable (T.journal result.1) }
        ensures sound { T.sound result.1 }
    {
        self.door.come_in(rt);
        self.enter_in(rt, pass)
    }

    /// The same of who is behind the door already. Its journal is what the pass had seen, with what others have added since; and it says at least so much to be durable as the pass knows of.
    pub fn enter_in<R: Wait>(&self, rt: &R, pass: PassOf<T>) -> (TurnOf<T>, T)
        requires { IsPassOf self.now pass }
        ensures turn { IsTurnOf self.now result.0 × (turn_number result.0 ≡ number pass) × (turn_own result.0 ≡ own pass) × (turn_seen result.0 ≡ T.journal result.1) × (turn_known result.0 ≡ known pass) × (turn_origin result.0 ≡ pass_origin pass) }
        ensures origin { pass_origin pass ≡ Some (T.origin result.1) }
        ensures grown { GrownByOthers T.maker (number pass) (seen pass) (T.journal result.1) }
        ensures durable { known pass ≤ durable_of T.durable (T.journal result.1) }
        ensures sound { T.sound result.1 }
    {
        let Pass { mut seat } = pass;
        let shared = &self.table.shared;
        let ticket = shared.fetch_add::<DrawTicket>(&mut seat, 0, 1);
        let backoff = Backoff::new();
        for _ in rt.forever() {
            let served = shared.load::<LookForTurn>(&mut seat, 1);
            if served == ticket {
                let value = shared.exchange(&mut seat, 0, None).unwrap();
                return (Turn { seat }, value);
            }
            backoff.snooze();
        }
        unreachable!()
    }

    /// Puts the value back and ends the turn. The journal may have grown, by entries of this pass's number.
    pub fn leave(&self, turn: TurnOf<T>, value: T) -> PassOf<T>
        requires turn { IsTurnOf self.now turn }
        requires origin { turn_origin turn ≡ Some (T.origin value) }
        requires grown { GrownBy T.maker (turn_number turn) (turn_seen turn) (T.journal value) }
        requires sound { T.sound value }
        ensures pass { IsPassOf self.now result × (number result ≡ turn_number turn) × (known result ≡ turn_known turn) × (pass_origin result ≡ turn_origin turn) }
        ensures seen { seen result ≡ T.journal value }
        ensures own { own result ≡ turn_own turn ++ drop (length (turn_seen turn)) (T.journal value) }
    {
        let pass = self.leave_in(turn, value);
        self.door.go_out();
        pass
    }

    /// The same, and stays behind the door. The journal may have grown, by entries of this pass's number.
    pub fn leave_in(&self, turn: TurnOf<T>, value: T) -> PassOf<T>
        requires turn { IsTurnOf self.now turn }
        requires origin { turn_origin turn ≡ Some (T.origin value) }
        requires grown { GrownBy T.maker (turn_number turn) (turn_seen turn) (T.journal value) }
        requires sound { T.sound value }
        ensures pass { IsPassOf self.now result × (number result ≡ turn_number turn) × (known result ≡ turn_known turn) × (pass_origin result ≡ turn_origin turn) }
        ensures seen { seen result ≡ T.journal value }
        ensures own { own result ≡ turn_own turn ++ drop (length (turn_seen turn)) (T.journal value) }
    {
        let Turn { mut seat } = turn;
        let shared = &self.table.shared;
        let empty = shared.exchange(&mut seat, 0, Some(value));
        let None = empty else { unreachable!() };
        shared.fetch_add::<Release>(&mut seat, 1, 1);
        Pass { seat }
    }

    /// The horizon: a count that is durable, no less than this pass was answered or has published before. It takes no turn and doesn't wait.
    pub fn horizon(&self, pass: &mut PassOf<T>) -> u64
        requires { IsPassOf self.now pass.old }
        ensures pass { IsPassOf self.now pass.new × IsSamePass pass.old pass.new }
        ensures answer { (known pass.old ≤ result) × (known pass.new ≡ result) }
    {
        self.table.shared.load::<ReadHorizon>(&mut pass.seat, 2)
    }

    /// Raises the horizon to a count that a turn of this pass found durable; a lower count changes nothing. It takes no turn and doesn't wait.
    pub fn publish(&self, pass: &mut PassOf<T>, count: u64)
        requires pass { IsPassOf self.now pass.old }
        requires found { count ≤ durable_of T.durable (seen pass.old) }
        ensures pass { IsPassOf self.now pass.new × IsSamePass pass.old pass.new }
        ensures known { known pass.new ≡ max (known pass.old) count }
    {
        self.table
            .shared
            .fetch_max::<Publish>(&mut pass.seat, 2, count);
    }

    /// Ends the lock, with all its passes, and gives the value. Its journal begins with what each pass has seen, has each pass's own entries, in order and once, and no others.
    pub fn close(self, mut passes: Vec<PassOf<T>>) -> T
        requires ours { All (λ p. IsPassOf self p) passes.items }
        requires all { vec_len passes ≡ passes_of self }
        ensures origin { All (λ p. pass_origin p ≡ Some (T.origin result)) passes.items }
        ensures seen { All (λ p. StartsWith (T.journal result) (seen p)) passes.items }
        ensures own { All (λ p. entries_by T.maker (number p) (T.journal result) ≡ own p) passes.items }
        ensures others { (w : ℕ) → All (λ p. number p ≢ w) passes.items → entries_by T.maker w (T.journal result) ≡ [] }
        ensures sound { T.sound result }
    {
        let TurnLock { table, door: _ } = self;
        let Some(Pass { mut seat }) = passes.pop() else {
            unreachable!()
        };
        for Pass { seat: other } in passes {
            table.shared.join_seat::<JoinAll>(&mut seat, other);
        }
        let mut closed = table.close_with(seat);
        let Some(value) = closed.take(0) else {
            unreachable!()
        };
        closed.free();
        value
    }
}
