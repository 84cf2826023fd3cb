// Places get their boxes, and give them back.
ghost use Rattle.std.specs.Prelude.{◌≡◌, ◌<◌, ◌≤◌, ◌+◌, ◌++◌, ◌∷◌, [], ℕ, true, map, length, slice_index_or, vec_len, vec_capacity, IsTrue};
ghost use Rattle.live_streams.specs.Rings.{AreNew, ArePairs, AreAllTaken, AreFronts};

use crate::seats::{Place, Seat};
use live_lines::{Asked, Reply};
use live_streams::{Ends, Reader, RingInbox, RingOutbox, Signals, all_taken};
use rtrb::{Consumer, Producer};
use std::sync::Wait;

/// All ends of the rings, each where it belongs, and the lists that those of the seats came from, which have room for them.
#[derive(Drop)]
pub struct Desk<'a, C, R: Wait> {
    pub seats: Vec<Seat<'a, C, R>>,
    pub reader: Reader<'a, R>,
    pub answers: Vec<Consumer<Reply>>,
    pub free_lines: Vec<Consumer<Asked>>,
    pub free_answers: Vec<Producer<Reply>>,
}

/// What is left once all threads have ended: whether all lines that were handed out were taken, and all answers that were told; and whether all were told.
#[derive(Clone, Copy)]
pub struct Left {
    pub lines_done: bool,
    pub answers_done: bool,
    pub all_told: bool,
}

// A seat for the last place, with the last ends of the rings, which leave their lists.
fn take_seat<'a, C, R: Wait>(
    rt: &'a R,
    signals: &'a Signals,
    lane: usize,
    places: &mut Vec<Place<C>>,
    lines: &mut Vec<Consumer<Asked>>,
    answers: &mut Vec<Producer<Reply>>,
) -> Seat<'a, C, R>
    requires places { 0 < vec_len places.old }
    requires lines { 0 < vec_len lines.old }
    requires answers { 0 < vec_len answers.old }
    ensures place { places.old.items ≡ places.new.items ++ result.place ∷ [] }
    ensures line { lines.old.items ≡ lines.new.items ++ result.inbox.lines ∷ [] }
    ensures answer { answers.old.items ≡ answers.new.items ++ result.outbox.answers ∷ [] }
    ensures left { (vec_len places.new + 1 ≡ vec_len places.old) × (vec_len lines.new + 1 ≡ vec_len lines.old) × (vec_len answers.new + 1 ≡ vec_len answers.old) }
    ensures room { (vec_capacity places.new ≡ vec_capacity places.old) × (vec_capacity lines.new ≡ vec_capacity lines.old) × (vec_capacity answers.new ≡ vec_capacity answers.old) }
{
    let place = places.pop().unwrap();
    let taker = lines.pop().unwrap();
    let maker = answers.pop().unwrap();
    Seat {
        place,
        inbox: RingInbox {
            rt,
            signals,
            lane,
            lines: taker,
        },
        outbox: RingOutbox {
            rt,
            signals,
            lane,
            answers: maker,
        },
        all_told: true,
    }
}

// A seat for each place, with its ends of the rings, which leave their lists; of the answers' the first one stays, which is the reader's.
fn take_seats<'a, C, R: Wait>(
    rt: &'a R,
    signals: &'a Signals,
    places: &mut Vec<Place<C>>,
    lines: &mut Vec<Consumer<Asked>>,
    answers: &mut Vec<Producer<Reply>>,
    mut seats: Vec<Seat<'a, C, R>>,
) -> Vec<Seat<'a, C, R>>
    requires lines { vec_len lines.old ≡ vec_len places.old }
    requires answers { vec_len answers.old ≡ vec_len places.old + 1 }
    requires room { (seats.items ≡ []) × (vec_len places.old ≤ vec_capacity seats) }
    ensures empty { (places.new.items ≡ []) × (lines.new.items ≡ []) × (vec_len answers.new ≡ 1) }
    ensures room { (vec_capacity places.new ≡ vec_capacity places.old) × (vec_capacity lines.new ≡ vec_capacity lines.old) × (vec_capacity answers.new ≡ vec_capacity answers.old) }
    ensures places { map (λ s. s.place) result.items ≡ places.old.items }
    ensures lines { map (λ s. s.inbox.lines) result.items ≡ lines.old.items }
    ensures answers { answers.new.items ++ map (λ s. s.outbox.answers) result.items ≡ answers.old.items }
{
    let count = places.len();
    for taken in 0..count {
        let seat = take_seat(rt, signals, count - taken, places, lines, answers);
        seats.push_reserved(seat);
    }
    seats.reverse();
    seats
}

// The places of all seats are given back, and their ends of the rings, these behind the reader's; and whether all replies were told.
fn leave_seats<C: Drop, R: Wait>(
    places: &mut Vec<Place<C>>,
    seats: Vec<Seat<'_, C, R>>,
    lines: &mut Vec<Consumer<Asked>>,
    answers: &mut Vec<Producer<Reply>>,
) -> bool
    requires empty { (places.old.items ≡ []) × (lines.old.items ≡ []) }
    requires room { (vec_len seats ≤ vec_capacity places.old) × (vec_len seats ≤ vec_capacity lines.old) × (vec_len answers.old + vec_len seats ≤ vec_capacity answers.old) }
    ensures room { vec_capacity places.new ≡ vec_capacity places.old }
    ensures places { places.new.items ≡ map (λ s. s.place) seats.entry.items }
    ensures lines { lines.new.items ≡ map (λ s. s.inbox.lines) seats.entry.items }
    ensures answers { answers.new.items ≡ answers.old.items ++ map (λ s. s.outbox.answers) seats.entry.items }
    ensures told { IsTrue result → (k : ℕ) (d : _) → k < vec_len seats.entry → (slice_index_or seats.entry.items k d).all_told ≡ true }
{
    let mut all = true;
    for seat in seats {
        let Seat {
            place,
            inbox,
            outbox,
            all_told,
        } = seat;
        places.push_reserved(place);
        lines.push_reserved(inbox.lines);
        answers.push_reserved(outbox.answers);
        all = all && all_told;
    }
    all
}

/// A seat for each place, with its ends of these rings, through which nothing went so far.
pub fn sit<'a, C, R: Wait>(
    rt: &'a R,
    signals: &'a Signals,
    places: &mut Vec<Place<C>>,
    ends: Ends,
    room: Vec<Seat<'a, C, R>>,
) -> Desk<'a, C, R>
    requires lines { AreNew (vec_len places.old) ends.line_makers.items ends.line_takers.items }
    requires answers { AreNew (vec_len places.old + 1) ends.answer_makers.items ends.answer_takers.items }
    requires room { (room.items ≡ []) × (vec_len places.old ≤ vec_capacity room) }
    ensures empty { (places.new.items ≡ []) × (result.free_lines.items ≡ []) × (result.free_answers.items ≡ []) }
    ensures room { (vec_capacity places.new ≡ vec_capacity places.old) × (vec_len places.old ≤ vec_capacity result.free_lines) × (vec_len places.old + 1 ≤ vec_capacity result.free_answers) }
    ensures places { map (λ s. s.place) result.seats.items ≡ places.old.items }
    ensures lines { AreNew (vec_len places.old) result.reader.lines.items (map (λ s. s.inbox.lines) result.seats.items) }
    ensures answers { AreNew (vec_len places.old + 1) (result.reader.own.answers ∷ map (λ s. s.outbox.answers) result.seats.items) result.answers.items }
{
    let Ends {
        line_makers,
        mut line_takers,
        mut answer_makers,
        answer_takers,
    } = ends;
    let seats = take_seats(
        rt,
        signals,
        places,
        &mut line_takers,
        &mut answer_makers,
        room,
    );
    let first = answer_makers.pop().unwrap();
    let own = RingOutbox {
        rt,
        signals,
        lane: 0,
        answers: first,
    };
    Desk {
        seats,
        reader: Reader {
            lines: line_makers,
            own,
        },
        answers: answer_takers,
        free_lines: line_takers,
        free_answers: answer_makers,
    }
}

/// Each place is given back, and what is left in the rings is told, of which this is the one who holds both ends.
pub fn rise<C: Drop, R: Wait>(places: &mut Vec<Place<C>>, desk: Desk<'_, C, R>) -> Left
    requires empty { (places.old.items ≡ []) × (desk.free_lines.items ≡ []) × (desk.free_answers.items ≡ []) }
    requires room { (vec_len desk.seats ≤ vec_capacity places.old) × (vec_len desk.seats ≤ vec_capacity desk.free_lines) × (vec_len desk.seats + 1 ≤ vec_capacity desk.free_answers) }
    requires count { (vec_len desk.reader.lines ≡ vec_len desk.seats) × (vec_len desk.answers ≡ vec_len desk.seats + 1) }
    requires lines { ArePairs (vec_len desk.seats) desk.reader.lines.items (map (λ s. s.inbox.lines) desk.seats.items) }
    requires answers { ArePairs (vec_len desk.seats + 1) (desk.reader.own.answers ∷ map (λ s. s.outbox.answers) desk.seats.items) desk.answers.items }
    ensures room { vec_capacity places.new ≡ vec_capacity places.old }
    ensures places { places.new.items ≡ map (λ s. s.place) desk.entry.seats.items }
    ensures lines { AreFronts (vec_len desk.entry.seats) desk.entry.reader.lines.items (map (λ s. s.inbox.lines) desk.entry.seats.items) }
    ensures answers { AreFronts (vec_len desk.entry.seats + 1) (desk.entry.reader.own.answers ∷ map (λ s. s.outbox.answers) desk.entry.seats.items) desk.entry.answers.items }
    ensures all_lines { IsTrue result.lines_done → AreAllTaken (vec_len desk.entry.seats) desk.entry.reader.lines.items (map (λ s. s.inbox.lines) desk.entry.seats.items) }
    ensures all_answers { IsTrue result.answers_done → AreAllTaken (vec_len desk.entry.seats + 1) (desk.entry.reader.own.answers ∷ map (λ s. s.outbox.answers) desk.entry.seats.items) desk.entry.answers.items }
    ensures told { IsTrue result.all_told → (k : ℕ) (d : _) → k < vec_len desk.entry.seats → (slice_index_or desk.entry.seats.items k d).all_told ≡ true }
{
    let Desk {
        seats,
        reader,
        mut answers,
        mut free_lines,
        mut free_answers,
    } = desk;
    let Reader { mut lines, own } = reader;
    free_answers.push_reserved(own.answers);
    let all_told = leave_seats(places, seats, &mut free_lines, &mut free_answers);
    let lines_done = all_taken(&mut lines, &mut free_lines);
    let answers_done = all_taken(&mut free_answers, &mut answers);
    Left {
        lines_done,
        answers_done,
        all_told,
    }
}
