// All threads of live sessions.
ghost use Rattle.std.specs.Prelude.{◌≡◌, ◌<◌, ◌≤◌, ◌+◌, ℕ, Ok, Err, length, slice_index_or, vec_len, vec_capacity, IfErr};
ghost use Rattle.io_model.specs.Streams.{CountsReading};
ghost use Rattle.io_model.specs.declared.whole.ReadError.TheVariants.{Memory};
ghost use Rattle.report_text.specs.Sinks.{Causes};
ghost use Rattle.script_runs.specs.Ran.{IsIdle};
ghost use Rattle.script_runs.specs.Seen.{Keeps};
ghost use Rattle.live_streams.specs.Rings.{AreNew};
ghost use Rattle.live_streams.specs.Written.{Writes};
ghost use Rattle.live_threads.specs.Lives.{Life, HaveLived, Streamed};

use crate::ending::{read_as, written_as};
use crate::seating::{Desk, Left, rise, sit};
use crate::seats::{Place, Sits, serve_seats};
use crate::works::ReadsInput;
use io_model::{ReadError, Sink, Source};
use live_lines::Reply;
use live_streams::{Ends, Read, Signals, write_answers};
use report_text::ReportError;
use rtrb::Consumer;
use script_runs::SessionCalls;
use std::alloc::Global;
use std::sync::Wait;
use std::thread::{Threads, join_mut};

/// What became of the input and the output of live sessions. The input is `Ok` where it was read to its end and each line was done, and where nobody took answers
/// any more, which the output tells.
#[derive(Clone, Copy)]
pub struct Streams {
    pub read: Result<(), ReadError>,
    pub written: Result<(), ReportError>,
}

// The reader and the writer beside each other, until both have ended.
fn run_streams<R: Threads + Wait + Sync, I: ReadsInput, S: Source, K: Sink + Send>(
    rt: &R,
    alloc: Global,
    signals: &Signals,
    reader: &mut I,
    answers: &mut Vec<Consumer<Reply>>,
    source: &mut S,
    sink: &mut K,
) -> (Result<Read, ReadError>, Result<(), ReportError>)
    ensures read { I.reads reader.old (S.left source.old) (S.left source.new) result.0 reader.new }
    ensures source { CountsReading (S.faults source.old) (S.faults source.new) result.0 }
    ensures took { Writes answers.old.items answers.new.items (K.taken sink.old) (K.taken sink.new) result.1 }
    ensures sink { Causes (K.faults sink.old) (K.faults sink.new) result.1 }
{
    let own = alloc;
    let mut write = || write_answers(rt, alloc, signals, answers, sink);
    let mut read = || reader.read_input(own, source);
    let (written, read) = join_mut(rt, &mut write, &mut read);
    (read, written)
}

// And the sessions of all seats beside them.
fn run_threads<R: Threads + Wait + Sync, X: Sits + Send, I: ReadsInput, S: Source, K: Sink + Send>(
    rt: &R,
    alloc: Global,
    signals: &Signals,
    seats: &mut [X],
    reader: &mut I,
    answers: &mut Vec<Consumer<Reply>>,
    source: &mut S,
    sink: &mut K,
) -> (Result<Read, ReadError>, Result<(), ReportError>)
    requires ready { (k : ℕ) (d : _) → k < length seats.old → X.ready (slice_index_or seats.old k d) }
    ensures sat { (k : ℕ) (d : _) → k < length seats.old → X.sat (slice_index_or seats.old k d) (slice_index_or seats.new k d) }
    ensures read { I.reads reader.old (S.left source.old) (S.left source.new) result.0 reader.new }
    ensures source { CountsReading (S.faults source.old) (S.faults source.new) result.0 }
    ensures took { Writes answers.old.items answers.new.items (K.taken sink.old) (K.taken sink.new) result.1 }
    ensures sink { Causes (K.faults sink.old) (K.faults sink.new) result.1 }
{
    let own = alloc;
    let (own_rt, own_signals) = (rt, signals);
    let mut sessions = ||
        requires { (k : ℕ) (d : _) → k < length seats.now → X.ready (slice_index_or seats.now k d) }
        ensures { (k : ℕ) (d : _) → k < length seats.entry.now → X.sat (slice_index_or seats.entry.now k d) (slice_index_or seats.exit.now k d) }
    { serve_seats(rt, alloc, signals, seats) };
    let mut streams = || run_streams(own_rt, own, own_signals, reader, answers, source, sink);
    let ((), ended) = join_mut(rt, &mut sessions, &mut streams);
    ended
}

// There was no memory for the threads.
fn read_nothing() -> Streams
    ensures { (result.read ≡ Err Memory) × (result.written ≡ Ok (tt {0})) }
{
    Streams {
        read: Err(ReadError::Memory),
        written: Ok(()),
    }
}

// The same over rings through which nothing went so far.
fn serve_on<'a, R: Threads + Wait + Sync, C: SessionCalls + Send + Drop, S: Source, K: Sink + Send>(
    rt: &'a R,
    alloc: Global,
    signals: &'a Signals,
    ends: Ends,
    places: &mut Vec<Place<C>>,
    source: &mut S,
    sink: &mut K,
) -> Streams
    requires lines { AreNew (vec_len places.old) ends.line_makers.items ends.line_takers.items }
    requires answers { AreNew (vec_len places.old + 1) ends.answer_makers.items ends.answer_takers.items }
    requires session { (k : ℕ) (d : _) → k < vec_len places.old → C.holds (slice_index_or places.old.items k d).session }
    requires idle { (k : ℕ) (d : _) → k < vec_len places.old → IsIdle (C.seen (slice_index_or places.old.items k d).session) }
    requires fine { (k : ℕ) (d : _) → k < vec_len places.old → (slice_index_or places.old.items k d).ended ≡ Ok (tt {0}) }
    ensures len { (vec_len places.new ≡ vec_len places.old) × (vec_capacity places.new ≡ vec_capacity places.old) }
    ensures session { (k : ℕ) (d : _) → k < vec_len places.old → C.holds (slice_index_or places.new.items k d).session }
    ensures base { (k : ℕ) (d : _) → k < vec_len places.old → C.base (slice_index_or places.new.items k d).session ≡ C.base (slice_index_or places.old.items k d).session }
    ensures misses { (k : ℕ) (d : _) → k < vec_len places.old → Keeps (C.missed (slice_index_or places.old.items k d).session) (C.missed (slice_index_or places.new.items k d).session) }
    ensures grounds { (k : ℕ) (d : _) → k < vec_len places.old → IfErr (slice_index_or places.new.items k d).ended (C.grounds (slice_index_or places.new.items k d).session) }
    ensures lived { (lives : ℕ → Life) × HaveLived C.seen places.old.items places.new.items lives × Streamed (vec_len places.old) lives (S.left source.old) (S.left source.new) (K.taken sink.old) (K.taken sink.new) result.read result.written }
    ensures source { CountsReading (S.faults source.old) (S.faults source.new) result.read }
    ensures sink { Causes (K.faults sink.old) (K.faults sink.new) result.written }
{
    let Ok(room) = Vec::with_capacity(alloc, places.len()) else {
        return read_nothing();
    };
    let Desk {
        mut seats,
        mut reader,
        mut answers,
        free_lines,
        free_answers,
    } = sit(rt, signals, places, ends, room);
    let (read, written) = run_threads(
        rt,
        alloc,
        signals,
        seats.as_mut_slice(),
        &mut reader,
        &mut answers,
        source,
        sink,
    );
    let desk = Desk {
        seats,
        reader,
        answers,
        free_lines,
        free_answers,
    };
    let Left {
        lines_done,
        answers_done,
        all_told,
    } = rise(places, desk);
    let written = written_as(written, answers_done, all_told);
    Streams {
        read: read_as(read, lines_done, written.is_ok()),
        written,
    }
}

/// Lets the session of each place live on a thread of its own: each does its lines of the source, one after another, and the sink takes the answers' lines.
/// Where there is no memory for all threads nothing is read.
///
/// What a session did is what the lines that it took ask for, in order, each with its reply, and its end. The lines are those that were read, and what the sink
/// took are the lines of replies.
pub fn serve_places<
    R: Threads + Wait + Sync,
    C: SessionCalls + Send + Drop,
    S: Source,
    K: Sink + Send,
>(rt: &R, alloc: Global, places: &mut Vec<Place<C>>, source: &mut S, sink: &mut K) -> Streams
    requires few { vec_len places.old ≤ 64 }
    requires session { (k : ℕ) (d : _) → k < vec_len places.old → C.holds (slice_index_or places.old.items k d).session }
    requires idle { (k : ℕ) (d : _) → k < vec_len places.old → IsIdle (C.seen (slice_index_or places.old.items k d).session) }
    requires fine { (k : ℕ) (d : _) → k < vec_len places.old → (slice_index_or places.old.items k d).ended ≡ Ok (tt {0}) }
    ensures len { (vec_len places.new ≡ vec_len places.old) × (vec_capacity places.new ≡ vec_capacity places.old) }
    ensures session { (k : ℕ) (d : _) → k < vec_len places.old → C.holds (slice_index_or places.new.items k d).session }
    ensures base { (k : ℕ) (d : _) → k < vec_len places.old → C.base (slice_index_or places.new.items k d).session ≡ C.base (slice_index_or places.old.items k d).session }
    ensures misses { (k : ℕ) (d : _) → k < vec_len places.old → Keeps (C.missed (slice_index_or places.old.items k d).session) (C.missed (slice_index_or places.new.items k d).session) }
    ensures grounds { (k : ℕ) (d : _) → k < vec_len places.old → IfErr (slice_index_or places.new.items k d).ended (C.grounds (slice_index_or places.new.items k d).session) }
    ensures lived { (lives : ℕ → Life) × HaveLived C.seen places.old.items places.new.items lives × Streamed (vec_len places.old) lives (S.left source.old) (S.left source.new) (K.taken sink.old) (K.taken sink.new) result.read result.written }
    ensures source { CountsReading (S.faults source.old) (S.faults source.new) result.read }
    ensures sink { Causes (K.faults sink.old) (K.faults sink.new) result.written }
{
    let sessions = places.len();
    let Ok(signals) = Signals::new(alloc, sessions) else {
        return read_nothing();
    };
    let Ok(ends) = Ends::new(alloc, sessions) else {
        return read_nothing();
    };
    serve_on(rt, alloc, &signals, ends, places, source, sink)
}
