// The top call.

ghost use Rattle.std.specs.Prelude.{◌≡◌, ◌<◌, ◌≤◌, ℕ, None, false, map, IfSome};
ghost use Rattle.io_model.specs.Sides.{sides_out, sides_told};
ghost use Rattle.clv_commands.specs.Kinds.{IsOfCommand};
ghost use Rattle.clv_commands.specs.Disks.{ClosedBy, Makes};
ghost use Rattle.clv_commands.specs.Sinks.{Took};
ghost use Rattle.clv_commands.specs.Causes.{HasBytes, BreaksBy, BreaksSource, CountsSource, CountsSink, CountsSourceBy, CountsSinkBy, CountsDisks};
ghost use Rattle.clv_commands.specs.Runs.{PromisedBy, ServedBy, OpensByCommand};
ghost use Rattle.clv_commands.specs.Reading.{ReadsBy};
ghost use Rattle.clv_commands.specs.Audited.{AuditedBy};
ghost use Rattle.clv_commands.specs.Standing.{ShownBy};
ghost use Rattle.clv_commands.specs.Completing.{IsAccepted, NoneRose, IsCompleted};
ghost use Rattle.clv_commands.specs.Top.{AreRefused, AreNotServe, IsRefusedWords, HasCommand, IsWithinBounds};

use crate::auditing::audit;
use crate::ended::Ended;
use crate::loading::{Work, load};
use crate::making::make_logs;
use crate::running;
use crate::serving::serve;
use crate::showing::show;
use crate::standing::standby;
use cluster_opening::opening_laws::good_logs_are_not_refused;
use command_line::{Command, Status, command_of};
use io_model::{House, Pace, Sink, Source};
use report_reading::statements::reports_have_no_fault;
use script_lang::statements::scripts_are_not_refused;
use std::alloc::Global;
use std::sync::Wait;
use std::thread::Threads;

// Does a command.
fn obey<R: Threads + Wait + Sync, S: Source, K: Sink + Send, H: House, P: Pace + Sync>(
    rt: &R,
    alloc: Global,
    command: Command,
    source: &mut S,
    sink: &mut K,
    house: &mut H,
    pace: &P,
) -> Ended
where
    H::Disk: Send,
    requires inside { (n : ℕ) → n < 16 → sides_out (H.is_out house.old) n ≡ (false, false) }
    requires bounds { IsWithinBounds command }
    ensures kind { IsOfCommand command result.status }
    ensures promised { IfSome result.history (PromisedBy command (S.left source.old) (sides_told (H.story house.old)) (sides_told (H.story house.new)) (H.faults house.old) (H.faults house.new) result.status) }
    ensures served { IfSome result.history (ServedBy command (S.left source.old) (S.left source.new) (K.taken sink.old) (K.taken sink.new) (sides_told (H.story house.old)) (sides_told (H.story house.new)) (H.faults house.old) (H.faults house.new) result.status) }
    ensures audited { AuditedBy command (S.left source.old) (sides_told (H.story house.old)) (K.faults sink.old) (K.faults sink.new) (K.taken sink.old) (K.taken sink.new) result.status }
    ensures standby { ShownBy command (sides_told (H.story house.old)) (K.taken sink.old) (K.taken sink.new) result.status }
    ensures opened { OpensByCommand command result.status result.history }
    ensures took { Took command result.status result.history (K.faults sink.old) (K.faults sink.new) (K.taken sink.old) (K.taken sink.new) }
    ensures closed { ClosedBy command result.status result.history (sides_told (H.story house.old)) (sides_told (H.story house.new)) }
    ensures made { Makes command result.status (sides_told (H.story house.old)) (sides_told (H.story house.new)) }
    ensures read { ReadsBy command result.history result.status (S.left source.old) (S.left source.new) }
    ensures exists { HasBytes command result.status (sides_told (H.story house.old)) (sides_told (H.story house.new)) }
    ensures logs { BreaksBy command result.status result.history (sides_told (H.story house.old)) }
    ensures script { BreaksSource command result.status (S.left source.old) }
    ensures source { CountsSourceBy command result.history (S.faults source.old) (S.faults source.new) result.status }
    ensures sink { CountsSinkBy command result.history (K.faults sink.old) (K.faults sink.new) result.status }
    ensures disks { CountsDisks result.history (H.faults house.old) (H.faults house.new) result.status }
    ensures back { (n : ℕ) → n < 16 → sides_out (H.is_out house.new) n ≡ (false, false) }
{
    match command {
        Command::Make { splits } => Ended {
            status: make_logs(alloc, house, splits),
            history: None,
        },
        Command::Run { tries } => running::run(rt, alloc, source, sink, house, pace, tries),
        Command::Show => show(rt, alloc, sink, house, pace),
        Command::Load {
            seed,
            sessions,
            accounts,
            transfers,
        } => {
            let work = Work {
                seed,
                sessions,
                accounts,
                transfers,
            };
            load(rt, alloc, sink, house, pace, work)
        }
        Command::Serve { sessions } => serve(rt, alloc, source, sink, house, pace, sessions),
        Command::Audit => Ended {
            status: audit(alloc, source, sink, house),
            history: None,
        },
        Command::Standby { counts } => Ended {
            status: standby(alloc, sink, house, &counts),
            history: None,
        },
    }
}

/// The program: does what the words say, those after the program's name, with the bytes of the source, the sink, and the disks of the house.
///
/// A clause on content says nothing of a source, a sink or a disk that doesn't tell it (standard input, standard output, a file). Want of
/// memory may come at any time; what was done until then keeps every clause.
pub fn run<R: Threads + Wait + Sync, S: Source, K: Sink + Send, H: House, P: Pace + Sync>(
    rt: &R,
    alloc: Global,
    words: &[&str],
    source: &mut S,
    sink: &mut K,
    house: &mut H,
    pace: &P,
) -> Ended
where
    H::Disk: Send,
    requires inside { (n : ℕ) → n < 16 → sides_out (H.is_out house.old) n ≡ (false, false) }

    // Usage comes exactly where the words are no command.
    ensures usage { IsRefusedWords (map (λ w. w.now) words.now) result.status }

    // Each command ends with one of its own statuses.
    ensures kind { HasCommand (map (λ w. w.now) words.now) (λ command. IsOfCommand command result.status) }

    // Where the shards were opened: the history is legal, from the logs that the disks held; each disk that tells its bytes holds its records in each
    // image that a crash may leave; and whatever a crash keeps of what is in flight stands for a serial history, with all answers, in each session's
    // order, and may be opened again. What each session made is its transactions in the script's order, each in its tries, as far as the session
    // came; where all was fine each has ended. The count of a shard's disk rose where a flush of it failed, and else it stands; the status tells
    // the lowest such shard.
    ensures promised { HasCommand (map (λ w. w.now) words.now) (λ command. IfSome result.history (PromisedBy command (S.left source.old) (sides_told (H.story house.old)) (sides_told (H.story house.new)) (H.faults house.old) (H.faults house.new) result.status)) }

    // Of `serve` the entries of each session are those of the calls that its lines ask for, in order, each with its reply; a reply "committed" is of a transaction
    // that the history acknowledges. Each session took a front of its lines of what was read, and the sink took the lines of replies, of each session's a front; where
    // all was fine every line of the source was taken, and every reply written.
    ensures served { HasCommand (map (λ w. w.now) words.now) (λ command. IfSome result.history (ServedBy command (S.left source.old) (S.left source.new) (K.taken sink.old) (K.taken sink.new) (sides_told (H.story house.old)) (sides_told (H.story house.new)) (H.faults house.old) (H.faults house.new) result.status)) }

    // Of `audit` that came to a verdict: the disks hold logs that agree, and it is the verdict on the bytes of the source by what these stand for. It is told
    // by the status, and by the line that the sink took, or a front of it where the sink failed.
    ensures audited { HasCommand (map (λ w. w.now) words.now) (λ command. AuditedBy command (S.left source.old) (sides_told (H.story house.old)) (K.faults sink.old) (K.faults sink.new) (K.taken sink.old) (K.taken sink.new) result.status) }

    // Of `standby` that was fine but for the sink: the disks hold logs that agree, and the sink took what a standby shows that was fed so many of the first records
    // of each, or a front of it where the sink failed; else it took nothing.
    ensures standby { HasCommand (map (λ w. w.now) words.now) (λ command. ShownBy command (sides_told (H.story house.old)) (K.taken sink.old) (K.taken sink.new) result.status) }

    // Shards were opened where `run`, `show`, `load` or `serve` was fine, and not by `make`, `audit` or `standby`.
    ensures opened { HasCommand (map (λ w. w.now) words.now) (λ command. OpensByCommand command result.status result.history) }

    // The sink took the whole text where all was fine; a front of it where the sink failed; where a disk failed or stamps were worn, of `run` that was
    // opened, the report or, where the sink's count rose, a front of it; else nothing.
    ensures took { HasCommand (map (λ w. w.now) words.now) (λ command. Took command result.status result.history (K.faults sink.old) (K.faults sink.new) (K.taken sink.old) (K.taken sink.new)) }

    // Where no shards were opened no disk was written, but where one failed or memory was wanting; what is left then is opened again. `make`
    // writes no disk with bytes, and `audit` and `standby` none at all. What `make` makes.
    ensures closed { HasCommand (map (λ w. w.now) words.now) (λ command. ClosedBy command result.status result.history (sides_told (H.story house.old)) (sides_told (H.story house.new))) }
    ensures made { HasCommand (map (λ w. w.now) words.now) (λ command. Makes command result.status (sides_told (H.story house.old)) (sides_told (H.story house.new))) }

    // Words that are refused do nothing, whatever the status.
    ensures nothing { AreRefused (map (λ w. w.now) words.now) → (result.history ≡ None) × (source.new ≡ source.old) × (sink.new ≡ sink.old) × (house.new ≡ house.old) }

    // `run` read all of the source, and it is a script, but where that was refused, the source failed or memory was wanting; so did `audit`, and it is a report.
    // No other command reads, but `serve`.
    ensures read { HasCommand (map (λ w. w.now) words.now) (λ command. ReadsBy command result.history result.status (S.left source.old) (S.left source.new)) }

    // Over disks and a source that tell what the command wants, and where no count of a fault rose, all was done, or stamps, runs or memory were
    // wanting.
    ensures completes { HasCommand (map (λ w. w.now) words.now) (λ command. IsAccepted command (S.left source.old) (sides_told (H.story house.old)) → NoneRose (S.faults source.old) (S.faults source.new) (K.faults sink.old) (K.faults sink.new) (H.faults house.old) (H.faults house.new) → IsCompleted command result.status) }

    // Each refusal comes only where its cause stands. Of `serve` a fault of the source or the sink may have come, too, where a disk failed, or stamps or memory
    // were wanting.
    ensures exists { HasCommand (map (λ w. w.now) words.now) (λ command. HasBytes command result.status (sides_told (H.story house.old)) (sides_told (H.story house.new))) }
    ensures logs { HasCommand (map (λ w. w.now) words.now) (λ command. BreaksBy command result.status result.history (sides_told (H.story house.old))) }
    ensures script { HasCommand (map (λ w. w.now) words.now) (λ command. BreaksSource command result.status (S.left source.old)) }
    ensures source { AreNotServe (map (λ w. w.now) words.now) → CountsSource (S.faults source.old) (S.faults source.new) result.status }
    ensures sink { AreNotServe (map (λ w. w.now) words.now) → CountsSink result.history (K.faults sink.old) (K.faults sink.new) result.status }
    ensures served_source { HasCommand (map (λ w. w.now) words.now) (λ command. CountsSourceBy command result.history (S.faults source.old) (S.faults source.new) result.status) }
    ensures served_sink { HasCommand (map (λ w. w.now) words.now) (λ command. CountsSinkBy command result.history (K.faults sink.old) (K.faults sink.new) result.status) }
    ensures disks { CountsDisks result.history (H.faults house.old) (H.faults house.new) result.status }

    // Every disk is back.
    ensures back { (n : ℕ) → n < 16 → sides_out (H.is_out house.new) n ≡ (false, false) }
{
    scripts_are_not_refused();
    reports_have_no_fault();
    good_logs_are_not_refused();
    match command_of(alloc, words) {
        Ok(command) => obey(rt, alloc, command, source, sink, house, pace),
        Err(error) => Ended {
            status: error.into(),
            history: None,
        },
    }
}
