// The command `load`.

ghost use Rattle.std.specs.Prelude.{◌≡◌, ◌<◌, ◌≤◌, ◌+◌, ◌*◌, ◌^◌, ℕ, Some, None, false, true, length, map, IfSome, IfOk, IfErr};
ghost use Rattle.std.specs.List.{list_all};
ghost use Rattle.clv_base.specs.Maps.{map_between};
ghost use Rattle.io_model.specs.Sides.{sides_out, sides_told};
ghost use Rattle.history_replay.specs.Entries.{Kept};
ghost use Rattle.ordered_store.specs.InTurn.{live_in_turn};
ghost use Rattle.command_line.specs.declared.commands.Command.TheVariants as commands;
ghost use Rattle.command_line.specs.declared.status.Status.TheVariants.{Fine};
ghost use Rattle.report_text.specs.Loads.{number_in as number_by, values_sum};
ghost use Rattle.report_text.specs.Sinks.{TakesText, Causes};
ghost use Rattle.workload_laws.specs.Sums.{accounts_sum as sum_of};
ghost use Rattle.script_lang.specs.Laws.{is_narrow_body};
ghost use Rattle.script_lang.specs.Loads.{load as script_by};
ghost use Rattle.clv_commands.specs.Kinds.{IsOfShow, IsOfShards};
ghost use Rattle.clv_commands.specs.Disks.{Closes};
ghost use Rattle.clv_commands.specs.Sinks.{line_of, Took, TookPairs};
ghost use Rattle.clv_commands.specs.Causes.{BreaksLogs, CountsSink, CountsDisks};
ghost use Rattle.clv_commands.specs.Runs.{EndsAs, HasLoaded, Opened};

use crate::ended::Ended;
use crate::sums::loads_keep_their_sum;
use cluster_opening::OpenError;
use cluster_runs::replay::runs_replay;
use cluster_runs::{Plan, Ran, Start, run_script};
use clv_base::values::Value;
use command_line::{Status, after_text};
use io_model::{House, Pace, Sink, write_all};
use lock_index::HashedLocks;
use ordered_store::{BlockStore, Store};
use report_text::{ReportError, load_text};
use script_lang::workload_laws::{loads_are_narrow, loads_have_their_sessions};
use script_lang::{Script, generate};
use std::alloc::{AllocError, Global};
use std::sync::Wait;
use std::thread::Threads;

/// What a workload is made from: a number, so many sessions and accounts, and so many transfers of each session.
#[derive(Clone, Copy)]
pub struct Work {
    pub seed: u64,
    pub sessions: u64,
    pub accounts: u64,
    pub transfers: u64,
}

// Its script.
fn script_of(alloc: Global, work: Work) -> Result<Script, AllocError>
    requires sessions { (1 ≤ work.sessions) × (work.sessions ≤ 64) }
    requires accounts { (2 ≤ work.accounts) × (work.accounts ≤ 10000) }
    requires transfers { work.transfers ≤ 1000 }
    ensures script { IfOk result (λ script. script ≡ script_by work.seed work.sessions work.accounts work.transfers) }
    ensures narrow { IfOk result (λ script. list_all (list_all is_narrow_body) script ≡ true) }
    ensures few { IfOk result (λ script. length script ≤ 64) }
{
    loads_are_narrow();
    loads_have_their_sessions();
    generate(
        alloc,
        work.seed,
        work.sessions,
        work.accounts,
        work.transfers,
    )
}

// The number that a value is; a text counts nothing.
fn number_in(value: &Value) -> u64
    ensures { result ≡ number_by value.now }
{
    match value {
        Value::Num(number) => *number,
        Value::Bytes(_) => 0,
    }
}

// The sum of the numbers of all keys up to one, for which 64 bits are enough.
fn total(pairs: &[(u64, Value)], last: u64) -> u64
    requires room { values_sum (map_between 0 last pairs.now) < 2 ^ 64 }
    ensures { result ≡ values_sum (map_between 0 last pairs.now) }
{
    let mut sum: u64 = 0;
    for pair in pairs {
        if pair.0 <= last {
            sum += number_in(&pair.1);
        }
    }
    sum
}

// What the accounts hold in all, by the stores.
fn accounts_sum(alloc: Global, stores: &[BlockStore], accounts: u64) -> Result<u64, AllocError>
    requires some { 1 ≤ accounts }
    requires room { sum_of accounts (live_in_turn (map (λ s. ⟦<BlockStore as Store>⟧.records s) stores.now)) < 2 ^ 64 }
    ensures { IfOk result (λ sum. sum ≡ sum_of accounts (live_in_turn (map (λ s. ⟦<BlockStore as Store>⟧.records s) stores.now))) }
{
    let pairs = BlockStore::live_pairs(alloc, stores)?;
    Ok(total(&pairs, accounts - 1))
}

// The line of a workload whose transactions were all acknowledged, as bytes.
fn text_of(alloc: Global, stores: &[BlockStore], work: Work) -> Result<Vec<u8>, AllocError>
    requires sessions { work.sessions ≤ 64 }
    requires accounts { (2 ≤ work.accounts) × (work.accounts ≤ 10000) }
    requires transfers { work.transfers ≤ 1000 }
    requires sum { sum_of work.accounts (live_in_turn (map (λ s. ⟦<BlockStore as Store>⟧.records s) stores.now)) ≡ 1000 * work.accounts }
    ensures { IfOk result (λ text. text.items ≡ line_of work.sessions work.accounts work.transfers) }
{
    let sum = accounts_sum(alloc, stores, work.accounts)?;
    let acknowledged = 1 + work.sessions * work.transfers;
    load_text(alloc, work.accounts, acknowledged, sum)
}

// Writes it.
fn line_into<K: Sink>(
    alloc: Global,
    stores: &[BlockStore],
    work: Work,
    sink: &mut K,
) -> Result<(), ReportError>
    requires sessions { work.sessions ≤ 64 }
    requires accounts { (2 ≤ work.accounts) × (work.accounts ≤ 10000) }
    requires transfers { work.transfers ≤ 1000 }
    requires sum { sum_of work.accounts (live_in_turn (map (λ s. ⟦<BlockStore as Store>⟧.records s) stores.now)) ≡ 1000 * work.accounts }
    ensures took { TakesText (K.taken sink.old) (K.taken sink.new) (line_of work.sessions work.accounts work.transfers) result }
    ensures cause { Causes (K.faults sink.old) (K.faults sink.new) result }
{
    let Ok(text) = text_of(alloc, stores, work) else {
        return Err(ReportError::Memory);
    };
    match write_all(sink, &text) {
        Ok(()) => Ok(()),
        Err(_) => Err(ReportError::Failed),
    }
}

// Writes it where all was fine so far, and tells how the program ends.
fn write_line<K: Sink>(
    alloc: Global,
    stores: &[BlockStore],
    work: Work,
    running: Status,
    sink: &mut K,
) -> Status
    requires sessions { work.sessions ≤ 64 }
    requires accounts { (2 ≤ work.accounts) × (work.accounts ≤ 10000) }
    requires transfers { work.transfers ≤ 1000 }
    requires sum { running ≡ Fine → sum_of work.accounts (live_in_turn (map (λ s. ⟦<BlockStore as Store>⟧.records s) stores.now)) ≡ 1000 * work.accounts }
    requires running { IsOfShards running }
    ensures ends { EndsAs running result }
    ensures took { TookPairs (line_of work.sessions work.accounts work.transfers) result (K.taken sink.old) (K.taken sink.new) }
    ensures cause { (kept : Kept) → CountsSink (Some kept) (K.faults sink.old) (K.faults sink.new) result }
{
    match running {
        Status::Fine => after_text(running, line_into(alloc, stores, work, sink)),
        other => other,
    }
}

/// Runs the script of a workload: the first session's first transaction fills the accounts, alone, and then all sessions run beside each other. Each
/// transaction is tried until it is acknowledged, and no row is kept of it. Where all was fine writes one line: the accounts hold 1000 each in all,
/// by the stores, whatever the logs stood for.
pub fn load<R: Threads + Wait + Sync, K: Sink, H: House, P: Pace + Sync>(
    rt: &R,
    alloc: Global,
    sink: &mut K,
    house: &mut H,
    pace: &P,
    work: Work,
) -> Ended
where
    H::Disk: Send,
    requires inside { (n : ℕ) → n < 16 → sides_out (H.is_out house.old) n ≡ (false, false) }
    requires sessions { (1 ≤ work.sessions) × (work.sessions ≤ 64) }
    requires accounts { (2 ≤ work.accounts) × (work.accounts ≤ 10000) }
    requires transfers { work.transfers ≤ 1000 }
    ensures kind { IsOfShow result.status }
    ensures promised { IfSome result.history (λ kept. HasLoaded work.accounts (script_by work.seed work.sessions work.accounts work.transfers) (sides_told (H.story house.old)) (sides_told (H.story house.new)) (H.faults house.old) (H.faults house.new) kept result.status) }
    ensures opened { Opened result.history result.status }
    ensures took { Took (commands.Load work.seed work.sessions work.accounts work.transfers) result.status result.history (K.faults sink.old) (K.faults sink.new) (K.taken sink.old) (K.taken sink.new) }
    ensures closed { result.history ≡ None → Closes result.status (sides_told (H.story house.old)) (sides_told (H.story house.new)) }
    ensures logs { BreaksLogs result.status result.history (sides_told (H.story house.old)) }
    ensures sink { CountsSink result.history (K.faults sink.old) (K.faults sink.new) result.status }
    ensures disks { CountsDisks result.history (H.faults house.old) (H.faults house.new) result.status }
    ensures back { (n : ℕ) → n < 16 → sides_out (H.is_out house.new) n ≡ (false, false) }
{
    runs_replay();
    loads_keep_their_sum();
    let Ok(script) = script_of(alloc, work) else {
        return Ended {
            status: Status::Memory,
            history: None,
        };
    };
    let ran: Result<Ran<BlockStore>, OpenError> = run_script::<BlockStore, HashedLocks, R, H, P>(
        rt,
        alloc,
        house,
        pace,
        Plan {
            sessions: script.sessions(),
            most: None,
            start: Start::FirstAlone,
            keeps_rows: false,
        },
    );
    match ran {
        Ok(ran) => Ended {
            status: write_line(alloc, &ran.maps, work, ran.status, sink),
            history: Some(ran.history),
        },
        Err(error) => Ended {
            status: error.into(),
            history: None,
        },
    }
}
