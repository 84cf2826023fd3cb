// The script of a workload.

ghost use Rattle.std.specs.Prelude.{◌≡◌, ◌≤◌, ◌<◌, ◌^◌, ◌++◌, [], ◌∷◌, IfOk, OnOk};
ghost use Rattle.script_lang.specs.Grammar.{body};
ghost use Rattle.script_lang.specs.declared.actions.Ending.TheVariants as endings;
ghost use Rattle.script_lang.specs.Loads.{fill, next_state, transfer, transfers as transfers_from, session as session_of, load};

use crate::numbers::Numbers;
use crate::{Action, Ending, Memory, Script, Session, Transaction};
use clv_base::kept::KeptOp;
use clv_base::ops::Op;
use clv_base::values::Value;
use std::alloc::Global;

const FIRST_VALUE: u64 = 1000;

// The transaction that puts 1000 under each account.
fn filling(alloc: Global, accounts: u64) -> Result<Transaction, Memory>
    ensures { IfOk result (λ t. t ≡ body (fill 0 accounts) endings.Commit) }
{
    let mut actions = Vec::new(alloc);
    for account in 0..accounts {
        actions.push(Action::Do(KeptOp::new(Op::Put(account, Value::Num(FIRST_VALUE)))))?;
    }
    Ok(Transaction::new(actions, Ending::Commit))
}

// A transaction of one transfer.
fn one_transfer(alloc: Global, numbers: &mut Numbers, accounts: u64) -> Result<Transaction, Memory>
    requires few { accounts ≤ 10000 }
    requires two { 2 ≤ accounts }
    ensures state { OnOk result (numbers.new.state ≡ next_state (next_state (next_state numbers.old.state))) }
    ensures transfer { IfOk result (λ t. t ≡ body (transfer accounts numbers.old.state ∷ []) endings.Commit) }
{
    let actions = vec![in alloc; numbers.transfer(accounts)]?;
    Ok(Transaction::new(actions, Ending::Commit))
}

// So many transfers are added.
fn add_transfers(
    alloc: Global,
    transactions: &mut Vec<Transaction>,
    numbers: &mut Numbers,
    accounts: u64,
    count: u64,
) -> Result<(), Memory>
    requires few { accounts ≤ 10000 }
    requires two { 2 ≤ accounts }
    ensures { OnOk result (transactions.new.items ≡ transactions.old.items ++ transfers_from accounts numbers.old.state count) }
{
    for _turn in 0..count {
        transactions.push(one_transfer(alloc, numbers, accounts)?)?;
    }
    Ok(())
}

fn session(
    alloc: Global,
    seed: u64,
    number: u64,
    accounts: u64,
    transfers: u64,
) -> Result<Session, Memory>
    requires few { accounts ≤ 10000 }
    requires two { 2 ≤ accounts }
    ensures { IfOk result (λ s. s ≡ session_of seed accounts transfers number) }
{
    let mut transactions = Vec::new(alloc);
    if number == 1 {
        transactions.push(filling(alloc, accounts)?)?;
    }
    let mut numbers = Numbers::new(seed, number);
    add_transfers(alloc, &mut transactions, &mut numbers, accounts, transfers)?;
    Ok(Session::new(transactions))
}

/// The script of a workload: session 1 first puts 1000 under each account, and each session then moves an amount between two accounts so many
/// times, one in a transaction, by numbers that follow from the seed and the session's number. Takes time linear in the script.
pub fn generate(
    alloc: Global,
    seed: u64,
    sessions: u64,
    accounts: u64,
    transfers: u64,
) -> Result<Script, Memory>
    requires some_sessions { 1 ≤ sessions }
    requires few_sessions { sessions ≤ 64 }
    requires two_accounts { 2 ≤ accounts }
    requires few_accounts { accounts ≤ 10000 }
    requires few_transfers { transfers ≤ 1000 }
    ensures { IfOk result (λ script. script ≡ load seed sessions accounts transfers) }
{
    let mut list = Vec::new(alloc);
    for place in 0..sessions {
        list.push(session(alloc, seed, place + 1, accounts, transfers)?)?;
    }
    Ok(Script::new(list))
}
