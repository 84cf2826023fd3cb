// What a subcommand with its values says.

ghost use Rattle.std.specs.Prelude.{◌≡◌, ◌≢◌, ◌≤◌, ℕ, List, length, [], ◌∷◌, ◌++◌, IfOk, IfErr, MatchOption, IsTrue, ◌↔◌, true, codes};
ghost use Rattle.clap.specs.Words.{first_of, all_of};
ghost use Rattle.clv_base.specs.Shards.{are_splits};
ghost use Rattle.command_line.specs.declared.commands.Command.{Command as ACommand};
ghost use Rattle.command_line.specs.Commands.{IsGiven, IsUpTo, AreNumbers, listed, Says, IsCommand};
ghost use Rattle.command_line.specs.Steps.{texts, given_rows};

use crate::commands::{Command, WordsError};
use crate::counts::RecordCounts;
use crate::grammar::matches_of;
use clap::ArgMatches;
use clv_base::splits::Splits;
use script_lang::number_of;
use std::alloc::Global;

// The number that is given under a name.
fn number_at(given: &ArgMatches, name: &str) -> Option<u64>
    ensures { MatchOption result ((n : ℕ) → IsGiven (first_of name.now (given_rows given.now)) n → ⊥) (λ n. IsGiven (first_of name.now (given_rows given.now)) n) }
{
    match given.get_str(name) {
        Some(word) => number_of(word.as_bytes()),
        None => None,
    }
}

// The number from 1 to so many that is given under a name, or another one where none is.
fn number_up_to(given: &ArgMatches, name: &str, most: u64, otherwise: u64) -> Option<u64>
    ensures { MatchOption result ((n : ℕ) → IsUpTo most otherwise (first_of name.now (given_rows given.now)) n → ⊥) (λ n. IsUpTo most otherwise (first_of name.now (given_rows given.now)) n) }
{
    let Some(word) = given.get_str(name) else {
        return Some(otherwise);
    };
    match number_of(word.as_bytes()) {
        Some(number) => {
            if number == 0 {
                return None;
            }
            if number > most {
                return None;
            }
            Some(number)
        }
        None => None,
    }
}

// The numbers of a workload, within their bounds.
fn load_of(given: &ArgMatches) -> Option<Command>
    ensures { MatchOption result ((command : ACommand) → Says (codes "load") (given_rows given.now) command → ⊥) (Says (codes "load") (given_rows given.now)) }
{
    let Some(seed) = number_at(given, "seed") else {
        return None;
    };
    let Some(sessions) = number_at(given, "sessions") else {
        return None;
    };
    let Some(accounts) = number_at(given, "accounts") else {
        return None;
    };
    let Some(transfers) = number_at(given, "transfers") else {
        return None;
    };
    if !are_within(sessions, accounts, transfers) {
        return None;
    }
    Some(Command::Load {
        seed,
        sessions,
        accounts,
        transfers,
    })
}

fn are_within(sessions: u64, accounts: u64, transfers: u64) -> bool
    ensures { IsTrue result ↔ ((1 ≤ sessions) × (sessions ≤ 64) × (2 ≤ accounts) × (accounts ≤ 10000) × (transfers ≤ 1000)) }
{
    if sessions == 0 || sessions > 64 {
        return false;
    }
    if accounts < 2 || accounts > 10000 {
        return false;
    }
    transfers <= 1000
}

// The numbers that words are.
fn numbers_of(alloc: Global, words: &[&str]) -> Result<Vec<u64>, WordsError>
    ensures numbers { IfOk result (λ list. AreNumbers (texts words.now) list.items) }
    ensures usage { IfErr result (λ e. e ≡ WordsError.Usage → (list : List ℕ) → AreNumbers (texts words.now) list → ⊥) }
{
    let mut list = Vec::new(alloc);
    for place in 0..words.len() {
        let Some(number) = number_of(words[place].as_bytes()) else {
            return Err(WordsError::Usage);
        };
        let Ok(()) = list.push(number) else {
            return Err(WordsError::Memory);
        };
    }
    Ok(list)
}

// The command that makes logs with these splits.
fn make_with(alloc: Global, words: &[&str]) -> Result<Command, WordsError>
    ensures command { IfOk result (λ command. (splits : List ℕ) × (command ≡ Command.Make splits) × AreNumbers (texts words.now) splits × (are_splits splits ≡ true)) }
    ensures usage { IfErr result (λ e. e ≡ WordsError.Usage → (splits : List ℕ) → AreNumbers (texts words.now) splits → are_splits splits ≡ true → ⊥) }
{
    let list = match numbers_of(alloc, words) {
        Ok(list) => list,
        Err(error) => return Err(error),
    };
    match Splits::new(&list) {
        Ok(splits) => Ok(Command::Make { splits }),
        Err(_) => Err(WordsError::Usage),
    }
}

fn make_of(alloc: Global, given: &ArgMatches) -> Result<Command, WordsError>
    ensures command { IfOk result (Says (codes "make") (given_rows given.now)) }
    ensures usage { IfErr result (λ e. e ≡ WordsError.Usage → (command : ACommand) → Says (codes "make") (given_rows given.now) command → ⊥) }
{
    match given.get_strs("split") {
        Some(words) => make_with(alloc, words),
        None => make_with(alloc, &[]),
    }
}

// The command that shows what a standby shows of so many records.
fn standby_with(alloc: Global, words: &[&str]) -> Result<Command, WordsError>
    ensures command { IfOk result (λ command. (counts : List ℕ) × (command ≡ Command.Standby counts) × AreNumbers (texts words.now) counts × (length counts ≤ 16)) }
    ensures usage { IfErr result (λ e. e ≡ WordsError.Usage → (counts : List ℕ) → AreNumbers (texts words.now) counts → length counts ≤ 16 → ⊥) }
{
    let list = match numbers_of(alloc, words) {
        Ok(list) => list,
        Err(error) => return Err(error),
    };
    match RecordCounts::new(&list) {
        Some(counts) => Ok(Command::Standby { counts }),
        None => Err(WordsError::Usage),
    }
}

fn standby_of(alloc: Global, given: &ArgMatches) -> Result<Command, WordsError>
    ensures command { IfOk result (Says (codes "standby") (given_rows given.now)) }
    ensures usage { IfErr result (λ e. e ≡ WordsError.Usage → (command : ACommand) → Says (codes "standby") (given_rows given.now) command → ⊥) }
{
    match given.get_strs("count") {
        Some(words) => standby_with(alloc, words),
        None => standby_with(alloc, &[]),
    }
}

// The command of a subcommand and its values.
fn read(alloc: Global, name: &str, given: &ArgMatches) -> Result<Command, WordsError>
    ensures command { IfOk result (Says name.now (given_rows given.now)) }
    ensures usage { IfErr result (λ e. e ≡ WordsError.Usage → (command : ACommand) → Says name.now (given_rows given.now) command → ⊥) }
{
    if name == "make" {
        return make_of(alloc, given);
    }
    if name == "run" {
        return match number_up_to(given, "tries", 1000, 100) {
            Some(tries) => Ok(Command::Run { tries }),
            None => Err(WordsError::Usage),
        };
    }
    if name == "show" {
        return Ok(Command::Show);
    }
    if name == "load" {
        return match load_of(given) {
            Some(command) => Ok(command),
            None => Err(WordsError::Usage),
        };
    }
    if name == "serve" {
        return match number_up_to(given, "sessions", 64, 16) {
            Some(sessions) => Ok(Command::Serve { sessions }),
            None => Err(WordsError::Usage),
        };
    }
    if name == "audit" {
        return Ok(Command::Audit);
    }
    if name == "standby" {
        return standby_of(alloc, given);
    }
    Err(WordsError::Usage)
}

/// The command that these words are; they are those after the program's name. `Usage` comes exactly where they are none.
pub fn command_of(alloc: Global, words: &[&str]) -> Result<Command, WordsError>
    ensures command { IfOk result (IsCommand (texts words.now)) }
    ensures usage { IfErr result (λ e. e ≡ WordsError.Usage → (command : ACommand) → IsCommand (texts words.now) command → ⊥) }
{
    let matches = match matches_of(alloc, words) {
        Ok(matches) => matches,
        Err(error) => return Err(error),
    };
    match matches.subcommand() {
        Some((name, given)) => read(alloc, name, given),
        None => Err(WordsError::Usage),
    }
}
