// The command line as `clap` is told of it.

ghost use Rattle.std.specs.Prelude.{◌≡◌, ◌≢◌, [], IfOk, IfErr, codes, true, false};
ghost use Rattle.clap.specs.Words.{app_of, with_subcommand, rule_of, fault_of, subcommand_of, subcommand_rows_of};
ghost use Rattle.clap.specs.declared.builder.Command.TheViews.{out-Command as fields_of};
ghost use Rattle.command_line.specs.Apps.{with_required, make_app, run_app, load_app, serve_app, standby_app, bare_app, the_app};
ghost use Rattle.command_line.specs.Steps.{texts};

use crate::commands::WordsError;
use clap::error::ErrorKind;
use clap::{Arg, ArgAction, ArgMatches, Command};
use std::alloc::{AllocError, Global};

// A program with one more subcommand, which makes logs: `make [SPLIT]..`.
fn with_make<'a>(alloc: Global, program: Command<'a>) -> Result<Command<'a>, AllocError>
    ensures { IfOk result (λ c. app_of c ≡ with_subcommand (app_of program.entry) make_app.top) }
{
    let split = Arg::new(alloc, "split").action(ArgAction::Append);
    let make = Command::new(alloc, "make").arg(split)?;
    program.subcommand(make)
}

// With one that runs a script: `run [--tries N]`.
fn with_run<'a>(alloc: Global, program: Command<'a>) -> Result<Command<'a>, AllocError>
    ensures { IfOk result (λ c. app_of c ≡ with_subcommand (app_of program.entry) run_app.top) }
{
    let tries = Arg::new(alloc, "tries").long("tries");
    let run = Command::new(alloc, "run").arg(tries)?;
    program.subcommand(run)
}

// A command with an option more for each of the names, which must be given.
fn with_options<'a>(
    alloc: Global,
    command: Command<'a>,
    names: &[&'a str],
) -> Result<Command<'a>, AllocError>
    requires { (fields_of command).has_globals ≡ false }
    ensures app { IfOk result (λ c. app_of c ≡ with_required (app_of command.entry) (texts names.now)) }
    ensures globals { IfOk result (λ c. (fields_of c).has_globals ≡ false) }
{
    let mut whole = command;
    for name in names {
        let option = Arg::new(alloc, name).long(name).required(true);
        whole = whole.arg(option)?;
    }
    Ok(whole)
}

// With one that runs a workload: `load --seed S --sessions N --accounts A --transfers T`.
fn with_load<'a>(alloc: Global, program: Command<'a>) -> Result<Command<'a>, AllocError>
    ensures { IfOk result (λ c. app_of c ≡ with_subcommand (app_of program.entry) load_app.top) }
{
    let names = ["seed", "sessions", "accounts", "transfers"];
    let load = with_options(alloc, Command::new(alloc, "load"), &names)?;
    program.subcommand(load)
}

// With one that lets sessions live: `serve [--sessions N]`.
fn with_serve<'a>(alloc: Global, program: Command<'a>) -> Result<Command<'a>, AllocError>
    ensures { IfOk result (λ c. app_of c ≡ with_subcommand (app_of program.entry) serve_app.top) }
{
    let sessions = Arg::new(alloc, "sessions").long("sessions");
    let serve = Command::new(alloc, "serve").arg(sessions)?;
    program.subcommand(serve)
}

// With one that shows what a standby shows: `standby [N]..`.
fn with_standby<'a>(alloc: Global, program: Command<'a>) -> Result<Command<'a>, AllocError>
    ensures { IfOk result (λ c. app_of c ≡ with_subcommand (app_of program.entry) standby_app.top) }
{
    let count = Arg::new(alloc, "count").action(ArgAction::Append);
    let standby = Command::new(alloc, "standby").arg(count)?;
    program.subcommand(standby)
}

// The program without its subcommands.
fn bare<'a>(alloc: Global) -> Command<'a>
    ensures { app_of result ≡ bare_app }
{
    Command::new(alloc, "clv_shell")
        .no_binary_name(true)
        .subcommand_required(true)
}

fn program<'a>(alloc: Global) -> Result<Command<'a>, AllocError>
    ensures { IfOk result (λ c. app_of c ≡ the_app) }
{
    let one = with_make(alloc, bare(alloc))?;
    let two = with_run(alloc, one)?;
    let three = two.subcommand(Command::new(alloc, "show"))?;
    let four = with_load(alloc, three)?;
    let five = with_serve(alloc, four)?;
    let six = five.subcommand(Command::new(alloc, "audit"))?;
    with_standby(alloc, six)
}

// What `clap` makes of the words, where it finds no fault in them.
pub fn matches_of<'a>(alloc: Global, words: &'a [&'a str]) -> Result<ArgMatches<'a>, WordsError>
    ensures no_fault { IfOk result (λ m. fault_of the_app (texts words.entry.now) ≡ []) }
    ensures subcommand { IfOk result (λ m. subcommand_rows_of m ≡ subcommand_of the_app (texts words.entry.now)) }
    ensures fault { IfErr result (λ e. e ≡ WordsError.Usage → fault_of the_app (texts words.entry.now) ≢ []) }
{
    let Ok(app) = program(alloc) else {
        return Err(WordsError::Memory);
    };
    match app.try_get_matches_from(words) {
        Ok(matches) => Ok(matches),
        Err(error) => {
            if error.kind() == ErrorKind::OutOfMemory {
                Err(WordsError::Memory)
            } else {
                Err(WordsError::Usage)
            }
        }
    }
}
