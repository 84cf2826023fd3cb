//! The program `clv_shell`: `run` of `clv_commands` over standard input, standard output and the files of the working folder.
//!
//! It ends with the number of the status, and says its text on standard error.
#![tactic(auto)]

use clv_commands::run;
use command_line::Status;
use io_model::{FileHouse, NoPace, ReadSource, WriteSink};
use std::alloc::Global;
use std::env;
use std::io::ErrorKind;
use std::process::ExitCode;

// The words after the program's name; Usage where one isn't UTF-8.
fn words_of(rt: &HostRuntime, alloc: Global) -> Result<Vec<String>, Status> {
    let args = match env::args(rt) {
        Ok(args) => args,
        Err(error) if error.kind() == ErrorKind::InvalidData => return Err(Status::Usage),
        Err(_) => return Err(Status::Memory),
    };
    let mut words = Vec::new(alloc);
    for word in args.skip(1) {
        if words.push(word).is_err() {
            return Err(Status::Memory);
        }
    }
    Ok(words)
}

// The same as texts.
fn texts_of(alloc: Global, words: &[String]) -> Result<Vec<&str>, Status> {
    let mut texts = Vec::new(alloc);
    for word in words {
        if texts.push(word.as_str()).is_err() {
            return Err(Status::Memory);
        }
    }
    Ok(texts)
}

// Says the status on standard error. Where that can't be written, or there is no memory for the text, it stays unsaid.
fn tell(rt: &HostRuntime, alloc: Global, status: &Status) {
    if let Ok(text) = status.text(alloc) {
        let _ = eprint!(rt; "{text}");
    }
}

// A run over the standard streams and the files of the working folder. The number of the status is taken before anything is written, so that nothing
// changes it.
fn main(rt: HostRuntime) -> ExitCode {
    let alloc = rt.alloc();
    let mut source = ReadSource::new(rt.stdin());
    let mut sink = WriteSink::new(rt.stdout());
    let words = words_of(&rt, alloc);
    let texts = match &words {
        Ok(words) => texts_of(alloc, words),
        Err(status) => Err(*status),
    };
    let files: Result<_, _> = rt.clone();
    let status = match (texts, files) {
        (Ok(texts), Ok(files)) => {
            let mut house = FileHouse::new(files);
            run(
                &rt,
                alloc,
                &texts,
                &mut source,
                &mut sink,
                &mut house,
                &NoPace,
            )
            .status
        }
        (Err(status), _) => status,
        (Ok(_), Err(_)) => Status::Memory,
    };
    let number = status.number();
    tell(&rt, alloc, &status);
    ExitCode::from(number)
}
