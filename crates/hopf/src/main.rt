//! `hopf`: reads a session of statements, and prints a line for each value, equality and refusal.
#![tactic(auto)]

mod laws;
mod reading;
mod refusal;
mod run;
mod session;
mod statement;
mod status;
mod words;

use hopf_io::{StdSink, StdSource};
use run::run;
use status::{Status, report};
use std::process::ExitCode;
use std::{env, io};

// The words after the program's name.
fn words_of(rt: &HostRuntime) -> io::Result<Vec<String>> {
    let mut words = Vec::new(rt.alloc());
    for word in env::args(rt)?.skip(1) {
        if words.push(word).is_err() {
            return Err(io::Error::from(io::ErrorKind::OutOfMemory));
        }
    }
    Ok(words)
}

// The status where the words can't be had: a word that is not UTF-8 is no command.
fn status_without_words(fault: &io::Error) -> Status {
    if fault.kind() == io::ErrorKind::OutOfMemory {
        Status::Memory
    } else {
        Status::Usage
    }
}

fn main(rt: HostRuntime) -> ExitCode {
    let mut input = StdSource::new(&rt);
    let mut out = StdSink::new(rt.stdout());
    let mut err = StdSink::new(rt.stderr());
    let status = match words_of(&rt) {
        Ok(words) => run(rt.alloc(), words.as_slice(), &mut input, &mut out, &mut err),
        Err(fault) => {
            let status = status_without_words(&fault);
            report(status, &mut err);
            status
        }
    };
    ExitCode::from(status.code())
}
