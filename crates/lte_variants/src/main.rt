//! What becomes of a scenario with faults of its messages, a line for each: the program.
#![tactic(auto)]

mod choices;
mod kinds;
mod named;
mod reading;
mod report;
mod request;
mod scenario;
mod status;
mod variants;

use edge_io::{ReaderSource, WriterSink};
use status::Status;
use std::process::ExitCode;
use std::rt::Env;
use std::{env, io};

fn main(rt: HostRuntime) -> ExitCode {
    ExitCode::from(status_of(&rt).code())
}

fn status_of(rt: &HostRuntime) -> Status {
    let words = match words_of(rt) {
        Ok(words) => words,
        Err(e) if e.kind() == io::ErrorKind::OutOfMemory => return Status::Memory,
        Err(_) => return Status::BadWords,
    };
    let mut input = ReaderSource::new(rt.reader());
    let mut out = WriterSink::new(io::writer(rt));
    variants::run(rt.alloc(), &words, &mut input, &mut out)
}

// The words after the program's name.
fn words_of(rt: &(impl Env + AllocGlobal)) -> io::Result<Vec<String>> {
    let mut words = Vec::new(rt.alloc());
    for word in env::args(rt)?.skip(1) {
        words.push(word)?;
    }
    Ok(words)
}
