//! LTE access security after authentication: the program.
#![tactic(auto)]

mod app;
mod audit;
mod command;
mod drive;
mod fleet;
mod generated;
mod ladder;
mod programs;
mod reading;
mod roles;
mod scenario;
mod serve;
mod status;
mod telling;
mod text;
mod two;

use edge_io::{ChildPeers, CountingHost, LoopbackPort, Programs, ReaderSource, WriterSink};
use programs::programs_of;
use status::Status;
use std::process::ExitCode;
use std::rt::Env;
use std::{env, io};
use telling::tell_peers;

fn main(rt: HostRuntime) -> ExitCode {
    ExitCode::from(status_of(&rt).code())
}

fn status_of(rt: &HostRuntime) -> Status {
    let words = match words_of(rt) {
        Ok(words) => words,
        Err(e) if e.kind() == io::ErrorKind::OutOfMemory => return Status::Memory,
        Err(_) => return Status::BadWords,
    };
    match programs_of(rt) {
        Ok(programs) => run_with(rt, &words, programs),
        Err(_) => Status::Memory,
    }
}

// Runs the program with these words and these programs for its peers, and tells what it found of them.
fn run_with(rt: &HostRuntime, words: &[String], programs: Programs) -> Status {
    let alloc = rt.alloc();
    let mut peers = ChildPeers::new(CountingHost::new(rt), alloc, programs);
    let mut port = LoopbackPort::new(rt, WriterSink::new(io::writer(rt)));
    let mut input = ReaderSource::new(rt.reader());
    let mut out = WriterSink::new(io::writer(rt));
    let status = app::run(alloc, words, &mut input, &mut out, &mut peers, &mut port);
    tell_peers(rt, status, &peers);
    drop(peers);
    status
}

// The words after the program's name.
fn words_of(rt: &(impl Env + AllocGlobal)) -> io::Result<Vec<String>> {
    let mut words = Vec::new(rt.alloc());
    for word in env::args(rt)?.skip(1) {
        words.push(word)?;
    }
    Ok(words)
}
