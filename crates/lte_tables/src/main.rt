//! What the definitions number and name, a line for each: the program.
#![tactic(auto)]

mod answers;
mod inputs;
mod outcomes;
mod records;
mod scenario;
mod sends;
mod status;
mod tables;

use edge_io::WriterSink;
use std::io;
use std::process::ExitCode;

fn main(rt: HostRuntime) -> ExitCode {
    let mut out = WriterSink::new(io::writer(&rt));
    ExitCode::from(tables::write_tables(rt.alloc(), &mut out).code())
}
