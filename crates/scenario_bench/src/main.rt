//! Reads a scenario from standard input, for a clock outside, and tells how many steps it has.
//!
//! With two words, a number of steps and a seed, it also tells whether it is the scenario of that seed.
#![tactic(auto)]

use edge_io::{ReaderSource, read_all};
use lte_events::Events;
use scenario_file::{Scenario, generate, read};
use std::alloc::Global;
use std::env;
use std::io::{self, ErrorKind};

const LIMIT: usize = 16_777_216;

fn main(rt: HostRuntime) -> io::Result<()> {
    let mut words = env::args(&rt)?;
    let _name = words.next();
    let (steps, seed) = (words.next(), words.next());
    let scenario = scenario_in(&rt)?;
    let count = scenario.events.len();
    println!(rt; "steps {count}")?;
    if let (Some(steps), Some(seed)) = (steps, seed) {
        let (steps, seed) = (number(steps.as_str())?, number(seed.as_str())?);
        let same = is_generated(rt.alloc(), &scenario, steps, seed)?;
        println!(rt; "of the seed {same}")?;
    }
    Ok(())
}

// The scenario of the whole input.
fn scenario_in(rt: &HostRuntime) -> io::Result<Scenario> {
    let mut input = ReaderSource::new(rt.reader());
    let octets = read_all(rt.alloc(), &mut input, LIMIT).map_err(|_| io::Error::from(
        ErrorKind::Other,
    ))?;
    read(rt.alloc(), &octets).map_err(|_| io::Error::from(ErrorKind::InvalidData))
}

// Whether it is the scenario of so many steps of a seed.
fn is_generated(alloc: Global, scenario: &Scenario, steps: u32, seed: u32) -> io::Result<bool> {
    if !(1..=100_000).contains(&steps) {
        return Err(io::Error::from(ErrorKind::InvalidInput));
    }
    match generate(alloc, steps, seed) {
        Ok(generated) => Ok(
            generated.setup == scenario.setup && same(&generated.events, &scenario.events),
        ),
        Err(_) => Err(io::Error::from(ErrorKind::OutOfMemory)),
    }
}

// Whether these are the same events.
fn same(one: &Events, other: &Events) -> bool {
    if one.len() != other.len() {
        return false;
    }
    for number in 0..one.len() {
        if one.at(number) != other.at(number) {
            return false;
        }
    }
    true
}

fn number(word: &str) -> io::Result<u32> {
    word.parse::<u32>()
        .map_err(|_| io::Error::from(ErrorKind::InvalidInput))
}
