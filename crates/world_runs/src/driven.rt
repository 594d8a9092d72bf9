// The ordinary scenario against peers in memory.
ghost use Rattle.std.specs.Prelude.{◌≤◌, IfSome, length};

use crate::kept::{CORE, PHONE, REPORT, SCENARIO, STATION_0, STATION_1};
use crate::values::{same, same_at};
use edge_io::{MemPeers, MemSink};
use hub_drive::{DriveFault, drive};
use run_report::Ending;
use scenario_file::read;
use std::process::Abort;

// How it ended.
#[derive(Clone, Copy, Debug, PartialEq, Eq)]
enum End {
    Done,
    Memory,
    PeerFault,
    Other,
}

// Drives it, where one call of the peers may fail: how it ended, and the output; none where there was no memory to begin.
fn driven<R: Abort + AllocGlobal>(rt: &R, bad_call: Option<u64>) -> Option<(End, MemSink)> {
    let replies = replies_of(rt)?;
    let mut peers = MemPeers::new(rt.alloc(), replies, 2_048, listed(rt, bad_call)?).ok()?;
    let mut out = MemSink::new(rt.alloc(), 8_192, Vec::new(rt.alloc())).ok()?;
    let scenario = read(rt.alloc(), SCENARIO).ok()?;
    assert!(rt; scenario.setup.cells.len() > 0 && scenario.events.len() <= 200_000);
    let end = match drive(
        rt.alloc(),
        &scenario.setup,
        &scenario.events,
        &mut peers,
        &mut out,
    ) {
        Ok(Ending::Done) => End::Done,
        Err(DriveFault::Memory) => End::Memory,
        Err(DriveFault::PeerFault) => End::PeerFault,
        Ok(Ending::Chance) | Err(_) => End::Other,
    };
    Some((end, out))
}

// The replies of the four peers, in the order in which they are set up.
fn replies_of<R: AllocGlobal>(rt: &R) -> Option<Vec<Vec<u8>>>
    ensures { IfSome result (λ replies. length replies.items ≤ 256) }
{
    let mut replies = Vec::new(rt.alloc());
    replies.push(octets_of(rt, &PHONE)?).ok()?;
    replies.push(octets_of(rt, &CORE)?).ok()?;
    replies.push(octets_of(rt, &STATION_0)?).ok()?;
    replies.push(octets_of(rt, &STATION_1)?).ok()?;
    Some(replies)
}

fn octets_of<R: AllocGlobal>(rt: &R, texts: &[&str]) -> Option<Vec<u8>> {
    let mut octets = Vec::new(rt.alloc());
    for text in texts {
        octets
            .extend_from_slice(hex::decode(rt.alloc(), text).ok()?.as_slice())
            .ok()?;
    }
    Some(octets)
}

// The number of the one call that fails, if there is one.
fn listed<R: AllocGlobal>(rt: &R, number: Option<u64>) -> Option<Vec<u64>> {
    let mut numbers = Vec::new(rt.alloc());
    if let Some(number) = number {
        numbers.push(number).ok()?;
    }
    Some(numbers)
}

// So many lines of the report.
fn lines<R: AllocGlobal>(rt: &R, count: usize) -> Option<Vec<u8>> {
    let mut text = Vec::new(rt.alloc());
    for line in REPORT.iter().take(count) {
        text.extend_from_slice(line.as_bytes()).ok()?;
        text.push(b'\n').ok()?;
    }
    Some(text)
}

// Four starts, and three calls for each reply: four Setups, two inputs at step 0, and one at each later step.
const CALLS: u64 = 100;

#[test]
fn each_call_of_the_peers_fails_in_turn(rt: HostRuntime) {
    for number in 0..=CALLS {
        let (end, count) = match number {
            0..=15 => (End::PeerFault, 0),
            16..=18 => (End::PeerFault, 1),
            19..CALLS => (End::PeerFault, (number as usize - 4) / 3 - 4),
            _ => (End::Done, REPORT.len()),
        };
        let wanted = lines(&rt, count).expect(&rt, "memory");
        let (ended, out) = driven(&rt, Some(number)).expect(&rt, "memory");
        same_at(&rt, number, ended, end);
        same_at(&rt, number, out.octets(), wanted.as_slice());
    }
}

// Where memory is refused, as by `rt try --test --fail-alloc` and `bench/memory`, a prefix of the report is written, and else all of it.
#[test]
fn refused_memory_leaves_a_prefix(rt: HostRuntime) {
    let Some(report) = lines(&rt, REPORT.len()) else {
        return;
    };
    let Some((ended, out)) = driven(&rt, None) else {
        return;
    };
    match ended {
        End::Done => same(&rt, out.octets(), report.as_slice()),
        End::Memory => assert!(rt; report.as_slice().starts_with(out.octets())),
        End::PeerFault | End::Other => assert!(rt; false, "it ends so where memory is refused"),
    }
}
