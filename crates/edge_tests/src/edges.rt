ghost use Rattle.std.specs.Prelude.{◌≡◌, length, IfOk, IfSome};

use crate::values::{same, same_at};
use edge_io::{
    DropSink, Failed, MemPeers, MemPort, MemSink, MemSource, Peers, Port, ReadAll, ReaderSource,
    Role, Sink, SliceSource, Source, StartFault, WriterSink, read_all, read_fill, write_all,
};
use std::io::{self, ErrorKind, Read};
use std::test::Fail;

#[test]
fn listed_reads_fail(rt: HostRuntime) -> Result<(), Fail> {
    let failed = Err(Failed);
    let table = [
        (None, [Ok(2), Ok(2), Ok(1), Ok(0)]),
        (Some(0), [failed, Ok(2), Ok(2), Ok(1)]),
        (Some(1), [Ok(2), failed, Ok(2), Ok(1)]),
        (Some(3), [Ok(2), Ok(2), Ok(1), failed]),
        (Some(4), [Ok(2), Ok(2), Ok(1), Ok(0)]),
    ];
    for (failing, want) in table {
        let mut src = MemSource::new(b"abcde".to_vec(rt.alloc())?, listed(&rt, failing)?);
        let mut buf = [0u8; 2];
        for answer in want {
            same_at(&rt, failing, src.read(&mut buf), answer);
        }
    }
    Ok(())
}

#[test]
fn listed_writes_fail_and_so_does_a_full_sink(rt: HostRuntime) -> Result<(), Fail> {
    let failed = Err(Failed);
    let table = [
        (None, [Ok(2), Ok(2), Ok(1), failed], "abaca"),
        (Some(0), [failed, Ok(2), Ok(2), Ok(1)], "acada"),
        (Some(1), [Ok(2), failed, Ok(2), Ok(1)], "abada"),
    ];
    for (failing, want, octets) in table {
        let mut sink = MemSink::new(rt.alloc(), 5, listed(&rt, failing)?)?;
        for (piece, answer) in [b"ab", b"ac", b"ad", b"ae"].iter().zip(want.iter()) {
            same_at(&rt, failing, sink.write(piece.as_slice()), *answer);
        }
        same(&rt, sink.octets(), octets.as_bytes());
    }
    Ok(())
}

#[test]
fn read_all_ends_at_the_limit(rt: HostRuntime) -> Result<(), Fail> {
    let table = [
        (5, None, Ok("abcde")),
        (4, None, Err(ReadAll::TooLong)),
        (0, None, Err(ReadAll::TooLong)),
        (5, Some(0), Err(ReadAll::ReadFault)),
        (5, Some(1), Err(ReadAll::ReadFault)),
        (5, Some(2), Ok("abcde")),
    ];
    for (limit, failing, want) in table {
        let mut src = MemSource::new(b"abcde".to_vec(rt.alloc())?, listed(&rt, failing)?);
        let answer = read_all(rt.alloc(), &mut src, limit);
        match (answer, want) {
            (Ok(octets), Ok(text)) => same(&rt, octets.as_slice(), text.as_bytes()),
            (Err(fault), Err(wanted)) => same(&rt, fault, wanted),
            _ => panic!(rt; "limit {limit}, failing {failing:?}"),
        }
    }
    Ok(())
}

#[test]
fn a_fault_in_mid_stream_leaves_a_prefix(rt: HostRuntime) -> Result<(), Fail> {
    let table = [
        (6, None, Ok(()), "abcdef"),
        (4, None, Err(Failed), "abcd"),
        (4, Some(0), Err(Failed), ""),
        (4, Some(1), Err(Failed), "abcd"),
        (0, None, Err(Failed), ""),
    ];
    for (room, failing, want, octets) in table {
        let mut sink = MemSink::new(rt.alloc(), room, listed(&rt, failing)?)?;
        same_at(&rt, (room, failing), write_all(&mut sink, b"abcdef"), want);
        same(&rt, sink.octets(), octets.as_bytes());
    }
    Ok(())
}

#[test]
fn read_fill_stops_at_the_end(rt: HostRuntime) {
    let mut src = SliceSource::new(b"abcde");
    let mut buf = [0u8; 3];
    same(&rt, read_fill(&mut src, &mut buf), Ok(3));
    same(&rt, buf.as_slice(), b"abc".as_slice());
    same(&rt, read_fill(&mut src, &mut buf), Ok(2));
    same(&rt, buf.as_slice(), b"dec".as_slice());
    same(&rt, read_fill(&mut src, &mut buf), Ok(0));
}

#[test]
fn a_drop_sink_takes_all(rt: HostRuntime) {
    let mut sink = DropSink::new();
    same(&rt, sink.write(b"abc"), Ok(3));
    same(&rt, write_all(&mut sink, b"abcdef"), Ok(()));
}

#[test]
fn a_port_is_read_and_written(rt: HostRuntime) -> Result<(), Fail> {
    let source = MemSource::new(b"ping".to_vec(rt.alloc())?, Vec::new(rt.alloc()));
    let sink = MemSink::new(rt.alloc(), 4, Vec::new(rt.alloc()))?;
    let mut port = MemPort::new(source, sink);
    let mut buf = [0u8; 8];
    same(&rt, port.open(), Ok(()));
    same(&rt, read_fill(&mut port, &mut buf), Ok(4));
    same(&rt, write_all(&mut port, b"pong"), Ok(()));
    same(&rt, port.sink().octets(), b"pong".as_slice());
    Ok(())
}

#[test]
fn listed_peer_calls_fail(rt: HostRuntime) -> Result<(), Fail> {
    let table = [
        (3, None, Ok(()), "co"),
        (3, Some(0), Err(Failed), ".."),
        (3, Some(1), Err(Failed), ".."),
        (3, Some(2), Err(Failed), ".."),
        (3, Some(3), Ok(()), "co"),
        (2, None, Err(Failed), ".."),
    ];
    for (room, failing, want, got) in table {
        let mut peers = one_peer(&rt, room, failing)?;
        let mut buf = [b'.'; 2];
        same_at(&rt, (room, failing), exchange(&mut peers, &mut buf), want);
        same(&rt, buf.as_slice(), got.as_bytes());
    }
    Ok(())
}

// One peer from its start to its stop, or to the first fault.
fn exchange<P: Peers>(peers: &mut P, buf: &mut [u8]) -> Result<(), Failed> {
    let Ok(peer) = peers.start(Role::Core) else {
        return Err(Failed);
    };
    peers.send(peer, b"abc")?;
    peers.receive(peer, buf)?;
    peers.stop(peer);
    Ok(())
}

#[test]
fn a_peer_keeps_what_it_was_sent(rt: HostRuntime) -> Result<(), Fail> {
    let mut peers = one_peer(&rt, 3, None)?;
    same(&rt, peers.start(Role::Phone), Ok(0));
    same_at(
        &rt,
        "past the last peer",
        peers.start(Role::Station(1)),
        Err(StartFault::Failed),
    );
    same(&rt, peers.send(0, b"ab"), Ok(()));
    same(&rt, peers.sent(0), b"ab".as_slice());
    Ok(())
}

#[test]
fn adapters_hand_on_what_they_get(rt: HostRuntime) -> Result<(), Fail> {
    let mut src = ReaderSource::new(b"abc".as_slice());
    let octets = read_all(rt.alloc(), &mut src, 3)?;
    same(&rt, octets.as_slice(), b"abc".as_slice());
    let mut sink = WriterSink::new(Vec::new(rt.alloc()));
    same(&rt, write_all(&mut sink, b"abc"), Ok(()));
    same(&rt, sink.writer.as_slice(), b"abc".as_slice());
    Ok(())
}

// A reader whose first call is interrupted, and whose next call gives an octet.
#[derive(Drop)]
struct Interrupted {
    calls: u8,
}

impl Read for Interrupted {
    fn read(&mut self, buf: &mut [u8]) -> io::Result<usize> {
        self.calls = self.calls.saturating_add(1);
        if self.calls == 1 {
            return Err(ErrorKind::Interrupted.into());
        }
        if self.calls > 2 || buf.is_empty() {
            return Ok(0);
        }
        buf[0] = b'a';
        Ok(1)
    }
}

#[test]
fn an_interrupted_read_is_made_again(rt: HostRuntime) -> Result<(), Fail> {
    let mut src = ReaderSource::new(Interrupted { calls: 0 });
    let octets = read_all(rt.alloc(), &mut src, 9)?;
    same(&rt, octets.as_slice(), b"a".as_slice());
    Ok(())
}

fn listed(rt: &impl AllocGlobal, number: Option<u64>) -> Result<Vec<u64>, Fail> {
    let mut numbers = Vec::new(rt.alloc());
    if let Some(number) = number {
        numbers.push(number)?;
    }
    Ok(numbers)
}

fn one_peer(rt: &impl AllocGlobal, room: usize, failing: Option<u64>) -> Result<MemPeers, Fail>
    ensures { IfOk result (λ peers.
        IfSome (⟦<MemPeers as Peers>⟧.told peers) (λ t. length t.peers ≡ 1)) }
{
    let mut replies = Vec::new(rt.alloc());
    replies.push(b"core".to_vec(rt.alloc())?)?;
    Ok(MemPeers::new(rt.alloc(), replies, room, listed(rt, failing)?)?)
}
