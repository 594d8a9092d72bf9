ghost use Rattle.std.specs.Prelude.{◌≡◌, ◌+◌, ◌++◌, ◌↔◌, ◌<◌, [], length, take, drop, IfOk, OnOk, OnErr, IsErr, true};
ghost use Rattle.edge_io.specs.Peers.{new_peer};

use crate::failed::Failed;
use std::alloc::{AllocError, Global};
use std::marker::Model;

/// One peer over memory. It keeps the octets that it is sent, as far as it has room, and gives
/// those of its reply.
#[derive(Drop)]
pub(crate) struct MemPeer {
    sent: Vec<u8>,
    room: usize,
    reply: Vec<u8>,
    at: usize,
    stopped: bool,
}

impl Model for MemPeer {
    ghost use Rattle.std.specs.Prelude.{◌≤◌, length, drop, vec_capacity};
    ghost use Rattle.edge_io.specs.Peers.{PeerTold};

    ghost Value = { PeerTold };

    ghost view = { λ p. record {
      sent = p.sent.items;
      to_give = drop p.at p.reply.items;
      stopped = p.stopped;
      room = p.room;
    } };

    ghost invariant = { λ p. (length p.sent.items ≤ p.room)
        × (p.room ≤ vec_capacity p.sent)
        × (p.at ≤ length p.reply.items) };
}

impl MemPeer {
    pub(crate) fn new(alloc: Global, reply: Vec<u8>, room: usize) -> Result<MemPeer, AllocError>
        ensures { IfOk result (λ peer. peer ≡ new_peer room reply.items) }
    {
        Ok(MemPeer {
            sent: Vec::with_capacity(alloc, room)?,
            room,
            reply,
            at: 0,
            stopped: false,
        })
    }

    /// Keeps these octets, or fails where there is no room for all of them.
    pub(crate) fn send(&mut self, octets: &[u8]) -> Result<(), Failed>
        ensures fails { IsErr result ↔ (self.old.room < length self.old.sent + length octets.now) }
        ensures ok { OnOk result
            (self.new ≡ record self.old { sent = self.old.sent ++ octets.now }) }
        ensures err { OnErr result (self.new ≡ self.old) }
    {
        if octets.len() > self.room - self.sent.len() {
            return Err(Failed);
        }
        self.sent.extend_from_slice(octets).unwrap();
        Ok(())
    }

    /// Fills the buffer, or fails where fewer octets are left.
    pub(crate) fn receive(&mut self, buf: &mut [u8]) -> Result<(), Failed>
        ensures fails { IsErr result ↔ (length self.old.to_give < length buf.old) }
        ensures full { OnOk result (take (length buf.old) self.old.to_give ≡ buf.new) }
        ensures ok { OnOk result
            (self.new ≡ record self.old { to_give = drop (length buf.old) self.old.to_give }) }
        ensures err { OnErr result (self.new ≡ self.old) }
    {
        let count = buf.len();
        if count > self.reply.len() - self.at {
            return Err(Failed);
        }
        buf.copy_from_slice(&self.reply[self.at..self.at + count]);
        self.at += count;
        Ok(())
    }

    pub(crate) fn stop(&mut self)
        ensures { self.new ≡ record self.old { stopped = true } }
    {
        self.stopped = true;
    }

    /// The octets that the peer was sent.
    pub(crate) fn sent(&self) -> &[u8]
        ensures { result.now ≡ self.now.sent }
    {
        self.sent.as_slice()
    }
}
