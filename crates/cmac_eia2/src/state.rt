// The state of a CMAC between two octets.
ghost use Rattle.std.specs.Prelude.{◌≡◌, ◌<◌, ◌≤◌, fold};
ghost use Rattle.cmac_eia2.specs.State.{absorbed, ended, started, with_room};

use crate::blocks::{add, double};
use aes_core::Aes128;

// What was chained from the blocks before the last one, to which the `filled` octets of the last
// one are added already.
#[derive(Drop)]
pub(crate) struct State {
    aes: Aes128,
    mixed: [u8; 16],
    pub(crate) filled: usize,
}

impl State {
    // Before the first octet.
    pub(crate) fn start(aes: &Aes128) -> State
        ensures { result ≡ started aes.now }
    {
        State {
            aes: *aes,
            mixed: [0; 16],
            filled: 0,
        }
    }

    // The octets of a piece, in order: those that fill the block begun, then whole blocks, then the rest.
    pub(crate) fn absorb(&mut self, piece: &[u8])
        requires { self.old.filled ≤ 16 }
        ensures value { self.new ≡ fold absorbed self.old piece.now }
        ensures within { self.new.filled ≤ 16 }
    {
        let (front, mut rest) = piece.split_at(piece.len().min(16 - self.filled));
        self.absorb_octets(front);
        while let Some((block, behind)) = rest.split_first_chunk::<16>() {
            self.absorb_block(block);
            rest = behind;
        }
        self.absorb_octets(rest);
    }

    // The octets of a block: behind a full block they are the next one.
    fn absorb_block(&mut self, block: &[u8; 16])
        requires { self.old.filled ≤ 16 }
        ensures value { self.new ≡ fold absorbed self.old block.now }
        ensures within { self.new.filled ≤ 16 }
    {
        if self.filled == 16 {
            self.mixed = add(self.aes.encrypt(self.mixed), *block);
        } else {
            self.absorb_octets(block);
        }
    }

    // One octet after another.
    fn absorb_octets(&mut self, octets: &[u8])
        requires { self.old.filled ≤ 16 }
        ensures value { self.new ≡ fold absorbed self.old octets.now }
        ensures within { self.new.filled ≤ 16 }
    {
        for octet in octets {
            self.absorb_octet(*octet);
        }
    }

    // One octet more.
    #[tactic(auto, unfolding(crate::specs::State::absorbed))]
    fn absorb_octet(&mut self, octet: u8)
        requires { self.old.filled ≤ 16 }
        ensures value { self.new ≡ absorbed self.old octet }
        ensures within { self.new.filled ≤ 16 }
    {
        self.make_room();
        let place = self.filled;
        self.mixed[place] ^= octet;
        self.filled = place + 1;
    }

    // Encrypts a full block. That waits for the octet behind it, since the last block takes a
    // subkey first.
    #[tactic(auto, unfolding(crate::specs::State::with_room))]
    fn make_room(&mut self)
        requires { self.old.filled ≤ 16 }
        ensures value { self.new ≡ with_room self.old }
        ensures room { self.new.filled < 16 }
    {
        if self.filled == 16 {
            self.mixed = self.aes.encrypt(self.mixed);
            self.filled = 0;
        }
    }

    // The CMAC of all octets.
    #[tactic(auto, unfolding(crate::specs::State::ended))]
    pub(crate) fn end(self) -> [u8; 16]
        requires { self.filled ≤ 16 }
        ensures { result ≡ ended self }
    {
        let subkey = double(self.aes.encrypt([0; 16]));
        if self.filled == 16 {
            return self.aes.encrypt(add(self.mixed, subkey));
        }
        let place = self.filled;
        let mut padded = self.mixed;
        padded[place] ^= 0x80;
        self.aes.encrypt(add(padded, double(subkey)))
    }
}
