ghost use Rattle.std.specs.Prelude.{◌≡◌, ℕ, List, [], ◌++◌};
ghost use Rattle.cmac_eia2.specs.Cmac.{cmac_of};
ghost use Rattle.cmac_eia2.specs.State.{fed};

use crate::state::State;
use aes_core::Aes128;
use std::marker::Model;

/// A CMAC in the making (SP 800-38B, 6.2): the text comes in pieces, and no piece is kept.
///
/// A contract sees it as the state in which a key and the text so far leave it, `fed key text`.
#[derive(Drop)]
pub struct Cmac {
    state: State,
}

impl Model for Cmac {
    ghost use Rattle.std.specs.Prelude.{◌≤◌};
    ghost use Rattle.cmac_eia2.specs.declared.state.State.{State};

    ghost Value = { State };

    ghost view = { λ c. c.state };

    ghost invariant = { λ c. c.state.filled ≤ 16 };
}

impl Cmac {
    /// Before the first piece, under the key of `aes`.
    pub fn start(aes: &Aes128) -> Cmac
        ensures { result ≡ fed aes.now [] }
    {
        Cmac {
            state: State::start(aes),
        }
    }

    /// Takes the next piece of the text, of any length.
    pub fn feed(&mut self, piece: &[u8])
        ensures { (key text : List ℕ) → self.old ≡ fed key text → self.new ≡ fed key (text ++ piece.now) }
    {
        self.state.absorb(piece);
    }

    /// The CMAC of all pieces joined, of 16 octets.
    pub fn end(self) -> [u8; 16]
        ensures { (key text : List ℕ) → self ≡ fed key text → result ≡ cmac_of key text }
    {
        self.state.end()
    }
}
