// Lists of octets of a bounded length, which take no memory.
ghost use Rattle.std.specs.Prelude.{◌≡◌, ◌+◌, ◌≤◌, ◌<◌, ◌↔◌, [], ◌∷◌, ◌++◌, length, IsOk, OnOk, OnErr, IfErr};
ghost use Rattle.rec_base.specs.Lengths.{longest_record, longest_packet, longest_text};

use arrayvec::ArrayVec;
use std::marker::Model;

/// A list of at most `N` octets, which lies in the value itself. A contract sees it as the list.
#[derive(Clone, PartialEq, Eq, Drop)]
pub struct Bounded<const N: usize> {
    octets: ArrayVec<u8, N>,
}

/// The octets of a record as sent: at most 1,536.
pub type Octets = Bounded<1536>;

/// The text of a user packet: at most 1,500 octets.
pub type UserText = Bounded<1500>;

/// The text of a NAS or RRC record: at most 200 octets.
pub type ShortText = Bounded<200>;

impl<const N: usize> Model for Bounded<N> {
    ghost use Rattle.std.specs.Prelude.{ℕ, List, ◌≤◌, length};

    ghost Value = { List ℕ };

    ghost view = { λ b. b.octets.items };

    ghost invariant = { λ b. length b.octets.items ≤ N };

    ghost inverse = { λ items. record { octets = record { items = items } } };
}

impl<const N: usize> Bounded<N> {
    /// No octet.
    pub fn new() -> Self
        ensures { result ≡ [] }
    {
        Bounded {
            octets: ArrayVec::new(),
        }
    }

    /// How many octets the list holds at most.
    pub fn capacity() -> usize
        ensures { result ≡ N }
    {
        N
    }

    /// Appends an octet, or hands it back where the list has `N` octets.
    pub fn try_push(&mut self, item: u8) -> Result<(), u8>
        ensures variant { IsOk result ↔ (length self.old < N) }
        ensures ok { OnOk result (self.new ≡ self.old ++ item ∷ []) }
        ensures err { OnErr result (self.new ≡ self.old) }
        ensures handed_back { IfErr result (λ octet. octet ≡ item) }
    {
        if self.octets.is_full() {
            return Err(item);
        }
        self.octets.push(item);
        Ok(())
    }

    /// Appends octets, for which there is room.
    pub fn append(&mut self, octets: &[u8])
        requires { length self.old + length octets.now ≤ N }
        ensures { self.new ≡ self.old ++ octets.now }
    {
        let _ = self.octets.try_extend_from_slice(octets);
    }

    /// The octets, in order.
    pub fn as_slice(&self) -> &[u8]
        ensures value { result.now ≡ self.now }
        ensures within { length result.now ≤ N }
    {
        self.octets.as_slice()
    }
}

/// How many octets a record, a user packet and a short text have at most: 1,536, 1,500 and 200.
pub fn greatest_lengths() -> (usize, usize, usize)
    ensures record { result.0 ≡ longest_record }
    ensures packet { result.1 ≡ longest_packet }
    ensures text { result.2 ≡ longest_text }
{
    (
        Octets::capacity(),
        UserText::capacity(),
        ShortText::capacity(),
    )
}
