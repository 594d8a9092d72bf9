use hmac_kdf::KdfInput;

/// The number of a row of the ladder, counted from 0.
#[derive(Clone, Copy, Debug, PartialEq, Eq)]
pub struct Row(pub u32);

/// Who can hold a key: the phone, the core, or a base station by its number.
#[derive(Clone, Copy)]
pub enum Holder {
    Phone,
    Core,
    /// A station, 0 to 7.
    Station(u8),
}

/// Where a row's octets come from.
#[derive(Clone, Copy, Debug, PartialEq, Eq)]
pub enum Origin {
    /// A KASME, which an authentication gave.
    Root,
    /// A derivation of TS 33.401 Annex A from the key of an earlier row.
    From(Row, KdfInput),
}

/// A key of the ladder: its origin, its 32 octets, and who holds it.
#[derive(Clone, Copy)]
pub struct LadderRow {
    /// Where the octets come from.
    pub origin: Origin,
    /// The 32 octets of the key.
    pub octets: [u8; 32],
    /// Whether the phone holds it.
    pub phone: bool,
    /// Whether the core holds it.
    pub core: bool,
    /// Whether the station of each number holds it.
    pub stations: [bool; 8],
}

impl LadderRow {
    ghost use Rattle.std.specs.Prelude.{◌≡◌};
    ghost use Rattle.key_terms.specs.Ladder.{unheld, held_by, IsHolder};

    // A row that nobody holds.
    pub(crate) fn unheld(origin: Origin, octets: [u8; 32]) -> LadderRow
        ensures { result ≡ unheld origin octets }
    {
        LadderRow {
            origin,
            octets,
            phone: false,
            core: false,
            stations: [false; 8],
        }
    }

    // Notes one more holder.
    pub(crate) fn hold(&mut self, who: Holder)
        requires { IsHolder who }
        ensures { self.new ≡ held_by who self.old }
    {
        match who {
            Holder::Phone => self.phone = true,
            Holder::Core => self.core = true,
            Holder::Station(number) => self.stations[number as usize] = true,
        }
    }
}
