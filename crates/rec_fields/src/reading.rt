// Fields of a record, read at a place.
ghost use Rattle.std.specs.Prelude.{◌≡◌, ℕ, ◌+◌, ◌<◌, ◌≤◌, length, OnOk};
ghost use Rattle.rec_fields.specs.Field.{of_size, number_in, station_at, ncc_at, from_one_at, algs_at, caps_at, cell_at, text_of};

use alg_choice::{Algs, Caps, Eea};
use annex_a_keys::{Cell, CellFault};
use rec_base::{RecFault, ShortText, u8_at, u16_at, u32_at};

// The greatest number of a station.
const GREATEST_STATION: u8 = 7;

// The greatest NCC, of three bits (TS 36.331 6.3.3).
const GREATEST_NCC: u8 = 7;

/// Whether a record has the size of its layout, in octets: fewer are `Short`, more are `Long`.
#[tactic(auto, unfolding(crate::specs::Field::of_size))]
pub fn sized(octets: &[u8], size: usize) -> Result<(), RecFault>
    ensures value { result ≡ of_size size octets.now }
    ensures exact { OnOk result (length octets.now ≡ size) }
{
    if octets.len() < size {
        return Err(RecFault::Short);
    }
    if octets.len() > size {
        return Err(RecFault::Long);
    }
    Ok(())
}

/// An octet from `low` to `high`; another is `BadField`.
#[tactic(auto, unfolding(crate::specs::Field::number_in))]
pub fn octet_in(octets: &[u8], place: u8, low: u8, high: u8) -> Result<u8, RecFault>
    requires { place < length octets.now }
    ensures { result ≡ number_in low high octets.now place 1 }
{
    let n = u8_at(octets, place as usize);
    if n < low || high < n {
        return Err(RecFault::BadField(place));
    }
    Ok(n)
}

/// A station, one octet from 0 to 7.
pub fn station_at(octets: &[u8], place: u8) -> Result<u8, RecFault>
    requires { place < length octets.now }
    ensures { result ≡ station_at octets.now place }
{
    octet_in(octets, place, 0, GREATEST_STATION)
}

/// NCC, one octet from 0 to 7 (TS 36.331 6.3.3).
pub fn ncc_at(octets: &[u8], place: u8) -> Result<u8, RecFault>
    requires { place < length octets.now }
    ensures { result ≡ ncc_at octets.now place }
{
    octet_in(octets, place, 0, GREATEST_NCC)
}

/// A number of four octets, at least 1; 0 is `BadField`.
#[tactic(auto, unfolding(crate::specs::Field::number_in))]
pub fn from_one_at(octets: &[u8], place: u8) -> Result<u32, RecFault>
    requires { place + 4 ≤ length octets.now }
    ensures { result ≡ from_one_at octets.now place }
{
    let n = u32_at(octets, place as usize);
    if n == 0 {
        return Err(RecFault::BadField(place));
    }
    Ok(n)
}

/// The chosen algorithms, one octet: 02 is EEA0 with 128-EIA2, 22 is 128-EEA2 with 128-EIA2; another
/// is `BadField` (TS 24.301 9.9.3.23).
#[tactic(auto, unfolding(crate::specs::Field::algs_at))]
pub fn algs_at(octets: &[u8], place: u8) -> Result<Algs, RecFault>
    requires { place < length octets.now }
    ensures { result ≡ algs_at octets.now place }
{
    match u8_at(octets, place as usize) {
        0x02 => Ok(Algs { eea: Eea::Eea0 }),
        0x22 => Ok(Algs { eea: Eea::Eea2 }),
        _ => Err(RecFault::BadField(place)),
    }
}

/// The capabilities of a phone, two octets (TS 24.301 9.9.3.36).
#[tactic(auto, unfolding(crate::specs::Field::caps_at))]
pub fn caps_at(octets: &[u8], place: u8) -> Caps
    requires { place + 2 ≤ length octets.now }
    ensures { result ≡ caps_at octets.now place }
{
    let place = place as usize;
    Caps {
        eea: u8_at(octets, place),
        eia: u8_at(octets, place + 1),
    }
}

/// A cell: PCI in two octets, 0 to 503, and EARFCN-DL in four, 0 to 262143. The first that is out of
/// range is `BadField`.
#[tactic(auto, unfolding(crate::specs::Field::cell_at, crate::specs::Field::number_in))]
pub fn cell_at(octets: &[u8], place: u8) -> Result<Cell, RecFault>
    requires within { place + 6 ≤ length octets.now }
    requires fits { place < 250 }
    ensures { result ≡ cell_at octets.now place }
{
    let pci = u16_at(octets, place as usize);
    let earfcn = u32_at(octets, place as usize + 2);
    match Cell::new(pci, earfcn) {
        Ok(cell) => Ok(cell),
        Err(CellFault::PciTooLarge) => Err(RecFault::BadField(place)),
        Err(CellFault::EarfcnWide) => Err(RecFault::BadField(place + 2)),
    }
}

/// The text after the kind, to the end of the record: 0 to 200 octets; more are `Long`.
#[tactic(auto, unfolding(crate::specs::Field::rest_at))]
pub fn text_of(octets: &[u8]) -> Result<ShortText, RecFault>
    requires { 0 < length octets.now }
    ensures { result ≡ text_of octets.now }
{
    if octets.len() > 201 {
        return Err(RecFault::Long);
    }
    let mut text = ShortText::new();
    text.append(&octets[1..]);
    Ok(text)
}
