// The fields of a line, read at their places.
ghost use Rattle.std.specs.Prelude.{◌≡◌, ◌≤◌, ◌<◌, length, map, IfOk, IfSome, OnOk};
ghost use Rattle.std.specs.Option.{ok_or};
ghost use Rattle.calc_text.specs.Field.{Reads, between, sized, word, is_any, key_in, number_in, nas_count_in, count_or_any_in, cell_in, direction_in, algorithms_in, algorithms_or_any_in, both_of, eea_of_digit, eia_in, eia_of_digit, is_last_any, last_eia, numbers_in, octets_in, few_octets_in};

use crate::fields::{Field, LineFault};
use crate::octet_texts::Octets;
use crate::requests::Algorithms;
use alg_suite::{Ciphering, Integrity};
use annex_a_keys::{Cell, CellFault};
use pdu_guard::Numbers;
use rec_base::Dir;
use std::alloc::Global;
use std::marker::Model;
use text_lines::{hex_octets, number};

// The words of a line behind its first. A contract sees their list.
#[derive(Drop)]
pub(crate) struct Fields<'a> {
    alloc: Global,
    words: &'a [&'a [u8]],
}

impl<'a> Model for Fields<'a> {
    ghost use Rattle.std.specs.Prelude.{ℕ, List, map};

    ghost Value = { List (List ℕ) };

    ghost view = { λ f. map (λ word. word.now) f.words.now };
}

impl<'a> Fields<'a> {
    pub(crate) fn new(alloc: Global, words: &'a [&'a [u8]]) -> Fields<'a>
        ensures { result ≡ map (λ word. word.now) words.now }
    {
        Fields { alloc, words }
    }

    // So many fields.
    #[tactic(auto, unfolding(crate::specs::Field::sized))]
    pub(crate) fn sized(&self, count: usize) -> Result<(), LineFault>
        ensures reads { Reads result (sized count self.now) }
        ensures exact { OnOk result (length self.now ≡ count) }
    {
        self.between(count, count)
    }

    // So many fields at the least and at the most.
    #[tactic(auto, unfolding(crate::specs::Field::between))]
    pub(crate) fn between(&self, least: usize, most: usize) -> Result<(), LineFault>
        ensures reads { Reads result (between least most self.now) }
        ensures least { OnOk result (least ≤ length self.now) }
        ensures most { OnOk result (length self.now ≤ most) }
    {
        let words = self.words;
        if least <= words.len() && words.len() <= most {
            Ok(())
        } else {
            Err(LineFault::Bad(Field::Fields))
        }
    }

    // The word of a field.
    #[tactic(auto, unfolding(crate::specs::Field::word))]
    fn at(&self, place: usize) -> &'a [u8]
        requires { place < length self.now }
        ensures { result.now ≡ word place self.now }
    {
        let words = self.words;
        words[place]
    }

    // A key of N octets.
    pub(crate) fn key<const N: usize>(
        &self,
        place: usize,
        field: Field,
    ) -> Result<[u8; N], LineFault>
        requires { place < length self.now }
        ensures { Reads result (key_in N field (word place self.now)) }
    {
        or_bad(hex_octets(self.at(place)), field)
    }

    // A number from the least to the greatest.
    #[tactic(auto, unfolding(crate::specs::Field::number_in))]
    pub(crate) fn number(
        &self,
        place: usize,
        least: u32,
        greatest: u32,
        field: Field,
    ) -> Result<u32, LineFault>
        requires { place < length self.now }
        ensures reads { Reads result (number_in least greatest field (word place self.now)) }
        ensures least { IfOk result (λ n. least ≤ n) }
        ensures greatest { IfOk result (λ n. n ≤ greatest) }
    {
        match number(self.at(place)) {
            Some(n) if least <= n && n <= greatest => Ok(n),
            _ => Err(LineFault::Bad(field)),
        }
    }

    // Whether `any` stands there.
    pub(crate) fn is_any(&self, place: usize) -> bool
        requires { place < length self.now }
        ensures { result ≡ is_any (word place self.now) }
    {
        self.at(place) == b"any".as_slice()
    }

    // A NAS COUNT.
    pub(crate) fn nas_count(&self, place: usize) -> Result<u32, LineFault>
        requires { place < length self.now }
        ensures reads { Reads result (nas_count_in (word place self.now)) }
        ensures fits { IfOk result (λ n. n < 0x1000000) }
    {
        self.number(place, 0, 0xff_ffff, Field::Count)
    }

    // A NAS COUNT, or none where it may be any.
    #[tactic(auto, unfolding(crate::specs::Field::count_or_any_in))]
    pub(crate) fn count_or_any(&self, place: usize) -> Result<Option<u32>, LineFault>
        requires { place < length self.now }
        ensures reads { Reads result (count_or_any_in (word place self.now)) }
        ensures fits { IfOk result (λ count. IfSome count (λ n. n < 0x1000000)) }
    {
        if self.is_any(place) {
            return Ok(None);
        }
        Ok(Some(self.nas_count(place)?))
    }

    // A cell by its PCI and EARFCN-DL.
    #[tactic(auto, unfolding(crate::specs::Field::cell_in))]
    pub(crate) fn cell(&self, pci: usize, earfcn: usize) -> Result<Cell, LineFault>
        requires pci { pci < length self.now }
        requires earfcn { earfcn < length self.now }
        ensures { Reads result (cell_in (word pci self.now) (word earfcn self.now)) }
    {
        let pci = self.number(pci, 0, 503, Field::Pci)?;
        let earfcn = self.number(earfcn, 0, 262_143, Field::Earfcn)?;
        match Cell::new(pci as u16, earfcn) {
            Ok(cell) => Ok(cell),
            Err(CellFault::PciTooLarge) => Err(LineFault::Bad(Field::Pci)),
            Err(CellFault::EarfcnWide) => Err(LineFault::Bad(Field::Earfcn)),
        }
    }

    // DIRECTION.
    #[tactic(auto, unfolding(crate::specs::Field::direction_in))]
    pub(crate) fn direction(&self, place: usize) -> Result<Dir, LineFault>
        requires { place < length self.now }
        ensures { Reads result (direction_in (word place self.now)) }
    {
        let word = self.at(place);
        if word == b"uplink".as_slice() {
            return Ok(Dir::Up);
        }
        if word == b"downlink".as_slice() {
            return Ok(Dir::Down);
        }
        Err(LineFault::Bad(Field::Direction))
    }

    // The algorithms: E, where integrity is 128-EIA2, or E/I.
    #[tactic(auto, unfolding(crate::specs::Field::algorithms_in))]
    pub(crate) fn algorithms(&self, place: usize) -> Result<Algorithms, LineFault>
        requires { place < length self.now }
        ensures { Reads result (algorithms_in (word place self.now)) }
    {
        match self.at(place) {
            [e] => both(eea_of_digit(*e), Some(Integrity::Eia2)),
            [e, slash, i] if *slash == b'/' => both(eea_of_digit(*e), eia_of_digit(*i)),
            _ => Err(LineFault::Bad(Field::Eea)),
        }
    }

    // The same, or none where they may be any.
    #[tactic(auto, unfolding(crate::specs::Field::algorithms_or_any_in))]
    pub(crate) fn algorithms_or_any(&self, place: usize) -> Result<Option<Algorithms>, LineFault>
        requires { place < length self.now }
        ensures { Reads result (algorithms_or_any_in (word place self.now)) }
    {
        if self.is_any(place) {
            return Ok(None);
        }
        Ok(Some(self.algorithms(place)?))
    }

    // An integrity algorithm.
    #[tactic(auto, unfolding(crate::specs::Field::eia_in))]
    pub(crate) fn eia(&self, place: usize) -> Result<Integrity, LineFault>
        requires { place < length self.now }
        ensures { Reads result (eia_in (word place self.now)) }
    {
        match self.at(place) {
            [digit] => or_bad(eia_of_digit(*digit), Field::Eia),
            _ => Err(LineFault::Bad(Field::Eia)),
        }
    }

    // Whether `any` stands in a last field.
    #[tactic(auto, unfolding(crate::specs::Field::is_last_any))]
    pub(crate) fn is_last_any(&self, place: usize) -> bool
        ensures { result ≡ is_last_any place self.now }
    {
        let words = self.words;
        place < words.len() && self.is_any(place)
    }

    // The integrity algorithm of a last field, or 128-EIA2 where there is none.
    #[tactic(auto, unfolding(crate::specs::Field::last_eia))]
    pub(crate) fn last_eia(&self, place: usize) -> Result<Integrity, LineFault>
        ensures { Reads result (last_eia place self.now) }
    {
        let words = self.words;
        if place >= words.len() {
            return Ok(Integrity::Eia2);
        }
        self.eia(place)
    }

    // The sequence numbers of a data radio bearer by their bits.
    #[tactic(auto, unfolding(crate::specs::Field::numbers_in))]
    pub(crate) fn numbers(&self, place: usize) -> Result<Numbers, LineFault>
        requires { place < length self.now }
        ensures { Reads result (numbers_in (word place self.now)) }
    {
        match number(self.at(place)) {
            Some(7) => Ok(Numbers::Seven),
            Some(12) => Ok(Numbers::Twelve),
            Some(15) => Ok(Numbers::Fifteen),
            Some(18) => Ok(Numbers::Eighteen),
            _ => Err(LineFault::Bad(Field::Bits)),
        }
    }

    // Octets of any number.
    pub(crate) fn octets(&self, place: usize, field: Field) -> Result<Octets, LineFault>
        requires { place < length self.now }
        ensures { Reads result (octets_in field (word place self.now)) }
    {
        Octets::read(self.alloc, field, self.at(place))
    }

    // So many octets at the most.
    pub(crate) fn few_octets(
        &self,
        place: usize,
        most: usize,
        field: Field,
    ) -> Result<Octets, LineFault>
        requires { place < length self.now }
        ensures reads { Reads result (few_octets_in most field (word place self.now)) }
        ensures few { IfOk result (λ octets. length octets ≤ most) }
    {
        Octets::read_few(self.alloc, most, field, self.at(place))
    }
}

// The value of a field, where there is one.
fn or_bad<T>(value: Option<T>, field: Field) -> Result<T, LineFault>
    ensures { Reads result (ok_or value field) }
{
    match value {
        Some(value) => Ok(value),
        None => Err(LineFault::Bad(field)),
    }
}

// Both algorithms, where there are both.
fn both(eea: Option<Ciphering>, eia: Option<Integrity>) -> Result<Algorithms, LineFault>
    ensures { Reads result (both_of eea eia) }
{
    match (eea, eia) {
        (Some(eea), Some(eia)) => Ok(Algorithms { eea, eia }),
        _ => Err(LineFault::Bad(Field::Eea)),
    }
}

// An encryption algorithm by the digit of its identity.
fn eea_of_digit(digit: u8) -> Option<Ciphering>
    ensures { result ≡ eea_of_digit digit }
{
    match digit {
        b'0' => Some(Ciphering::Eea0),
        b'1' => Some(Ciphering::Eea1),
        b'2' => Some(Ciphering::Eea2),
        b'3' => Some(Ciphering::Eea3),
        _ => None,
    }
}

// An integrity algorithm by the digit of its identity.
fn eia_of_digit(digit: u8) -> Option<Integrity>
    ensures { result ≡ eia_of_digit digit }
{
    match digit {
        b'0' => Some(Integrity::Eia0),
        b'1' => Some(Integrity::Eia1),
        b'2' => Some(Integrity::Eia2),
        b'3' => Some(Integrity::Eia3),
        _ => None,
    }
}
