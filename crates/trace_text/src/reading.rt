// What a line of a question says.
ghost use Rattle.std.specs.Prelude.{◌≡◌, ◌<◌, map, IfOk, IfSome, OnErr};
ghost use Rattle.growth.specs.Growth.{WasRefused};
ghost use Rattle.text_lines.specs.Words.{words_of};
ghost use Rattle.trace_text.specs.Entry as by;

use crate::entries::{Due, Entry, Site};
use annex_a_keys::{Cell, Kasme, Kenb};
use std::alloc::{AllocError, Global};
use text_lines::{first_words, hex_octets, number};
use trace_keys::{Numbered, Sight, Where};
use trace_order::{Clue, Known};

// The line that a text spells. No line has more than five words.
pub(crate) fn read_entry(alloc: Global, line: &[u8]) -> Result<Option<Entry>, AllocError>
    ensures entry { IfOk result (λ entry. entry ≡ by.entry_of (words_of line.now)) }
    ensures refused { OnErr result WasRefused }
{
    let words = first_words(alloc, line, 6)?;
    Ok(entry_from(words.as_slice()))
}

// The line that these words are.
fn entry_from(words: &[&[u8]]) -> Option<Entry>
    ensures { result ≡ by.entry_of (map (λ word. word.now) words.now) }
{
    match words {
        [name] => of_one(name),
        [name, first] => of_two(name, first),
        [name, first, second] => of_three(name, first, second),
        [name, first, second, third] => of_four(name, first, second, third),
        [name, first, second, third, fourth] => of_five(name, first, second, third, fourth),
        _ => None,
    }
}

// The line of one word.
#[tactic(auto, unfolding(crate::specs::Entry::of_one))]
fn of_one(name: &[u8]) -> Option<Entry>
    ensures { result ≡ by.of_one name.now }
{
    if name == b"air".as_slice() {
        return Some(Entry::Air);
    }
    if name == b"moves".as_slice() {
        return Some(Entry::Moves);
    }
    None
}

// The line of two words.
#[tactic(auto, unfolding(crate::specs::Entry::of_two))]
fn of_two(name: &[u8], word: &[u8]) -> Option<Entry>
    ensures { result ≡ by.of_two name.now word.now }
{
    if name == b"kasme".as_slice() {
        return Some(Entry::Kasme(Kasme::of_octets(hex_octets(word)?)));
    }
    if name == b"bound".as_slice() {
        return Some(Entry::Bound(below(9, word)?));
    }
    if name == b"first".as_slice() {
        return first(word);
    }
    if name == b"took".as_slice() {
        return Some(any_at(Where::Took(place(word)?)));
    }
    if name == b"asked".as_slice() {
        return Some(any_at(Where::Asked(place(word)?)));
    }
    None
}

// The line of three words.
#[tactic(auto, unfolding(crate::specs::Entry::of_three))]
fn of_three(name: &[u8], first: &[u8], second: &[u8]) -> Option<Entry>
    ensures { result ≡ by.of_three name.now first.now second.now }
{
    if name == b"count".as_slice() {
        let kasme = place(first)?;
        let count = below(1 << 24, second)?;
        return Some(Entry::Count(Due { kasme, count }));
    }
    if name == b"covers".as_slice() {
        return Some(Entry::Covers(place_in(first, second)?));
    }
    if name == b"any".as_slice() {
        return Some(any_at(place_in(first, second)?));
    }
    if name == b"star".as_slice() {
        return Some(Entry::Clue(Clue::Star(cell(first, second)?)));
    }
    if name == b"setup".as_slice() {
        let station = place(first)?;
        return Some(seen_at(Where::Setup(station), kenb(second)?));
    }
    if name == b"change".as_slice() {
        let station = place(first)?;
        return Some(seen_at(Where::Change(station), kenb(second)?));
    }
    None
}

// The line of four words.
#[tactic(auto, unfolding(crate::specs::Entry::of_four))]
fn of_four(name: &[u8], first: &[u8], second: &[u8], third: &[u8]) -> Option<Entry>
    ensures { result ≡ by.of_four name.now first.now second.now third.now }
{
    if name == b"cell".as_slice() {
        let station = place(first)?;
        let cell = cell(second, third)?;
        return Some(Entry::Cell(Site { station, cell }));
    }
    if name == b"covers".as_slice() {
        return Some(Entry::Covers(over_in(first, second, third)?));
    }
    if name == b"any".as_slice() {
        return Some(any_at(over_in(first, second, third)?));
    }
    if name == b"key".as_slice() {
        return Some(Entry::Clue(Clue::Chain(known(first, second, third)?)));
    }
    if name == b"answer".as_slice() {
        let station = place(first)?;
        return Some(seen_at(Where::Answer(station), pair(second, third)?));
    }
    if name == b"request".as_slice() {
        let station = place(first)?;
        return Some(seen_at(Where::Request(station), pair(second, third)?));
    }
    None
}

// The line of five words: KeNB* over X2.
#[tactic(auto, unfolding(crate::specs::Entry::of_five))]
fn of_five(name: &[u8], first: &[u8], second: &[u8], third: &[u8], fourth: &[u8]) -> Option<Entry>
    ensures { result ≡ by.of_five name.now first.now second.now third.now fourth.now }
{
    let at = over_in(name, first, second)?;
    Some(seen_at(at, pair(third, fourth)?))
}

// What a tap has there, whatever its key is.
fn any_at(at: Where) -> Entry
    ensures { result ≡ by.any_at at }
{
    Entry::Seen(Sight::new(at, None))
}

// What a tap has there, with this key.
fn seen_at(at: Where, pair: Numbered) -> Entry
    ensures { result ≡ by.seen_at at pair }
{
    Entry::Seen(Sight::new(at, Some(pair)))
}

// A number below a limit.
fn below(limit: u32, word: &[u8]) -> Option<u32>
    ensures number { result ≡ by.below limit word.now }
    ensures least { IfSome result (λ n. n < limit) }
{
    let n = number(word)?;
    if n < limit { Some(n) } else { None }
}

// A station, or the place of a KASME.
fn place(word: &[u8]) -> Option<u8>
    ensures { result ≡ by.below 256 word.now }
{
    u8::try_from(below(256, word)?).ok()
}

// A key of a chain.
fn known(kasme: &[u8], count: &[u8], number: &[u8]) -> Option<Known>
    ensures { result ≡ by.known_of kasme.now count.now number.now }
{
    let kasme = place(kasme)?;
    let count = below(1 << 24, count)?;
    let number = below(256, number)?;
    Some(Known {
        kasme,
        count,
        number,
    })
}

// A cell by its PCI and EARFCN-DL.
fn cell(pci: &[u8], earfcn: &[u8]) -> Option<Cell>
    ensures { result ≡ by.cell_of pci.now earfcn.now }
{
    let pci = number(pci)?;
    let earfcn = number(earfcn)?;
    Cell::new(u16::try_from(pci).ok()?, earfcn).ok()
}

// A KeNB, which goes without an NCC.
fn kenb(key: &[u8]) -> Option<Numbered>
    ensures { result ≡ by.kenb_of key.now }
{
    Some(Numbered::new(Kenb::of_octets(hex_octets(key)?), 0))
}

// A key with its NCC.
fn pair(key: &[u8], ncc: &[u8]) -> Option<Numbered>
    ensures { result ≡ by.pair_of key.now ncc.now }
{
    let key = Kenb::of_octets(hex_octets(key)?);
    let ncc = u8::try_from(below(8, ncc)?).ok()?;
    Some(Numbered::new(key, ncc))
}

// The first NCC that a core sends.
#[tactic(auto, unfolding(crate::specs::Entry::first_of))]
fn first(word: &[u8]) -> Option<Entry>
    ensures { result ≡ by.first_of word.now }
{
    match number(word)? {
        1 => Some(Entry::First(false)),
        2 => Some(Entry::First(true)),
        _ => None,
    }
}

// A message to a station or from one.
#[tactic(auto, unfolding(crate::specs::Entry::at_station))]
fn at_station(name: &[u8], station: u8) -> Option<Where>
    ensures { result ≡ by.at_station name.now station }
{
    match name {
        _ if name == b"setup".as_slice() => Some(Where::Setup(station)),
        _ if name == b"change".as_slice() => Some(Where::Change(station)),
        _ if name == b"took".as_slice() => Some(Where::Took(station)),
        _ if name == b"answer".as_slice() => Some(Where::Answer(station)),
        _ if name == b"asked".as_slice() => Some(Where::Asked(station)),
        _ if name == b"request".as_slice() => Some(Where::Request(station)),
        _ => None,
    }
}

// The same by the word of the station.
fn place_in(name: &[u8], station: &[u8]) -> Option<Where>
    ensures { result ≡ by.place_in name.now station.now }
{
    at_station(name, place(station)?)
}

// A message over X2.
fn over_in(name: &[u8], from: &[u8], to: &[u8]) -> Option<Where>
    ensures { result ≡ by.over_in name.now from.now to.now }
{
    if name == b"over".as_slice() {
        let from = place(from)?;
        let to = place(to)?;
        return Some(Where::Over(from, to));
    }
    None
}
