ghost use Rattle.std.specs.Prelude.{◌≡◌, map, IfOk, OnErr};
ghost use Rattle.growth.specs.Growth.{WasRefused};
ghost use Rattle.text_lines.specs.Words.{words_of};
ghost use Rattle.ladder_text.specs.Text.{row_of, count_of, cell_of, type_of, takes, identity_of, line_of_two, line_of_three, line_of_four, line_of};

use crate::key::LineKey;
use annex_a_keys::{AlgType, Cell};
use key_terms::Row;
use std::alloc::{AllocError, Global};
use text_lines::{first_words, hex_octets, number};

/// A line of a ladder text. Rows are named by the number that their line printed.
#[derive(Clone, Copy)]
pub enum LadderLine {
    /// `root`: a KASME of 32 octets.
    Root([u8; 32]),
    /// `kenb`: the KeNB (TS 33.401 A.3) of a root at an uplink NAS COUNT.
    Kenb { root: Row, count: u32 },
    /// `nh`: the NH (TS 33.401 A.4) of a root with a row as its SYNC-input.
    Nh { root: Row, sync: Row },
    /// `star`: the KeNB* (TS 33.401 A.5) of a row for a cell.
    Star { key: Row, cell: Cell },
    /// `alg`: the algorithm key (TS 33.401 A.7) of a row for an algorithm type and identity.
    Alg { key: Row, kind: AlgType, id: u8 },
}

impl LadderLine {
    ghost use Rattle.ladder_text.specs.Report.{kind_of};
    ghost use Rattle.ladder_text.specs.Key.{line_key};

    // The key by which the line is found.
    pub(crate) fn key(&self) -> LineKey
        ensures { result ≡ line_key self.now }
    {
        match *self {
            LadderLine::Root(octets) => LineKey::Root(octets),
            LadderLine::Kenb { root, count } => LineKey::Kenb(root.0, count),
            LadderLine::Nh { root, sync } => LineKey::Nh(root.0, sync.0),
            LadderLine::Star { key, cell } => LineKey::Star(key.0, cell.pci(), cell.earfcn()),
            LadderLine::Alg { key, kind, id } => LineKey::Alg(key.0, kind.distinguisher(), id),
        }
    }

    // The word for the kind of the line's row.
    pub(crate) fn kind(&self) -> &'static str
        ensures { result.now ≡ kind_of self.now }
    {
        match self {
            LadderLine::Root(_) => "root",
            LadderLine::Kenb { .. } => "kenb",
            LadderLine::Nh { .. } => "nh",
            LadderLine::Star { .. } => "star",
            LadderLine::Alg { .. } => "alg",
        }
    }

    // The line that a text spells, whatever rows there are. No line has more than four words.
    pub(crate) fn read(alloc: Global, line: &[u8]) -> Result<Option<LadderLine>, AllocError>
        ensures line { IfOk result (λ read. read ≡ line_of (words_of line.now)) }
        ensures refused { OnErr result WasRefused }
    {
        let words = first_words(alloc, line, 5)?;
        Ok(line_from(words.as_slice()))
    }
}

// The line that these words are.
fn line_from(words: &[&[u8]]) -> Option<LadderLine>
    ensures { result ≡ line_of (map (λ word. word.now) words.now) }
{
    match words {
        [name, key] => line_of_two(name, key),
        [name, from, word] => line_of_three(name, from, word),
        [name, from, first, second] => line_of_four(name, from, first, second),
        _ => None,
    }
}

// The line of two words: a root.
#[tactic(auto, unfolding(crate::specs::Text::line_of_two))]
fn line_of_two(name: &[u8], word: &[u8]) -> Option<LadderLine>
    ensures { result ≡ line_of_two name.now word.now }
{
    if name == b"root".as_slice() {
        return Some(LadderLine::Root(hex_octets(word)?));
    }
    None
}

// The line of three words: a KeNB or an NH.
#[tactic(auto, unfolding(crate::specs::Text::line_of_three))]
fn line_of_three(name: &[u8], from: &[u8], word: &[u8]) -> Option<LadderLine>
    ensures { result ≡ line_of_three name.now from.now word.now }
{
    if name == b"kenb".as_slice() {
        let root = row(from)?;
        let count = nas_count(word)?;
        return Some(LadderLine::Kenb { root, count });
    }
    if name == b"nh".as_slice() {
        let root = row(from)?;
        let sync = row(word)?;
        return Some(LadderLine::Nh { root, sync });
    }
    None
}

// The line of four words: a KeNB* or an algorithm key.
#[tactic(auto, unfolding(crate::specs::Text::line_of_four))]
fn line_of_four(name: &[u8], from: &[u8], first: &[u8], second: &[u8]) -> Option<LadderLine>
    ensures { result ≡ line_of_four name.now from.now first.now second.now }
{
    if name == b"star".as_slice() {
        let key = row(from)?;
        let cell = cell(first, second)?;
        return Some(LadderLine::Star { key, cell });
    }
    if name == b"alg".as_slice() {
        let key = row(from)?;
        let kind = alg_type(first)?;
        let id = identity(kind, second)?;
        return Some(LadderLine::Alg { key, kind, id });
    }
    None
}

// The row that a word names.
fn row(word: &[u8]) -> Option<Row>
    ensures { result ≡ row_of word.now }
{
    Some(Row(number(word)?))
}

// An uplink NAS COUNT.
fn nas_count(word: &[u8]) -> Option<u32>
    ensures { result ≡ count_of word.now }
{
    let count = number(word)?;
    if count < 1 << 24 { Some(count) } else { None }
}

// A cell by its PCI and EARFCN-DL.
fn cell(pci: &[u8], earfcn: &[u8]) -> Option<Cell>
    ensures { result ≡ cell_of pci.now earfcn.now }
{
    let pci = number(pci)?;
    let earfcn = number(earfcn)?;
    Cell::new(u16::try_from(pci).ok()?, earfcn).ok()
}

// An algorithm type, by its distinguisher.
fn alg_type(word: &[u8]) -> Option<AlgType>
    ensures { result ≡ type_of word.now }
{
    match number(word)? {
        1 => Some(AlgType::NasEnc),
        2 => Some(AlgType::NasInt),
        3 => Some(AlgType::RrcEnc),
        4 => Some(AlgType::RrcInt),
        5 => Some(AlgType::UpEnc),
        _ => None,
    }
}

// The identity of an algorithm of a type.
fn identity(kind: AlgType, word: &[u8]) -> Option<u8>
    ensures { result ≡ identity_of kind word.now }
{
    let id = number(word)?;
    if takes(kind, id) {
        u8::try_from(id).ok()
    } else {
        None
    }
}

// Whether an identity is that of an algorithm of a type.
fn takes(kind: AlgType, id: u32) -> bool
    ensures { result ≡ takes kind id }
{
    match kind {
        AlgType::NasInt | AlgType::RrcInt => id == 2,
        AlgType::NasEnc | AlgType::RrcEnc | AlgType::UpEnc => id == 0 || id == 2,
    }
}
