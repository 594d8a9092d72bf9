ghost use Rattle.std.specs.Prelude.{◌≡◌, find};
ghost use Rattle.std.specs.Option.{option_map};
ghost use Rattle.item_lines.specs.Lines.{answers, differs, is_done, is_key, is_made_for, is_no_ue, is_text, line_of, made_for, note_in, opened_in, parts, phone_note, same_air, station_note};

use lte_events::{Answer, KeyNote, Line, Who};

/// The line of an event, and the name of the item by which it happened.
#[derive(Drop)]
pub struct Told {
    /// The name of the item.
    pub name: u32,
    /// The line.
    pub line: Line,
    /// Of a line of the phone the station and air address where it is connected behind the event; of a line of a station its number, and the
    /// number that it drew last, which is the air address of the key that it made, where it made one.
    pub at: Option<(u8, u32)>,
}

/// The first line of the item of this name.
pub fn line_of(name: u32, told: &[Told]) -> Option<&Told>
    ensures { option_map (λ t. t.now) result ≡ line_of name told.now }
{
    told.iter().find(|t| t.name == name)
}

/// Whether there is a line, and it is done.
pub fn is_done(t: Option<&Told>) -> bool
    ensures { result ≡ answers is_done (option_map (λ u. u.now) t.entry) }
{
    match t {
        Some(t) => says_done(&t.line.answer),
        None => false,
    }
}

fn says_done(answer: &Answer) -> bool
    ensures { result ≡ is_done answer.now }
{
    match answer {
        Answer::Done => true,
        _ => false,
    }
}

/// Whether there is a line, and its answer is NoUe.
pub fn is_no_ue(t: Option<&Told>) -> bool
    ensures { result ≡ answers is_no_ue (option_map (λ u. u.now) t.entry) }
{
    match t {
        Some(t) => says_no_ue(&t.line.answer),
        None => false,
    }
}

fn says_no_ue(answer: &Answer) -> bool
    ensures { result ≡ is_no_ue answer.now }
{
    match answer {
        Answer::NoUe => true,
        _ => false,
    }
}

/// Whether there is a line, and it tells that this text was opened.
pub fn opens(t: Option<&Told>, text: &[u8]) -> bool
    ensures { result ≡ is_text text.now (opened_in (option_map (λ u. u.now) t.entry)) }
{
    match t {
        Some(t) => opens_to(&t.line, text),
        None => false,
    }
}

/// Whether a line tells that this text was opened.
pub fn opens_to(line: &Line, text: &[u8]) -> bool
    ensures { result ≡ is_text text.now line.now.opened }
{
    match &line.opened {
        Some(opened) => opened.as_slice() == text,
        None => false,
    }
}

/// What a line tells of a key, where there is one.
pub fn note_in(t: Option<&Told>) -> Option<KeyNote>
    ensures { result ≡ note_in (option_map (λ u. u.now) t.entry) }
{
    match t {
        Some(t) => t.line.note,
        None => None,
    }
}

/// What a line tells of a key of the phone.
pub fn phone_note(told: &Told) -> Option<KeyNote>
    ensures { result ≡ phone_note told.now }
{
    match told.line.who {
        Who::Phone => told.line.note,
        _ => None,
    }
}

/// What a line tells of a key of a station.
pub fn station_note(told: &Told) -> Option<KeyNote>
    ensures { result ≡ station_note told.now }
{
    match told.line.who {
        Who::Station(_) => told.line.note,
        _ => None,
    }
}

/// Whether this key is told.
pub fn is_key(key: &[u8; 32], note: &Option<KeyNote>) -> bool
    ensures { result ≡ is_key key.now note.now }
{
    match note {
        Some(note) => note.key == *key,
        None => false,
    }
}

/// Whether both lines have one station and air address.
pub fn same_air(at: &Option<(u8, u32)>, other: &Option<(u8, u32)>) -> bool
    ensures { result ≡ same_air at.now other.now }
{
    match (at, other) {
        (Some((station, air)), Some((id, number))) => *station == *id && *air == *number,
        _ => false,
    }
}

/// Whether the phone takes a key here, at an air address for which a station told another one before.
pub fn parts(t: &Told, before: &[Told]) -> bool
    ensures { result ≡ parts before.now t.now }
{
    differs(&phone_note(t), &made_for(t, before))
}

// What the station told of the key that it made for the air address of this line.
fn made_for(t: &Told, before: &[Told]) -> Option<KeyNote>
    ensures { result ≡ made_for before.now t.now }
{
    note_in(find_made(t, before))
}

fn find_made<'a>(t: &Told, before: &'a [Told]) -> Option<&'a Told>
    ensures { option_map (λ u. u.now) result ≡ find (is_made_for t.now) before.now }
{
    before.iter().find(|u| is_made_for(t, u))
}

// Whether this line of a station tells a key for the air address of that one.
fn is_made_for(t: &Told, u: &Told) -> bool
    ensures { result ≡ is_made_for t.now u.now }
{
    station_note(u).is_some() && same_air(&u.at, &t.at)
}

// Whether both tell a key, and not the same.
fn differs(taken: &Option<KeyNote>, made: &Option<KeyNote>) -> bool
    ensures { result ≡ differs taken.now made.now }
{
    match (taken, made) {
        (Some(taken), Some(made)) => made.key != taken.key,
        _ => false,
    }
}
