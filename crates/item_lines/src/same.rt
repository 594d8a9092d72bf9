// Whether lines tell the same.
ghost use Rattle.std.specs.Prelude.{◌≡◌};
ghost use Rattle.std.specs.Option.{option_map};
ghost use Rattle.item_lines.specs.Same.{same_line, same_text, same_told, same_ways};

use crate::Told;
use lte_events::{KeyNote, Line};
use rec_base::UserText;

/// Whether two lines tell the same: actor, answer, text and way. Two that are not there do, too.
pub fn same_told(t: Option<&Told>, u: Option<&Told>) -> bool
    ensures { result ≡ same_told (option_map (λ v. v.now) t.entry) (option_map (λ v. v.now) u.entry) }
{
    match (t, u) {
        (None, None) => true,
        (Some(t), Some(u)) => same_line(&t.line, &u.line),
        _ => false,
    }
}

fn same_line(line: &Line, other: &Line) -> bool
    ensures { result ≡ same_line line.now other.now }
{
    line.who == other.who
        && line.answer.number() == other.answer.number()
        && same_text(&line.opened, &other.opened)
        && same_ways(&line.note, &other.note)
}

fn same_text(text: &Option<UserText>, other: &Option<UserText>) -> bool
    ensures { result ≡ same_text text.now other.now }
{
    match (text, other) {
        (None, None) => true,
        (Some(text), Some(other)) => text.as_slice() == other.as_slice(),
        _ => false,
    }
}

fn same_ways(note: &Option<KeyNote>, other: &Option<KeyNote>) -> bool
    ensures { result ≡ same_ways note.now other.now }
{
    match (note, other) {
        (None, None) => true,
        (Some(note), Some(other)) => note.way == other.way,
        _ => false,
    }
}
