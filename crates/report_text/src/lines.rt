ghost use Rattle.growth.specs.Growth.{WasRefused};
ghost use Rattle.std.specs.Prelude.{◌≡◌, ◌++◌, IfOk, OnErr, OnOk, codes};
ghost use Rattle.std.specs.Fmt.{decimal};
ghost use Rattle.lte_events.specs.Answer.{name_of};
ghost use Rattle.report_text.specs.Line.{who_text, class_name, sent_text, opened_text, way_name, key_note_text, note_text, alarm_text, line_text};

use crate::TextMemory;
use crate::appended::{add, add_decimal, add_number, add_octets};
use crate::details::add_details;
use lte_events::{Class, KeyNote, Line, Who};
use rec_base::{UserText, Way};
use std::alloc::{AllocError, Global};

/// The line of a report for an event, in ASCII, with the LF that ends it. The one error is want of memory.
pub fn line(alloc: Global, line: &Line) -> Result<Vec<u8>, TextMemory>
    ensures text { IfOk result (λ text. text.items ≡ line_text line.now) }
    ensures refused { OnErr result WasRefused }
{
    // Most lines have less.
    let mut text = growth::with_capacity(alloc, 128)?;
    add_line(alloc, &mut text, line)?;
    Ok(text)
}

#[tactic(auto, unfolding(crate::specs::Line::line_text))]
fn add_line(alloc: Global, text: &mut Vec<u8>, line: &Line) -> Result<(), AllocError>
    ensures added { OnOk result (text.new.items ≡ text.old.items ++ line_text line.now) }
    ensures refused { OnErr result WasRefused }
{
    add_head(text, line)?;
    add_details(alloc, text, &line.answer)?;
    add_sent(text, line.sent)?;
    add_opened(alloc, text, &line.opened)?;
    add_note(alloc, text, &line.note)?;
    add_end(text, line.alarm)
}

// Step, who and answer.
fn add_head(text: &mut Vec<u8>, line: &Line) -> Result<(), AllocError>
    ensures added { OnOk result (text.new.items ≡ text.old.items
        ++ (decimal line.now.step ++ (codes " " ++ (who_text line.now.who ++ (codes " " ++ name_of line.now.answer))))) }
    ensures refused { OnErr result WasRefused }
{
    add_decimal(text, line.step)?;
    add(text, " ")?;
    add_who(text, line.who)?;
    add(text, " ")?;
    add(text, line.answer.name())
}

// Who acted.
fn add_who(text: &mut Vec<u8>, who: Who) -> Result<(), AllocError>
    ensures added { OnOk result (text.new.items ≡ text.old.items ++ who_text who) }
    ensures refused { OnErr result WasRefused }
{
    match who {
        Who::Both => add(text, "both"),
        Who::World => add(text, "world"),
        Who::Phone => add(text, "phone"),
        Who::Core => add(text, "core"),
        Who::Station(id) => add_number(text, "station ", id.into()),
    }
}

// The record sent.
fn add_sent(text: &mut Vec<u8>, sent: Option<(u32, Class)>) -> Result<(), AllocError>
    ensures added { OnOk result (text.new.items ≡ text.old.items ++ sent_text sent) }
    ensures refused { OnErr result WasRefused }
{
    match sent {
        None => Ok(()),
        Some((record, class)) => {
            add_number(text, " sent=", record)?;
            add(text, ":")?;
            add(text, class_name(class))
        }
    }
}

fn class_name(class: Class) -> &'static str
    ensures { result.now ≡ class_name class }
{
    match class {
        Class::Nas => "nas",
        Class::Air => "air",
        Class::S1 => "s1",
        Class::X2 => "x2",
    }
}

// The text that was opened, which may be empty.
fn add_opened(
    alloc: Global,
    text: &mut Vec<u8>,
    opened: &Option<UserText>,
) -> Result<(), AllocError>
    ensures added { OnOk result (text.new.items ≡ text.old.items ++ opened_text opened.now) }
    ensures refused { OnErr result WasRefused }
{
    match opened {
        None => Ok(()),
        Some(octets) => add_octets(alloc, text, " text=", octets.as_slice()),
    }
}

// What is told of a key.
fn add_note(alloc: Global, text: &mut Vec<u8>, note: &Option<KeyNote>) -> Result<(), AllocError>
    ensures added { OnOk result (text.new.items ≡ text.old.items ++ note_text note.now) }
    ensures refused { OnErr result WasRefused }
{
    match note {
        None => Ok(()),
        Some(note) => add_key_note(alloc, text, note),
    }
}

#[tactic(auto, unfolding(crate::specs::Line::key_note_text))]
fn add_key_note(alloc: Global, text: &mut Vec<u8>, note: &KeyNote) -> Result<(), AllocError>
    ensures added { OnOk result (text.new.items ≡ text.old.items ++ key_note_text note.now) }
    ensures refused { OnErr result WasRefused }
{
    add_number(text, " ncc=", note.ncc.into())?;
    add(text, " way=")?;
    add(text, way_name(note.way))?;
    add_octets(alloc, text, " key=", &note.key)
}

fn way_name(way: Way) -> &'static str
    ensures { result.now ≡ way_name way }
{
    match way {
        Way::Initial => "initial",
        Way::Horizontal => "horizontal",
        Way::Vertical => "vertical",
        Way::Given => "given",
        Way::Completed => "completed",
        Way::Chained => "chained",
    }
}

// The alarm, and the LF.
fn add_end(text: &mut Vec<u8>, alarm: bool) -> Result<(), AllocError>
    ensures added { OnOk result (text.new.items ≡ text.old.items ++ (alarm_text alarm ++ codes "\n")) }
    ensures refused { OnErr result WasRefused }
{
    if alarm {
        add(text, " alarm\n")
    } else {
        add(text, "\n")
    }
}
