// The lines of a scenario, of its messages and of its variants.
ghost use Rattle.growth.specs.Growth.{WasRefused};
ghost use Rattle.std.specs.Prelude.{◌≡◌, ◌+◌, ◌<◌, ◌≤◌, ◌^◌, ℕ, List, true, length, if◌then◌else◌, IfOk, IsTrue, OnErr};
ghost use Rattle.std.specs.List.{flat_map};
ghost use Rattle.std.specs.String.{string_bytes};
ghost use Rattle.edge_io.specs.Lines.{are_lines};
ghost use Rattle.item_faults.specs.Entries.{most_steps};
ghost use Rattle.run_report.specs.Written.{WritesText};
ghost use Rattle.variant_text.specs.Lines.{trouble_line};
ghost use Rattle.lte_variants.specs.Report.{asked, is_variant, line_at, line_of, message_at, messages_asked, messages_told, report_of, report_with, scenario_told, scenario_with, told_of, variant_lines, variants};
ghost use Rattle.lte_variants.specs.Request.{IsRequest};
ghost use Rattle.lte_variants.specs.Sizes.{FewEnough};

use crate::choices::Shared;
use crate::kinds::faults_with;
use crate::named::those;
use crate::request::Request;
use edge_io::Sink;
use item_faults::{Fault, Message, Step, delivered, messages_of};
use item_outcomes::Trouble;
use run_report::{Unwritten, write_lines, write_text};
use std::alloc::{AllocError, Global};
use variant_runs::Study;
use variant_text::{end_line, message_line, scenario_line, trouble_line, variant_line};

/// Writes what is asked of a scenario.
pub(crate) fn write_report<W: Sink>(
    alloc: Global,
    request: &Request,
    study: &Study,
    out: &mut W,
) -> Result<(), Unwritten>
    requires out_ready { IsTrue (W.told out.old).ready }
    requires request { IsRequest request.now }
    requires few { length study.now.steps ≤ most_steps }
    ensures { WritesText (report_of request.now study.now) result (W.told out.old) (W.told out.new) }
{
    match messages_asked(alloc, request, study.steps()) {
        Ok(messages) => write_parts(alloc, request, study, messages.as_slice(), out),
        Err(_) => Err(Unwritten::Memory),
    }
}

// The messages that faults happen to.
fn messages_asked(alloc: Global, request: &Request, steps: &[Step]) -> Result<Vec<u32>, AllocError>
    requires request { IsRequest request.now }
    requires few { length steps.now ≤ most_steps }
    ensures messages { IfOk result (λ list. list.items ≡ messages_asked request.now steps.now) }
    ensures few { IfOk result (λ list. FewEnough request.now.faults (length list.items)) }
    ensures refused { OnErr result WasRefused }
{
    let all = messages_of(alloc, request.packets, steps)?;
    match &request.named {
        Some(named) => those(alloc, named.steps(), all.as_slice()),
        None => Ok(all),
    }
}

// The same, by its messages.
fn write_parts<W: Sink>(
    alloc: Global,
    request: &Request,
    study: &Study,
    messages: &[u32],
    out: &mut W,
) -> Result<(), Unwritten>
    requires out_ready { IsTrue (W.told out.old).ready }
    requires request { IsRequest request.now }
    requires few { length study.now.steps ≤ most_steps }
    requires fewer { FewEnough request.now.faults (length messages.now) }
    ensures { WritesText (report_with request.now study.now messages.now) result (W.told out.old) (W.told out.new) }
{
    write_messages(alloc, study, messages, out)?;
    write_variants(alloc, request, study, messages, out)
}

// Writes the lines of the scenario, and one for each of these messages.
fn write_messages<W: Sink>(
    alloc: Global,
    study: &Study,
    messages: &[u32],
    out: &mut W,
) -> Result<(), Unwritten>
    requires out_ready { IsTrue (W.told out.old).ready }
    requires few { length study.now.steps ≤ most_steps }
    requires fewer { length messages.now ≤ most_steps }
    ensures { WritesText (messages_told study.now messages.now) result (W.told out.old) (W.told out.new) }
{
    write_scenario(alloc, study, messages.len() as u32, out)?;
    write_each(alloc, study.steps(), messages, out)
}

// Writes the line of the scenario, with so many messages, and what is wrong in it without any fault.
fn write_scenario<W: Sink>(
    alloc: Global,
    study: &Study,
    messages: u32,
    out: &mut W,
) -> Result<(), Unwritten>
    requires out_ready { IsTrue (W.told out.old).ready }
    requires few { length study.now.steps ≤ most_steps }
    ensures { WritesText (scenario_told study.now messages) result (W.told out.old) (W.told out.new) }
{
    match study.troubles(alloc) {
        Ok(troubles) => write_itself(alloc, study, messages, troubles.as_slice(), out),
        Err(_) => Err(Unwritten::Memory),
    }
}

// The same, by what is wrong.
fn write_itself<W: Sink>(
    alloc: Global,
    study: &Study,
    messages: u32,
    troubles: &[Trouble],
    out: &mut W,
) -> Result<(), Unwritten>
    requires out_ready { IsTrue (W.told out.old).ready }
    requires few { length study.now.steps ≤ most_steps }
    ensures { WritesText (scenario_with study.now messages troubles.now) result (W.told out.old) (W.told out.new) }
{
    let steps = study.steps().len() as u32;
    let line = scenario_line(alloc, steps, messages, study.serving(), study.heals());
    write_string(line, out)?;
    write_troubles(alloc, steps, troubles, out)
}

// Writes a line for each of these, of a scenario of so many steps.
fn write_troubles<W: Sink>(
    alloc: Global,
    steps: u32,
    troubles: &[Trouble],
    out: &mut W,
) -> Result<(), Unwritten>
    requires { IsTrue (W.told out.old).ready }
    ensures { WritesText (flat_map (trouble_line steps) troubles.now) result (W.told out.old) (W.told out.new) }
{
    for trouble in troubles {
        write_string(trouble_line(alloc, steps, *trouble), out)?;
    }
    Ok(())
}

// Writes a line for each of these messages.
fn write_each<W: Sink>(
    alloc: Global,
    steps: &[Step],
    messages: &[u32],
    out: &mut W,
) -> Result<(), Unwritten>
    requires { IsTrue (W.told out.old).ready }
    ensures { WritesText (flat_map (line_at steps.now) messages.now) result (W.told out.old) (W.told out.new) }
{
    for message in messages {
        write_message(alloc, steps, *message, out)?;
    }
    Ok(())
}

// Writes the line of a message.
fn write_message<W: Sink>(
    alloc: Global,
    steps: &[Step],
    number: u32,
    out: &mut W,
) -> Result<(), Unwritten>
    requires { IsTrue (W.told out.old).ready }
    ensures { WritesText (line_at steps.now number) result (W.told out.old) (W.told out.new) }
{
    match message_at(steps, number) {
        Some(message) => write_string(message_line(alloc, number, message), out),
        None => Ok(()),
    }
}

// The message that the step of this number delivers.
fn message_at(steps: &[Step], number: u32) -> Option<Message>
    ensures { result ≡ message_at steps.now number }
{
    match steps.get(number as usize) {
        Some(step) => delivered(step.does, steps),
        None => None,
    }
}

// Writes the lines of the variants with faults of these messages, and how many there are.
fn write_variants<W: Sink>(
    alloc: Global,
    request: &Request,
    study: &Study,
    messages: &[u32],
    out: &mut W,
) -> Result<(), Unwritten>
    requires out_ready { IsTrue (W.told out.old).ready }
    requires request { IsRequest request.now }
    requires few { length study.now.steps ≤ most_steps }
    requires fewer { FewEnough request.now.faults (length messages.now) }
    ensures { WritesText (told_of request.now.sent study.now (asked request.now study.now messages.now)) result (W.told out.old) (W.told out.new) }
{
    match faults_with(alloc, request.kinds, study.entries(), messages) {
        Ok(faults) => {
            let choices = Shared::of(request.share, request.faults, faults.as_slice());
            write_told(alloc, request.sent, study, choices, out)
        }
        Err(_) => Err(Unwritten::Memory),
    }
}

// Writes the lines of the variants of these choices, with what sent where it is asked for, and how many there are.
fn write_told<W: Sink>(
    alloc: Global,
    sent: bool,
    study: &Study,
    choices: Shared,
    out: &mut W,
) -> Result<(), Unwritten>
    requires out_ready { IsTrue (W.told out.old).ready }
    requires few { length choices < 2 ^ 128 }
    ensures { WritesText (told_of sent study.now choices.entry) result (W.told out.old) (W.told out.new) }
{
    let count = write_choices(alloc, sent, study, choices, out)?;
    write_string(end_line(alloc, count), out)
}

// Writes the lines of the variants of these choices, and answers how many there are.
fn write_choices<W: Sink>(
    alloc: Global,
    sent: bool,
    study: &Study,
    mut choices: Shared,
    out: &mut W,
) -> Result<u128, Unwritten>
    requires out_ready { IsTrue (W.told out.old).ready }
    requires few { length choices < 2 ^ 128 }
    ensures text { WritesText (variant_lines sent study.now choices.entry) result (W.told out.old) (W.told out.new) }
    ensures count { IfOk result (λ count. count ≡ variants study.now choices.entry) }
{
    let mut count = 0;
    'choices: loop {
        match choices.next() {
            Some(choice) => {
                let told = write_choice(alloc, sent, study, choice.faults(), out)?;
                count = counted(count, told);
            }
            None => return Ok(count),
        }
    }
}

fn counted(count: u128, told: bool) -> u128
    requires { count + 1 < 2 ^ 128 }
    ensures { result ≡ count + (if told then 1 else 0) }
{
    if told { count + 1 } else { count }
}

// Writes the line of a variant, and answers whether these faults go together.
fn write_choice<W: Sink>(
    alloc: Global,
    sent: bool,
    study: &Study,
    faults: &[Fault],
    out: &mut W,
) -> Result<bool, Unwritten>
    requires out_ready { IsTrue (W.told out.old).ready }
    requires few { length faults.now ≤ 8 }
    ensures text { WritesText (line_of sent study.now faults.now) result (W.told out.old) (W.told out.new) }
    ensures told { IfOk result (λ told. told ≡ is_variant study.now faults.now) }
{
    match study.verdict(alloc, faults) {
        Ok(Some(verdict)) => {
            write_text(variant_line(alloc, sent, faults, &verdict), out)?;
            Ok(true)
        }
        Ok(None) => Ok(false),
        Err(_) => Err(Unwritten::Memory),
    }
}

// Writes a text, which is whole lines.
fn write_string<W: Sink>(text: Result<String, AllocError>, out: &mut W) -> Result<(), Unwritten>
    requires out_ready { IsTrue (W.told out.old).ready }
    requires lines { IfOk text (λ t. are_lines (string_bytes t) ≡ true) }
    requires refused { OnErr text WasRefused }
    ensures { (octets : List ℕ) → IfOk text (λ t. string_bytes t ≡ octets) → WritesText octets result (W.told out.old) (W.told out.new) }
{
    match text {
        Ok(text) => write_lines(text.as_bytes(), out),
        Err(_) => Err(Unwritten::Memory),
    }
}
