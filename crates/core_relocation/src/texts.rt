// The texts of a report of two cores.
ghost use Rattle.growth.specs.Growth.{WasRefused};
ghost use Rattle.std.specs.Prelude.{◌≡◌, ◌≤◌, drop, length, IfOk, OnErr};
ghost use Rattle.std.specs.String.{string_bytes};
ghost use Rattle.core_relocation.specs.Report.{core_text, not_here_text, two_text};

use crate::TwoLine;
use lte_events::{Line, Who};
use report_text::{TextMemory, line};
use std::alloc::{AllocError, Global};

// The line of a report for an event.
pub(crate) fn two_text(alloc: Global, step: u32, told: TwoLine) -> Result<Vec<u8>, TextMemory>
    ensures text { IfOk result (λ text. text.items ≡ two_text step told) }
    ensures refused { OnErr result WasRefused }
{
    match told {
        TwoLine::By(told, by) => match by {
            None => line(alloc, &told),
            Some(core) => core_text(alloc, told, core),
        },
        TwoLine::NotHere(core) => not_here_text(alloc, step, core),
    }
}

// The line of a core: that of `run`, with the number of the core behind its name.
fn core_text(alloc: Global, told: Line, core: u8) -> Result<Vec<u8>, TextMemory>
    ensures text { IfOk result (λ text. text.items ≡ core_text told core) }
    ensures refused { OnErr result WasRefused }
{
    let mut told = told;
    told.who = Who::Core;
    let step = told.step;
    let name = growth::format(alloc, format_args!("{step} core"))?;
    let whole = line(alloc, &told)?;
    let mut text = growth::format(alloc, format_args!("{step} core {core}"))?.into_bytes();
    let rest = behind(&whole, name.as_bytes());
    growth::extend_from_slice(&mut text, rest)?;
    Ok(text)
}

// What is behind a name.
fn behind<'a>(text: &'a [u8], name: &[u8]) -> &'a [u8]
    requires { length name.now ≤ length text.now }
    ensures { result.now ≡ drop (length name.now) text.now }
{
    &text[name.len()..]
}

fn not_here_text(alloc: Global, step: u32, core: u8) -> Result<Vec<u8>, TextMemory>
    ensures text { IfOk result (λ text. text.items ≡ not_here_text step core) }
    ensures refused { OnErr result WasRefused }
{
    let text = not_here(alloc, step, core)?;
    Ok(text.into_bytes())
}

#[tactic(auto, unfolding(crate::specs::Report::not_here_text))]
fn not_here(alloc: Global, step: u32, core: u8) -> Result<String, AllocError>
    ensures text { IfOk result (λ text. string_bytes text ≡ not_here_text step core) }
    ensures refused { OnErr result WasRefused }
{
    growth::format(alloc, format_args!("{step} core {core} NotHere\n"))
}
