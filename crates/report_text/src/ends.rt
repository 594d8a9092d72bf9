ghost use Rattle.growth.specs.Growth.{WasRefused};
ghost use Rattle.std.specs.Prelude.{◌≡◌, IfOk, OnErr};
ghost use Rattle.std.specs.String.{string_bytes};
ghost use Rattle.report_text.specs.End.{end_text};

use crate::TextMemory;
use std::alloc::{AllocError, Global};

/// The line of a report after its last event, in ASCII, with the LF that ends it: how many events there
/// were, how many records were sent, and how many rows the ladder has. The one error is want of memory.
pub fn end(alloc: Global, events: u32, records: u32, rows: u32) -> Result<Vec<u8>, TextMemory>
    ensures text { IfOk result (λ text. text.items ≡ end_text events records rows) }
    ensures refused { OnErr result WasRefused }
{
    let text = whole(alloc, events, records, rows)?;
    Ok(text.into_bytes())
}

#[tactic(auto, unfolding(crate::specs::End::end_text))]
fn whole(alloc: Global, events: u32, records: u32, rows: u32) -> Result<String, AllocError>
    ensures text { IfOk result (λ text. string_bytes text ≡ end_text events records rows) }
    ensures refused { OnErr result WasRefused }
{
    growth::format(alloc, format_args!("end {events} {records} {rows}\n"))
}
