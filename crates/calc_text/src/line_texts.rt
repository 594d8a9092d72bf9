// The texts of the lines of PDUs.
ghost use Rattle.std.specs.Prelude.{◌≡◌, IfOk, OnErr};
ghost use Rattle.std.specs.String.{string_bytes};
ghost use Rattle.growth.specs.Growth.{WasRefused};
ghost use Rattle.calc_text.specs.PduAnswer.{opens_line, nas_opens_line, mac_fails_line, bad_header_line, short_line, spent_line, no_count_line, count_line, short_mac_fails_line, mark};

use crate::octet_texts::written;
use std::alloc::{AllocError, Global};

#[tactic(auto, unfolding(crate::specs::PduAnswer::nas_opens_line))]
pub(crate) fn nas_opens(
    alloc: Global,
    header: u8,
    count: u32,
    text: &[u8],
    checked: bool,
) -> Result<String, AllocError>
    ensures line { IfOk result (λ line. string_bytes line ≡ nas_opens_line header count text.now checked) }
    ensures refused { OnErr result WasRefused }
{
    let text = written(alloc, text)?;
    let mark = mark(checked);
    growth::format(alloc, format_args!("opens {header} {count} {text}{mark}"))
}

#[tactic(auto, unfolding(crate::specs::PduAnswer::opens_line))]
pub(crate) fn opens(
    alloc: Global,
    count: u32,
    text: &[u8],
    checked: bool,
) -> Result<String, AllocError>
    ensures line { IfOk result (λ line. string_bytes line ≡ opens_line count text.now checked) }
    ensures refused { OnErr result WasRefused }
{
    let text = written(alloc, text)?;
    let mark = mark(checked);
    growth::format(alloc, format_args!("opens {count} {text}{mark}"))
}

#[tactic(auto, unfolding(crate::specs::PduAnswer::count_line))]
pub(crate) fn opens_at(alloc: Global, count: u32, checked: bool) -> Result<String, AllocError>
    ensures line { IfOk result (λ line. string_bytes line ≡ count_line count checked) }
    ensures refused { OnErr result WasRefused }
{
    let mark = mark(checked);
    growth::format(alloc, format_args!("opens {count}{mark}"))
}

#[tactic(auto, unfolding(crate::specs::PduAnswer::mac_fails_line))]
pub(crate) fn mac_fails(
    alloc: Global,
    count: u32,
    wanted: &[u8; 4],
    got: &[u8; 4],
    text: &[u8],
) -> Result<String, AllocError>
    ensures line { IfOk result (λ line. string_bytes line ≡ mac_fails_line count wanted.now got.now text.now) }
    ensures refused { OnErr result WasRefused }
{
    let text = written(alloc, text)?;
    let wanted = growth::encode(alloc, wanted)?;
    let got = growth::encode(alloc, got)?;
    growth::format(
        alloc,
        format_args!("mac fails {count} wanted {wanted} got {got} text {text}"),
    )
}

#[tactic(auto, unfolding(crate::specs::PduAnswer::short_mac_fails_line))]
pub(crate) fn short_mac_fails(
    alloc: Global,
    count: u32,
    wanted: &[u8; 2],
    got: &[u8; 2],
) -> Result<String, AllocError>
    ensures line { IfOk result (λ line. string_bytes line ≡ short_mac_fails_line count wanted.now got.now) }
    ensures refused { OnErr result WasRefused }
{
    let wanted = growth::encode(alloc, wanted)?;
    let got = growth::encode(alloc, got)?;
    growth::format(
        alloc,
        format_args!("mac fails {count} wanted {wanted} got {got}"),
    )
}

#[tactic(auto, unfolding(crate::specs::PduAnswer::bad_header_line))]
pub(crate) fn bad_header(alloc: Global, octet: u8) -> Result<String, AllocError>
    ensures line { IfOk result (λ line. string_bytes line ≡ bad_header_line octet) }
    ensures refused { OnErr result WasRefused }
{
    let octet = growth::encode(alloc, &[octet])?;
    growth::format(alloc, format_args!("bad header {octet}"))
}

pub(crate) fn short(alloc: Global) -> Result<String, AllocError>
    ensures line { IfOk result (λ line. string_bytes line ≡ short_line) }
    ensures refused { OnErr result WasRefused }
{
    growth::from_str(alloc, "short")
}

pub(crate) fn spent(alloc: Global) -> Result<String, AllocError>
    ensures line { IfOk result (λ line. string_bytes line ≡ spent_line) }
    ensures refused { OnErr result WasRefused }
{
    growth::from_str(alloc, "count spent")
}

// No COUNT has a MAC that is right.
pub(crate) fn no_count(alloc: Global) -> Result<String, AllocError>
    ensures line { IfOk result (λ line. string_bytes line ≡ no_count_line) }
    ensures refused { OnErr result WasRefused }
{
    growth::from_str(alloc, "no count")
}

// Where nothing was checked, the line says so.
fn mark(checked: bool) -> &'static str
    ensures { result.now ≡ mark checked }
{
    if checked { "" } else { " unchecked" }
}
