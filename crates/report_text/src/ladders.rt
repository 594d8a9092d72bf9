ghost use Rattle.growth.specs.Growth.{WasRefused};
ghost use Rattle.std.specs.Prelude.{◌≡◌, ℕ, ◌<◌, ◌∷◌, ◌++◌, [], Some, length, slice_get, IfOk, OnOk, OnErr};
ghost use Rattle.std.specs.String.{string_bytes};
ghost use Rattle.key_terms.specs.Ladder.{row_of};
ghost use Rattle.report_text.specs.Ladder.{of_two, of_three, sync_row, input_text, form_text, form_at, if_held, each_holder, without_comma, row_head, row_text, ladder_text};

use crate::TextMemory;
use hmac_kdf::KdfInput;
use key_terms::{Ladder, LadderRow, Origin, Row};
use std::alloc::{AllocError, Global};

/// The lines of a report for the rows of a ladder, in ASCII, each with the LF that ends it. The one error is want
/// of memory.
pub fn ladder_text(alloc: Global, ladder: &Ladder) -> Result<Vec<u8>, TextMemory>
    ensures text { IfOk result (λ text. text.items ≡ ladder_text ladder.now.rows) }
    ensures refused { OnErr result WasRefused }
{
    let mut text = Vec::new(alloc);
    for k in 0..ladder.len() {
        add_row(alloc, &mut text, ladder, Row(k as u32))?;
    }
    Ok(text)
}

/// What a row of a ladder is, in ASCII: a root, or a derivation with the row of its key. The row stands. The one
/// error is want of memory.
pub fn form(alloc: Global, ladder: &Ladder, row: Row) -> Result<Vec<u8>, TextMemory>
    requires { row.0 < length ladder.now.rows }
    ensures text { IfOk result (λ text. text.items ≡ form_at ladder.now.rows row.0) }
    ensures refused { OnErr result WasRefused }
{
    let text = form_text(alloc, ladder, &ladder.row(row).origin)?;
    Ok(text.into_bytes())
}

/// The line of a report for one row of a ladder, in ASCII, with the LF that ends it. The row stands. The one error
/// is want of memory.
pub fn row_line(alloc: Global, ladder: &Ladder, row: Row) -> Result<Vec<u8>, TextMemory>
    requires { row.0 < length ladder.now.rows }
    ensures text { IfOk result (λ text. (r : LadderRow) → slice_get ladder.now.rows row.0 ≡ Some r → text.items ≡ row_text ladder.now.rows row.0 r) }
    ensures refused { OnErr result WasRefused }
{
    let mut text = Vec::new(alloc);
    add_row(alloc, &mut text, ladder, row)?;
    Ok(text)
}

// Appends the line of a row.
fn add_row(alloc: Global, text: &mut Vec<u8>, ladder: &Ladder, row: Row) -> Result<(), AllocError>
    requires { row.0 < length ladder.now.rows }
    ensures text { OnOk result ((r : LadderRow) → slice_get ladder.now.rows row.0 ≡ Some r → text.new.items ≡ text.old.items ++ row_text ladder.now.rows row.0 r) }
    ensures refused { OnErr result WasRefused }
{
    let stands = ladder.row(row);
    let head = row_head(alloc, ladder, row.0, &stands)?;
    let holders = each_holder(alloc, &stands)?;
    add_line(text, head.as_bytes(), without_comma(holders.as_bytes()))
}

// Appends the two parts of a line, and the LF that ends it.
fn add_line(text: &mut Vec<u8>, head: &[u8], holders: &[u8]) -> Result<(), AllocError>
    ensures text { OnOk result (text.new.items ≡ text.old.items ++ (head.now ++ (holders.now ++ 10 ∷ []))) }
    ensures refused { OnErr result WasRefused }
{
    growth::extend_from_slice(text, head)?;
    growth::extend_from_slice(text, holders)?;
    growth::extend_from_slice(text, b"\n")
}

// The line of a row up to its holders.
#[tactic(auto, unfolding(crate::specs::Ladder::row_head))]
fn row_head(alloc: Global, ladder: &Ladder, k: u32, row: &LadderRow) -> Result<String, AllocError>
    ensures text { IfOk result (λ text. string_bytes text ≡ row_head ladder.now.rows k row.now) }
    ensures refused { OnErr result WasRefused }
{
    let form = form_text(alloc, ladder, &row.origin)?;
    let octets = growth::encode(alloc, &row.octets)?;
    growth::format(alloc, format_args!("row {k} {form} {octets} "))
}

// What a row is: a root, or a derivation.
fn form_text(alloc: Global, ladder: &Ladder, origin: &Origin) -> Result<String, AllocError>
    ensures text { IfOk result (λ text. string_bytes text ≡ form_text ladder.now.rows origin.now) }
    ensures refused { OnErr result WasRefused }
{
    match origin {
        Origin::Root => growth::format(alloc, format_args!("root")),
        Origin::From(key, input) => input_text(alloc, ladder, *key, input),
    }
}

fn input_text(
    alloc: Global,
    ladder: &Ladder,
    key: Row,
    input: &KdfInput,
) -> Result<String, AllocError>
    ensures text { IfOk result (λ text. string_bytes text ≡ input_text ladder.now.rows key input.now) }
    ensures refused { OnErr result WasRefused }
{
    match input {
        KdfInput::Kenb(count) => of_two(alloc, "kenb", key.0, *count),
        KdfInput::Nh(sync) => of_two(alloc, "nh", key.0, sync_row(ladder, sync)),
        KdfInput::Star(pci, earfcn) => of_three(alloc, "star", key.0, u32::from(*pci), *earfcn),
        KdfInput::Alg(kind, id) => {
            of_three(alloc, "alg", key.0, u32::from(*kind), u32::from(*id))
        }
    }
}

// The row with the octets of a SYNC-input.
fn sync_row(ladder: &Ladder, sync: &[u8; 32]) -> u32
    ensures { result ≡ sync_row ladder.now.rows sync.now }
{
    match ladder.find(sync) {
        Some(row) => row.0,
        None => 0,
    }
}

#[tactic(auto, unfolding(crate::specs::Ladder::of_two))]
fn of_two(alloc: Global, name: &str, a: u32, b: u32) -> Result<String, AllocError>
    ensures text { IfOk result (λ text. string_bytes text ≡ of_two name.now a b) }
    ensures refused { OnErr result WasRefused }
{
    growth::format(alloc, format_args!("{name}({a},{b})"))
}

#[tactic(auto, unfolding(crate::specs::Ladder::of_three))]
fn of_three(alloc: Global, name: &str, a: u32, b: u32, c: u32) -> Result<String, AllocError>
    ensures text { IfOk result (λ text. string_bytes text ≡ of_three name.now a b c) }
    ensures refused { OnErr result WasRefused }
{
    growth::format(alloc, format_args!("{name}({a},{b},{c})"))
}

// The holders of a row, each behind a comma.
#[tactic(auto, unfolding(crate::specs::Ladder::each_holder))]
pub(crate) fn each_holder(alloc: Global, row: &LadderRow) -> Result<String, AllocError>
    ensures text { IfOk result (λ text. string_bytes text ≡ each_holder row.now) }
    ensures refused { OnErr result WasRefused }
{
    let phone = if_held(row.phone, ",P");
    let core = if_held(row.core, ",C");
    let s0 = if_held(row.stations[0], ",S0");
    let s1 = if_held(row.stations[1], ",S1");
    let s2 = if_held(row.stations[2], ",S2");
    let s3 = if_held(row.stations[3], ",S3");
    let s4 = if_held(row.stations[4], ",S4");
    let s5 = if_held(row.stations[5], ",S5");
    let s6 = if_held(row.stations[6], ",S6");
    let s7 = if_held(row.stations[7], ",S7");
    growth::format(
        alloc,
        format_args!("{phone}{core}{s0}{s1}{s2}{s3}{s4}{s5}{s6}{s7}"),
    )
}

fn if_held(held: bool, name: &'static str) -> &'static str
    ensures { result.now ≡ if_held held name.now }
{
    if held { name } else { "" }
}

pub(crate) fn without_comma(names: &[u8]) -> &[u8]
    ensures { result.now ≡ without_comma names.now }
{
    match names {
        [] => b"-",
        [_, rest @ ..] => rest,
    }
}
