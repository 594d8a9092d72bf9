ghost use Rattle.growth.specs.Growth.{WasRefused};
ghost use Rattle.std.specs.Prelude.{◌≡◌, ◌<◌, ◌∷◌, ◌++◌, [], Bool, Some, length, slice_get, IfOk, OnOk, OnErr};
ghost use Rattle.std.specs.String.{string_bytes};
ghost use Rattle.key_terms.specs.Ladder.{IsLadder};
ghost use Rattle.report_text.specs.Ladder.{without_comma};
ghost use Rattle.key_audit.specs.Exact.{Exact};
ghost use Rattle.key_audit.specs.Text.{name_text, by_head, by_text, name_if, by_if, names_text, paths_text, row_head, line_of, row_line, first_line, last_line, audit_text};
ghost use Rattle.key_audit.specs.Local.{mark_of, mark_at, exact_mark};

use crate::paths::path_text;
use crate::{Audit, AuditMemory, AuditRow};
use key_terms::{Ladder, Row};
use report_text::form;
use std::alloc::{AllocError, Global};

/// The text of an exact audit, in ASCII: how many rows the ladder has, who can derive each and on which path, and
/// that it was checked. The one error is want of memory.
pub fn audit_text(alloc: Global, ladder: &Ladder, audit: &Audit) -> Result<Vec<u8>, AuditMemory>
    requires { Exact ladder.now.rows audit.now.rows.items }
    ensures text { IfOk result (λ text. text.items ≡ audit_text ladder.now.rows) }
    ensures refused { OnErr result WasRefused }
{
    let mut text = first_line(alloc, ladder)?;
    for k in 0..ladder.len() {
        let line = row_line(alloc, ladder, audit, Row(k as u32))?;
        growth::extend_from_slice(&mut text, &line)?;
    }
    growth::extend_from_slice(&mut text, last_line())?;
    Ok(text)
}

/// The first line of that text. The one error is want of memory.
pub fn first_line(alloc: Global, ladder: &Ladder) -> Result<Vec<u8>, AuditMemory>
    ensures text { IfOk result (λ text. text.items ≡ first_line (length ladder.now.rows)) }
    ensures refused { OnErr result WasRefused }
{
    let text = whole_first(alloc, ladder.len())?;
    Ok(text.into_bytes())
}

#[tactic(auto, unfolding(crate::specs::Text::first_line))]
fn whole_first(alloc: Global, rows: usize) -> Result<String, AllocError>
    ensures text { IfOk result (λ text. string_bytes text ≡ first_line rows) }
    ensures refused { OnErr result WasRefused }
{
    growth::format(alloc, format_args!("audit {rows}\n"))
}

/// The last line of it.
pub fn last_line() -> &'static [u8]
    ensures { result.now ≡ last_line }
{
    b"checked\n"
}

/// The line of a row in it. The one error is want of memory.
pub fn row_line(
    alloc: Global,
    ladder: &Ladder,
    audit: &Audit,
    row: Row,
) -> Result<Vec<u8>, AuditMemory>
    requires exact { Exact ladder.now.rows audit.now.rows.items }
    requires ladder { IsLadder ladder.now.rows }
    requires stands { row.0 < length ladder.now.rows }
    ensures text { IfOk result (λ text. text.items ≡ row_line ladder.now.rows (exact_mark ladder.now.rows) row.0) }
    ensures refused { OnErr result WasRefused }
{
    let line = marked_line(alloc, ladder, &audit.rows, row)?;
    Ok(line)
}

// The line of a row, by the marks of an audit.
fn marked_line(
    alloc: Global,
    ladder: &Ladder,
    audit: &[AuditRow],
    row: Row,
) -> Result<Vec<u8>, AuditMemory>
    requires ladder { IsLadder ladder.now.rows }
    requires stands { row.0 < length ladder.now.rows }
    requires as_many { length audit.now ≡ length ladder.now.rows }
    ensures text { IfOk result (λ text. text.items ≡ row_line ladder.now.rows (mark_at audit.now) row.0) }
    ensures refused { OnErr result WasRefused }
{
    let marks = audit[row.0 as usize];
    let form = form(alloc, ladder, row)?;
    let names = names_text(alloc, &marks)?;
    let paths = paths_text(alloc, ladder, row.0, &marks)?;
    let line = line_of(alloc, row.0, &form, &names, &paths)?;
    Ok(line)
}

// The parts of a line.
fn line_of(
    alloc: Global,
    k: u32,
    form: &[u8],
    names: &[u8],
    paths: &[u8],
) -> Result<Vec<u8>, AllocError>
    ensures text { IfOk result (λ text. text.items ≡ line_of k form.now names.now paths.now) }
    ensures refused { OnErr result WasRefused }
{
    let mut line = row_head(alloc, k)?.into_bytes();
    growth::extend_from_slice(&mut line, form)?;
    growth::extend_from_slice(&mut line, b" ")?;
    growth::extend_from_slice(&mut line, without_comma(names))?;
    growth::extend_from_slice(&mut line, paths)?;
    growth::extend_from_slice(&mut line, b"\n")?;
    Ok(line)
}

#[tactic(auto, unfolding(crate::specs::Text::row_head))]
fn row_head(alloc: Global, k: u32) -> Result<String, AllocError>
    ensures text { IfOk result (λ text. string_bytes text ≡ row_head k) }
    ensures refused { OnErr result WasRefused }
{
    growth::format(alloc, format_args!("row {k} "))
}

fn without_comma(names: &[u8]) -> &[u8]
    ensures { result.now ≡ without_comma names.now }
{
    match names {
        [] => b"-",
        [_, rest @ ..] => rest,
    }
}

// The stations that can derive a row, each behind a comma.
fn names_text(alloc: Global, marks: &AuditRow) -> Result<Vec<u8>, AllocError>
    ensures text { IfOk result (λ text. text.items ≡ names_text (λ s. mark_of s (Some marks.now))) }
    ensures refused { OnErr result WasRefused }
{
    let mut text = Vec::new(alloc);
    for station in 0..8 {
        let name = name_if(alloc, marks.mark(station), station)?;
        growth::extend_from_slice(&mut text, &name)?;
    }
    Ok(text)
}

fn name_if(alloc: Global, mark: Option<u32>, station: usize) -> Result<Vec<u8>, AllocError>
    ensures text { IfOk result (λ text. text.items ≡ name_if mark station) }
    ensures refused { OnErr result WasRefused }
{
    match mark {
        None => Ok(Vec::new(alloc)),
        Some(_) => Ok(name_text(alloc, station)?.into_bytes()),
    }
}

#[tactic(auto, unfolding(crate::specs::Text::name_text))]
fn name_text(alloc: Global, station: usize) -> Result<String, AllocError>
    ensures text { IfOk result (λ text. string_bytes text ≡ name_text station) }
    ensures refused { OnErr result WasRefused }
{
    growth::format(alloc, format_args!(",S{station}"))
}

// The path on which each of them can.
fn paths_text(
    alloc: Global,
    ladder: &Ladder,
    k: u32,
    marks: &AuditRow,
) -> Result<Vec<u8>, AllocError>
    requires ladder { IsLadder ladder.now.rows }
    requires stands { k < length ladder.now.rows }
    ensures text { IfOk result (λ text. text.items ≡ paths_text ladder.now.rows k (λ s. mark_of s (Some marks.now))) }
    ensures refused { OnErr result WasRefused }
{
    let mut text = Vec::new(alloc);
    for station in 0..8 {
        let by = by_if(alloc, ladder, k, marks.mark(station), station)?;
        growth::extend_from_slice(&mut text, &by)?;
    }
    Ok(text)
}

fn by_if(
    alloc: Global,
    ladder: &Ladder,
    k: u32,
    mark: Option<u32>,
    station: usize,
) -> Result<Vec<u8>, AllocError>
    requires ladder { IsLadder ladder.now.rows }
    requires stands { k < length ladder.now.rows }
    ensures text { IfOk result (λ text. text.items ≡ by_if ladder.now.rows k mark station) }
    ensures refused { OnErr result WasRefused }
{
    match mark {
        None => Ok(Vec::new(alloc)),
        Some(from) => by_text(alloc, ladder, k, station, from),
    }
}

fn by_text(
    alloc: Global,
    ladder: &Ladder,
    k: u32,
    station: usize,
    from: u32,
) -> Result<Vec<u8>, AllocError>
    requires ladder { IsLadder ladder.now.rows }
    requires stands { k < length ladder.now.rows }
    ensures text { IfOk result (λ text. text.items ≡ by_text ladder.now.rows k station from) }
    ensures refused { OnErr result WasRefused }
{
    let mut text = by_head(alloc, station)?.into_bytes();
    growth::extend_from_slice(&mut text, &path_text(alloc, ladder, from, k)?)?;
    Ok(text)
}

#[tactic(auto, unfolding(crate::specs::Text::by_head))]
fn by_head(alloc: Global, station: usize) -> Result<String, AllocError>
    ensures text { IfOk result (λ text. string_bytes text ≡ by_head station) }
    ensures refused { OnErr result WasRefused }
{
    growth::format(alloc, format_args!(" by S{station} "))
}
