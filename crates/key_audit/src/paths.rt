ghost use Rattle.growth.specs.Growth.{WasRefused};
ghost use Rattle.std.specs.Prelude.{◌≡◌, ◌<◌, ◌∷◌, ◌++◌, codes, length, IfOk, OnOk, IfSome, OnErr};
ghost use Rattle.std.specs.Fmt.{decimal};
ghost use Rattle.std.specs.String.{string_bytes};
ghost use Rattle.key_terms.specs.Ladder.{IsLadder};
ghost use Rattle.key_audit.specs.Text.{on_from, way_up, further, joined, path_text};

use key_terms::{Ladder, Origin, Row};
use std::alloc::{AllocError, Global};

// The path from a row that a station holds down to row k.
#[tactic(auto, unfolding(crate::specs::Text::path_text))]
pub(crate) fn path_text(
    alloc: Global,
    ladder: &Ladder,
    from: u32,
    k: u32,
) -> Result<Vec<u8>, AllocError>
    requires ladder { IsLadder ladder.now.rows }
    requires stands { k < length ladder.now.rows }
    ensures text { IfOk result (λ text. text.items ≡ path_text ladder.now.rows from k) }
    ensures refused { OnErr result WasRefused }
{
    let mut path = way_up(alloc, ladder, from, k)?;
    path.reverse();
    joined(alloc, &path)
}

// The rows from row k up to another.
fn way_up(alloc: Global, ladder: &Ladder, to: u32, k: u32) -> Result<Vec<u32>, AllocError>
    requires ladder { IsLadder ladder.now.rows }
    requires stands { k < length ladder.now.rows }
    ensures way { IfOk result (λ way. way.items ≡ way_up ladder.now.rows to k) }
    ensures refused { OnErr result WasRefused }
{
    let mut way = Vec::new(alloc);
    let mut next = Some(k);
    while let Some(row) = next {
        growth::push(&mut way, row)?;
        next = next_up(ladder, to, row);
    }
    Ok(way)
}

// The row after this one on the way up to another: that of its key.
fn next_up(ladder: &Ladder, to: u32, row: u32) -> Option<u32>
    requires ladder { IsLadder ladder.now.rows }
    requires stands { row < length ladder.now.rows }
    ensures way { way_up ladder.now.rows to row ≡ row ∷ on_from (way_up ladder.now.rows to) result }
    ensures before { IfSome result (λ key. key < row) }
{
    if row == to {
        return None;
    }
    match ladder.row(Row(row)).origin {
        Origin::Root => None,
        Origin::From(key, _) => Some(key.0),
    }
}

// Numbers, joined by `>`.
fn joined(alloc: Global, path: &[u32]) -> Result<Vec<u8>, AllocError>
    ensures text { IfOk result (λ text. text.items ≡ joined path.now) }
    ensures refused { OnErr result WasRefused }
{
    let mut text = Vec::new(alloc);
    if let [first, rest @ ..] = path {
        growth::extend_from_slice(&mut text, growth::format(alloc, first)?.as_bytes())?;
        add_further(alloc, &mut text, rest)?;
    }
    Ok(text)
}

// Appends numbers, each behind a `>`.
fn add_further(alloc: Global, text: &mut Vec<u8>, path: &[u32]) -> Result<(), AllocError>
    ensures text { OnOk result (text.new.items ≡ text.old.items ++ further path.now) }
    ensures refused { OnErr result WasRefused }
{
    for row in path {
        growth::extend_from_slice(text, step_text(alloc, *row)?.as_bytes())?;
    }
    Ok(())
}

fn step_text(alloc: Global, row: u32) -> Result<String, AllocError>
    ensures text { IfOk result (λ text. string_bytes text ≡ codes ">" ++ decimal row) }
    ensures refused { OnErr result WasRefused }
{
    growth::format(alloc, format_args!(">{row}"))
}
