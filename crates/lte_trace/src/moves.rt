// The lines of a history, a move each.
ghost use Rattle.std.specs.Prelude.{◌≡◌, ◌++◌, codes, IfOk, OnErr, OnOk};
ghost use Rattle.std.specs.String.{string_bytes};
ghost use Rattle.growth.specs.Growth.{WasRefused};
ghost use Rattle.lte_trace.specs.Moves as by;

use annex_a_keys::Cell;
use std::alloc::{AllocError, Global};
use trace_keys::{Move, Unanswered};
use trace_plain::Told;

fn first_word(early: bool) -> &'static str
    ensures { result.now ≡ by.first_word early }
{
    if early { "2" } else { "1" }
}

fn taken_word(taken: bool) -> &'static str
    ensures { result.now ≡ by.taken_word taken }
{
    if taken { "taken" } else { "refused" }
}

fn goes_word(goes: bool) -> &'static str
    ensures { result.now ≡ by.goes_word goes }
{
    if goes { "last" } else { "besides" }
}

fn unanswered_word(what: Unanswered) -> &'static str
    ensures { result.now ≡ by.unanswered_word what }
{
    match what {
        Unanswered::Refused => "refused",
        Unanswered::Lost => "lost",
        Unanswered::Given => "given",
    }
}

fn seen_word(seen: bool) -> &'static str
    ensures { result.now ≡ by.seen_word seen }
{
    if seen { "seen " } else { "unseen " }
}

#[tactic(auto, unfolding(crate::specs::Moves::cell_text))]
fn cell_text(alloc: Global, cell: &Cell) -> Result<String, AllocError>
    ensures text { IfOk result (λ text. string_bytes text ≡ by.cell_text cell.now) }
    ensures refused { OnErr result WasRefused }
{
    let pci = cell.pci();
    let earfcn = cell.earfcn();
    growth::format(alloc, format_args!("{pci} {earfcn}"))
}

#[tactic(auto, unfolding(crate::specs::Moves::site_text))]
fn site_text(alloc: Global, station: u8, cell: &Cell) -> Result<String, AllocError>
    ensures text { IfOk result (λ text. string_bytes text ≡ by.site_text station cell.now) }
    ensures refused { OnErr result WasRefused }
{
    let cell = cell_text(alloc, cell)?;
    growth::format(alloc, format_args!("{station} {cell}"))
}

#[tactic(auto, unfolding(crate::specs::Moves::due_text))]
fn due_text(alloc: Global, kasme: u8, count: u32, early: bool) -> Result<String, AllocError>
    ensures text { IfOk result (λ text. string_bytes text ≡ by.due_text kasme count early) }
    ensures refused { OnErr result WasRefused }
{
    let first = first_word(early);
    growth::format(alloc, format_args!("{kasme} {count} {first}"))
}

#[tactic(auto, unfolding(crate::specs::Moves::renew_text))]
fn renew_text(alloc: Global, due: &str, site: &str, taken: &str) -> Result<String, AllocError>
    ensures text { IfOk result (λ text. string_bytes text ≡ by.renew_text due.now site.now taken.now) }
    ensures refused { OnErr result WasRefused }
{
    growth::format(alloc, format_args!("renew {due} {site} {taken}"))
}

#[tactic(auto, unfolding(crate::specs::Moves::handover_text))]
fn handover_text(alloc: Global, name: &str, site: &str, goes: &str) -> Result<String, AllocError>
    ensures text { IfOk result (λ text. string_bytes text ≡ by.handover_text name.now site.now goes.now) }
    ensures refused { OnErr result WasRefused }
{
    growth::format(alloc, format_args!("{name} {site} {goes}"))
}

#[tactic(auto, unfolding(crate::specs::Moves::named_text))]
fn named_text(alloc: Global, name: &str, rest: &str) -> Result<String, AllocError>
    ensures text { IfOk result (λ text. string_bytes text ≡ by.named_text name.now rest.now) }
    ensures refused { OnErr result WasRefused }
{
    growth::format(alloc, format_args!("{name} {rest}"))
}

// A KeNB for a cell.
fn renewal_text(
    alloc: Global,
    due: &str,
    station: u8,
    cell: &Cell,
    taken: bool,
) -> Result<String, AllocError>
    ensures text { IfOk result (λ text. string_bytes text ≡ by.renew_text due.now (by.site_text station cell.now) (by.taken_word taken)) }
    ensures refused { OnErr result WasRefused }
{
    let site = site_text(alloc, station, cell)?;
    renew_text(alloc, due, &site, taken_word(taken))
}

// A handover that is prepared.
fn prepared_text(
    alloc: Global,
    name: &str,
    station: u8,
    cell: &Cell,
    goes: bool,
) -> Result<String, AllocError>
    ensures text { IfOk result (λ text. string_bytes text ≡ by.handover_text name.now (by.site_text station cell.now) (by.goes_word goes)) }
    ensures refused { OnErr result WasRefused }
{
    let site = site_text(alloc, station, cell)?;
    handover_text(alloc, name, &site, goes_word(goes))
}

// A move: its word, and its choices.
fn move_text(alloc: Global, by_move: &Move) -> Result<String, AllocError>
    ensures text { IfOk result (λ text. string_bytes text ≡ by.move_text by_move.now) }
    ensures refused { OnErr result WasRefused }
{
    match by_move {
        Move::Renew {
            kasme,
            count,
            station,
            cell,
            early,
            taken,
        } => {
            let due = due_text(alloc, *kasme, *count, *early)?;
            renewal_text(alloc, &due, *station, cell, *taken)
        }
        Move::Offer {
            kasme,
            count,
            early,
        } => named_text(alloc, "offer", &due_text(alloc, *kasme, *count, *early)?),
        Move::Take => growth::from_str(alloc, "take"),
        Move::Switch => growth::from_str(alloc, "switch"),
        Move::Ask(what) => named_text(alloc, "ask", unanswered_word(*what)),
        Move::Prepare {
            station,
            cell,
            goes,
        } => prepared_text(alloc, "prepare", *station, cell, *goes),
        Move::Require {
            station,
            cell,
            goes,
        } => prepared_text(alloc, "require", *station, cell, *goes),
        Move::Arrive => growth::from_str(alloc, "arrive"),
        Move::Cancel => growth::from_str(alloc, "cancel"),
        Move::Refresh { cell, .. } => named_text(alloc, "refresh", &cell_text(alloc, cell)?),
        Move::Leave => growth::from_str(alloc, "leave"),
    }
}

// A line.
#[tactic(auto, unfolding(crate::specs::Moves::told_text))]
fn told_text(alloc: Global, one: &Told) -> Result<String, AllocError>
    ensures text { IfOk result (λ text. string_bytes text ≡ by.told_text one.now) }
    ensures refused { OnErr result WasRefused }
{
    let seen = seen_word(one.seen());
    let by_move = move_text(alloc, one.by())?;
    growth::format(alloc, format_args!("{seen}{by_move}\n"))
}

// Puts a line at the end.
fn add(alloc: Global, text: &mut Vec<u8>, one: &Told) -> Result<(), AllocError>
    ensures text { OnOk result (text.new.items ≡ text.old.items ++ by.told_text one.now) }
    ensures refused { OnErr result WasRefused }
{
    let line = told_text(alloc, one)?;
    growth::extend_from_slice(text, line.as_bytes())
}

/// Puts the lines of a history at the end.
pub(crate) fn add_moves(alloc: Global, text: &mut Vec<u8>, told: &[Told]) -> Result<(), AllocError>
    ensures text { OnOk result (text.new.items ≡ text.old.items ++ by.moves_text told.now) }
    ensures refused { OnErr result WasRefused }
{
    for one in told {
        add(alloc, text, one)?;
    }
    Ok(())
}
