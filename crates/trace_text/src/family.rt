// The moves that may have been.
ghost use Rattle.std.specs.Prelude.{◌≡◌, ◌++◌, flat_map, IfOk, OnErr, OnOk};
ghost use Rattle.growth.specs.Growth.{WasRefused};
ghost use Rattle.trace_text.specs.Question as by;

use crate::entries::{Due, Site};
use crate::question::{Question, push};
use std::alloc::{AllocError, Global};
use trace_keys::{Move, Unanswered};

// The moves of a cell.
fn push_moves_to(out: &mut Vec<Move>, air: bool, site: &Site) -> Result<(), AllocError>
    ensures items { OnOk result (out.new.items ≡ out.old.items ++ by.moves_to air site.now) }
    ensures refused { OnErr result WasRefused }
{
    push(out, over_x2(site, true))?;
    push(out, over_x2(site, false))?;
    push(out, over_s1(site, true))?;
    push(out, over_s1(site, false))?;
    if air {
        push(out, within(site))?;
    }
    Ok(())
}

fn over_x2(site: &Site, goes: bool) -> Move
    ensures { result ≡ Move.Prepare site.now.station site.now.cell goes }
{
    Move::Prepare {
        station: site.station,
        cell: site.cell,
        goes,
    }
}

fn over_s1(site: &Site, goes: bool) -> Move
    ensures { result ≡ Move.Require site.now.station site.now.cell goes }
{
    Move::Require {
        station: site.station,
        cell: site.cell,
        goes,
    }
}

fn within(site: &Site) -> Move
    ensures { result ≡ Move.Refresh site.now.station site.now.cell }
{
    Move::Refresh {
        station: site.station,
        cell: site.cell,
    }
}

// A KeNB for a cell, which is taken into use or not.
fn push_renewal(out: &mut Vec<Move>, due: &Due, early: bool, site: &Site) -> Result<(), AllocError>
    ensures items { OnOk result (out.new.items ≡ out.old.items ++ by.renewals due.now early site.now) }
    ensures refused { OnErr result WasRefused }
{
    push(out, renewal(due, early, site, true))?;
    push(out, renewal(due, early, site, false))?;
    Ok(())
}

fn renewal(due: &Due, early: bool, site: &Site, taken: bool) -> Move
    ensures { result ≡ Move.Renew due.now.kasme due.now.count site.now.station site.now.cell early taken }
{
    Move::Renew {
        kasme: due.kasme,
        count: due.count,
        station: site.station,
        cell: site.cell,
        early,
        taken,
    }
}

// A KeNB for each cell.
fn push_renewals(
    out: &mut Vec<Move>,
    due: &Due,
    early: bool,
    sites: &[Site],
) -> Result<(), AllocError>
    ensures items { OnOk result (out.new.items ≡ out.old.items ++ flat_map (by.renewals due.now early) sites.now) }
    ensures refused { OnErr result WasRefused }
{
    for site in sites {
        push_renewal(out, due, early, site)?;
    }
    Ok(())
}

// A key change, and a KeNB for each cell.
fn push_begun(out: &mut Vec<Move>, due: &Due, early: bool, sites: &[Site]) -> Result<(), AllocError>
    ensures items { OnOk result (out.new.items ≡ out.old.items ++ by.begun_at sites.now due.now early) }
    ensures refused { OnErr result WasRefused }
{
    push(
        out,
        Move::Offer {
            kasme: due.kasme,
            count: due.count,
            early,
        },
    )?;
    push_renewals(out, due, early, sites)
}

// The moves of a COUNT.
fn push_moves_at(
    out: &mut Vec<Move>,
    sites: &[Site],
    firsts: &[bool],
    due: &Due,
) -> Result<(), AllocError>
    ensures items { OnOk result (out.new.items ≡ out.old.items ++ by.moves_at sites.now firsts.now due.now) }
    ensures refused { OnErr result WasRefused }
{
    for early in firsts {
        push_begun(out, due, *early, sites)?;
    }
    Ok(())
}

// The moves of all cells.
fn push_all_to(out: &mut Vec<Move>, air: bool, sites: &[Site]) -> Result<(), AllocError>
    ensures items { OnOk result (out.new.items ≡ out.old.items ++ flat_map (by.moves_to air) sites.now) }
    ensures refused { OnErr result WasRefused }
{
    for site in sites {
        push_moves_to(out, air, site)?;
    }
    Ok(())
}

// The moves of all COUNTs.
fn push_all_at(
    out: &mut Vec<Move>,
    sites: &[Site],
    firsts: &[bool],
    dues: &[Due],
) -> Result<(), AllocError>
    ensures items { OnOk result (out.new.items ≡ out.old.items ++ flat_map (by.moves_at sites.now firsts.now) dues.now) }
    ensures refused { OnErr result WasRefused }
{
    for due in dues {
        push_moves_at(out, sites, firsts, due)?;
    }
    Ok(())
}

// The moves that name nothing.
fn other_moves(alloc: Global) -> Result<Vec<Move>, AllocError>
    ensures items { IfOk result (λ out. out.items ≡ by.other_moves) }
    ensures refused { OnErr result WasRefused }
{
    growth::from_slice(
        alloc,
        &[
            Move::Switch,
            Move::Ask(Unanswered::Refused),
            Move::Ask(Unanswered::Lost),
            Move::Ask(Unanswered::Given),
            Move::Arrive,
            Move::Cancel,
            Move::Leave,
            Move::Take,
        ],
    )
}

/// All moves that may have been.
pub fn moves_of(alloc: Global, q: &Question) -> Result<Vec<Move>, AllocError>
    ensures items { IfOk result (λ out. out.items ≡ by.moves_of q.now) }
    ensures refused { OnErr result WasRefused }
{
    let mut out = other_moves(alloc)?;
    push_all_to(&mut out, q.air, q.sites.as_slice())?;
    push_all_at(
        &mut out,
        q.sites.as_slice(),
        q.firsts.as_slice(),
        q.dues.as_slice(),
    )?;
    Ok(out)
}
