// What the probe finds at stations and core.
ghost use Rattle.std.specs.Prelude.{◌≡◌};
ghost use Rattle.item_outcomes.specs.Handovers.{context_left, has_no_ue, is_at, is_left, is_undone, misrouted, no_handover};

use crate::Standing;
use crate::names::{BEGIN, COMMAND, down};
use item_lines::{is_done, is_no_ue};

static STATIONS: [u8; 8] = [0, 1, 2, 3, 4, 5, 6, 7];

static HANDOVER: [u32; 9] = [
    BEGIN,
    BEGIN + 1,
    BEGIN + 2,
    COMMAND,
    COMMAND + 1,
    COMMAND + 2,
    COMMAND + 3,
    COMMAND + 4,
    COMMAND + 5,
];

pub(crate) fn context_left(usual: &Standing, here: &Standing) -> bool
    ensures { result ≡ context_left usual.now here.now }
{
    STATIONS
        .iter()
        .any(|station| is_left(usual, here, *station))
}

pub(crate) fn is_left(usual: &Standing, here: &Standing, station: u8) -> bool
    ensures { result ≡ is_left usual.now here.now station }
{
    station != here.serving() && has_no_ue(usual, station) && !has_no_ue(here, station)
}

// Whether a station answers the probe's packet down with NoUe.
fn has_no_ue(standing: &Standing, station: u8) -> bool
    ensures { result ≡ has_no_ue standing.now.told station }
{
    is_no_ue(standing.line_of(down(station)))
}

pub(crate) fn no_handover(usual: &Standing, here: &Standing) -> bool
    ensures { result ≡ no_handover usual.now.told here.now.told }
{
    HANDOVER.iter().any(|name| is_undone(usual, here, *name))
}

pub(crate) fn is_undone(usual: &Standing, here: &Standing, name: u32) -> bool
    ensures { result ≡ is_undone usual.now.told here.now.told name }
{
    is_done(usual.line_of(name)) && !is_done(here.line_of(name))
}

pub(crate) fn misrouted(usual: &Standing, here: &Standing) -> bool
    ensures { result ≡ misrouted usual.now here.now }
{
    here.fates().passes()
        && !is_at(here.serving(), here.core())
        && is_at(usual.serving(), usual.core())
}

fn is_at(station: u8, core: Option<u8>) -> bool
    ensures { result ≡ is_at station core }
{
    match core {
        Some(other) => other == station,
        None => false,
    }
}
