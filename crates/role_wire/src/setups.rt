// The body of a Setup of a station or the core.
ghost use Rattle.std.specs.Prelude.{◌≡◌, ◌+◌, ◌<◌, ◌≤◌, [], length, IfOk};
ghost use Rattle.role_wire.specs.Body.{order_at, site_at, sites_at, cells_at, first_of};
ghost use Rattle.role_wire.specs.Frame.{body_limit};

use crate::fields::{cell_at, eea_at, ends_at, number_from, octet_in, other_eea_at};
use alg_choice::Priority;
use lte_events::Cells;

// A count of 1 or 2, and so many encryption algorithms, different ones.
#[tactic(auto, unfolding(crate::specs::Body::order_at))]
fn order_at(octets: &[u8], place: usize) -> Result<Priority, u16>
    requires body { length octets.now ≤ body_limit }
    requires place { place ≤ 1 }
    ensures value { result ≡ order_at octets.now place }
    ensures count { IfOk result (λ order. (1 ≤ length order) × (length order ≤ 2)) }
{
    let count = octet_in(octets, place, 1, 2)?;
    let first = eea_at(octets, place + 1)?;
    if count == 1 {
        return Ok(Priority::new(first, None));
    }
    let second = other_eea_at(octets, place + 2, first)?;
    Ok(Priority::new(first, Some(second)))
}

// The cells and one more, with its station, 0 to 7: the cell must not stand before.
#[tactic(auto, unfolding(crate::specs::Body::site_at))]
fn with_site(cells: Cells, octets: &[u8], place: usize) -> Result<Cells, u16>
    requires body { length octets.now ≤ body_limit }
    requires place { place ≤ 3000 }
    requires room { length cells < 32 }
    ensures value { result ≡ site_at cells octets.now place }
    ensures count { IfOk result (λ more. length more ≡ length cells + 1) }
{
    let mut cells = cells;
    let station = octet_in(octets, place, 0, 7)?;
    let cell = cell_at(octets, place + 1)?;
    match cells.add(station, cell) {
        Ok(()) => Ok(cells),
        Err(_) => Err((place + 1) as u16),
    }
}

// So many stations with their cells.
#[tactic(auto, unfolding(crate::specs::Body::sites_at))]
fn sites_at(octets: &[u8], place: usize, count: u8) -> Result<Cells, u16>
    requires body { length octets.now ≤ body_limit }
    requires place { place ≤ 100 }
    requires count { count ≤ 32 }
    ensures value { result ≡ sites_at count [] octets.now place }
    ensures within { IfOk result (λ cells. length cells ≡ count) }
{
    let mut cells = Cells::new();
    let mut next = place;
    for i in 0..count {
        cells = with_site(cells, octets, next)?;
        next += 7;
    }
    Ok(cells)
}

// A count of 1 to 32, and so many stations with their cells.
#[tactic(auto, unfolding(crate::specs::Body::cells_at))]
fn cells_at(octets: &[u8], place: usize) -> Result<Cells, u16>
    requires body { length octets.now ≤ body_limit }
    requires place { place ≤ 50 }
    ensures value { result ≡ cells_at octets.now place }
    ensures within { IfOk result (λ cells. length cells ≤ 32) }
{
    let count = octet_in(octets, place, 1, 32)?;
    sites_at(octets, place + 1, count)
}

// Priority, first number, at least 1, and cells.
#[tactic(auto, unfolding(crate::specs::Body::first_of))]
pub(crate) fn first(octets: &[u8]) -> Result<(Priority, u32, Cells), u16>
    requires { length octets.now ≤ body_limit }
    ensures { result ≡ first_of octets.now }
{
    let order = order_at(octets, 1)?;
    let count = match order.second() {
        None => 1,
        Some(_) => 2,
    };
    let first = number_from(octets, 2 + count, 1)?;
    let cells = cells_at(octets, 6 + count)?;
    ends_at(octets, 7 + count + 7 * cells.len())?;
    Ok((order, first, cells))
}
