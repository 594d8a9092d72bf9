// The keys of a phone that are another's.
ghost use Rattle.std.specs.Prelude.{◌≡◌, ℕ, ◌<◌, ◌≤◌, ◌^◌, [], List, drop, length, get_or};
ghost use Rattle.std.specs.Option.{option_map};
ghost use Rattle.std.specs.List.{AllByRecursion as AllOf};
ghost use Rattle.lte_events.specs.declared.events.Event.{Event};
ghost use Rattle.key_terms.specs.Ladder.{row_of};
ghost use Rattle.fleet_world.specs.Answers.{cross_of};
ghost use Rattle.fleet_world.specs.Fleets.{most_phones};
ghost use Rattle.fleet_world.specs.Meeting.{has_root, root_among, row_among, meeting_from, ladder_at};
ghost use Rattle.fleet_world.specs.Worlds.{Goes, rows_at, ladders_in, others_in, taken_in};

use crate::FleetFault;
use key_terms::{Origin, Row};
use lte_events::Event;
use lte_world::World;

// The least other phone of which the root of an authentication is a root.
pub(crate) fn taken(worlds: &[World], phone: u16, event: &Event) -> Option<u16>
    requires goes { AllOf Goes worlds.now }
    requires few { length worlds.now ≤ most_phones }
    ensures { result ≡ taken_in worlds.now phone event.now }
{
    match event {
        Event::Auth(_, root, _) => root_elsewhere(worlds, phone, root),
        Event::Phone(_)
        | Event::Station(..)
        | Event::Core(_)
        | Event::Deliver(_)
        | Event::Inject(..) => None,
    }
}

// The least other phone of which these octets are a root.
fn root_elsewhere(worlds: &[World], phone: u16, octets: &[u8; 32]) -> Option<u16>
    requires goes { AllOf Goes worlds.now }
    requires few { length worlds.now ≤ most_phones }
    ensures { result ≡ root_among (others_in phone worlds.now) octets.now }
{
    for number in 0..worlds.len() {
        if has_root(worlds, number, phone, octets) {
            return Some(number as u16);
        }
    }
    None
}

// Whether a phone of this number is another one, and these octets are a root of it.
fn has_root(worlds: &[World], number: usize, phone: u16, octets: &[u8; 32]) -> bool
    requires goes { AllOf Goes worlds.now }
    requires stands { number < length worlds.now }
    ensures { result ≡ has_root octets.now (ladder_at (others_in phone worlds.now) number) }
{
    if number == phone as usize {
        return false;
    }
    is_root_of(&worlds[number], octets)
}

// Whether these octets are a root of a phone.
#[tactic(auto, unfolding(crate::specs::Meeting::has_root))]
fn is_root_of(world: &World, octets: &[u8; 32]) -> bool
    requires { Goes world.now }
    ensures { result ≡ has_root octets.now (rows_at world.now) }
{
    let ladder = world.ladder();
    match ladder.find(octets) {
        Some(row) => ladder.row(row).origin == Origin::Root,
        None => false,
    }
}

// The first key that a phone has from this row on and another phone has too.
pub(crate) fn crossing(worlds: &[World], phone: u16, first: usize) -> Option<FleetFault>
    requires goes { AllOf Goes worlds.now }
    requires few { length worlds.now ≤ most_phones }
    requires phone { phone < length worlds.now }
    ensures { result ≡ option_map (cross_of phone) (meeting_from (others_in phone worlds.now) first (drop first (ladder_at (ladders_in worlds.now) phone))) }
{
    let ladder = worlds[phone as usize].ladder();
    for number in first..ladder.len() {
        let row = Row(number as u32);
        let key = ladder.row(row).octets;
        if let Some((other, other_row)) = row_elsewhere(worlds, phone, &key) {
            return Some(FleetFault::Cross {
                phone,
                row,
                other,
                other_row,
            });
        }
    }
    None
}

// The least other phone whose ladder has a row with these octets, and that row.
fn row_elsewhere(worlds: &[World], phone: u16, octets: &[u8; 32]) -> Option<(u16, Row)>
    requires goes { AllOf Goes worlds.now }
    requires few { length worlds.now ≤ most_phones }
    ensures { option_map (λ at. (at.0, at.1.0)) result ≡ row_among (others_in phone worlds.now) octets.now }
{
    for number in 0..worlds.len() {
        if let Some(row) = row_at(worlds, number, phone, octets) {
            return Some((number as u16, row));
        }
    }
    None
}

// The row with these octets of the phone of this number, if it is another one.
fn row_at(worlds: &[World], number: usize, phone: u16, octets: &[u8; 32]) -> Option<Row>
    requires goes { AllOf Goes worlds.now }
    requires stands { number < length worlds.now }
    ensures { option_map (λ r. r.0) result ≡ row_of (ladder_at (others_in phone worlds.now) number) octets.now }
{
    if number == phone as usize {
        return None;
    }
    worlds[number].ladder().find(octets)
}
