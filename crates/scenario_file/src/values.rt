// What a field of a table holds, each kind of value once.
ghost use Rattle.std.specs.Prelude.{◌≡◌, ◌≤◌, ◌<◌, IfOk, IfSome, IsTrue, is_some, option_and_then, length};
ghost use Rattle.std.specs.Option.{option_map};
ghost use Rattle.std.specs.List.{list_all};
ghost use Rattle.toml.specs.Data.{get_member, as_table};
ghost use Rattle.toml.specs.View.{table_view, array_view, items_view, view};
ghost use Rattle.annex_a_keys.specs.Cell.{IsCell};
ghost use Rattle.lte_events.specs.Ranges.{has_station};
ghost use Rattle.rec_base.specs.Bearer.{IsSrb, IsDrb};
ghost use Rattle.rec_base.specs.Ranges.{IsText, IsKey};
ghost use Rattle.alg_choice.specs.Caps.{IsCaps};
ghost use Rattle.scenario_file.specs.Field.{name_of};
ghost use Rattle.scenario_file.specs.Words.{natural, in_range};
ghost use Rattle.scenario_file.specs.Values.{result_map, value_in, word_in, integer_in, array_in, table_in, are_tables, tables_in, number_in, any_number_in, first_in, first_ncc_in, station_in, act_in, actor_in, radio_end_in, nas_end_in, srb_in, drb_in, bearer_in, nas_in, path_in, caps_in, key_in, octets_in, cell_of_items, cell_of, cell_in, eea_at, both_of, priority_of_items, priority_in};

use crate::Field;
use crate::faults::Refusal;
use crate::words::{self, Act, Actor, NasEnd, RadioEnd};
use alg_choice::{Caps, Eea, Priority};
use annex_a_keys::Cell;
use lte_events::{FirstNcc, Setup, StationSetup};
use rec_base::{Bearer, Bounded};
use toml::{Table, Value};

// The value of a field, where it stands.
pub(crate) fn found(table: &Table, field: Field) -> Option<&Value>
    ensures { option_map (λ v. view v.now) result ≡ get_member (name_of field) (table_view table.now) }
{
    table.get(field.name())
}

// The value of a field that must stand.
pub(crate) fn value(table: &Table, field: Field) -> Result<&Value, Refusal>
    ensures { result_map (λ v. view v.now) result ≡ value_in field (table_view table.now) }
{
    found(table, field).ok_or(Refusal::Missing(field))
}

// A text.
#[tactic(auto, unfolding(crate::specs::Values::word_in))]
fn word(table: &Table, field: Field) -> Result<&str, Refusal>
    ensures { result_map (λ s. s.now) result ≡ word_in field (table_view table.now) }
{
    value(table, field)?.as_str().ok_or(Refusal::Wrong(field))
}

// An integer.
#[tactic(auto, unfolding(crate::specs::Values::integer_in))]
pub(crate) fn integer(table: &Table, field: Field) -> Result<i64, Refusal>
    ensures { result ≡ integer_in field (table_view table.now) }
{
    value(table, field)?
        .as_integer()
        .ok_or(Refusal::Wrong(field))
}

// An array.
#[tactic(auto, unfolding(crate::specs::Values::array_in))]
pub(crate) fn array(table: &Table, field: Field) -> Result<&[Value], Refusal>
    ensures { result_map (λ vs. items_view vs.now) result ≡ array_in field (table_view table.now) }
{
    match value(table, field)?.as_array() {
        Some(values) => Ok(values.as_slice()),
        None => Err(Refusal::Wrong(field)),
    }
}

// A table.
#[tactic(auto, unfolding(crate::specs::Values::table_in))]
pub(crate) fn table(table: &Table, field: Field) -> Result<&Table, Refusal>
    ensures { result_map (λ t. table_view t.now) result ≡ table_in field (table_view table.now) }
{
    value(table, field)?.as_table().ok_or(Refusal::Wrong(field))
}

// An array of tables.
#[tactic(auto, unfolding(crate::specs::Values::tables_in))]
pub(crate) fn tables(table: &Table, field: Field) -> Result<&[Value], Refusal>
    ensures { result_map (λ vs. items_view vs.now) result ≡ tables_in field (table_view table.now) }
{
    let values = array(table, field)?;
    if are_tables(values) {
        Ok(values)
    } else {
        Err(Refusal::Wrong(field))
    }
}

#[tactic(auto, using(crate::proofs::Elements::all_tables))]
fn are_tables(values: &[Value]) -> bool
    ensures { result ≡ are_tables (items_view values.now) }
{
    each_is_table(values)
}

fn each_is_table(values: &[Value]) -> bool
    ensures { result ≡ list_all (λ v. is_some (as_table (view v))) values.now }
{
    values.iter().all(|value| value.is_table())
}

// A number from `low` to `high`.
#[tactic(auto, unfolding(crate::specs::Values::number_in))]
pub(crate) fn number(table: &Table, field: Field, low: u32, high: u32) -> Result<u32, Refusal>
    ensures value { result ≡ number_in low high field (table_view table.now) }
    ensures within { IfOk result (λ n. n ≤ high) }
{
    let integer = integer(table, field)?;
    within(low, high, integer).ok_or(Refusal::Wrong(field))
}

fn within(low: u32, high: u32, integer: i64) -> Option<u32>
    ensures value { result ≡ option_and_then (in_range low high) (natural integer) }
    ensures within { IfSome result (λ n. n ≤ high) }
{
    words::in_range(low, high, words::natural(integer)?)
}

// A number of 32 bits.
pub(crate) fn any_number(table: &Table, field: Field) -> Result<u32, Refusal>
    ensures { result ≡ any_number_in field (table_view table.now) }
{
    number(table, field, 0, u32::MAX)
}

// The first number that is drawn.
pub(crate) fn first(table: &Table, field: Field) -> Result<u32, Refusal>
    ensures { result ≡ first_in field (table_view table.now) }
{
    number(table, field, 1, u32::MAX)
}

// The NCC of the first pair that the core sends.
#[tactic(auto, unfolding(crate::specs::Values::first_ncc_in))]
pub(crate) fn first_ncc(table: &Table, field: Field) -> Result<FirstNcc, Refusal>
    ensures { result ≡ first_ncc_in field (table_view table.now) }
{
    words::first_ncc(integer(table, field)?).ok_or(Refusal::Wrong(field))
}

// Whether one of the stations has this number.
pub(crate) fn has_station(stations: &[StationSetup], id: u8) -> bool
    ensures { result ≡ has_station stations.now id }
{
    stations.iter().any(|station| station.id == id)
}

// One of the stations, by its number.
#[tactic(auto, unfolding(crate::specs::Values::station_in))]
pub(crate) fn station(table: &Table, setup: &Setup) -> Result<u8, Refusal>
    ensures value { result ≡ station_in setup.now (table_view table.now) }
    ensures stands { IfOk result (λ id. IsTrue (has_station setup.now.stations id)) }
{
    let id = number(table, Field::Station, 0, 7)? as u8;
    if has_station(setup.stations.as_slice(), id) {
        Ok(id)
    } else {
        Err(Refusal::Wrong(Field::Station))
    }
}

#[tactic(auto, unfolding(crate::specs::Values::act_in))]
pub(crate) fn act_at(table: &Table, field: Field) -> Result<Act, Refusal>
    ensures { result ≡ act_in field (table_view table.now) }
{
    words::act_at(word(table, field)?).ok_or(Refusal::Wrong(field))
}

#[tactic(auto, unfolding(crate::specs::Values::actor_in))]
pub(crate) fn actor_at(table: &Table, field: Field) -> Result<Actor, Refusal>
    ensures { result ≡ actor_in field (table_view table.now) }
{
    words::actor_at(word(table, field)?).ok_or(Refusal::Wrong(field))
}

#[tactic(auto, unfolding(crate::specs::Values::radio_end_in))]
pub(crate) fn radio_end_at(table: &Table, field: Field) -> Result<RadioEnd, Refusal>
    ensures { result ≡ radio_end_in field (table_view table.now) }
{
    words::radio_end_at(word(table, field)?).ok_or(Refusal::Wrong(field))
}

#[tactic(auto, unfolding(crate::specs::Values::nas_end_in))]
pub(crate) fn nas_end_at(table: &Table, field: Field) -> Result<NasEnd, Refusal>
    ensures { result ≡ nas_end_in field (table_view table.now) }
{
    words::nas_end_at(word(table, field)?).ok_or(Refusal::Wrong(field))
}

#[tactic(auto, unfolding(crate::specs::Values::srb_in))]
pub(crate) fn srb(table: &Table, field: Field) -> Result<Bearer, Refusal>
    ensures value { result ≡ srb_in field (table_view table.now) }
    ensures srb { IfOk result IsSrb }
{
    words::srb(word(table, field)?).ok_or(Refusal::Wrong(field))
}

#[tactic(auto, unfolding(crate::specs::Values::drb_in))]
pub(crate) fn drb(table: &Table, field: Field) -> Result<Bearer, Refusal>
    ensures value { result ≡ drb_in field (table_view table.now) }
    ensures drb { IfOk result IsDrb }
{
    words::drb(word(table, field)?).ok_or(Refusal::Wrong(field))
}

#[tactic(auto, unfolding(crate::specs::Values::bearer_in))]
pub(crate) fn bearer(table: &Table, field: Field) -> Result<Bearer, Refusal>
    ensures { result ≡ bearer_in field (table_view table.now) }
{
    words::bearer(word(table, field)?).ok_or(Refusal::Wrong(field))
}

#[tactic(auto, unfolding(crate::specs::Values::nas_in))]
pub(crate) fn nas(table: &Table, field: Field) -> Result<(), Refusal>
    ensures { result ≡ nas_in field (table_view table.now) }
{
    words::nas(word(table, field)?).ok_or(Refusal::Wrong(field))
}

#[tactic(auto, unfolding(crate::specs::Values::path_in))]
pub(crate) fn path(table: &Table, field: Field) -> Result<Option<Bearer>, Refusal>
    ensures { result ≡ path_in field (table_view table.now) }
{
    words::path(word(table, field)?).ok_or(Refusal::Wrong(field))
}

#[tactic(auto, unfolding(crate::specs::Values::caps_in))]
pub(crate) fn caps(table: &Table, field: Field) -> Result<Caps, Refusal>
    ensures value { result ≡ caps_in field (table_view table.now) }
    ensures fits { IfOk result IsCaps }
{
    words::caps(word(table, field)?).ok_or(Refusal::Wrong(field))
}

#[tactic(auto, unfolding(crate::specs::Values::key_in))]
pub(crate) fn key(table: &Table, field: Field) -> Result<[u8; 32], Refusal>
    ensures value { result ≡ key_in field (table_view table.now) }
    ensures fits { IfOk result IsKey }
{
    words::key(word(table, field)?).ok_or(Refusal::Wrong(field))
}

#[tactic(auto, unfolding(crate::specs::Values::octets_in))]
pub(crate) fn octets<const N: usize>(table: &Table, field: Field) -> Result<Bounded<N>, Refusal>
    ensures value { result ≡ octets_in N field (table_view table.now) }
    ensures fits { IfOk result (IsText N) }
{
    words::octets(word(table, field)?).ok_or(Refusal::Wrong(field))
}

// A cell as [PCI, EARFCN-DL].
#[tactic(auto, unfolding(crate::specs::Values::cell_in))]
pub(crate) fn cell(table: &Table, field: Field) -> Result<Cell, Refusal>
    ensures value { result ≡ cell_in field (table_view table.now) }
    ensures fits { IfOk result IsCell }
{
    cell_at(value(table, field)?).ok_or(Refusal::Wrong(field))
}

pub(crate) fn cell_at(value: &Value) -> Option<Cell>
    ensures { result ≡ cell_of (view value.now) }
{
    cell_of_items(value.as_array()?)
}

#[tactic(auto, using(crate::proofs::Elements::no_cell))]
fn cell_of_items(values: &[Value]) -> Option<Cell>
    ensures { result ≡ cell_of_items (items_view values.now) }
{
    match values {
        [] | [_] => None,
        [pci, earfcn] => {
            let pci = words::natural(pci.as_integer()?)?;
            let earfcn = words::natural(earfcn.as_integer()?)?;
            words::place(pci, earfcn)
        }
        [_, _, _, ..] => None,
    }
}

// One or two different encryption algorithms, by their identities.
#[tactic(auto, unfolding(crate::specs::Values::priority_in))]
pub(crate) fn priority(table: &Table, field: Field) -> Result<Priority, Refusal>
    ensures { result ≡ priority_in field (table_view table.now) }
{
    let values = array(table, field)?;
    priority_of(values).ok_or(Refusal::Wrong(field))
}

#[tactic(auto, using(crate::proofs::Elements::no_priority))]
fn priority_of(values: &[Value]) -> Option<Priority>
    ensures { result ≡ priority_of_items (items_view values.now) }
{
    match values {
        [] => None,
        [first] => Some(Priority::new(eea_at(first)?, None)),
        [first, second] => both(eea_at(first)?, eea_at(second)?),
        [_, _, _, ..] => None,
    }
}

fn both(first: Eea, second: Eea) -> Option<Priority>
    ensures { result ≡ both_of first second }
{
    match (first, second) {
        (Eea::Eea0, Eea::Eea0) | (Eea::Eea2, Eea::Eea2) => None,
        (Eea::Eea0, Eea::Eea2) => Some(Priority::new(Eea::Eea0, Some(Eea::Eea2))),
        (Eea::Eea2, Eea::Eea0) => Some(Priority::new(Eea::Eea2, Some(Eea::Eea0))),
    }
}

fn eea_at(value: &Value) -> Option<Eea>
    ensures { result ≡ eea_at (view value.now) }
{
    words::eea(value.as_integer()?)
}
