ghost use Rattle.std.specs.Prelude.{◌≡◌, ◌≤◌, length};

/// A key of a scenario, at its top or in one of its tables.
#[derive(Clone, Copy, Debug)]
pub enum Field {
    /// `phone`: the table of the phone; in a step of a fleet, the number of a phone.
    Phone,
    /// `core`: the table of the core; in a station beside two cores, the number of its core.
    Core,
    /// `station`: the tables of the stations; in a step, the number of a station.
    Station,
    /// `step`: the tables of the steps.
    Step,
    /// `caps`: capabilities of the phone.
    Caps,
    /// `priority`: encryption algorithms, the preferred one first.
    Priority,
    /// `first`: the first number that the core or a station draws.
    First,
    /// `first_ncc`: the NCC of the first pair of NH and NCC that the core sends for a chain.
    FirstNcc,
    /// `id`: the number of a station.
    Id,
    /// `cells`: the cells of a station.
    Cells,
    /// `do`: what happens in a step.
    Do,
    /// `ksi`: a KSI.
    Ksi,
    /// `kasme`: a KASME.
    Kasme,
    /// `cell`: the cell of a connection or of a handover.
    Cell,
    /// `record`: the number of a record.
    Record,
    /// `from`: who sends a text.
    From,
    /// `bearer`: a radio bearer, or NAS.
    Bearer,
    /// `text`: the text that is sent.
    Text,
    /// `who`: whose COUNTs are passed over.
    Who,
    /// `n`: how many COUNTs are passed over.
    N,
    /// `to`: who gets injected octets.
    To,
    /// `air`: an address on the radio interface.
    Air,
    /// `octets`: injected octets.
    Octets,
    /// `fleet`: the table of the fleet.
    Fleet,
    /// `phones`: how many phones a fleet has.
    Phones,
}

impl Field {
    ghost use Rattle.scenario_file.specs.Field.{name_of};

    /// The key as a scenario writes it: at most nine letters.
    pub fn name(self) -> &'static str
        ensures name { result.now ≡ name_of self }
        ensures short { length result.now ≤ 9 }
    {
        match self {
            Field::Phone => "phone",
            Field::Core => "core",
            Field::Station => "station",
            Field::Step => "step",
            Field::Caps => "caps",
            Field::Priority => "priority",
            Field::First => "first",
            Field::FirstNcc => "first_ncc",
            Field::Id => "id",
            Field::Cells => "cells",
            Field::Do => "do",
            Field::Ksi => "ksi",
            Field::Kasme => "kasme",
            Field::Cell => "cell",
            Field::Record => "record",
            Field::From => "from",
            Field::Bearer => "bearer",
            Field::Text => "text",
            Field::Who => "who",
            Field::N => "n",
            Field::To => "to",
            Field::Air => "air",
            Field::Octets => "octets",
            Field::Fleet => "fleet",
            Field::Phones => "phones",
        }
    }
}
