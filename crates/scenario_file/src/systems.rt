ghost use Rattle.std.specs.Prelude.{◌≡◌};

use crate::Field;

// What kind of system a scenario is written for.
#[derive(Clone, Copy)]
pub(crate) enum System {
    // One phone and one core.
    Single,
    // Many phones over the same stations and core.
    Fleet,
    // One phone and two cores.
    TwoCores,
}

impl System {
    ghost use Rattle.scenario_file.specs.Systems.{more_at_top, more_of_station, more_of_step};

    // The tables that its scenarios have beside those of every scenario.
    pub(crate) fn more_at_top(self) -> &'static [Field]
        ensures { result.now ≡ more_at_top self }
    {
        match self {
            System::Fleet => &[Field::Fleet],
            System::Single | System::TwoCores => &[],
        }
    }

    // The fields that its stations have beside those of every scenario.
    pub(crate) fn more_of_station(self) -> &'static [Field]
        ensures { result.now ≡ more_of_station self }
    {
        match self {
            System::TwoCores => &[Field::Core],
            System::Single | System::Fleet => &[],
        }
    }

    // The fields that its steps have beside those of every scenario.
    pub(crate) fn more_of_step(self) -> &'static [Field]
        ensures { result.now ≡ more_of_step self }
    {
        match self {
            System::Fleet => &[Field::Phone],
            System::Single | System::TwoCores => &[],
        }
    }
}
