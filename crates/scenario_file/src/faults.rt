ghost use Rattle.std.specs.Prelude.{◌≡◌, ◌≢◌};

use crate::Field;
use std::alloc::{AllocError, AllocFailed};

/// Why a text is no scenario: the first fault, in the order of the text's parts. A fault in a step
/// names the step, counted from 0, and one before the steps none.
#[derive(Clone, Copy, Debug, Drop)]
pub enum ScenarioFault {
    /// Std refused memory. This says nothing of the text.
    Memory,
    /// The text is not a TOML document.
    NotToml,
    /// A required field is missing.
    Missing(Option<u32>, Field),
    /// A field has a value that it does not take.
    Wrong(Option<u32>, Field),
    /// A key is not a field of its table.
    Unknown(Option<u32>),
    /// There are more than 200,000 steps.
    TooMany,
}

impl From<AllocError> for ScenarioFault {
    ghost use Rattle.std.specs.Prelude.{◌≡◌};
    ghost use Rattle.scenario_file.specs.declared.faults.ScenarioFault.TheVariants.{Memory};

    ghost from_gives = { λ _ fault. fault ≡ Memory };

    fn from(_fault: AllocError) -> ScenarioFault {
        ScenarioFault::Memory
    }
}

impl<T: Drop> From<AllocFailed<T>> for ScenarioFault {
    ghost use Rattle.std.specs.Prelude.{◌≡◌};
    ghost use Rattle.scenario_file.specs.declared.faults.ScenarioFault.TheVariants.{Memory};

    ghost from_gives = { λ _ fault. fault ≡ Memory };

    fn from(_fault: AllocFailed<T>) -> ScenarioFault {
        ScenarioFault::Memory
    }
}

// Why a table is refused, before it is said which table it is.
#[derive(Clone, Copy, Drop)]
pub(crate) enum Refusal {
    // A field that must stand does not.
    Missing(Field),
    // A field has a value that it does not take.
    Wrong(Field),
    // A key is none of the fields of the table.
    Unknown,
}

impl Refusal {
    ghost use Rattle.scenario_file.specs.Reading.{fault_at};

    // The refusal of a step's table, or of a table before the steps.
    pub(crate) fn at(self, step: Option<u32>) -> ScenarioFault
        ensures value { result ≡ fault_at step self }
        ensures of_text { result ≢ ScenarioFault.Memory }
    {
        match self {
            Refusal::Missing(field) => ScenarioFault::Missing(step, field),
            Refusal::Wrong(field) => ScenarioFault::Wrong(step, field),
            Refusal::Unknown => ScenarioFault::Unknown(step),
        }
    }
}
