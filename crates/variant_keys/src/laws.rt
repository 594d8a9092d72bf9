// What is told of keys, of a scenario and of its variants.
ghost use Rattle.std.specs.Prelude.{◌≡◌, ◌≤◌, length};
ghost use Rattle.item_faults.specs.Entries.{most_steps};
ghost use Rattle.lte_events.specs.Scenario.{IsScenario};
ghost use Rattle.variant_keys.specs.Told.{KeysAreTold};
ghost use Rattle.variant_runs.specs.Original.{own_lines};

use lte_events::{Events, Setup};

/// What is told of keys that differ, of a scenario of a few steps that no coincidence ends, is exact, and what heals leads to one key.
pub fn keys_are_told(setup: &Setup, events: &Events)
    requires scenario { IsScenario setup.now events.now.items }
    requires few { length events.now.items ≤ most_steps }
    ensures told { length (own_lines setup.now events.now.items) ≡ length events.now.items → KeysAreTold setup.now events.now.items }
{
    // This brings into the proof that there are at most eight.
    let _ = setup.stations.as_slice();
}
