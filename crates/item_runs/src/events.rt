// One event of a system that no coincidence ended.
ghost use Rattle.growth.specs.Growth.{WasRefused};
ghost use Rattle.std.specs.Prelude.{◌≡◌, ◌≢◌, ◌<◌, length, Err, OnOk};
ghost use Rattle.lte_events.specs.Scenario.{most_events, CanHappen};
ghost use Rattle.lte_machine.specs.Run.{GoesOn};
ghost use Rattle.lte_world.specs.Whole.{journal_after, run_of};
ghost use Rattle.item_runs.specs.Course.{place_of, told_written};

use lte_events::{Event, Line, Who};
use lte_world::{World, WorldFault};

// Lets it happen. The answer is what the written machine's run tells of it, or `Memory`, where std refuses memory and nothing happens.
pub(crate) fn happen(world: &mut World, event: &Event) -> Result<Line, WorldFault>
    requires goes_on { GoesOn (run_of world.old) }
    requires can_happen { CanHappen world.old.setup event.now }
    requires few { length world.old.journal < most_events }
    ensures refused { result ≡ Err WorldFault.Memory → WasRefused }
    ensures same { result ≡ Err WorldFault.Memory → world.new ≡ world.old }
    ensures told { result ≢ Err WorldFault.Memory → result ≡ told_written world.old.setup world.old.journal event.now }
    ensures journal { world.new.journal ≡ journal_after result world.old.journal event.now }
    ensures setup { world.new.setup ≡ world.old.setup }
    ensures goes { OnOk result (GoesOn (run_of world.new)) }
{
    match world.reserve() {
        Ok(()) => world.apply(event),
        Err(fault) => Err(fault),
    }
}

// For which air address a key of who acted in the last event is.
pub(crate) fn place(world: &World, who: &Who) -> Option<(u8, u32)>
    requires goes_on { GoesOn (run_of world.now) }
    ensures { result ≡ place_of world.now.setup world.now.journal who.now }
{
    world.address(who)
}
