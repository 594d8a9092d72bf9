// A fleet and a system of two cores, and what they are read as.
use crate::scenarios::{PHONE, STATION, event_at};
use crate::values::{alike_at, same};
use lte_events::{CoreAct, Event, FleetEvents, PhoneAct};
use scenario_file::{read_fleet, read_two};
use std::test::Fail;

// An event of a fleet by its number, with its phone, if there are so many.
fn fleet_event_at(events: &FleetEvents, number: usize) -> Option<(u16, Event)> {
    if number < events.len() {
        Some(events.at(number))
    } else {
        None
    }
}

#[test]
fn a_fleet_is_what_its_tables_say(rt: HostRuntime) -> Result<(), Fail> {
    let text = format!(in rt.alloc();
        "{PHONE}{STATION}[fleet]\nphones=256\n[[step]]\ndo='idle'\nphone=255\n[[step]]\ndo='smc'\n"
    )?;
    let scenario = read_fleet(rt.alloc(), text.as_str().as_bytes())?;
    same(&rt, scenario.phones, 256);
    same(&rt, scenario.setup.stations.as_slice().len(), 1);
    let wanted = [
        (255, Event::Phone(PhoneAct::GoIdle)),
        (0, Event::Core(CoreAct::StartSmc)),
    ];
    same(&rt, scenario.events.len(), 2);
    for (number, step) in wanted.into_iter().enumerate() {
        alike_at(
            &rt,
            number,
            fleet_event_at(&scenario.events, number),
            Some(step),
        );
    }
    Ok(())
}

#[test]
fn two_cores_are_what_their_tables_say(rt: HostRuntime) -> Result<(), Fail> {
    let text = format!(in rt.alloc();
        "{PHONE}station=[\n    {{id=7,cells=[[0,0]],core=1}},\n    {{id=0,cells=[[1,0]]}},\n    \
        {{id=3,cells=[[2,0]],core=1}},\n    {{id=2,cells=[[3,0]],core=0}},\n]\nstep=[{{do='smc'}}]\n"
    )?;
    let scenario = read_two(rt.alloc(), text.as_str().as_bytes())?;
    same(&rt, scenario.setup.stations.as_slice().len(), 4);
    same(&rt, scenario.core_of, [0, 0, 0, 1, 0, 0, 0, 1]);
    same(&rt, scenario.events.len(), 1);
    let event = Event::Core(CoreAct::StartSmc);
    assert!(rt; event_at(&scenario.events, 0) == Some(event));
    Ok(())
}
