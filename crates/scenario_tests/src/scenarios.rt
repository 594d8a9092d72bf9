mod generated;
mod systems;

use lte_events::{Event, Events};

// A phone with EEA0, 128-EEA2 and 128-EIA2, and one station with one cell.
const PHONE: &str = "phone={caps='a020'}\n";

const STATION: &str = "station=[{id=1,cells=[[10,100]]}]\n";

// An event by its number, if there are so many.
fn event_at(events: &Events, number: usize) -> Option<Event> {
    if number < events.len() {
        Some(events.at(number))
    } else {
        None
    }
}
