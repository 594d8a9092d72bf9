// What is read from the actors and from what is kept beside them.
ghost use Rattle.std.specs.Prelude.{◌≡◌, length, option_map};
ghost use Rattle.lte_machine.specs.World.{station_of_id};
ghost use Rattle.ue_context.specs.Step.{kenb_of};
ghost use Rattle.lte_world.specs.Whole.{actor_air, context_kenb, station_air};

use crate::system::{System, place_of};
use key_terms::Ladder;
use lte_events::Who;
use rec_base::Use;

impl System {
    // The ladder.
    pub fn ladder(&self) -> &Ladder
        ensures { result.now.rows ≡ self.now.stores.rows }
    {
        &self.network.ladder
    }

    // How many records were sent.
    pub fn records(&self) -> u32
        ensures { result ≡ length self.now.stores.records }
    {
        self.network.bag.len()
    }

    // The uses of keys.
    pub fn uses(&self) -> &[Use]
        ensures { result.now ≡ self.now.stores.uses }
    {
        self.network.uses.as_slice()
    }

    // The KeNB of the phone's connection.
    pub fn phone_kenb(&self) -> Option<[u8; 32]>
        ensures { result ≡ kenb_of self.now.phone.radio }
    {
        self.phone.kenb()
    }

    // The KeNB of a station's context.
    pub fn station_kenb(&self, id: u8) -> Option<[u8; 32]>
        ensures { result ≡ context_kenb (station_of_id id self.now.stations) }
    {
        let Some(place) = place_of(&self.ids, id) else {
            return None;
        };
        self.stations[place].kenb()
    }

    // The station at which the core has the phone.
    pub fn core_station(&self) -> Option<u8>
        ensures { result ≡ option_map (λ l. l.station) self.now.core.link }
    {
        self.core.station()
    }

    // For which air address a key of who acted is.
    pub fn address(&self, who: &Who) -> Option<(u8, u32)>
        ensures { result ≡ actor_air self.now.phone.radio self.now.stations who.now }
    {
        match who {
            Who::Phone => self.phone.place(),
            Who::Station(id) => self.station_drawn(*id),
            _ => None,
        }
    }

    // A station's number, and the number that it drew last.
    fn station_drawn(&self, id: u8) -> Option<(u8, u32)>
        ensures { result ≡ station_air (station_of_id id self.now.stations) }
    {
        let Some(place) = place_of(&self.ids, id) else {
            return None;
        };
        self.stations[place].drawn()
    }
}
