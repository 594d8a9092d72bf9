// The end of a Security Mode procedure while a connection stands (TS 33.401 7.2.9.2).
ghost use Rattle.std.specs.Prelude.{◌≡◌, ◌≤◌, ◌<◌};
ghost use Rattle.nas_smc.specs.CoreNas.{changed, completes};

use crate::Core;
use crate::link::{Link, begin};
use annex_a_keys::Kasme;
use lte_events::{ActorOut, Address, KeyNote, Record};
use nas_smc::NasOut;
use rec_base::Way;
use s1x2_rec::CoreRecord;

impl Core {
    // A new context is in use: a connection changes its key at once, where a number is left for it.
    pub(crate) fn complete(&mut self, said: NasOut, count: u32, out: &mut ActorOut)
        ensures { (self.new, out.new) ≡ completes self.old said count self.old.link }
    {
        let next = self.number();
        let Some(link) = &self.link else {
            return self.trigger_by(said, count, out);
        };
        let (conn, station) = (link.conn, link.station);
        let Some(next) = next else {
            return self.trigger_by(said, count, out);
        };
        let Some(root) = self.nas.root() else {
            return said.tell(Address::PhoneNas, None, out);
        };
        self.change_key(said, &root, count, conn, station, next, out)
    }

    // The station gets KeNB of the new KASME and this COUNT, and the connection goes on under the next number
    // with a chain that begins anew (TS 33.401 A.3, TS 36.413 8.3.4).
    fn change_key(
        &mut self,
        said: NasOut,
        root: &Kasme,
        count: u32,
        conn: u32,
        station: u8,
        next: u32,
        out: &mut ActorOut,
    )
        requires conn { 1 ≤ conn }
        requires station { station ≤ 7 }
        requires next { 1 ≤ next }
        ensures { (self.new, out.new) ≡ changed self.old said root.now count conn station next }
    {
        let begun = begin(root, count, self.first_ncc);
        let message = CoreRecord::ContextModification {
            conn,
            next,
            kenb: begun.kenb,
        };
        let note = KeyNote {
            ncc: 0,
            way: Way::Initial,
            key: begun.kenb.octets(),
        };
        said.tell(Address::PhoneNas, None, out);
        out.sent = Some(Record {
            to: Address::StationS1(station),
            octets: message.write(),
        });
        out.derived.clear();
        out.derived.append(begun.made.as_slice());
        out.note = Some(note);
        self.trigger = None;
        self.next = u64::from(next) + 1;
        self.link = Some(Link {
            conn: next,
            chain: begun.chain,
            station,
        });
    }
}
