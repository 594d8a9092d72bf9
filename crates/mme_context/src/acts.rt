// Acts of the core, and the next connection number.
ghost use Rattle.std.specs.Prelude.{◌≡◌, ◌≤◌, length, IfNone, IfSome, Some, true, false, nat_le};
ghost use Rattle.lte_events.specs.declared.acts.CoreAct.TheVariants.{Connect, Release};
ghost use Rattle.lte_machine.specs.CoreChoice.{NUMBERS};
ghost use Rattle.lte_machine.specs.CoreState.{CoreActs};
ghost use Rattle.lte_machine.specs.CoreKeys.{to_station};
ghost use Rattle.lte_machine.specs.Calls.{sending};
ghost use Rattle.rec_base.specs.declared.ways.Way.TheVariants.{Initial};
ghost use Rattle.s1x2_rec.specs.Fields.{InitialContext};
ghost use Rattle.mme_context.specs.Step.{answered};

use crate::Core;
use crate::link::{Link, begin};
use crate::sends::sends;
use alg_choice::Caps;
use annex_a_keys::{Cell, Derived, Kenb};
use lte_events::{ActorOut, Answer, CoreAct, KeyNote};
use rec_base::Way;
use s1x2_rec::CoreRecord;

impl Core {
    // An act of its own.
    pub(crate) fn act(&mut self, act: &CoreAct, out: &mut ActorOut)
        ensures { (self.new, out.new) ≡ answered self.old (CoreActs act.now) }
    {
        match act {
            CoreAct::StartSmc => self.start_smc(out),
            CoreAct::Connect(cell) => self.connect(cell, out),
            CoreAct::Release => self.release(out),
            CoreAct::SendNas(text) => self.send_nas(text, out),
            CoreAct::Skip(n) => self.skip(*n, out),
        }
    }

    // A connection with KeNB of the latest trigger (TS 33.401 7.2.6.2 and A.3, TS 36.413 8.3.1), in place of
    // one that stands.
    fn connect(&mut self, cell: &Cell, out: &mut ActorOut)
        ensures { (self.new, out.new) ≡ answered self.old (CoreActs (Connect cell.now)) }
    {
        let Some(station) = self.cells.station_of(cell) else {
            return out.only(Answer::UnknownCell);
        };
        let Some(root) = self.nas.root() else {
            return out.only(Answer::NoContext);
        };
        let caps = self.caps_in_use();
        let Some(count) = self.trigger else {
            return out.only(Answer::NoTrigger);
        };
        let Some(conn) = self.number() else {
            return out.only(Answer::NumberSpent);
        };
        let begun = begin(&root, count, self.first_ncc);
        begins(
            station,
            conn,
            *cell,
            caps,
            &begun.kenb,
            begun.made.as_slice(),
            out,
        );
        self.trigger = None;
        self.next = u64::from(conn) + 1;
        self.link = Some(Link {
            conn,
            chain: begun.chain,
            station,
        });
    }

    // UE Context Release Command (TS 36.413 8.3.3).
    fn release(&mut self, out: &mut ActorOut)
        ensures { (self.new, out.new) ≡ answered self.old (CoreActs Release) }
    {
        let Some(link) = &self.link else {
            return out.only(Answer::NoUe);
        };
        let (conn, station) = (link.conn, link.station);
        self.link = None;
        sends(station, &CoreRecord::ContextRelease { conn }, out)
    }

    // The next connection number, where one is left.
    pub(crate) fn number(&self) -> Option<u32>
        ensures spent { IfNone result (nat_le NUMBERS self.now.next ≡ true) }
        ensures left { IfSome result (λ number. nat_le NUMBERS self.now.next ≡ false) }
        ensures value { IfSome result (λ number. number ≡ self.now.next) }
        ensures in_range { IfSome result (λ number. 1 ≤ number) }
    {
        if self.next >= 1 << 32 {
            return None;
        }
        Some(self.next as u32)
    }
}

// Initial Context Setup Request (TS 36.413 8.3.1), whose KeNB has NCC 0.
fn begins(
    station: u8,
    conn: u32,
    cell: Cell,
    caps: Caps,
    kenb: &Kenb,
    made: &[Derived],
    out: &mut ActorOut,
)
    requires conn { 1 ≤ conn }
    requires made { length made.now ≤ 2 }
    ensures { out.new ≡ record (sending (to_station station (InitialContext conn cell caps) (Some (record { key = kenb.now; number = 0 }))))
        { derived = made.now; note = Some (record { ncc = 0; way = Initial; key = kenb.now }) } }
{
    let message = CoreRecord::InitialContext {
        conn,
        cell,
        caps,
        kenb: *kenb,
    };
    let note = KeyNote {
        ncc: 0,
        way: Way::Initial,
        key: kenb.octets(),
    };
    sends(station, &message, out);
    out.derived.append(made);
    out.note = Some(note);
}
