// Handover commands and key changes, as the phone obeys them (TS 33.401 7.2.8.4.4 and 7.2.9.2, TS 36.331
// 5.3.5.4).
ghost use Rattle.std.specs.Prelude.{◌≡◌, ◌≤◌, ◌++◌, None, Some, true, length, map};
ghost use Rattle.key_model.specs.Derivation.{derived_of};
ghost use Rattle.key_model.specs.HandoverLines.{steps_to};
ghost use Rattle.key_model.specs.Reading.{octet_reading};
ghost use Rattle.pdcp_guard.specs.AsKeys.{as_keys_of, as_derivations};
ghost use Rattle.rrc_rec.specs.declared.records.RrcRecord.TheVariants.{ReconfigurationComplete};
ghost use Rattle.lte_machine.specs.Bearers.{Signalling1, new_bearers, srb_sent};
ghost use Rattle.lte_machine.specs.PhoneChoice.{change_taken, command_taken};
ghost use Rattle.lte_machine.specs.PhoneKeys.{rrc_sealed};
ghost use Rattle.lte_machine.specs.PhoneRows.{HandedOver, KeyChanged};
ghost use Rattle.lte_machine.specs.Calls.{sending};
ghost use Rattle.nas_smc.specs.PhoneNas.{NasPart};
ghost use Rattle.ue_context.specs.Parts.{linked};
ghost use Rattle.ue_context.specs.Step.{by_air};

use crate::link::Link;
use alg_choice::{Algs, supports};
use annex_a_keys::{Cell, Derived, Star};
use lte_events::{ActorOut, Answer, KeyNote};
use nas_smc::PhoneNas;
use nh_chain::PhoneChain;
use pdcp_guard::AsKeys;
use radio_bearers::Bearers;
use rec_base::{Bearer, Dir, Way};
use rrc_rec::RrcRecord;

impl Link {
    // A handover command on SRB1: with algorithms of the phone's own.
    pub(crate) fn hand_over(
        &mut self,
        nas: &PhoneNas,
        cell: &Cell,
        ncc: u8,
        algs: Algs,
        station: u8,
        air: u32,
        out: &mut ActorOut,
    )
        requires { ncc ≤ 7 }
        ensures { (linked nas.now self.new, out.new) ≡ by_air (linked nas.now self.old) None
            (command_taken nas.now.caps Signalling1 self.old.chain.number cell.now ncc algs station air) }
    {
        if !supports(&nas.caps(), &algs) {
            return out.only(Answer::AlgUnsupported(algs));
        }
        self.obey(cell, ncc, algs, station, air, out)
    }

    // KeNB* for the cell of what the chain reaches on the NCC (TS 33.401 7.2.8.4.4).
    fn obey(&mut self, cell: &Cell, ncc: u8, algs: Algs, station: u8, air: u32, out: &mut ActorOut)
        requires { ncc ≤ 7 }
        ensures { (n : NasPart) → (linked n self.new, out.new) ≡ by_air (linked n self.old) None
            (HandedOver cell.now (steps_to self.old.chain.number ncc) algs station air) }
    {
        let (star, way, made) = self.chain.reach(&self.kenb, ncc, cell);
        self.arrive(star, way, made.as_slice(), algs, station, air, out)
    }

    // A key change: the same test, and the KASME of the NAS context in use is another one than that of the
    // connection.
    pub(crate) fn change_key(
        &mut self,
        nas: &PhoneNas,
        cell: &Cell,
        algs: Algs,
        station: u8,
        air: u32,
        out: &mut ActorOut,
    )
        ensures { (linked nas.now self.new, out.new) ≡ by_air (linked nas.now self.old) None
            (change_taken nas.now.caps Signalling1 cell.now algs station air) }
    {
        if !supports(&nas.caps(), &algs) {
            return out.only(Answer::AlgUnsupported(algs));
        }
        self.renew(nas, cell, algs, station, air, out)
    }

    // A new chain that begins with KeNB of the KASME in use and COUNT 0, and KeNB* of it for the cell (TS
    // 33.401 7.2.9.2, A.3 and A.5).
    fn renew(
        &mut self,
        nas: &PhoneNas,
        cell: &Cell,
        algs: Algs,
        station: u8,
        air: u32,
        out: &mut ActorOut,
    )
        ensures { (linked nas.now self.new, out.new) ≡ by_air (linked nas.now self.old) None (KeyChanged cell.now algs station air) }
    {
        let Some(root) = nas.root() else {
            return out.only(Answer::Done);
        };
        if self.chain.is_of(&root) {
            return out.only(Answer::NoTrigger);
        }
        let (kenb, first) = root.kenb(0);
        let (star, second) = kenb.star(cell);
        self.chain = PhoneChain::begin(&root, &kenb);
        self.arrive(
            star,
            Way::Initial,
            &[first, second],
            algs,
            station,
            air,
            out,
        )
    }

    // The connection in its new cell: new keys, all bearers anew, and RRCConnectionReconfigurationComplete
    // (TS 36.331 5.3.5.4, TS 36.323 5.2).
    fn arrive(
        &mut self,
        star: Star,
        way: Way,
        made: &[Derived],
        algs: Algs,
        station: u8,
        air: u32,
        out: &mut ActorOut,
    )
        requires { length made.now ≤ 8 }
        ensures link { self.new ≡ record {
          station = station;
          air = air;
          chain = self.old.chain;
          kenb = star;
          keys = as_keys_of octet_reading star algs;
          bearers = srb_sent Signalling1 new_bearers;
          by_handover = true;
        } }
        ensures value { out.new ≡ record (sending (rrc_sealed (as_keys_of octet_reading star algs) station air Signalling1 0 ReconfigurationComplete)) {
          derived = made.now ++ map derived_of (as_derivations octet_reading star algs);
          note = Some (record { ncc = self.old.chain.number; way = way; key = star });
        } }
    {
        let kenb = star.install();
        let (keys, rest) = AsKeys::derive(&kenb, algs);
        self.station = station;
        self.air = air;
        self.kenb = kenb;
        self.keys = keys;
        self.bearers = Bearers::new();
        self.by_handover = true;
        let note = KeyNote {
            ncc: self.chain.ncc(),
            way,
            key: kenb.octets(),
        };
        let complete = RrcRecord::ReconfigurationComplete.write();
        if !self.bearers.signal(
            &self.keys,
            Dir::Up,
            station,
            air,
            Bearer::Srb1,
            true,
            complete.as_slice(),
            out,
        ) {
            unreachable!()
        }
        out.derived.append(made);
        out.derived.append(rest.as_slice());
        out.note = Some(note);
    }
}
