ghost use Rattle.std.specs.Prelude.{◌≡◌, ◌+◌, ◌≤◌, ◌<◌, IfNone, IfSome, true, false, nat_le};
ghost use Rattle.rec_base.specs.declared.uses.Dir.TheVariants.{Up};
ghost use Rattle.lte_events.specs.declared.answers.Answer.TheVariants.{Done};
ghost use Rattle.nas_count.specs.Estimate.{nas_count_limit};
ghost use Rattle.nas_guard.specs.Seal.{is_ciphered};
ghost use Rattle.nas_rec.specs.Spelling.{spelling_of, InRange};
ghost use Rattle.lte_machine.specs.PhoneKeys.{one_nas_sent};
ghost use Rattle.lte_machine.specs.Wire.{SealedNas, ciphering_if, nas_use, nas_ciphering};
ghost use Rattle.lte_machine.specs.Bearers.{skipped};
ghost use Rattle.nas_smc.specs.NasOut.{sending};

use crate::NasOut;
use crate::protection::protect;
use annex_a_keys::Kasme;
use nas_count::{RxCount, TxCount};
use nas_guard::NasKeys;
use nas_rec::NasRecord;
use rec_base::Dir;
use std::marker::Model;

// The NAS context in use: its KASME, its keys, and the COUNTs of both directions (TS 24.301 4.4.3).
#[derive(Drop)]
pub(crate) struct Context {
    pub(crate) root: Kasme,
    pub(crate) keys: NasKeys,
    pub(crate) send: TxCount,
    pub(crate) receive: RxCount,
}

impl Model for Context {
    ghost use Rattle.std.specs.Prelude.{List, ℕ, ◌≤◌};
    ghost use Rattle.nas_count.specs.Estimate.{nas_count_limit};
    ghost use Rattle.lte_machine.specs.PhoneState.{NasContext};

    ghost Value = { NasContext (List ℕ) };

    ghost view = { λ c. record { root = c.root; keys = c.keys; send = c.send; receive = c.receive } };

    ghost invariant = { λ c. c.send ≤ nas_count_limit };
}

impl Context {
    // Sends a message of the phone under the next uplink COUNT, which it takes, and answers with that
    // COUNT too, or sends nothing where none is left (TS 24.301 4.4.3.3 and 4.4.3.4).
    pub(crate) fn seal(&mut self, header: u8, told: &NasRecord) -> Option<(NasOut, u32)>
        requires above_plain { 1 ≤ header }
        requires at_most_four { header ≤ 4 }
        requires in_range { InRange told.now }
        ensures spent { IfNone result (nat_le nas_count_limit self.old.send ≡ true) }
        ensures same { IfNone result (self.new ≡ self.old) }
        ensures left { IfSome result (λ sent. nat_le nas_count_limit self.old.send ≡ false) }
        ensures new { IfSome result (λ sent. self.new ≡ one_nas_sent self.old) }
        ensures count { IfSome result (λ sent. sent.1 ≡ self.old.send) }
        ensures value { IfSome result (λ sent. sent.0 ≡ sending Done
            (SealedNas Up header (nas_use Up self.old.keys.int self.old.send)
            (ciphering_if (is_ciphered header) (nas_ciphering Up self.old.keys self.old.send))
            (spelling_of told.now))) }
    {
        self.protect(header, Dir::Up, told)
    }

    // The same in a direction.
    pub(crate) fn protect(
        &mut self,
        header: u8,
        dir: Dir,
        told: &NasRecord,
    ) -> Option<(NasOut, u32)>
        requires above_plain { 1 ≤ header }
        requires at_most_four { header ≤ 4 }
        requires in_range { InRange told.now }
        ensures spent { IfNone result (nat_le nas_count_limit self.old.send ≡ true) }
        ensures same { IfNone result (self.new ≡ self.old) }
        ensures left { IfSome result (λ sent. nat_le nas_count_limit self.old.send ≡ false) }
        ensures new { IfSome result (λ sent. self.new ≡ record self.old { send = self.old.send + 1 }) }
        ensures count { IfSome result (λ sent. sent.1 ≡ self.old.send) }
        ensures value { IfSome result (λ sent. sent.0 ≡ sending Done
            (SealedNas dir header (nas_use dir self.old.keys.int self.old.send)
            (ciphering_if (is_ciphered header) (nas_ciphering dir self.old.keys self.old.send))
            (spelling_of told.now))) }
    {
        protect(&self.keys, &mut self.send, header, dir, told)
    }

    // Takes a COUNT whose message was verified (TS 24.301 4.4.3.1).
    pub(crate) fn accept(&mut self, count: u32)
        requires at_or_above { self.old.receive ≤ count }
        requires below { count < nas_count_limit }
        ensures { self.new ≡ record self.old { receive = count + 1 } }
    {
        self.receive.accept(count);
    }

    // Leaves out so many sending COUNTs.
    #[tactic(auto, using(crate::proofs::Counting::skipped_is))]
    pub(crate) fn skip(&mut self, n: u32)
        ensures { self.new ≡ record self.old { send = skipped n self.old.send nas_count_limit } }
    {
        self.send.skip(n);
    }
}
