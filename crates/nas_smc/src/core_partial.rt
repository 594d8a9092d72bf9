ghost use Rattle.std.specs.Prelude.{◌≡◌, ◌+◌, ◌≤◌, IfNone, IfSome, None, Some, true, false, map, nat_le};
ghost use Rattle.lte_events.specs.declared.answers.Answer.TheVariants.{Done};
ghost use Rattle.key_model.specs.Derivation.{derived_of};
ghost use Rattle.key_model.specs.Reading.{octet_reading};
ghost use Rattle.nas_count.specs.Estimate.{nas_count_limit};
ghost use Rattle.lte_machine.specs.CoreKeys.{smc_command};
ghost use Rattle.lte_machine.specs.PhoneState.{nas_keys_of, nas_derivations};
ghost use Rattle.nas_smc.specs.NasOut.{sending};

use crate::NasOut;
use crate::judging::nas_keys;
use crate::protection::protect;
use alg_choice::{Algs, Caps};
use annex_a_keys::Kasme;
use nas_count::TxCount;
use nas_guard::NasKeys;
use nas_rec::NasRecord;
use rec_base::Dir;
use std::marker::Model;

// What an authentication left at the core: KSI, KASME and the capabilities of the phone, the next downlink
// COUNT, and the keys of the Security Mode procedure where one is open (TS 24.301 4.4.2 and 5.4.3).
#[derive(Drop)]
pub(crate) struct CorePartial {
    pub(crate) ksi: u8,
    pub(crate) root: Kasme,
    pub(crate) caps: Caps,
    pub(crate) send: TxCount,
    pub(crate) procedure: Option<NasKeys>,
}

impl Model for CorePartial {
    ghost use Rattle.std.specs.Prelude.{◌≤◌};
    ghost use Rattle.nas_smc.specs.CoreNas.{CoreLeft};

    ghost Value = { CoreLeft };

    ghost view = { λ p. record {
      partial = record { ksi = p.ksi; root = p.root; caps = p.caps; send = p.send };
      procedure = p.procedure;
    } };

    ghost invariant = { λ p. p.ksi ≤ 6 };
}

impl CorePartial {
    // Opens the procedure with a SECURITY MODE COMMAND, under the keys of these algorithms and the next
    // downlink COUNT, or does nothing where none is left (TS 24.301 5.4.3.2).
    pub(crate) fn command(&mut self, algs: Algs) -> Option<NasOut>
        ensures spent { IfNone result (nat_le nas_count_limit self.old.partial.send ≡ true) }
        ensures same { IfNone result (self.new ≡ self.old) }
        ensures left { IfSome result (λ out. nat_le nas_count_limit self.old.partial.send ≡ false) }
        ensures new { IfSome result (λ out. self.new ≡ record {
          partial = record self.old.partial { send = self.old.partial.send + 1 };
          procedure = Some (nas_keys_of octet_reading self.old.partial.root algs);
        }) }
        ensures value { IfSome result (λ out. out ≡ record (sending Done
            (smc_command (nas_keys_of octet_reading self.old.partial.root algs).int self.old.partial.send self.old.partial.ksi algs self.old.partial.caps))
            { derived = map derived_of (nas_derivations octet_reading self.old.partial.root algs) }) }
    {
        let (keys, derived) = nas_keys(&self.root, algs);
        let told = NasRecord::SecurityModeCommand {
            ksi: self.ksi,
            algs,
            caps: self.caps,
        };
        let (out, _) = protect(&keys, &mut self.send, 3, Dir::Down, &told)?;
        self.procedure = Some(keys);
        Some(NasOut { derived, ..out })
    }

    // The procedure ends, and what the authentication left stays (TS 24.301 5.4.3.5).
    pub(crate) fn close(&mut self)
        ensures { self.new ≡ record self.old { procedure = None } }
    {
        self.procedure = None;
    }
}
