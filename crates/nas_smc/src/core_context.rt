ghost use Rattle.std.specs.Prelude.{◌≡◌, ◌+◌, ◌≤◌, ◌<◌, IfNone, IfSome, true, false, nat_le};
ghost use Rattle.rec_base.specs.declared.uses.Dir.TheVariants.{Down};
ghost use Rattle.lte_events.specs.declared.answers.Answer.TheVariants.{Done};
ghost use Rattle.nas_count.specs.Estimate.{nas_count_limit};
ghost use Rattle.nas_rec.specs.Spelling.{InRange};
ghost use Rattle.nas_rec.specs.declared.records.NasRecord.TheVariants.{NasData};
ghost use Rattle.lte_machine.specs.Bearers.{skipped};
ghost use Rattle.lte_machine.specs.CoreKeys.{nas_sent_to, nas_taken, nas_text};
ghost use Rattle.nas_smc.specs.NasOut.{sending};

use crate::NasOut;
use crate::context::Context;
use alg_choice::Caps;
use nas_rec::NasRecord;
use rec_base::{Dir, ShortText};
use std::marker::Model;

// The NAS context in use at the core: keys and COUNTs, and the capabilities of the phone that it was made
// with (TS 33.401 7.2.4.4).
#[derive(Drop)]
pub(crate) struct CoreContext {
    pub(crate) nas: Context,
    pub(crate) caps: Caps,
}

impl Model for CoreContext {
    ghost use Rattle.std.specs.Prelude.{List, ℕ};
    ghost use Rattle.lte_machine.specs.CoreState.{CoreContext as InUse};

    ghost Value = { InUse (List ℕ) };

    ghost view = { λ c. record { nas = c.nas; caps = c.caps } };
}

impl CoreContext {
    // Sends a NAS text, ciphered, under the next downlink COUNT, which it takes, or nothing where none is
    // left (TS 24.301 4.4.5).
    pub(crate) fn send(&mut self, text: &ShortText) -> Option<NasOut>
        ensures spent { IfNone result (nat_le nas_count_limit self.old.nas.send ≡ true) }
        ensures same { IfNone result (self.new ≡ self.old) }
        ensures left { IfSome result (λ out. nat_le nas_count_limit self.old.nas.send ≡ false) }
        ensures new { IfSome result (λ out. self.new ≡ nas_sent_to (self.old.nas.send + 1) self.old) }
        ensures value { IfSome result (λ out. out ≡ sending Done (nas_text self.old.nas.keys self.old.nas.send text.now)) }
    {
        let (out, _) = self.nas.protect(2, Dir::Down, &data(text))?;
        Some(out)
    }

    // Takes an uplink COUNT whose message was verified (TS 24.301 4.4.3.1).
    pub(crate) fn accept(&mut self, count: u32)
        requires at_or_above { self.old.nas.receive ≤ count }
        requires below { count < nas_count_limit }
        ensures { self.new ≡ nas_taken count self.old }
    {
        self.nas.accept(count);
    }

    // Leaves out so many downlink COUNTs.
    pub(crate) fn skip(&mut self, n: u32)
        ensures { self.new ≡ nas_sent_to (skipped n self.old.nas.send nas_count_limit) self.old }
    {
        self.nas.skip(n);
    }
}

// A NAS text as a record.
fn data(text: &ShortText) -> NasRecord
    ensures value { result ≡ NasData text.now }
    ensures in_range { InRange result }
{
    let mut copy = ShortText::new();
    copy.append(text.as_slice());
    NasRecord::NasData(copy)
}
