// What is done by a verdict.
ghost use Rattle.std.specs.Prelude.{◌≡◌, ◌<◌, ◌≤◌, ◌∷◌, ℕ, List};
ghost use Rattle.nas_guard.specs.Seal.{first_octet};
ghost use Rattle.nas_rec.specs.Spelling.{spelling_of, InRange};
ghost use Rattle.nas_count.specs.Estimate.{nas_count_limit};
ghost use Rattle.lte_machine.specs.PhoneState.{Radio};
ghost use Rattle.nas_smc.specs.declared.judging.Verdict.TheVariants.{Rejected, Taken, Opened};
ghost use Rattle.nas_smc.specs.Judging.{CountFits, cause_of, done_by};
ghost use Rattle.nas_smc.specs.PhoneNas.{phone_after};

use crate::context::Context;
use crate::judging::{Judged, Verdict, nas_keys};
use crate::{NasOut, PhoneNas};
use alg_choice::Algs;
use lte_events::Answer;
use nas_count::{RxCount, TxCount};
use nas_guard::NasPdu;
use nas_rec::NasRecord;
use rec_base::{ShortText, Use};

impl PhoneNas {
    // Does what a verdict says.
    pub(crate) fn act(&mut self, judged: Judged) -> NasOut
        requires { CountFits self.old.context judged.verdict }
        ensures { (radio : Radio (List ℕ) ℕ) → done_by self.old radio judged ≡ phone_after self.new result radio }
    {
        let Judged { verdict, accepted } = judged;
        match verdict {
            Verdict::Refused(answer) => NasOut {
                accepted,
                ..NasOut::of(answer)
            },
            Verdict::Rejected(answer) => self.reject(answer, accepted),
            Verdict::Taken(algs, count) => self.take(algs, count, accepted),
            Verdict::Opened(count, text) => self.accept(count, text, accepted),
        }
    }

    // Refuses a SECURITY MODE COMMAND with a SECURITY MODE REJECT: under the context in use, or as it is
    // where there is none (TS 24.301 4.4.4.3 and 5.4.3.5).
    fn reject(&mut self, answer: Answer, accepted: Option<Use>) -> NasOut
        ensures { (radio : Radio (List ℕ) ℕ) →
            done_by self.old radio (record { verdict = Rejected answer; accepted = accepted }) ≡ phone_after self.new result radio }
    {
        let told = NasRecord::SecurityModeReject {
            cause: cause(&answer),
        };
        let Some(context) = self.context.as_mut() else {
            return NasOut {
                pdu: Some(plain(&told)),
                accepted,
                ..NasOut::of(answer)
            };
        };
        let Some((out, _)) = context.seal(2, &told) else {
            return NasOut {
                accepted,
                ..NasOut::of(answer)
            };
        };
        NasOut {
            answer,
            accepted,
            ..out
        }
    }

    // Takes the partial context as the one in use, and completes the procedure under it (TS 24.301
    // 5.4.3.3).
    fn take(&mut self, algs: Algs, count: u32, accepted: Option<Use>) -> NasOut
        requires { count < nas_count_limit }
        ensures { (radio : Radio (List ℕ) ℕ) →
            done_by self.old radio (record { verdict = Taken algs count; accepted = accepted }) ≡ phone_after self.new result radio }
    {
        let Some(partial) = self.partial.take() else {
            return NasOut {
                accepted,
                ..NasOut::of(Answer::Done)
            };
        };
        let (keys, derived) = nas_keys(&partial.root, algs);
        let mut context = Context {
            root: partial.root,
            keys,
            send: TxCount::new(),
            receive: RxCount::new(),
        };
        context.accept(count);
        let Some((out, trigger)) = context.seal(4, &NasRecord::SecurityModeComplete) else {
            unreachable!()
        };
        self.context = Some(context);
        NasOut {
            trigger: Some(trigger),
            derived,
            accepted,
            ..out
        }
    }

    // Takes a NAS text.
    fn accept(&mut self, count: u32, text: ShortText, accepted: Option<Use>) -> NasOut
        requires { CountFits self.old.context (Opened count text) }
        ensures { (radio : Radio (List ℕ) ℕ) →
            done_by self.old radio (record { verdict = Opened count text; accepted = accepted }) ≡ phone_after self.new result radio }
    {
        let Some(context) = self.context.as_mut() else {
            return NasOut {
                accepted,
                ..NasOut::of(Answer::Done)
            };
        };
        context.accept(count);
        NasOut {
            opened: Some(text),
            accepted,
            ..NasOut::of(Answer::Done)
        }
    }
}

// The cause of a SECURITY MODE REJECT, 23 or 24 (TS 24.301 9.9.3.9).
fn cause(answer: &Answer) -> u8
    ensures value { result ≡ cause_of answer.now }
    ensures at_least { 23 ≤ result }
    ensures at_most { result ≤ 24 }
{
    match answer {
        Answer::CapsMismatch(_, _) => 23,
        _ => 24,
    }
}

// A message that is not protected, after an octet of header type 0 (TS 24.301 4.4.4.3 and 9.3.1).
fn plain(told: &NasRecord) -> NasPdu
    requires { InRange told.now }
    ensures { result ≡ first_octet 0 ∷ spelling_of told.now }
{
    let text = told.write();
    let mut pdu = NasPdu::new();
    pdu.append(&[7]);
    pdu.append(text.as_slice());
    pdu
}
