// The choice of what a NAS message comes to; it changes nothing.
ghost use Rattle.std.specs.Prelude.{◌≡◌, ◌≢◌, ◌≤◌, ℕ, List, IfOk, Ok, None, length, map};
ghost use Rattle.rec_base.specs.Lengths.{longest_record};
ghost use Rattle.key_model.specs.Reading.{octet_reading};
ghost use Rattle.key_model.specs.Derivation.{derived_of};
ghost use Rattle.nas_guard.specs.Open.{IsProtected, first_in, header_in};
ghost use Rattle.lte_machine.specs.PhoneChoice.{header_for_phone, same_caps};
ghost use Rattle.lte_machine.specs.PhoneState.{Radio, nas_keys_of, nas_derivations};
ghost use Rattle.nas_smc.specs.declared.judging.Verdict.TheVariants.{Refused, Rejected};
ghost use Rattle.nas_smc.specs.Judging.{CountFits, front_of, row_at, accepted_at, plain_context, plain_radio, row_of};

use crate::PhoneNas;
use crate::opening::{integrity_use, opened};
use alg_choice::{Algs, Caps, supports};
use annex_a_keys::{AlgType, Derived, Kasme};
use lte_events::Answer;
use nas_count::RxCount;
use nas_guard::NasKeys;
use nas_rec::NasRecord;
use rec_base::{Dir, Few, ShortText, Use};

// What a NAS message comes to.
#[derive(Drop)]
pub(crate) enum Verdict {
    // It is refused, and nothing is sent.
    Refused(Answer),
    // It is refused, and a SECURITY MODE REJECT is sent where that may be (TS 24.301 5.4.3.5).
    Rejected(Answer),
    // A SECURITY MODE COMMAND is taken: its algorithms and COUNT (TS 24.301 5.4.3.3).
    Taken(Algs, u32),
    // A NAS text is taken: COUNT and text.
    Opened(u32, ShortText),
}

// The same, with the integrity use of a message whose MAC was right.
#[derive(Drop)]
pub(crate) struct Judged {
    pub(crate) verdict: Verdict,
    pub(crate) accepted: Option<Use>,
}

impl PhoneNas {
    // What a message comes to.
    pub(crate) fn judge(&self, pdu: &[u8]) -> Judged
        requires { length pdu.now ≤ longest_record }
        ensures row { (radio : Radio (List ℕ) ℕ) → row_at self.now radio (front_of self.now pdu.now (header_for_phone pdu.now)) pdu.now
            ≡ row_of (plain_context self.now) (plain_radio radio) result.verdict }
        ensures accepted { (radio : Radio (List ℕ) ℕ) →
            result.accepted ≡ accepted_at self.now radio (front_of self.now pdu.now (header_for_phone pdu.now)) pdu.now }
        ensures fits { CountFits self.now.context result.verdict }
    {
        match header_of(pdu) {
            Ok(3) => self.command(pdu),
            Ok(header) => self.message(header, pdu),
            Err(answer) => refused(answer),
        }
    }

    // A message with header type 3, which is a SECURITY MODE COMMAND (TS 24.301 5.4.3.3).
    fn command(&self, pdu: &[u8]) -> Judged
        requires long { 6 ≤ length pdu.now }
        requires length { length pdu.now ≤ longest_record }
        requires protected { IsProtected (first_in pdu.now) }
        requires header { header_in pdu.now ≡ 3 }
        ensures row { (radio : Radio (List ℕ) ℕ) → row_at self.now radio (front_of self.now pdu.now (Ok 3)) pdu.now
            ≡ row_of (plain_context self.now) (plain_radio radio) result.verdict }
        ensures accepted { (radio : Radio (List ℕ) ℕ) →
            result.accepted ≡ accepted_at self.now radio (front_of self.now pdu.now (Ok 3)) pdu.now }
        ensures fits { CountFits self.now.context result.verdict }
    {
        let Some(partial) = &self.partial else {
            return refused(Answer::NoContext);
        };
        let (ksi, algs, caps) = match NasRecord::read(&pdu[6..]) {
            Ok(NasRecord::SecurityModeCommand { ksi, algs, caps }) => (ksi, algs, caps),
            Ok(other) => return refused(Answer::WrongKind(other.kind())),
            Err(fault) => return refused(Answer::BadRecord(fault)),
        };
        if ksi != partial.ksi {
            return rejected(Answer::WrongKsi(partial.ksi, ksi), None);
        }
        if !supports(&self.caps, &algs) {
            return rejected(Answer::AlgUnsupported(algs), None);
        }
        let receive = RxCount::new();
        let Ok(count) = receive.estimate(pdu[5]) else {
            return refused(Answer::CountSpent);
        };
        let (keys, _) = nas_keys(&partial.root, algs);
        if let Err(macs) = opened(&keys, &receive, 3, Dir::Down, count, pdu) {
            return rejected(macs.fails(count), None);
        }
        let accepted = Some(integrity_use(&keys, Dir::Down, count));
        if !same(&self.caps, &caps) {
            return rejected(Answer::CapsMismatch(self.caps, caps), accepted);
        }
        Judged {
            verdict: Verdict::Taken(algs, count),
            accepted,
        }
    }

    // A message with header type 1 or 2, under the context in use (TS 24.301 4.4.3.1 and 4.4.4.2).
    fn message(&self, header: u8, pdu: &[u8]) -> Judged
        requires long { 6 ≤ length pdu.now }
        requires length { length pdu.now ≤ longest_record }
        requires protected { IsProtected (first_in pdu.now) }
        requires header { header ≡ header_in pdu.now }
        requires other { header ≢ 3 }
        ensures row { (radio : Radio (List ℕ) ℕ) → row_at self.now radio (front_of self.now pdu.now (Ok header)) pdu.now
            ≡ row_of (plain_context self.now) (plain_radio radio) result.verdict }
        ensures accepted { (radio : Radio (List ℕ) ℕ) →
            result.accepted ≡ accepted_at self.now radio (front_of self.now pdu.now (Ok header)) pdu.now }
        ensures fits { CountFits self.now.context result.verdict }
    {
        let Some(context) = &self.context else {
            return refused(Answer::NoContext);
        };
        let Ok(count) = context.receive.estimate(pdu[5]) else {
            return refused(Answer::CountSpent);
        };
        let text = match opened(
            &context.keys,
            &context.receive,
            header,
            Dir::Down,
            count,
            pdu,
        ) {
            Ok(text) => text,
            Err(macs) => return refused(macs.fails(count)),
        };
        let verdict = match NasRecord::read(text.as_slice()) {
            Ok(NasRecord::NasData(text)) => Verdict::Opened(count, text),
            Ok(other) => Verdict::Refused(Answer::WrongKind(other.kind())),
            Err(fault) => Verdict::Refused(Answer::BadRecord(fault)),
        };
        Judged {
            verdict,
            accepted: Some(integrity_use(&context.keys, Dir::Down, count)),
        }
    }
}

// KNASenc and KNASint of a KASME, and their derivations (TS 33.401 A.7).
pub(crate) fn nas_keys(root: &Kasme, algs: Algs) -> (NasKeys, Few<Derived, 2>)
    ensures keys { result.0 ≡ nas_keys_of octet_reading root.now algs }
    ensures derived { result.1 ≡ map derived_of (nas_derivations octet_reading root.now algs) }
{
    let root = root.keyed();
    let (enc, first) = root.nas_alg(AlgType::NasEnc, algs.eea.identity());
    let (int, second) = root.nas_alg(AlgType::NasInt, 2);
    let mut derived = Few::new();
    derived.push(first);
    derived.push(second);
    (NasKeys::new(enc, int, algs), derived)
}

// The header type of a message, 1 to 3, or why it is none (TS 24.301 9.1, 9.2 and 9.3.1).
#[tactic(auto, unfolding(lte_machine::specs::PhoneChoice::header_for_phone))]
fn header_of(pdu: &[u8]) -> Result<u8, Answer>
    ensures value { result ≡ header_for_phone pdu.now }
    ensures long { IfOk result (λ header. 6 ≤ length pdu.now) }
    ensures protected { IfOk result (λ header. IsProtected (first_in pdu.now)) }
    ensures header { IfOk result (λ header. header ≡ header_in pdu.now) }
{
    if pdu.is_empty() {
        return Err(Answer::Short);
    }
    let first = pdu[0];
    let header = first / 16;
    if first % 16 != 7 || header < 1 || header > 3 {
        return Err(Answer::BadHeader(first));
    }
    if pdu.len() < 6 {
        return Err(Answer::Short);
    }
    Ok(header)
}

// Whether capabilities are the same.
fn same(own: &Caps, caps: &Caps) -> bool
    ensures { result ≡ same_caps own.now caps.now }
{
    own.eea == caps.eea && own.eia == caps.eia
}

fn refused(answer: Answer) -> Judged
    ensures { result ≡ record { verdict = Refused answer; accepted = None } }
{
    Judged {
        verdict: Verdict::Refused(answer),
        accepted: None,
    }
}

fn rejected(answer: Answer, accepted: Option<Use>) -> Judged
    ensures { result ≡ record { verdict = Rejected answer; accepted = accepted } }
{
    Judged {
        verdict: Verdict::Rejected(answer),
        accepted,
    }
}
