// The choice of what a NAS message comes to at the core; it changes nothing.
ghost use Rattle.std.specs.Prelude.{◌≡◌, ◌≤◌, ◌==◌, IfOk, Ok, None, length, false, true};
ghost use Rattle.rec_base.specs.Lengths.{longest_record};
ghost use Rattle.nas_guard.specs.Open.{IsProtected, first_in, header_in};
ghost use Rattle.nas_rec.specs.Reading.{read_nas};
ghost use Rattle.lte_machine.specs.CoreChoice.{core_header, protected_row, reject_row};
ghost use Rattle.nas_smc.specs.declared.core_judging.CoreVerdict.TheVariants.{Refused};
ghost use Rattle.nas_smc.specs.CoreNas.{CoreRest, procedure_in};
ghost use Rattle.nas_smc.specs.CoreJudging.{CountFits, FitsContext, IsOfKind, plain_procedure, front_of, row_at, accepted_at, row_of};

use crate::CoreNas;
use crate::opening::{integrity_use, opened};
use lte_events::Answer;
use nas_count::RxCount;
use nas_guard::NasKeys;
use nas_rec::NasRecord;
use rec_base::{Dir, Octets, ShortText, Use};

// What a NAS message comes to.
#[derive(Drop)]
pub(crate) enum CoreVerdict {
    // It is refused.
    Refused(Answer),
    // A SECURITY MODE REJECT that is not protected ends the procedure (TS 24.301 5.4.3.5).
    Closed,
    // A SECURITY MODE COMPLETE ends it, and a new context is in use: its COUNT (TS 24.301 5.4.3.4).
    Completed(u32),
    // A SERVICE REQUEST asks for a connection: its COUNT (TS 24.301 5.6.1.4).
    Asked(u32),
    // A NAS text is taken: COUNT and text.
    Opened(u32, ShortText),
    // A SECURITY MODE REJECT under the context in use ends the procedure: its COUNT.
    Rejected(u32),
}

// The same, with the integrity use of a message whose MAC was right.
#[derive(Drop)]
pub(crate) struct CoreJudged {
    pub(crate) verdict: CoreVerdict,
    pub(crate) accepted: Option<Use>,
}

impl CoreNas {
    // What a message comes to.
    pub(crate) fn judge(&self, pdu: &[u8]) -> CoreJudged
        requires { length pdu.now ≤ longest_record }
        ensures row { (rest : CoreRest) →
            row_at self.now rest (front_of self.now pdu.now (core_header pdu.now)) pdu.now ≡ row_of rest result.verdict }
        ensures accepted { (rest : CoreRest) →
            result.accepted ≡ accepted_at self.now rest (front_of self.now pdu.now (core_header pdu.now)) pdu.now }
        ensures fits { CountFits self.now result.verdict }
        ensures kind { IsOfKind (header_in pdu.now == 4) result.verdict }
    {
        match header_of(pdu) {
            Ok(header) => self.by_header(header, pdu),
            Err(answer) => refused(answer),
        }
    }

    // By the header type.
    fn by_header(&self, header: u8, pdu: &[u8]) -> CoreJudged
        requires some { 1 ≤ length pdu.now }
        requires length { length pdu.now ≤ longest_record }
        requires header { header ≡ header_in pdu.now }
        requires protected { (header == 0) ≡ false → IsProtected (first_in pdu.now) }
        ensures row { (rest : CoreRest) →
            row_at self.now rest (front_of self.now pdu.now (Ok header)) pdu.now ≡ row_of rest result.verdict }
        ensures accepted { (rest : CoreRest) →
            result.accepted ≡ accepted_at self.now rest (front_of self.now pdu.now (Ok header)) pdu.now }
        ensures fits { CountFits self.now result.verdict }
        ensures kind { IsOfKind (header_in pdu.now == 4) result.verdict }
    {
        if header == 0 {
            return self.plain(pdu);
        }
        if pdu.len() < 6 {
            return refused(Answer::Short);
        }
        if header == 4 {
            return self.complete(pdu);
        }
        self.message(header, pdu)
    }

    // A message that is not protected, which only a SECURITY MODE REJECT may be, of a phone with no context
    // in use (TS 24.301 4.4.4.3).
    fn plain(&self, pdu: &[u8]) -> CoreJudged
        requires some { 1 ≤ length pdu.now }
        ensures row { (rest : CoreRest) →
            row_at self.now rest (front_of self.now pdu.now (Ok 0)) pdu.now ≡ row_of rest result.verdict }
        ensures accepted { result.accepted ≡ None }
        ensures fits { CountFits self.now result.verdict }
        ensures kind { IsOfKind false result.verdict }
    {
        if self.procedure().is_none() {
            return refused(Answer::NoSmc);
        }
        if self.context.is_some() {
            return refused(Answer::BadHeader(pdu[0]));
        }
        match NasRecord::read(&pdu[1..]) {
            Ok(NasRecord::SecurityModeReject { .. }) => judged(CoreVerdict::Closed, None),
            Ok(other) => refused(Answer::WrongKind(other.kind())),
            Err(fault) => refused(Answer::BadRecord(fault)),
        }
    }

    // A message with header type 4, which is a SECURITY MODE COMPLETE (TS 24.301 5.4.3.4).
    fn complete(&self, pdu: &[u8]) -> CoreJudged
        requires long { 6 ≤ length pdu.now }
        requires length { length pdu.now ≤ longest_record }
        requires protected { IsProtected (first_in pdu.now) }
        requires header { header_in pdu.now ≡ 4 }
        ensures row { (rest : CoreRest) →
            row_at self.now rest (front_of self.now pdu.now (Ok 4)) pdu.now ≡ row_of rest result.verdict }
        ensures accepted { (rest : CoreRest) →
            result.accepted ≡ accepted_at self.now rest (front_of self.now pdu.now (Ok 4)) pdu.now }
        ensures fits { CountFits self.now result.verdict }
        ensures kind { IsOfKind true result.verdict }
    {
        let Some(keys) = self.procedure() else {
            return refused(Answer::NoSmc);
        };
        let receive = RxCount::new();
        let Ok(count) = receive.estimate(pdu[5]) else {
            return refused(Answer::CountSpent);
        };
        let text = match opened(&keys, &receive, 4, Dir::Up, count, pdu) {
            Ok(text) => text,
            Err(macs) => return refused(macs.fails(count)),
        };
        let verdict = match NasRecord::read(text.as_slice()) {
            Ok(NasRecord::SecurityModeComplete) => CoreVerdict::Completed(count),
            Ok(other) => CoreVerdict::Refused(Answer::WrongKind(other.kind())),
            Err(fault) => CoreVerdict::Refused(Answer::BadRecord(fault)),
        };
        judged(verdict, Some(integrity_use(&keys, Dir::Up, count)))
    }

    // A message with header type 1 or 2, under the context in use (TS 24.301 4.4.3.1 and 4.4.4.3).
    fn message(&self, header: u8, pdu: &[u8]) -> CoreJudged
        requires long { 6 ≤ length pdu.now }
        requires length { length pdu.now ≤ longest_record }
        requires protected { IsProtected (first_in pdu.now) }
        requires header { header ≡ header_in pdu.now }
        requires protects { (header == 0) ≡ false }
        requires other { (header == 4) ≡ false }
        ensures row { (rest : CoreRest) →
            row_at self.now rest (front_of self.now pdu.now (Ok header)) pdu.now ≡ row_of rest result.verdict }
        ensures accepted { (rest : CoreRest) →
            result.accepted ≡ accepted_at self.now rest (front_of self.now pdu.now (Ok header)) pdu.now }
        ensures fits { CountFits self.now result.verdict }
        ensures kind { IsOfKind false result.verdict }
    {
        let Some(context) = &self.context else {
            return refused(Answer::NoContext);
        };
        let Ok(count) = context.nas.receive.estimate(pdu[5]) else {
            return refused(Answer::CountSpent);
        };
        let text = match opened(
            &context.nas.keys,
            &context.nas.receive,
            header,
            Dir::Up,
            count,
            pdu,
        ) {
            Ok(text) => text,
            Err(macs) => return refused(macs.fails(count)),
        };
        let verdict = self.protected_text(count, &text);
        judged(
            verdict,
            Some(integrity_use(&context.nas.keys, Dir::Up, count)),
        )
    }

    // What the text of such a message comes to.
    fn protected_text(&self, count: u32, text: &Octets) -> CoreVerdict
        requires { FitsContext self.now.context count }
        ensures row { (rest : CoreRest) → protected_row (plain_procedure self.now) count (read_nas text.now) ≡ row_of rest result }
        ensures fits { CountFits self.now result }
        ensures kind { IsOfKind false result }
    {
        match NasRecord::read(text.as_slice()) {
            Ok(NasRecord::ServiceRequest) => CoreVerdict::Asked(count),
            Ok(NasRecord::NasData(text)) => CoreVerdict::Opened(count, text),
            Ok(NasRecord::SecurityModeReject { .. }) => self.rejected(count),
            Ok(other) => CoreVerdict::Refused(Answer::WrongKind(other.kind())),
            Err(fault) => CoreVerdict::Refused(Answer::BadRecord(fault)),
        }
    }

    // What a SECURITY MODE REJECT under the context in use comes to.
    fn rejected(&self, count: u32) -> CoreVerdict
        requires { FitsContext self.now.context count }
        ensures row { (rest : CoreRest) → reject_row (plain_procedure self.now) count ≡ row_of rest result }
        ensures fits { CountFits self.now result }
        ensures kind { IsOfKind false result }
    {
        match self.procedure() {
            Some(_) => CoreVerdict::Rejected(count),
            None => CoreVerdict::Refused(Answer::NoSmc),
        }
    }

    // The keys of the procedure that is open.
    fn procedure(&self) -> Option<NasKeys>
        ensures { result ≡ procedure_in self.now.left }
    {
        match &self.left {
            Some(left) => left.procedure,
            None => None,
        }
    }
}

// The header type of a message, 0, 1, 2 or 4, or why it is none (TS 24.301 9.1, 9.2 and 9.3.1).
#[tactic(auto, unfolding(lte_machine::specs::CoreChoice::core_header))]
fn header_of(pdu: &[u8]) -> Result<u8, Answer>
    ensures value { result ≡ core_header pdu.now }
    ensures some { IfOk result (λ header. 1 ≤ length pdu.now) }
    ensures header { IfOk result (λ header. header ≡ header_in pdu.now) }
    ensures protected { IfOk result (λ header. (header == 0) ≡ false → IsProtected (first_in pdu.now)) }
{
    if pdu.is_empty() {
        return Err(Answer::Short);
    }
    let first = pdu[0];
    let header = first / 16;
    if first % 16 != 7 || header == 3 || header > 4 {
        return Err(Answer::BadHeader(first));
    }
    Ok(header)
}

fn refused(answer: Answer) -> CoreJudged
    ensures { result ≡ record { verdict = Refused answer; accepted = None } }
{
    judged(CoreVerdict::Refused(answer), None)
}

fn judged(verdict: CoreVerdict, accepted: Option<Use>) -> CoreJudged
    ensures { result ≡ record { verdict = verdict; accepted = accepted } }
{
    CoreJudged { verdict, accepted }
}
