// What is done by a verdict at the core.
ghost use Rattle.std.specs.Prelude.{◌≡◌, ◌<◌, Bool, true, false, option_map};
ghost use Rattle.nas_count.specs.Estimate.{nas_count_limit};
ghost use Rattle.lte_machine.specs.CoreKeys.{nas_taken};
ghost use Rattle.lte_machine.specs.CoreRows.{PlainReject, ServiceAsked, NasOpened, SealedReject};
ghost use Rattle.nas_smc.specs.declared.core_judging.CoreVerdict.TheVariants.{Completed};
ghost use Rattle.nas_smc.specs.NasOut.{alone};
ghost use Rattle.nas_smc.specs.CoreNas.{CoreRest, closed, core_after, core_of, procedure_in};
ghost use Rattle.nas_smc.specs.CoreJudging.{CountFits, IsOpen, IsOfKind, FitsContext, done_by, row_of};

use crate::context::Context;
use crate::core_context::CoreContext;
use crate::core_judging::{CoreJudged, CoreVerdict};
use crate::core_partial::CorePartial;
use crate::{CoreNas, NasOut};
use lte_events::Answer;
use nas_count::RxCount;
use rec_base::{ShortText, Use};

impl CoreNas {
    // Does what a verdict says.
    pub(crate) fn act(&mut self, judged: CoreJudged) -> NasOut
        requires { CountFits self.old judged.verdict }
        ensures { (rest : CoreRest) (new : Bool) → IsOfKind new judged.verdict →
            done_by self.old rest (row_of rest judged.verdict) judged.accepted ≡ core_after (core_of self.new rest) result new }
    {
        let CoreJudged { verdict, accepted } = judged;
        match verdict {
            CoreVerdict::Refused(answer) => done(answer, accepted),
            CoreVerdict::Closed => self.close(accepted),
            CoreVerdict::Completed(count) => self.take(count, accepted),
            CoreVerdict::Asked(count) => self.ask(count, accepted),
            CoreVerdict::Opened(count, text) => self.accept(count, text, accepted),
            CoreVerdict::Rejected(count) => self.reject(count, accepted),
        }
    }

    // A SECURITY MODE REJECT that is not protected ends the procedure.
    fn close(&mut self, accepted: Option<Use>) -> NasOut
        ensures { (rest : CoreRest) (new : Bool) → done_by self.old rest PlainReject accepted ≡ core_after (core_of self.new rest) result new }
    {
        self.end();
        done(Answer::Done, accepted)
    }

    // What the authentication left is the context in use: its uplink goes on behind the COMPLETE, and its
    // downlink behind the COMMAND (TS 24.301 4.4.3.1 and 5.4.3.4).
    fn take(&mut self, count: u32, accepted: Option<Use>) -> NasOut
        requires below { count < nas_count_limit }
        requires open { IsOpen (procedure_in self.old.left) }
        ensures { (rest : CoreRest) →
            done_by self.old rest (row_of rest (Completed count)) accepted ≡ core_after (core_of self.new rest) result true }
    {
        let Some(left) = self.left.take() else {
            unreachable!()
        };
        let CorePartial {
            root,
            caps,
            send,
            procedure,
            ..
        } = left;
        let Some(keys) = procedure else {
            unreachable!()
        };
        let mut nas = Context {
            root,
            keys,
            send,
            receive: RxCount::new(),
        };
        nas.accept(count);
        self.context = Some(CoreContext { nas, caps });
        NasOut {
            trigger: Some(count),
            ..done(Answer::Done, accepted)
        }
    }

    // A SERVICE REQUEST asks for a connection.
    fn ask(&mut self, count: u32, accepted: Option<Use>) -> NasOut
        requires { FitsContext self.old.context count }
        ensures { (rest : CoreRest) → done_by self.old rest (ServiceAsked count) accepted ≡ core_after (core_of self.new rest) result false }
    {
        self.received(count);
        NasOut {
            trigger: Some(count),
            ..done(Answer::Done, accepted)
        }
    }

    // Takes a NAS text.
    fn accept(&mut self, count: u32, text: ShortText, accepted: Option<Use>) -> NasOut
        requires { FitsContext self.old.context count }
        ensures { (rest : CoreRest) (new : Bool) → done_by self.old rest (NasOpened count text) accepted ≡ core_after (core_of self.new rest) result new }
    {
        self.received(count);
        NasOut {
            opened: Some(text),
            ..done(Answer::Done, accepted)
        }
    }

    // A SECURITY MODE REJECT under the context in use ends the procedure.
    fn reject(&mut self, count: u32, accepted: Option<Use>) -> NasOut
        requires { FitsContext self.old.context count }
        ensures { (rest : CoreRest) (new : Bool) → done_by self.old rest (SealedReject count) accepted ≡ core_after (core_of self.new rest) result new }
    {
        self.received(count);
        self.end();
        done(Answer::Done, accepted)
    }

    // A message of this COUNT was taken under the context in use.
    fn received(&mut self, count: u32)
        requires { FitsContext self.old.context count }
        ensures { self.new ≡ record self.old { context = option_map (nas_taken count) self.old.context } }
    {
        if let Some(context) = self.context.as_mut() {
            context.accept(count);
        }
    }

    // The procedure ends, and what the authentication left stays (TS 24.301 5.4.3.5).
    fn end(&mut self)
        ensures { self.new ≡ record self.old { left = option_map closed self.old.left } }
    {
        if let Some(left) = self.left.as_mut() {
            left.close();
        }
    }
}

// An answer that sends nothing.
fn done(answer: Answer, accepted: Option<Use>) -> NasOut
    ensures { result ≡ record (alone answer) { accepted = accepted } }
{
    NasOut {
        accepted,
        ..NasOut::of(answer)
    }
}
