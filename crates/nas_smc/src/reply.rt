ghost use Rattle.std.specs.Prelude.{◌≡◌};
ghost use Rattle.nas_smc.specs.NasOut.{alone};

use annex_a_keys::Derived;
use lte_events::Answer;
use nas_guard::NasPdu;
use rec_base::{Few, ShortText, Use};

/// What a NAS part answers to a call.
#[derive(Drop)]
pub struct NasOut {
    /// Done, or why the call was refused.
    pub answer: Answer,
    /// The message sent, if one was.
    pub pdu: Option<NasPdu>,
    /// The NAS text that was accepted, if one was.
    pub opened: Option<ShortText>,
    /// The uplink NAS COUNT of a message that asks for a connection, from which KeNB is derived (TS 33.401
    /// 7.2.8.1.1 and A.3).
    pub trigger: Option<u32>,
    /// The derivations of NAS keys, by rising algorithm type.
    pub derived: Few<Derived, 2>,
    /// The uses of keys in sending, encryption first and then integrity.
    pub used: Few<Use, 2>,
    /// The use of the integrity key by which the message accepted was protected, if it was.
    pub accepted: Option<Use>,
}

impl NasOut {
    // This answer and nothing else.
    pub(crate) fn of(answer: Answer) -> NasOut
        ensures { result ≡ alone answer }
    {
        NasOut {
            answer,
            pdu: None,
            opened: None,
            trigger: None,
            derived: Few::new(),
            used: Few::new(),
            accepted: None,
        }
    }
}
