ghost use Rattle.std.specs.Prelude.{◌≡◌};
ghost use Rattle.lte_events.specs.Reply.{reply_of};

use crate::{Address, Answer};
use annex_a_keys::Derived;
use rec_base::{Few, Octets, Use, UserText, Way};

/// A record as an actor sends it.
#[derive(Drop)]
pub struct Record {
    /// Where it goes.
    pub to: Address,
    /// Its octets, at most 1,536.
    pub octets: Octets,
}

/// What is told of a key that an actor got.
#[derive(Clone, Copy)]
pub struct KeyNote {
    /// The NCC that belongs to it, 0 to 7.
    pub ncc: u8,
    /// How the actor got it.
    pub way: Way,
    /// Its 32 octets.
    pub key: [u8; 32],
}

/// What an actor answers to an input.
#[derive(Default, Drop)]
pub struct ActorOut {
    /// Done, or why the input was refused.
    pub answer: Answer,
    /// The record sent, if one was.
    pub sent: Option<Record>,
    /// The use of the integrity key by which the record sent is protected, if it is.
    pub tuple: Option<Use>,
    /// The text of the user packet, RRC text or NAS text that was accepted, if one was.
    pub opened: Option<UserText>,
    /// The derivations made, in order, at most 12.
    pub derived: Few<Derived, 12>,
    /// The key that was received from another actor, if one was: 32 octets.
    pub received: Option<[u8; 32]>,
    /// The uses of keys in sending, encryption first and then integrity, at most 2.
    pub used: Few<Use, 2>,
    /// The use of the integrity key by which the record accepted was protected, if it was.
    pub accepted: Option<Use>,
    /// What is told of a key.
    pub note: Option<KeyNote>,
    /// Whether the capabilities in a Path Switch Request are not those of the phone's latest
    /// authentication (TS 33.401 7.2.4.2.2).
    pub alarm: bool,
}

impl ActorOut {
    /// The reply with this answer and nothing else.
    pub fn of(answer: Answer) -> ActorOut
        ensures { result ≡ reply_of answer }
    {
        ActorOut {
            answer,
            sent: None,
            tuple: None,
            opened: None,
            derived: Few::new(),
            received: None,
            used: Few::new(),
            accepted: None,
            note: None,
            alarm: false,
        }
    }

    /// Becomes the reply with this answer and nothing else. Only what was set is written.
    pub fn only(&mut self, answer: Answer)
        ensures { self.new ≡ reply_of answer }
    {
        self.answer = answer;
        if self.sent.is_some() {
            self.sent = None;
        }
        self.tuple = None;
        if self.opened.is_some() {
            self.opened = None;
        }
        self.derived.clear();
        self.received = None;
        self.used.clear();
        self.accepted = None;
        self.note = None;
        self.alarm = false;
    }
}
