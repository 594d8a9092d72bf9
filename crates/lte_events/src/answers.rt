ghost use Rattle.std.specs.Prelude.{◌≡◌};
ghost use Rattle.lte_events.specs.Answer.{entry_of, number_of, name_of};

use alg_choice::{Algs, Caps};
use rec_base::RecFault;

/// What an actor or the network answers to an input: done, or the first cause of refusal, with the
/// values that tell the case.
#[derive(Clone, Copy, PartialEq, Eq)]
pub enum Answer {
    /// Done.
    Done,
    /// There is no NAS security context.
    NoContext,
    /// The KSI of a Security Mode Command is not that of the context: held, got.
    WrongKsi(u8, u8),
    /// The capabilities replayed in a Security Mode Command are not the phone's: own, got.
    CapsMismatch(Caps, Caps),
    /// The phone does not support these algorithms.
    AlgUnsupported(Algs),
    /// The MAC is wrong: COUNT, the MAC wanted, the MAC got.
    MacFails(u32, [u8; 4], [u8; 4]),
    /// The COUNT has reached its end: 2^24 for NAS, 2^32 on a bearer.
    CountSpent,
    /// A NAS security mode command procedure is open.
    SmcOpen,
    /// No algorithm of the priority list is among the capabilities.
    NoAlgorithm,
    /// A text or record does not read: its fault, with the place of a field.
    BadRecord(RecFault),
    /// A protected message is shorter than its header and MAC: 6 octets for NAS, 5 on an SRB, 2 on a
    /// DRB, which has no MAC.
    Short,
    /// The first octet does not begin a protected message that is taken here.
    BadHeader(u8),
    /// A record reads well but is not of a kind taken here: its kind.
    WrongKind(u8),
    /// The phone has no connection.
    NotConnected,
    /// The message is for another station or air address.
    NotAddressed,
    /// The connection was not made by a handover or a key change.
    NothingToResend,
    /// The phone has a connection already.
    AlreadyConnected,
    /// There is no context of the phone.
    NoUe,
    /// The number is not that of the outstanding request: outstanding (0 for none), got.
    Stale(u32, u32),
    /// The connection number is not the one wanted: held (0 for none), got.
    OldConnection(u32, u32),
    /// The context is not active yet.
    NotActive,
    /// The cell is not one of those taken here.
    UnknownCell,
    /// The context did not come by an X2 handover.
    NoPathSwitch,
    /// An attempt at a handover or a key change is present: its number.
    AttemptOpen(u32),
    /// There is no handover attempt, or not this one.
    NoAttempt,
    /// The command of the handover or key change was sent already.
    CommandSent,
    /// The number is not above the greatest seen: seen, got. Of an answer to an attempt that was answered
    /// already: the attempt's number, twice.
    Repeated(u32, u32),
    /// There are eight handover preparations already.
    PrepFull,
    /// The handover attempt was not acknowledged yet.
    NotReady,
    /// Too few numbers are left.
    NumberSpent,
    /// No NAS message asks for a connection. At a phone also: a key change although the KASME in use is already
    /// that of the connection.
    NoTrigger,
    /// No NAS security mode command procedure is open.
    NoSmc,
    /// There is no record of this number.
    NoRecord,
    /// The record was sent to the network: its number.
    Sent(u32),
    /// The root of an authentication is a row of the ladder: its number.
    RepeatedRoot(u32),
}

impl Default for Answer {
    ghost use Rattle.std.specs.Prelude.{◌≡◌};
    ghost use Rattle.lte_events.specs.declared.answers.Answer.TheVariants.{Done};

    ghost is_default = { λ v. v ≡ Done };

    fn default() -> Answer {
        Answer::Done
    }
}

impl Answer {
    /// The number of the answer, one octet in a frame.
    pub fn number(&self) -> u8
        ensures { result ≡ number_of self.now }
    {
        self.entry().0
    }

    /// The name of the answer, as reports print it.
    pub fn name(&self) -> &'static str
        ensures { result.now ≡ name_of self.now }
    {
        self.entry().1
    }

    // Number and name.
    fn entry(&self) -> (u8, &'static str)
        ensures { (result.0, result.1.now) ≡ entry_of self.now }
    {
        match self {
            Answer::Done => (0, "done"),
            Answer::NoContext => (1, "NoContext"),
            Answer::WrongKsi(..) => (2, "WrongKsi"),
            Answer::CapsMismatch(..) => (3, "CapsMismatch"),
            Answer::AlgUnsupported(_) => (4, "AlgUnsupported"),
            Answer::MacFails(..) => (5, "MacFails"),
            Answer::CountSpent => (6, "CountSpent"),
            Answer::SmcOpen => (7, "SmcOpen"),
            Answer::NoAlgorithm => (8, "NoAlgorithm"),
            Answer::BadRecord(_) => (9, "BadRecord"),
            Answer::Short => (10, "Short"),
            Answer::BadHeader(_) => (11, "BadHeader"),
            Answer::WrongKind(_) => (13, "WrongKind"),
            Answer::NotConnected => (20, "NotConnected"),
            Answer::NotAddressed => (21, "NotAddressed"),
            Answer::NothingToResend => (22, "NothingToResend"),
            Answer::AlreadyConnected => (23, "AlreadyConnected"),
            Answer::NoUe => (30, "NoUe"),
            Answer::Stale(..) => (31, "Stale"),
            Answer::OldConnection(..) => (32, "OldConnection"),
            Answer::NotActive => (33, "NotActive"),
            Answer::UnknownCell => (34, "UnknownCell"),
            Answer::NoPathSwitch => (35, "NoPathSwitch"),
            Answer::AttemptOpen(_) => (36, "AttemptOpen"),
            Answer::NoAttempt => (37, "NoAttempt"),
            Answer::CommandSent => (38, "CommandSent"),
            Answer::Repeated(..) => (39, "Repeated"),
            Answer::PrepFull => (40, "PrepFull"),
            Answer::NotReady => (41, "NotReady"),
            Answer::NumberSpent => (42, "NumberSpent"),
            Answer::NoTrigger => (43, "NoTrigger"),
            Answer::NoSmc => (44, "NoSmc"),
            Answer::NoRecord => (50, "NoRecord"),
            Answer::Sent(_) => (51, "Sent"),
            Answer::RepeatedRoot(_) => (52, "RepeatedRoot"),
        }
    }
}
