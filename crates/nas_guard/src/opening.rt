ghost use Rattle.std.specs.Prelude.{◌≡◌, ◌≤◌, IfErr, IfOk, length};
ghost use Rattle.rec_base.specs.Lengths.{longest_record};
ghost use Rattle.nas_guard.specs.Open.{Opens, Refuses, opened};
ghost use Rattle.nas_guard.specs.Seal.{sealed};

use crate::NasKeys;
use nas_count::RxCount;
use rec_base::{Dir, Octets};

/// What a protected NAS message held.
#[derive(Drop)]
pub struct Opened {
    /// The security header type, 1 to 4 (TS 24.301 9.3.1).
    pub header: u8,
    /// Its NAS COUNT.
    pub count: u32,
    /// The text, deciphered.
    pub text: Octets,
}

/// Why octets do not open.
#[derive(Clone, Copy, Debug, PartialEq, Eq)]
pub enum OpenFault {
    /// There are fewer than six octets.
    Short,
    /// The first octet, which this holds, has no protocol discriminator 7 or no header type 1 to 4.
    BadHeader(u8),
    /// The least COUNT with the sequence number is 2^24 or more.
    CountSpent,
    /// The MAC differs.
    MacFails {
        /// The COUNT at which it was computed.
        count: u32,
        /// The MAC computed.
        wanted: [u8; 4],
        /// The MAC received.
        got: [u8; 4],
    },
}

/// Opens a protected NAS message under the least COUNT at or above the next one with its sequence
/// number, and leaves the receiver's COUNT as it is (TS 24.301 4.4.3.1, 4.4.3.3 and 4.4.3.4).
///
/// The message has at most 1,536 octets. Where causes stand together the answer is the first of `Short`,
/// `BadHeader`, `CountSpent` and `MacFails`.
#[tactic(auto, unfolding(crate::specs::Open::opened))]
pub fn open(keys: &NasKeys, rx: &RxCount, dir: Dir, pdu: &[u8]) -> Result<Opened, OpenFault>
    requires { length pdu.now ≤ longest_record }
    ensures value { result ≡ opened keys.now rx.now dir pdu.now }
    ensures opens { IfOk result (Opens keys.now rx.now dir pdu.now) }
    ensures refused { IfErr result (Refuses keys.now rx.now dir pdu.now) }
    ensures was_sealed { IfOk result (λ o. pdu.now ≡ sealed keys.now o.header o.count dir o.text) }
{
    if pdu.len() < 6 {
        return Err(OpenFault::Short);
    }
    let first = pdu[0];
    let header = first / 16;
    if first % 16 != 7 || header < 1 || header > 4 {
        return Err(OpenFault::BadHeader(first));
    }
    let Ok(count) = rx.estimate(pdu[5]) else {
        return Err(OpenFault::CountSpent);
    };
    let wanted = keys.mac(count, dir, &pdu[5..]);
    let mut got = [0; 4];
    got.copy_from_slice(&pdu[1..5]);
    if wanted != got {
        return Err(OpenFault::MacFails { count, wanted, got });
    }
    let text = keys.sent_text(header, count, dir, &pdu[6..]);
    Ok(Opened {
        header,
        count,
        text,
    })
}
