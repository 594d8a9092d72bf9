ghost use Rattle.std.specs.Prelude.{◌≡◌, ℕ, ◌+◌, ◌-◌, ◌<◌, ◌≤◌, ◌↔◌, IfOk, IsErr, OnErr, length};
ghost use Rattle.nas_count.specs.Estimate.{nas_count_limit};
ghost use Rattle.nas_guard.specs.Seal.{sealed};
ghost use Rattle.nas_guard.specs.Open.{opened};

use crate::NasKeys;
use nas_count::{CountSpent, TxCount};
use rec_base::{Bounded, Dir};

/// The octets of a NAS message as sent: at most 256.
pub type NasPdu = Bounded<256>;

/// Protects a text under the next COUNT, which it takes, and answers with the octets as sent and that
/// COUNT (TS 24.301 4.4.3.3 and 4.4.3.4).
///
/// `header` is the security header type, 1 to 4, and the text has at most 201 octets. Where the next COUNT
/// would be 2^24 the answer is `CountSpent`, and the sender's COUNT stays as it is.
pub fn seal(
    keys: &NasKeys,
    tx: &mut TxCount,
    header: u8,
    dir: Dir,
    text: &[u8],
) -> Result<(NasPdu, u32), CountSpent>
    requires above_plain { 1 ≤ header }
    requires at_most_four { header ≤ 4 }
    requires length { length text.now ≤ 201 }
    ensures octets { IfOk result (λ sent. sent.0 ≡ sealed keys.now header tx.old dir text.now) }
    ensures count { IfOk result (λ sent. sent.1 ≡ tx.old) }
    ensures below { IfOk result (λ sent. sent.1 < nas_count_limit) }
    ensures moves { IfOk result (λ sent. tx.new ≡ sent.1 + 1) }

    // A receiver whose next COUNT is no more than 255 below opens them to the text.
    ensures opens { IfOk result (λ sent. (next : ℕ) → next ≤ sent.1 → sent.1 - next < 256
        → opened keys.now next dir sent.0 ≡ Ok (record { header = header; count = sent.1; text = text.now })) }

    ensures spent { IsErr result ↔ (tx.old ≡ nas_count_limit) }
    ensures err { OnErr result (tx.new ≡ tx.old) }
{
    let count = tx.take()?;
    Ok((octets_of(keys, count, header, dir, text), count))
}

// The octets of a message that is protected under a COUNT.
#[tactic(auto, unfolding(crate::specs::Seal::sealed))]
fn octets_of(keys: &NasKeys, count: u32, header: u8, dir: Dir, text: &[u8]) -> NasPdu
    requires header { header ≤ 4 }
    requires length { length text.now ≤ 201 }
    ensures { result ≡ sealed keys.now header count dir text.now }
{
    let sent = keys.sent_text(header, count, dir, text);
    let sn = (count % 256) as u8;
    let mac = keys.mac_behind(count, dir, sn, sent.as_slice());
    let mut pdu = NasPdu::new();
    pdu.append(&[16 * header + 7]);
    pdu.append(&mac);
    pdu.append(&[sn]);
    pdu.append(sent.as_slice());
    pdu
}
