// Sending NAS messages under keys and their COUNT.
ghost use Rattle.std.specs.Prelude.{◌≡◌, ◌+◌, ◌≤◌, IfNone, IfSome, true, false, map, nat_le, ◌++◌, ◌∷◌, []};
ghost use Rattle.lte_events.specs.declared.answers.Answer.TheVariants.{Done};
ghost use Rattle.nas_count.specs.Estimate.{nas_count_limit};
ghost use Rattle.nas_guard.specs.Seal.{is_ciphered};
ghost use Rattle.nas_rec.specs.Spelling.{spelling_of, InRange};
ghost use Rattle.lte_machine.specs.Calls.{use_out};
ghost use Rattle.lte_machine.specs.Wire.{SealedNas, ciphering_if, nas_use, nas_ciphering, ciphering_use};
ghost use Rattle.nas_smc.specs.NasOut.{sending};

use crate::NasOut;
use annex_a_keys::AlgType;
use lte_events::Answer;
use nas_count::TxCount;
use nas_guard::{NasKeys, seal};
use nas_rec::NasRecord;
use rec_base::{Dir, Few, Use};

// Sends a message under the next COUNT, which it takes, and answers with that COUNT too, or sends nothing
// where none is left (TS 24.301 4.4.3.3 and 4.4.3.4).
#[tactic(auto, using(crate::proofs::Sealing::sealed_is))]
pub(crate) fn protect(
    keys: &NasKeys,
    send: &mut TxCount,
    header: u8,
    dir: Dir,
    told: &NasRecord,
) -> Option<(NasOut, u32)>
    requires above_plain { 1 ≤ header }
    requires at_most_four { header ≤ 4 }
    requires in_range { InRange told.now }
    ensures spent { IfNone result (nat_le nas_count_limit send.old ≡ true) }
    ensures same { IfNone result (send.new ≡ send.old) }
    ensures left { IfSome result (λ sent. nat_le nas_count_limit send.old ≡ false) }
    ensures new { IfSome result (λ sent. send.new ≡ send.old + 1) }
    ensures count { IfSome result (λ sent. sent.1 ≡ send.old) }
    ensures value { IfSome result (λ sent. sent.0 ≡ sending Done
        (SealedNas dir header (nas_use dir keys.now.int send.old)
        (ciphering_if (is_ciphered header) (nas_ciphering dir keys.now send.old))
        (spelling_of told.now))) }
{
    let text = told.write();
    let (pdu, count) = seal(keys, send, header, dir, text.as_slice()).ok()?;
    let out = NasOut {
        pdu: Some(pdu),
        used: uses(keys, header, dir, count),
        ..NasOut::of(Answer::Done)
    };
    Some((out, count))
}

// The uses of the keys in sending: that of encryption where the message is ciphered, and that of
// integrity.
fn uses(keys: &NasKeys, header: u8, dir: Dir, count: u32) -> Few<Use, 2>
    ensures { result ≡ map use_out (ciphering_use (ciphering_if (is_ciphered header) (nas_ciphering dir keys.now count)) ++ nas_use dir keys.now.int count ∷ []) }
{
    let integrity = Use {
        key: keys.key(AlgType::NasInt),
        count,
        bearer: 0,
        dir,
    };
    let mut used = Few::new();
    if ciphers(header) {
        used.push(Use {
            key: keys.key(AlgType::NasEnc),
            ..integrity
        });
    }
    used.push(integrity);
    used
}

// Whether a header type has the message ciphered.
fn ciphers(header: u8) -> bool
    ensures { result ≡ is_ciphered header }
{
    header == 2 || header == 4
}
