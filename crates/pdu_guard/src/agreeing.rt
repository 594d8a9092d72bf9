// That this is the program's protection.
ghost use Rattle.std.specs.Prelude.{◌≡◌, ℕ, List, true};
ghost use Rattle.nas_guard.specs.Keys.{Keys};
ghost use Rattle.nas_guard.specs.Open.{opened};
ghost use Rattle.nas_guard.specs.Seal.{sealed};
ghost use Rattle.pdcp_guard.specs.AsKeys.{AsKeys};
ghost use Rattle.pdcp_guard.specs.Drb.{drb_count, drb_opened, drb_sealed};
ghost use Rattle.pdcp_guard.specs.Srb.{srb_opened, srb_sealed};
ghost use Rattle.pdu_guard.specs.Agreement.{checked_nas, checked_srb, drb_keys_of, nas_keys_of, srb_keys_of};
ghost use Rattle.pdu_guard.specs.declared.drb.Numbers.TheVariants.{Twelve};
ghost use Rattle.pdu_guard.specs.Drb.{drb_count_of, drb_pdu, drb_pdu_opened};
ghost use Rattle.pdu_guard.specs.Nas.{nas_opened, nas_pdu};
ghost use Rattle.pdu_guard.specs.Srb.{srb_pdu, srb_pdu_opened};

use rec_base::{Bearer, Dir};

/// At the program's algorithms, EEA0, 128-EEA2 and 128-EIA2, what is made and opened here over plain octets is what the program's
/// actors make and open: NAS messages, and under the keys of a KeNB the PDUs of an SRB that is ciphered, and of a DRB with
/// sequence numbers of 12 bits.
pub fn agree(bearer: Bearer, dir: Dir)
    ensures nas_pdus { (keys : Keys (List ℕ)) (header count : ℕ) (text : List ℕ)
        → nas_pdu (nas_keys_of keys) header count dir text ≡ sealed keys header count dir text }
    ensures nas_opens { (keys : Keys (List ℕ)) (next : ℕ) (pdu : List ℕ)
        → nas_opened (nas_keys_of keys) next dir pdu ≡ checked_nas (opened keys next dir pdu) }
    ensures srb_pdus { (keys : AsKeys (List ℕ)) (count : ℕ) (text : List ℕ)
        → srb_pdu (srb_keys_of keys bearer) count dir text ≡ srb_sealed keys true bearer count dir text }
    ensures srb_opens { (keys : AsKeys (List ℕ)) (next : ℕ) (pdu : List ℕ)
        → srb_pdu_opened (srb_keys_of keys bearer) next dir pdu ≡ checked_srb (srb_opened keys true bearer next dir pdu) }
    ensures drb_pdus { (keys : AsKeys (List ℕ)) (count : ℕ) (text : List ℕ)
        → drb_pdu (drb_keys_of keys bearer) count dir text ≡ drb_sealed keys bearer count dir text }
    ensures drb_counts { (next : ℕ) (pdu : List ℕ) → drb_count_of Twelve next pdu ≡ drb_count next pdu }
    ensures drb_opens { (keys : AsKeys (List ℕ)) (next : ℕ) (pdu : List ℕ)
        → drb_pdu_opened (drb_keys_of keys bearer) next dir pdu ≡ drb_opened keys bearer next dir pdu }
{}
