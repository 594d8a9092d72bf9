ghost use Rattle.std.specs.Prelude.{◌≡◌, ◌≤◌, ◌∷◌, length, map};
ghost use Rattle.annex_a_keys.specs.AlgType.{IsOfAs};
ghost use Rattle.key_model.specs.Reading.{octet_reading};
ghost use Rattle.nas_guard.specs.Cipher.{ciphered};
ghost use Rattle.rec_base.specs.Bearer.{bearer5_of};
ghost use Rattle.rec_base.specs.Lengths.{longest_record};
ghost use Rattle.pdcp_guard.specs.AsKeys.{as_derivations, as_key, as_keys_of};
ghost use Rattle.key_model.specs.Derivation.{derived_of};
ghost use Rattle.pdcp_guard.specs.Srb.{srb_ciphered, srb_mac};
ghost use Rattle.pdcp_guard.specs.Drb.{drb_ciphered};

use alg_choice::{Algs, Eea};
use annex_a_keys::{AlgKey, AlgType, Derived, Kenb};
use arrayvec::ArrayVec;
use nas_guard::{cipher, mac_behind};
use rec_base::{Bearer, Dir, Octets};
use std::marker::Model;

/// The keys of the access stratum, KRRCenc, KRRCint and KUPenc, and its algorithms (TS 33.401 6.2).
#[derive(Clone, Copy, Default)]
pub struct AsKeys {
    rrc_enc: AlgKey,
    rrc_int: AlgKey,
    up_enc: AlgKey,
    algs: Algs,
}

impl Model for AsKeys {
    ghost use Rattle.std.specs.Prelude.{List, ℕ};
    ghost use Rattle.pdcp_guard.specs.AsKeys.{AsKeys as KeysOf};

    ghost Value = { KeysOf (List ℕ) };

    ghost view = { λ k. record { rrc_enc = k.rrc_enc; rrc_int = k.rrc_int; up_enc = k.up_enc; algs = k.algs } };

    ghost inverse = { λ k. record { rrc_enc = k.rrc_enc; rrc_int = k.rrc_int; up_enc = k.up_enc; algs = k.algs } };
}

impl AsKeys {
    /// The keys of a KeNB under the chosen algorithms (TS 33.401 A.7), and their derivations by rising
    /// algorithm type.
    pub fn derive(kenb: &Kenb, algs: Algs) -> (AsKeys, ArrayVec<Derived, 3>)
        ensures keys { result.0 ≡ as_keys_of octet_reading kenb.now algs }
        ensures derived { result.1.items ≡ map derived_of (as_derivations octet_reading kenb.now algs) }
    {
        let id = algs.eea.identity();
        let kenb = kenb.keyed();
        let (rrc_enc, first) = kenb.alg(AlgType::RrcEnc, id);
        let (rrc_int, second) = kenb.alg(AlgType::RrcInt, 2);
        let (up_enc, third) = kenb.alg(AlgType::UpEnc, id);
        let keys = AsKeys {
            rrc_enc,
            rrc_int,
            up_enc,
            algs,
        };
        (keys, ArrayVec::from([first, second, third]))
    }

    /// The whole algorithm key, of 32 octets, for RRC encryption, RRC integrity or user plane
    /// encryption.
    pub fn key(&self, kind: AlgType) -> [u8; 32]
        requires { IsOfAs kind }
        ensures { result ≡ as_key self.now kind }
    {
        match kind {
            AlgType::RrcEnc => self.rrc_enc.octets(),
            AlgType::RrcInt => self.rrc_int.octets(),
            _ => self.up_enc.octets(),
        }
    }

    /// The chosen algorithms.
    pub fn algs(&self) -> Algs
        ensures { result ≡ self.now.algs }
    {
        self.algs
    }

    // MAC-I over the header octet and the data of an SRB's PDU.
    pub(crate) fn srb_mac(
        &self,
        bearer: Bearer,
        count: u32,
        dir: Dir,
        header: u8,
        text: &[u8],
    ) -> [u8; 4]
        ensures { result ≡ srb_mac self.now bearer count dir (header ∷ text.now) }
    {
        mac_behind(&self.rrc_int, count, bearer.bearer5(), dir, header, text)
    }

    // Data and MAC-I of an SRB's PDU, ciphered or deciphered where the bearer is ciphered.
    #[tactic(auto, unfolding(crate::specs::Srb::srb_ciphered))]
    pub(crate) fn srb_ciphered(
        &self,
        ciphers: bool,
        bearer: Bearer,
        count: u32,
        dir: Dir,
        octets: &[u8],
    ) -> Octets
        requires { length octets.now ≤ longest_record }
        ensures value { result ≡ srb_ciphered self.now ciphers bearer count dir octets.now }
        ensures length { length result ≡ length octets.now }
    {
        if ciphers {
            return ciphered(self.algs.eea, &self.rrc_enc, bearer, count, dir, octets);
        }
        let mut plain = Octets::new();
        plain.append(octets);
        plain
    }

    // The text of a DRB's PDU, ciphered or deciphered.
    #[tactic(auto, unfolding(crate::specs::Drb::drb_ciphered))]
    pub(crate) fn drb_ciphered(&self, bearer: Bearer, count: u32, dir: Dir, text: &[u8]) -> Octets
        requires { length text.now ≤ longest_record }
        ensures value { result ≡ drb_ciphered self.now bearer count dir text.now }
        ensures length { length result ≡ length text.now }
    {
        ciphered(self.algs.eea, &self.up_enc, bearer, count, dir, text)
    }
}

// A text under an encryption algorithm.
fn ciphered(eea: Eea, key: &AlgKey, bearer: Bearer, count: u32, dir: Dir, text: &[u8]) -> Octets
    requires { length text.now ≤ longest_record }
    ensures value { result ≡ ciphered eea key.now count (bearer5_of bearer) dir text.now }
    ensures length { length result ≡ length text.now }
{
    let mut buffer = [0; 1536];
    let sent = &mut buffer[..text.len()];
    sent.copy_from_slice(text);
    cipher(eea, key, count, bearer.bearer5(), dir, sent);
    let mut octets = Octets::new();
    octets.append(sent);
    octets
}
