ghost use Rattle.std.specs.Prelude.{◌≡◌, ◌≤◌, ◌∷◌, length};
ghost use Rattle.rec_base.specs.Lengths.{longest_record};
ghost use Rattle.annex_a_keys.specs.AlgType.{IsOfNas};
ghost use Rattle.nas_guard.specs.Cipher.{mac_of};
ghost use Rattle.nas_guard.specs.Keys.{key_of};
ghost use Rattle.nas_guard.specs.Seal.{nas_bearer, sent_text};

use crate::{cipher, mac, mac_behind};
use alg_choice::Algs;
use annex_a_keys::{AlgKey, AlgType};
use rec_base::{Dir, Octets};
use std::marker::Model;

/// The keys of a NAS security context, KNASenc and KNASint, and its algorithms (TS 33.401 6.2).
#[derive(Clone, Copy)]
pub struct NasKeys {
    enc: AlgKey,
    int: AlgKey,
    algs: Algs,
}

impl Model for NasKeys {
    ghost use Rattle.std.specs.Prelude.{ℕ, List};
    ghost use Rattle.nas_guard.specs.Keys.{Keys};

    ghost Value = { Keys (List ℕ) };

    ghost view = { λ k. record { enc = k.enc; int = k.int; algs = k.algs } };

    ghost inverse = { λ k. record { enc = k.enc; int = k.int; algs = k.algs } };
}

impl NasKeys {
    /// The keys and algorithms of a context.
    pub fn new(enc: AlgKey, int: AlgKey, algs: Algs) -> NasKeys
        ensures { result ≡ record { enc = enc; int = int; algs = algs } }
    {
        NasKeys { enc, int, algs }
    }

    /// The whole algorithm key, of 32 octets, for NAS encryption or for NAS integrity.
    pub fn key(&self, kind: AlgType) -> [u8; 32]
        requires { IsOfNas kind }
        ensures { result ≡ key_of self.now kind }
    {
        match kind {
            AlgType::NasEnc => self.enc.octets(),
            _ => self.int.octets(),
        }
    }

    /// The NAS-MAC over a sequence number and a text as sent, of any length (TS 24.301 4.4.3.3).
    pub fn mac(&self, count: u32, dir: Dir, covered: &[u8]) -> [u8; 4]
        ensures { result ≡ mac_of self.now.int count nas_bearer dir covered.now }
    {
        mac(&self.int, count, 0, dir, covered)
    }

    /// The NAS-MAC over a sequence number and the text as sent after it, as `mac` of them joined.
    pub fn mac_behind(&self, count: u32, dir: Dir, sn: u8, sent: &[u8]) -> [u8; 4]
        ensures { result ≡ mac_of self.now.int count nas_bearer dir (sn ∷ sent.now) }
    {
        mac_behind(&self.int, count, 0, dir, sn, sent)
    }

    /// Makes the text as sent of a text in place, or the text of a text as sent (TS 24.301 4.4.5): ciphered where the security
    /// header type, 1 to 4, is 2 or 4. The text has any length.
    #[tactic(auto, unfolding(crate::specs::Seal::sent_text))]
    pub fn cipher(&self, header: u8, count: u32, dir: Dir, text: &mut [u8])
        ensures { text.new ≡ sent_text self.now header count dir text.old }
    {
        if header == 2 || header == 4 {
            cipher(self.algs.eea, &self.enc, count, 0, dir, text);
        }
    }

    // The text as sent of a text, and the text of a text as sent.
    pub(crate) fn sent_text(&self, header: u8, count: u32, dir: Dir, text: &[u8]) -> Octets
        requires { length text.now ≤ longest_record }
        ensures value { result ≡ sent_text self.now header count dir text.now }
        ensures length { length result ≡ length text.now }
    {
        let mut buffer = [0; 1536];
        let sent = &mut buffer[..text.len()];
        sent.copy_from_slice(text);
        self.cipher(header, count, dir, sent);
        let mut octets = Octets::new();
        octets.append(sent);
        octets
    }
}
