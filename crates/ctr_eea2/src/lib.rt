//! 128-EEA2, which ciphers and deciphers a text: AES in counter mode (TS 33.401 B.1.3).
#![tactic(auto)]

ghost use Rattle.std.specs.Prelude.{◌≡◌, ◌+◌, ◌<◌, ◌≤◌, List, ℕ, ◌++◌, length, slice_index};
ghost use Rattle.rec_base.specs.BigEndian.{octets_of};
ghost use Rattle.rec_base.specs.declared.uses.Dir.{Dir};
ghost use Rattle.keystream.specs.Combined.{combined};
ghost use Rattle.ctr_eea2.specs.Eea2.{eea2_of};

use aes_core::Aes128;
use rec_base::{Dir, header};

/// 128-EEA2: ciphers a text in place, or deciphers it. Each octet is combined with the keystream
/// octet of its place (TS 33.401 B.1.3).
///
/// `key` has 16 octets, `bearer` is BEARER, of 5 bits, and the text has any length.
pub fn eea2(key: &[u8; 16], count: u32, bearer: u8, dir: Dir, text: &mut [u8])
    requires { bearer < 32 }
    ensures value { text.new ≡ eea2_of key.now count bearer dir text.old }
    ensures twice { eea2_of key.now count bearer dir text.new ≡ text.old }
{
    let aes = Aes128::new(key);
    let header = header(count, bearer, dir);
    for number in 0..text.len().div_ceil(16) {
        let stream = aes.encrypt(counter_block(header, number as u64));
        let place = 16 * number;
        let end = text.len().min(place + 16);
        combine(&mut text[place..end], &stream);
    }
}

/// To cipher twice gives the text back, whatever key, COUNT, BEARER, DIRECTION and text are.
pub fn twice_is_the_text()
    ensures { (key : List ℕ) (count bearer : ℕ) (dir : Dir) (text : List ℕ)
        → eea2_of key count bearer dir (eea2_of key count bearer dir text) ≡ text }
{}

// The counter block of this number.
fn counter_block(header: [u8; 8], number: u64) -> [u8; 16]
    ensures { result ≡ header ++ octets_of 8 number }
{
    let mut block = [0; 16];
    block[..8].copy_from_slice(&header);
    block[8..].copy_from_slice(&number.to_be_bytes());
    block
}

// Combines a piece of a text with the encrypted counter block at its place.
fn combine(piece: &mut [u8], stream: &[u8; 16])
    requires { length piece.old ≤ 16 }
    ensures { piece.new ≡ combined (slice_index stream.now) 0 piece.old }
{
    for (i, octet) in piece.iter_mut().enumerate() {
        *octet ^= stream[i];
    }
}
