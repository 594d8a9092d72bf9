//! 128-EEA3, which ciphers and deciphers a text: ZUC as a stream cipher (TS 33.401 B.1.4, TS 35.221).
#![tactic(auto)]

ghost use Rattle.std.specs.Prelude.{◌≡◌, ◌<◌, List, ℕ};
ghost use Rattle.eea3.specs.Eea3.{eea3_iv, eea3_of};
ghost use Rattle.rec_base.specs.declared.uses.Dir.{Dir};

use keystream::combine_words;
use rec_base::{Dir, header};
use zuc::Zuc;

/// 128-EEA3: ciphers a text in place, or deciphers it. Each octet is combined with the keystream
/// octet of its place (TS 33.401 B.1.1 and B.1.4).
///
/// `key` has 16 octets, `bearer` is BEARER, of 5 bits, and the text has any length.
pub fn eea3(key: &[u8; 16], count: u32, bearer: u8, dir: Dir, text: &mut [u8])
    requires { bearer < 32 }
    ensures value { text.new ≡ eea3_of key.now count bearer dir text.old }
    ensures twice { eea3_of key.now count bearer dir text.new ≡ text.old }
{
    let mut zuc = Zuc::new(key, &eea3_iv(count, bearer, dir));
    for number in 0..text.len().div_ceil(64) {
        let words = zuc.next_words();
        let place = 64 * number;
        let end = text.len().min(place + 64);
        combine_words(&mut text[place..end], &words);
    }
}

/// To cipher twice gives the text back, whatever key, COUNT, BEARER, DIRECTION and text are.
pub fn twice_is_the_text()
    ensures { (key : List ℕ) (count bearer : ℕ) (dir : Dir) (text : List ℕ)
        → eea3_of key count bearer dir (eea3_of key count bearer dir text) ≡ text }
{}

// The IV.
#[tactic(auto, unfolding(crate::specs::Eea3::eea3_iv))]
fn eea3_iv(count: u32, bearer: u8, dir: Dir) -> [u8; 16]
    requires { bearer < 32 }
    ensures { result ≡ eea3_iv count bearer dir }
{
    let [a, b, c, d, e, f, g, h] = header(count, bearer, dir);
    [a, b, c, d, e, f, g, h, a, b, c, d, e, f, g, h]
}
