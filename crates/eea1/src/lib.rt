//! 128-EEA1, which ciphers and deciphers a text: SNOW 3G as a stream cipher (TS 33.401 B.1.2, TS 35.215).
#![tactic(auto)]

ghost use Rattle.std.specs.Prelude.{◌≡◌, ◌<◌, List, ℕ};
ghost use Rattle.eea1.specs.Eea1.{bearer_word, eea1_iv, eea1_of};
ghost use Rattle.rec_base.specs.declared.uses.Dir.{Dir};

use keystream::combine_words;
use rec_base::Dir;
use snow3g::Snow3g;

/// 128-EEA1: ciphers a text in place, or deciphers it. Each octet is combined with the keystream
/// octet of its place (TS 33.401 B.1.1 and B.1.2).
///
/// `key` has 16 octets, `bearer` is BEARER, of 5 bits, and the text has any length.
pub fn eea1(key: &[u8; 16], count: u32, bearer: u8, dir: Dir, text: &mut [u8])
    requires { bearer < 32 }
    ensures value { text.new ≡ eea1_of key.now count bearer dir text.old }
    ensures twice { eea1_of key.now count bearer dir text.new ≡ text.old }
{
    let mut snow = Snow3g::new(key, eea1_iv(count, bearer, dir));
    for number in 0..text.len().div_ceil(64) {
        let words = snow.next_words();
        let place = 64 * number;
        let end = text.len().min(place + 64);
        combine_words(&mut text[place..end], &words);
    }
}

/// To cipher twice gives the text back, whatever key, COUNT, BEARER, DIRECTION and text are.
pub fn twice_is_the_text()
    ensures { (key : List ℕ) (count bearer : ℕ) (dir : Dir) (text : List ℕ)
        → eea1_of key count bearer dir (eea1_of key count bearer dir text) ≡ text }
{}

// IV0 to IV3.
#[tactic(auto, unfolding(crate::specs::Eea1::eea1_iv))]
fn eea1_iv(count: u32, bearer: u8, dir: Dir) -> [u32; 4]
    requires { bearer < 32 }
    ensures { result ≡ eea1_iv count bearer dir }
{
    let word = bearer_word(bearer, dir);
    [word, count, word, count]
}

// BEARER, DIRECTION and 26 zero bits.
fn bearer_word(bearer: u8, dir: Dir) -> u32
    requires { bearer < 32 }
    ensures { result ≡ bearer_word bearer dir }
{
    let word = bearer as u32 * (1 << 27);
    match dir {
        Dir::Up => word,
        Dir::Down => word + (1 << 26),
    }
}
