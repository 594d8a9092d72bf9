// The key expansion (FIPS 197, 5.2).
ghost use Rattle.std.specs.Prelude.{◌≡◌, ◌<◌, ◌≤◌, map};
ghost use Rattle.aes_core.specs.KeyExpansion.{key_expansion, key_mask, key_word, next_word};
ghost use Rattle.aes_core.specs.Word.{word_octets};

use crate::s_box::sub_byte;

/// A word of four octets, the first one highest (FIPS 197, 3.5).
pub type Word = u32;

// x^0 to x^9 in the field.
static POWERS_OF_X: [u8; 10] = [0x01, 0x02, 0x04, 0x08, 0x10, 0x20, 0x40, 0x80, 0x1b, 0x36];

// What word `i` takes from `word`, the one before it.
fn key_mask(word: Word, i: usize) -> Word
    requires from_four { 4 ≤ i }
    requires to_forty_three { i < 44 }
    ensures { word_octets result ≡ key_mask (word_octets word) i }
{
    if i % 4 == 0 {
        let octets = word.to_be_bytes();
        Word::from_be_bytes([
            sub_byte(octets[1]) ^ POWERS_OF_X[i / 4 - 1],
            sub_byte(octets[2]),
            sub_byte(octets[3]),
            sub_byte(octets[0]),
        ])
    } else {
        word
    }
}

// Word `i`, from the words before it.
fn next_word(words: &[Word; 44], i: usize) -> Word
    requires from_four { 4 ≤ i }
    requires to_forty_three { i < 44 }
    ensures { word_octets result ≡ next_word (map word_octets words.now) i }
{
    words[i - 4] ^ key_mask(words[i - 1], i)
}

// Word `i` of the key.
fn key_word(key: &[u8; 16], i: usize) -> Word
    requires { i < 4 }
    ensures { word_octets result ≡ key_word key.now i }
{
    Word::from_be_bytes([key[4 * i], key[4 * i + 1], key[4 * i + 2], key[4 * i + 3]])
}

/// The 44 words of the key expansion, four for each round key.
pub fn expand_key(key: &[u8; 16]) -> [Word; 44]
    ensures { map word_octets result ≡ key_expansion key.now }
{
    let mut words = [0; 44];
    words[0] = key_word(key, 0);
    words[1] = key_word(key, 1);
    words[2] = key_word(key, 2);
    words[3] = key_word(key, 3);
    for i in 4..44 {
        words[i] = next_word(&words, i);
    }
    words
}
