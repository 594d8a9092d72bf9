// The cipher (FIPS 197, 5.1).
ghost use Rattle.std.specs.Prelude.{◌≡◌};
ghost use Rattle.aes_core.specs.Aes.{aes};

use crate::key_expansion::{Word, expand_key};
use crate::state::State;
use std::marker::Model;

/// AES under one key of 16 octets (FIPS 197). A contract sees it as its key.
#[derive(Clone, Copy)]
pub struct Aes128 {
    // the key expansion
    words: [Word; 44],
}

impl Model for Aes128 {
    ghost use Rattle.std.specs.Prelude.{◌≡◌, ℕ, List, map, take};
    ghost use Rattle.std.specs.List.{concat};
    ghost use Rattle.aes_core.specs.KeyExpansion.{key_expansion};
    ghost use Rattle.aes_core.specs.Word.{word_number, word_octets};

    ghost Value = { List ℕ };

    ghost view = { λ a. concat (take 4 (map word_octets a.words)) };

    ghost invariant = { λ a. let key = concat (take 4 (map word_octets a.words)) in
        (map word_octets a.words ≡ key_expansion key) × (a.words ≡ map word_number (key_expansion key)) };

    ghost inverse = { λ key. record { words = map word_number (key_expansion key) } };
}

impl Aes128 {
    /// AES under this key.
    pub fn new(key: &[u8; 16]) -> Aes128
        ensures { result ≡ key.now }
    {
        Aes128 {
            words: expand_key(key),
        }
    }

    /// The block of 16 octets, encrypted (the Cipher of FIPS 197, 5.1).
    pub fn encrypt(&self, block: [u8; 16]) -> [u8; 16]
        ensures { result ≡ aes self.now block }
    {
        // Written out: of a loop, LLVM makes code that moves the words to a vector register and back.
        let words = &self.words;
        let first_rounds = State::of_block(block)
            .add_round_key(words, 0)
            .round(words, 1)
            .round(words, 2)
            .round(words, 3)
            .round(words, 4)
            .round(words, 5)
            .round(words, 6)
            .round(words, 7)
            .round(words, 8)
            .round(words, 9);
        let last = first_rounds.substituted().add_round_key(words, 10);
        last.block()
    }
}
