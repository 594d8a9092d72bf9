ghost use Rattle.std.specs.Prelude.{◌≡◌, true, map, take, IfOk, OnErr};
ghost use Rattle.std.specs.Char.{is_ascii_digit};
ghost use Rattle.std.specs.List.{list_all};
ghost use Rattle.growth.specs.Growth.{WasRefused};
ghost use Rattle.text_lines.specs.Words.{words_of, starts_well, is_numeral, number_of, hex_octets};

use hex::FromHex;
use std::alloc::{AllocError, Global};

/// The first words of a line, at most so many.
pub fn first_words(alloc: Global, line: &[u8], most: usize) -> Result<Vec<&[u8]>, AllocError>
    ensures words { IfOk result (λ words. map (λ word. word.now) words.items ≡ take most (words_of line.now)) }
    ensures refused { OnErr result WasRefused }
{
    growth::collect(line.split(|octet| *octet == b' ').take(most), alloc)
}

/// The words of a line.
pub fn all_words(alloc: Global, line: &[u8]) -> Result<Vec<&[u8]>, AllocError>
    ensures words { IfOk result (λ words. map (λ word. word.now) words.items ≡ words_of line.now) }
    ensures refused { OnErr result WasRefused }
{
    growth::collect(line.split(|octet| *octet == b' '), alloc)
}

/// N octets that a word is in hex digits of either case.
#[tactic(auto, unfolding(crate::specs::Words::hex_octets))]
pub fn hex_octets<const N: usize>(word: &[u8]) -> Option<[u8; N]>
    ensures { result ≡ hex_octets N word.now }
{
    <[u8; N]>::from_hex(word).ok()
}

/// The number that a word is, below 2^32: decimal digits with no sign and no leading zero, except `0` itself.
pub fn number(word: &[u8]) -> Option<u32>
    ensures { result ≡ number_of word.now }
{
    if !is_numeral(word) {
        return None;
    }
    digits(word).parse().ok()
}

// The text of a word that is digits.
fn digits(word: &[u8]) -> &str
    requires { is_numeral word.now ≡ true }
    ensures { result.now ≡ word.now }
{
    str::from_utf8(word).unwrap()
}

// Whether a word is digits with no sign and no leading zero, except `0` itself.
fn is_numeral(word: &[u8]) -> bool
    ensures { result ≡ is_numeral word.now }
{
    starts_well(word) && all_digits(word)
}

// Whether each octet of a word is a digit.
fn all_digits(word: &[u8]) -> bool
    ensures { result ≡ list_all is_ascii_digit word.now }
{
    word.iter().all(|octet| octet.is_ascii_digit())
}

// Whether a word has a first digit that is no leading zero.
fn starts_well(word: &[u8]) -> bool
    ensures { result ≡ starts_well word.now }
{
    match word {
        [] => false,
        [_] => true,
        [first, ..] => *first != b'0',
    }
}
