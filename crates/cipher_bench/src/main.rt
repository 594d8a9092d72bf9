//! Takes turns of a ciphering or an integrity algorithm over a text, for a clock outside.
//!
//! The words are `eea1`, `eea2`, `eea3`, `eia1`, `eia2` or `eia3`, the text's length in octets, at most 1,536, and how many
//! turns are taken. What is printed tells one computation from another: under an integrity algorithm the exclusive or of
//! the turns' codes, and under a cipher the code of the text after the turns, by the algorithm of the same family.
#![tactic(auto)]

ghost use Rattle.std.specs.Prelude.{◌≤◌, length};

use cmac_eia2::eia2;
use ctr_eea2::eea2;
use eea1::eea1;
use eea3::eea3;
use eia1::eia1;
use eia3::eia3;
use rec_base::Dir;
use std::env;
use std::io::{self, ErrorKind};

const KEY: [u8; 16] = *b"sixteen octets k";

const BEARER: u8 = 3;

#[derive(Clone, Copy)]
enum Cipher {
    Eea1,
    Eea2,
    Eea3,
}

#[derive(Clone, Copy)]
enum Code {
    Eia1,
    Eia2,
    Eia3,
}

fn main(rt: HostRuntime) -> io::Result<()> {
    let mut words = env::args(&rt)?;
    let (Some(_), Some(algorithm), Some(octets), Some(turns)) = (
        words.next(),
        words.next(),
        words.next(),
        words.next(),
    ) else {
        return Err(io::Error::from(ErrorKind::InvalidInput));
    };
    let (octets, turns) = (number(octets.as_str())? as usize, number(turns.as_str())?);
    let mut text = [0; 1536];
    if octets > text.len() {
        return Err(io::Error::from(ErrorKind::InvalidInput));
    }
    let code = match algorithm.as_str() {
        "eea1" => cipher_turns(Cipher::Eea1, &mut text[..octets], turns),
        "eea2" => cipher_turns(Cipher::Eea2, &mut text[..octets], turns),
        "eea3" => cipher_turns(Cipher::Eea3, &mut text[..octets], turns),
        "eia1" => code_turns(Code::Eia1, &text[..octets], turns),
        "eia2" => code_turns(Code::Eia2, &text[..octets], turns),
        "eia3" => code_turns(Code::Eia3, &text[..octets], turns),
        _ => return Err(io::Error::from(ErrorKind::InvalidInput)),
    };
    println!(rt; "{code:08x}")
}

fn number(word: &str) -> io::Result<u32> {
    word.parse::<u32>()
        .map_err(|_| io::Error::from(ErrorKind::InvalidInput))
}

// Ciphers the text in each turn, COUNT being the turn's number.
fn cipher_turns(cipher: Cipher, text: &mut [u8], turns: u32) -> u32
    requires { length text.old ≤ 1536 }
{
    for count in 0..turns {
        match cipher {
            Cipher::Eea1 => eea1(&KEY, count, BEARER, Dir::Down, text),
            Cipher::Eea2 => eea2(&KEY, count, BEARER, Dir::Down, text),
            Cipher::Eea3 => eea3(&KEY, count, BEARER, Dir::Down, text),
        }
    }
    let code = match cipher {
        Cipher::Eea1 => Code::Eia1,
        Cipher::Eea2 => Code::Eia2,
        Cipher::Eea3 => Code::Eia3,
    };
    code_turns(code, text, 1)
}

// Makes the code of the text in each turn, COUNT being the turn's number.
fn code_turns(code: Code, text: &[u8], turns: u32) -> u32 {
    let mut sum = 0;
    for count in 0..turns {
        sum ^= u32::from_be_bytes(match code {
            Code::Eia1 => eia1(&KEY, count, BEARER, Dir::Down, text),
            Code::Eia2 => eia2(&KEY, count, BEARER, Dir::Down, text),
            Code::Eia3 => eia3(&KEY, count, BEARER, Dir::Down, text),
        });
    }
    sum
}
