ghost use Rattle.std.specs.Prelude.{◌≡◌, ◌≤◌, ◌<◌, Ok, length, IfOk, IfErr, OnErr};
ghost use Rattle.std.specs.String.{string_bytes};
ghost use Rattle.growth.specs.Growth.{WasRefused};
ghost use Rattle.calc_text.specs.Ciphering.{enciphered};
ghost use Rattle.calc_text.specs.Field.{Refuses, octets_in, few_octets_in};
ghost use Rattle.calc_text.specs.PduAnswer.{written};

use crate::ciphering::encipher;
use crate::fields::{Field, LineFault};
use crate::requests::Inputs;
use alg_suite::Ciphering;
use hex::FromHexError;
use std::alloc::{AllocError, Global};
use std::marker::Model;

/// Octets that a line has in hex digits, of any number. A contract sees their list.
#[derive(Drop)]
pub struct Octets {
    octets: Vec<u8>,
}

impl Model for Octets {
    ghost use Rattle.std.specs.Prelude.{ℕ, List};

    ghost Value = { List ℕ };

    ghost view = { λ o. o.octets.items };
}

impl Octets {
    // The octets that a word is in hex digits, or none where it is `-`.
    #[tactic(auto, unfolding(crate::specs::Field::octets_in))]
    pub(crate) fn read(alloc: Global, field: Field, word: &[u8]) -> Result<Octets, LineFault>
        ensures octets { IfOk result (λ octets. octets_in field word.now ≡ Ok octets) }
        ensures bad { IfErr result (λ fault. Refuses fault (octets_in field word.now)) }
    {
        if word == b"-".as_slice() {
            return Ok(Octets {
                octets: Vec::new(alloc),
            });
        }
        if word.is_empty() {
            return Err(LineFault::Bad(field));
        }
        match growth::decode(alloc, word) {
            Ok(octets) => Ok(Octets { octets }),
            Err(FromHexError::OutOfMemory) => Err(LineFault::Memory),
            Err(_) => Err(LineFault::Bad(field)),
        }
    }

    // The same of a word with so many octets at the most.
    #[tactic(auto, unfolding(crate::specs::Field::few_octets_in))]
    pub(crate) fn read_few(
        alloc: Global,
        most: usize,
        field: Field,
        word: &[u8],
    ) -> Result<Octets, LineFault>
        ensures octets { IfOk result (λ octets. few_octets_in most field word.now ≡ Ok octets) }
        ensures bad { IfErr result (λ fault. Refuses fault (few_octets_in most field word.now)) }
        ensures few { IfOk result (λ octets. length octets ≤ most) }
    {
        let octets = Octets::read(alloc, field, word)?;
        if octets.as_slice().len() > most {
            return Err(LineFault::Bad(field));
        }
        Ok(octets)
    }

    // The octets, enciphered or deciphered.
    pub(crate) fn cipher(&mut self, eea: Ciphering, inputs: &Inputs)
        requires { inputs.now.bearer < 32 }
        ensures { self.new ≡ enciphered eea inputs.now self.old }
    {
        encipher(eea, inputs, self.octets.as_mut_slice());
    }

    // The octets as a slice.
    pub(crate) fn as_slice(&self) -> &[u8]
        ensures { result.now ≡ self.now }
    {
        self.octets.as_slice()
    }
}

// Octets in hex digits, or `-` where there are none.
pub(crate) fn written(alloc: Global, octets: &[u8]) -> Result<String, AllocError>
    ensures text { IfOk result (λ text. string_bytes text ≡ written octets.now) }
    ensures refused { OnErr result WasRefused }
{
    if octets.is_empty() {
        growth::from_str(alloc, "-")
    } else {
        growth::encode(alloc, octets)
    }
}
