// Texts that are made.
ghost use Rattle.std.specs.Prelude.{◌≡◌, ◌%◌, ◌⊎◌, length, IfErr, IfOk, IfSome, OnErr, Ok, Err, string_bytes};
ghost use Rattle.hex.specs.Hex.{encode_lower, decode_of};
ghost use Rattle.growth.specs.Growth.{Refused, WasRefused};

use hex::FromHexError;
use std::alloc::{AllocError, Global};
use std::convert::AsSlice;
use std::fmt::Display;

/// The text of a value, or of what `format_args!` names.
pub fn format<D: Display + Drop>(alloc: Global, value: D) -> Result<String, AllocError>
    ensures ok { IfOk result (λ text. IfSome (D.output value) (λ octets. string_bytes text ≡ octets)) }
    ensures refused { OnErr result WasRefused }
{
    String::format(alloc, value)
}

/// A text of its own that reads as this one.
pub fn from_str(alloc: Global, text: &str) -> Result<String, AllocError>
    ensures ok { IfOk result (λ copied. string_bytes copied ≡ text.now) }
    ensures refused { OnErr result (Refused (length text.now)) }
{
    String::from_str(alloc, text)
}

/// The hex digits of octets, in lower case.
pub fn encode<T: AsSlice<u8> + Drop>(alloc: Global, octets: T) -> Result<String, AllocError>
    ensures digits { IfOk result (λ text. string_bytes text ≡ encode_lower (T.items octets)) }
    ensures refused { OnErr result WasRefused }
{
    hex::encode(alloc, octets)
}

/// The octets that hex digits name.
pub fn decode<T: AsSlice<u8> + Drop>(alloc: Global, digits: T) -> Result<Vec<u8>, FromHexError>
    ensures ok { IfOk result (λ octets. decode_of (T.items digits) ≡ Ok octets.items) }
    ensures err { IfErr result (λ e. (e ≡ FromHexError.OutOfMemory) ⊎ (decode_of (T.items digits) ≡ Err e)) }
    ensures odd { length (T.items digits) % 2 ≡ 1 → result ≡ Err FromHexError.OddLength }
    ensures refused { IfErr result (λ e. e ≡ FromHexError.OutOfMemory → WasRefused) }
{
    hex::decode(alloc, digits)
}
