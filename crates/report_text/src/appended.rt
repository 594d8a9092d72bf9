ghost use Rattle.growth.specs.Growth.{WasRefused};
ghost use Rattle.std.specs.Prelude.{◌≡◌, ◌++◌, OnErr, OnOk};
ghost use Rattle.std.specs.Fmt.{decimal};
ghost use Rattle.hex.specs.Hex.{encode_lower};

use itoa::Buffer;
use std::alloc::{AllocError, Global};

/// Puts a text behind a text.
pub(crate) fn add(text: &mut Vec<u8>, more: &str) -> Result<(), AllocError>
    ensures added { OnOk result (text.new.items ≡ text.old.items ++ more.now) }
    ensures refused { OnErr result WasRefused }
{
    growth::extend_from_slice(text, more.as_bytes())
}

/// Puts a number in decimal behind a text.
pub(crate) fn add_decimal(text: &mut Vec<u8>, number: u32) -> Result<(), AllocError>
    ensures added { OnOk result (text.new.items ≡ text.old.items ++ decimal number) }
    ensures refused { OnErr result WasRefused }
{
    let mut buffer = Buffer::new();
    add(text, buffer.format(number))
}

/// Puts a name and a number behind a text.
pub(crate) fn add_number(text: &mut Vec<u8>, name: &str, number: u32) -> Result<(), AllocError>
    ensures added { OnOk result (text.new.items ≡ text.old.items ++ (name.now ++ decimal number)) }
    ensures refused { OnErr result WasRefused }
{
    add(text, name)?;
    add_decimal(text, number)
}

/// Puts a name and the hex digits of octets behind a text.
pub(crate) fn add_octets(
    alloc: Global,
    text: &mut Vec<u8>,
    name: &str,
    octets: &[u8],
) -> Result<(), AllocError>
    ensures added { OnOk result (text.new.items ≡ text.old.items ++ (name.now ++ encode_lower octets.now)) }
    ensures refused { OnErr result WasRefused }
{
    add(text, name)?;
    let digits = growth::encode(alloc, octets)?;
    add(text, digits.as_str())
}
