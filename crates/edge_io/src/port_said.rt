ghost use Rattle.std.specs.Prelude.{◌≡◌, ◌≢◌, ◌++◌, ◌∷◌, ◌≤◌, [], All, length, IfOk, OnErr, codes};
ghost use Rattle.std.specs.Io.KnownBytes.{Consumes};
ghost use Rattle.edge_io.specs.PortLine.{GivesNone, ReadsNoPort, ReadsPort};

use crate::failed::Failed;
use crate::port_line::{LINE, port_number};
use crate::reader::Reader;
use crate::reader_source::read_once;
use arrayvec::ArrayVec;

/// Reads the line by which a program says its port, and answers its number.
pub(crate) fn port_said<R: Reader>(said: &mut R) -> Result<u16, Failed>
    ensures port { IfOk result (λ number. ReadsPort number (R.remaining said.old) (R.remaining said.new)) }
    ensures failed { OnErr result (ReadsNoPort R.answers R.remaining said.old said.new) }
{
    let digits = digits_said(said)?;
    match port_number(digits.as_slice()) {
        Some(number) => Ok(number),
        None => Err(Failed),
    }
}

// The octets before the first LF, of which there are at most five.
fn digits_said<R: Reader>(said: &mut R) -> Result<ArrayVec<u8, LINE>, Failed>
    ensures line { IfOk result (λ digits.
        Consumes (R.remaining said.old) (R.remaining said.new) (digits.items ++ codes "\n")) }
    ensures no_end { IfOk result (λ digits. All (λ octet. octet ≢ 10) digits.items) }
    ensures failed { OnErr result (ReadsNoPort R.answers R.remaining said.old said.new) }
{
    let mut digits = ArrayVec::new();
    'line: for _place in 0..LINE {
        let octet = next_octet(said)?;
        if octet == b'\n' {
            return Ok(digits);
        }
        digits.push(octet);
    }
    Err(Failed)
}

// The next octet.
fn next_octet<R: Reader>(said: &mut R) -> Result<u8, Failed>
    ensures octet { IfOk result (λ octet. Consumes (R.remaining said.old) (R.remaining said.new) (octet ∷ [])) }
    ensures failed { OnErr result (GivesNone R.answers said.old said.new) }
{
    let mut buf = [0u8];
    let count = read_once(said, &mut buf)?;
    if count == 0 {
        return Err(Failed);
    }
    let [octet] = buf;
    Ok(octet)
}
