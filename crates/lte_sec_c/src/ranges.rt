// Numbers that C gives for an algorithm and a direction.
ghost use Rattle.std.specs.Prelude.{◌≡◌};
ghost use Rattle.lte_sec_c.specs.Ranges.{dir_of, eea_of, eia_of, is_direction, is_identity, is_use};

use alg_suite::{Ciphering, Integrity};
use rec_base::Dir;

// Whether this is the identity of an algorithm.
pub(crate) fn is_identity(identity: u32) -> bool
    ensures { result ≡ is_identity identity }
{
    identity < 4
}

// The encryption algorithm of an identity.
pub(crate) fn eea_of(identity: u32) -> Ciphering
    ensures { result ≡ eea_of identity }
{
    match identity {
        0 => Ciphering::Eea0,
        1 => Ciphering::Eea1,
        2 => Ciphering::Eea2,
        _ => Ciphering::Eea3,
    }
}

// The integrity algorithm of an identity.
pub(crate) fn eia_of(identity: u32) -> Integrity
    ensures { result ≡ eia_of identity }
{
    match identity {
        0 => Integrity::Eia0,
        1 => Integrity::Eia1,
        2 => Integrity::Eia2,
        _ => Integrity::Eia3,
    }
}

// Whether this is a DIRECTION.
pub(crate) fn is_direction(direction: u32) -> bool
    ensures { result ≡ is_direction direction }
{
    direction < 2
}

// The direction of a DIRECTION.
pub(crate) fn dir_of(direction: u32) -> Dir
    ensures { result ≡ dir_of direction }
{
    if direction == 0 { Dir::Up } else { Dir::Down }
}

// Whether these are a BEARER and a DIRECTION.
pub(crate) fn is_use(bearer: u32, direction: u32) -> bool
    ensures { result ≡ is_use bearer direction }
{
    bearer < 32 && direction < 2
}
