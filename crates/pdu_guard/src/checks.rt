// Where a MAC is compared.
ghost use Rattle.std.specs.Prelude.{◌≡◌};
ghost use Rattle.pdu_guard.specs.Checks.{is_checked, is_taken};

use alg_suite::Integrity;

/// Whether a receiver compares the MAC: under EIA0 it takes any (TS 33.401 B.0).
pub fn is_checked(eia: Integrity) -> bool
    ensures { result ≡ is_checked eia }
{
    match eia {
        Integrity::Eia0 => false,
        Integrity::Eia1 | Integrity::Eia2 | Integrity::Eia3 => true,
    }
}

// Whether the MAC received is taken, where this one is computed.
pub(crate) fn is_taken(eia: Integrity, wanted: &[u8], got: &[u8]) -> bool
    ensures { result ≡ is_taken eia wanted.now got.now }
{
    !is_checked(eia) || wanted == got
}
