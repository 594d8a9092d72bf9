// shortMAC-I of a phone that re-establishes its connection.
ghost use Rattle.std.specs.Prelude.{◌≡◌, ◌≤◌, ◌<◌, IfOk, OnErr};
ghost use Rattle.std.specs.String.{string_bytes};
ghost use Rattle.growth.specs.Growth.{WasRefused};
ghost use Rattle.calc_text.specs.PduAnswer.{written};
ghost use Rattle.calc_text.specs.Recovery.{short_mac_i_by, var_short_mac_input};

use crate::octet_texts::written;
use crate::requests::Reestablishment;
use alg_suite::GivenKey;
use annex_a_keys::{AlgType, Kenb};
use pdu_guard::short_mac_i;
use std::alloc::{AllocError, Global};

// Its octets in hex digits.
pub(crate) fn recovered(alloc: Global, r: &Reestablishment) -> Result<String, AllocError>
    requires cell_identity { r.now.cell_identity < 0x10000000 }
    requires pci { r.now.pci ≤ 503 }
    ensures line { IfOk result (λ line. string_bytes line ≡ written (short_mac_i_by r.now)) }
    ensures refused { OnErr result WasRefused }
{
    let kenb = r.kenb;
    let (int, _) = Kenb::of_octets(kenb).alg(AlgType::RrcInt, r.eia.identity());
    let mac = short_mac_i(r.eia, &GivenKey::from(int), &var_short_mac_input(r));
    written(alloc, &mac)
}

// VarShortMAC-Input, encoded.
#[tactic(auto, unfolding(crate::specs::Recovery::var_short_mac_input))]
fn var_short_mac_input(r: &Reestablishment) -> [u8; 7]
    requires cell_identity { r.now.cell_identity < 0x10000000 }
    requires pci { r.now.pci ≤ 503 }
    ensures { result ≡ var_short_mac_input r.now }
{
    let place = u64::from(r.cell_identity) * 512 + u64::from(r.pci);
    let bits = 8 * (place * 65536 + u64::from(r.c_rnti));
    let [_, a, b, c, d, e, f, g] = bits.to_be_bytes();
    [a, b, c, d, e, f, g]
}
