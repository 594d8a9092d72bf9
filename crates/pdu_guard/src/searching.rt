// The COUNT of a message of which the overflow is not known.
ghost use Rattle.std.specs.Prelude.{◌≡◌, ◌<◌, ◌≤◌, IfSome, length};
ghost use Rattle.nas_count.specs.Estimate.{nas_count_limit};
ghost use Rattle.pdu_guard.specs.Search.{nas_right, nas_search, service_right, service_search};

use crate::checks::is_taken;
use crate::nas::{NasKeys, nas_mac};
use crate::short_macs::short_mac;
use alg_suite::{GivenKey, Integrity};
use rec_base::Dir;

/// The least COUNT with the sequence number of a protected NAS message, of six octets or more, at which its MAC is right: of all 2^16
/// overflows (TS 24.301 4.4.3.1). Under EIA0 any MAC is right.
pub fn find_nas(keys: &NasKeys, dir: Dir, pdu: &[u8]) -> Option<u32>
    requires { 6 ≤ length pdu.now }
    ensures value { result ≡ nas_search keys.now dir pdu.now }
    ensures below { IfSome result (λ count. count < nas_count_limit) }
{
    for overflow in 0..65536u32 {
        if is_nas_right(keys, dir, pdu, overflow) {
            return Some(256 * overflow + u32::from(pdu[5]));
        }
    }
    None
}

// Whether the MAC of a message is right at an overflow.
fn is_nas_right(keys: &NasKeys, dir: Dir, pdu: &[u8], overflow: u32) -> bool
    requires long { 6 ≤ length pdu.now }
    requires overflow { overflow < 65536 }
    ensures { result ≡ nas_right keys.now dir pdu.now overflow }
{
    let wanted = nas_mac(keys, 256 * overflow + u32::from(pdu[5]), dir, &pdu[5..]);
    is_taken(keys.eia, &wanted, &pdu[1..5])
}

/// The least COUNT with the 5 bits of a Service Request at which its short MAC is right: of all 2^19 overflows (TS 24.301 9.9.3.19).
/// The first octet is not looked at. A short MAC has 16 bits, so that it is right by chance at one of 65,536 COUNTs.
///
/// `int` is KNASint. Under EIA0 any short MAC is right.
pub fn find_service_request(eia: Integrity, int: &GivenKey, request: &[u8; 4]) -> Option<u32>
    ensures value { result ≡ service_search eia int.now request.now }
    ensures below { IfSome result (λ count. count < nas_count_limit) }
{
    for overflow in 0..524_288u32 {
        if is_service_right(eia, int, request, overflow) {
            return Some(32 * overflow + u32::from(request[1] % 32));
        }
    }
    None
}

// Whether the short MAC of a Service Request is right at an overflow.
fn is_service_right(eia: Integrity, int: &GivenKey, request: &[u8; 4], overflow: u32) -> bool
    requires { overflow < 524288 }
    ensures { result ≡ service_right eia int.now request.now overflow }
{
    let count = 32 * overflow + u32::from(request[1] % 32);
    let wanted = short_mac(eia, int, count, 0, Dir::Up, &request[..2]);
    is_taken(eia, &wanted, &request[2..])
}
