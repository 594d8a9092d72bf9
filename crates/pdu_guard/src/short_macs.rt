// Short MACs: of a Service Request, and of re-establishment.
ghost use Rattle.std.specs.Prelude.{◌≡◌, ◌<◌, ◌≤◌, drop};
ghost use Rattle.key_model.specs.Least.{least};
ghost use Rattle.nas_count.specs.Estimate.{nas_count_limit};
ghost use Rattle.rec_base.specs.declared.uses.Dir.{Dir as Direction};
ghost use Rattle.alg_suite.specs.Suite.{mac_by};
ghost use Rattle.pdu_guard.specs.ShortMacs.{service_checked, service_request_of, short_mac_i_of};

use crate::checks::{is_checked, is_taken};
use alg_suite::{GivenKey, Integrity, mac};
use nas_count::LIMIT;
use rec_base::Dir;

/// Why four octets are no Service Request that was made under a key.
#[derive(Clone, Copy, Debug)]
pub enum ServiceFault {
    /// The first octet, which this holds, is not C7 hex: security header type 12 and protocol discriminator 7.
    BadHeader(u8),
    /// The least COUNT with the sequence number is 2^24 or more.
    CountSpent,
    /// The short MAC differs.
    MacFails {
        /// The COUNT at which it was computed.
        count: u32,
        /// The short MAC computed.
        wanted: [u8; 2],
        /// The short MAC received.
        got: [u8; 2],
    },
}

/// What is found of a Service Request.
#[derive(Clone, Copy)]
pub struct ServiceFound {
    /// The uplink NAS COUNT.
    pub count: u32,
    /// Whether its short MAC was compared: under EIA0 nothing is checked.
    pub checked: bool,
}

/// A Service Request at an uplink NAS COUNT (TS 24.301 8.2.25): C7 hex, the KSI with the lowest 5 bits of COUNT, and the
/// short MAC (9.9.3.28).
///
/// `int` is KNASint, `ksi` has 3 bits, and `count` 24.
#[tactic(auto, unfolding(crate::specs::ShortMacs::service_request_of))]
pub fn service_request(eia: Integrity, int: &GivenKey, ksi: u8, count: u32) -> [u8; 4]
    requires ksi { ksi < 8 }
    requires count { count < nas_count_limit }
    ensures { result ≡ service_request_of eia int.now ksi count }
{
    let second = 32 * ksi + (count % 32) as u8;
    let [a, b] = short_mac(eia, int, count, 0, Dir::Up, &[0xc7, second]);
    [0xc7, second, a, b]
}

/// The COUNT of a Service Request whose short MAC is right: the least at or above `next`, of at most 2^24, with its 5 bits
/// (TS 24.301 4.4.3.1 and 9.9.3.28).
///
/// `int` is KNASint. Where causes stand together the answer is the first of `BadHeader`, `CountSpent` and `MacFails`. Under EIA0 any short
/// MAC is taken, and the answer says that it was not compared.
#[tactic(auto, unfolding(crate::specs::ShortMacs::service_checked))]
pub fn check_service_request(
    eia: Integrity,
    int: &GivenKey,
    next: u32,
    request: &[u8; 4],
) -> Result<ServiceFound, ServiceFault>
    requires { next ≤ nas_count_limit }
    ensures { result ≡ service_checked eia int.now next request.now }
{
    let [first, second, c, d] = *request;
    if first != 0xc7 {
        return Err(ServiceFault::BadHeader(first));
    }
    let count = least(next, second % 32);
    if count >= LIMIT {
        return Err(ServiceFault::CountSpent);
    }
    let wanted = short_mac(eia, int, count, 0, Dir::Up, &[first, second]);
    let got = [c, d];
    if !is_taken(eia, &wanted, &got) {
        return Err(ServiceFault::MacFails { count, wanted, got });
    }
    Ok(ServiceFound {
        count,
        checked: is_checked(eia),
    })
}

/// shortMAC-I of a phone that re-establishes its connection (TS 36.331 5.3.7.4): the last two octets of the MAC over the
/// VarShortMAC-Input, where all bits of COUNT, BEARER and DIRECTION are ones.
///
/// `int` is KRRCint of the source cell, and `input` the encoded VarShortMAC-Input.
#[tactic(auto, unfolding(crate::specs::ShortMacs::short_mac_i_of))]
pub fn short_mac_i(eia: Integrity, int: &GivenKey, input: &[u8]) -> [u8; 2]
    ensures { result ≡ short_mac_i_of eia int.now input.now }
{
    short_mac(eia, int, u32::MAX, 31, Dir::Down, input)
}

// The last two octets of the MAC of a text.
pub(crate) fn short_mac(
    eia: Integrity,
    int: &GivenKey,
    count: u32,
    bearer: u8,
    dir: Dir,
    text: &[u8],
) -> [u8; 2]
    requires { bearer < 32 }
    ensures { result ≡ drop 2 (mac_by eia int.now count bearer dir text.now) }
{
    let [_, _, c, d] = mac(eia, int, count, bearer, dir, text);
    [c, d]
}

// The least number at or above `low` that ends in these 5 bits.
#[tactic(auto, unfolding(key_model::specs::Least::least))]
fn least(low: u32, bits: u8) -> u32
    requires low { low ≤ nas_count_limit }
    requires bits { bits < 32 }
    ensures { result ≡ least low bits 32 }
{
    low + (u32::from(bits) + (32 - low % 32)) % 32
}
