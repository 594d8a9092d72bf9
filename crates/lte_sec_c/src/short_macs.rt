// The short MACs of a Service Request and of re-establishment.
ghost use Rattle.std.specs.Prelude.{◌≡◌, ◌≢◌, ◌<◌, ◌≤◌, ◌↔◌, IsTrue};
ghost use Rattle.nas_count.specs.Estimate.{nas_count_limit};
ghost use Rattle.pdu_guard.specs.ShortMacs.{service_request_of, short_mac_i_of};
ghost use Rattle.lte_sec_c.specs.Found.{found_after, status_after};
ghost use Rattle.lte_sec_c.specs.ShortMacs.{in_four, service_fault, service_opens};
ghost use Rattle.lte_sec_c.specs.Ranges.{eia_of, is_identity};
ghost use Rattle.lte_sec_c.specs.Status.{done, status_of};

use crate::fault::{DONE, Fault};
use crate::found::Found;
use crate::ranges::{eia_of, is_identity};
use alg_suite::GivenKey;
use nas_count::LIMIT;
use pdu_guard::{ServiceFault, check_service_request, service_request, short_mac_i};

/// A Service Request under KNASint at an uplink NAS COUNT, with its KSI (TS 24.301 8.2.25 and 9.9.3.28).
#[unsafe(no_mangle)]
pub extern "C" fn ltesec_service_request(
    eia: u32,
    int_key: &[u8; 32],
    ksi: u32,
    count: u32,
    request: &mut [u8; 4],
) -> u32
    ensures done { result ≡ done ↔ (IsTrue (is_identity eia) × (ksi < 8) × (count < nas_count_limit)) }
    ensures value { result ≡ done → request.new ≡ service_request_of (eia_of eia) int_key.now ksi count }
    ensures cause { result ≢ done → result ≡ status_of Fault.OutOfRange }
    ensures kept { result ≢ done → request.new ≡ request.old }
{
    if !is_identity(eia) || ksi >= 8 || count >= LIMIT {
        return Fault::OutOfRange.status();
    }
    *request = service_request(
        eia_of(eia),
        &GivenKey::of_octets(*int_key),
        ksi as u8,
        count,
    );
    DONE
}

/// Finds the COUNT of a Service Request under KNASint: the least at or above the next one with its 5 bits, where the short
/// MAC is right.
#[unsafe(no_mangle)]
pub extern "C" fn ltesec_service_request_check(
    eia: u32,
    int_key: &[u8; 32],
    next: u32,
    request: &[u8; 4],
    found: &mut Found,
) -> u32
    ensures status { result ≡ status_after (service_opens eia int_key.now next request.now) }
    ensures found { found.new ≡ found_after found.old (service_opens eia int_key.now next request.now) }
{
    if !is_identity(eia) || next > LIMIT {
        return Fault::OutOfRange.status();
    }
    match check_service_request(eia_of(eia), &GivenKey::of_octets(*int_key), next, request) {
        Ok(opened) => {
            found.opens(12, opened.count, 0, opened.checked);
            DONE
        }
        Err(fault) => found.refuses(of_service(fault)),
    }
}

/// shortMAC-I of re-establishment under KRRCint, over the encoded VarShortMAC-Input (TS 36.331 5.3.7.4).
#[unsafe(no_mangle)]
pub extern "C" fn ltesec_short_mac_i(
    eia: u32,
    int_key: &[u8; 32],
    input: &[u8],
    mac: &mut [u8; 2],
) -> u32
    ensures done { result ≡ done ↔ IsTrue (is_identity eia) }
    ensures value { result ≡ done → mac.new ≡ short_mac_i_of (eia_of eia) int_key.now input.now }
    ensures cause { result ≢ done → result ≡ status_of Fault.OutOfRange }
    ensures kept { result ≢ done → mac.new ≡ mac.old }
{
    if !is_identity(eia) {
        return Fault::OutOfRange.status();
    }
    *mac = short_mac_i(eia_of(eia), &GivenKey::of_octets(*int_key), input);
    DONE
}

// Why four octets are no Service Request.
fn of_service(fault: ServiceFault) -> Fault
    ensures { result ≡ service_fault fault }
{
    match fault {
        ServiceFault::BadHeader(_) => Fault::BadHeader,
        ServiceFault::CountSpent => Fault::CountSpent,
        ServiceFault::MacFails { count, wanted, got } => Fault::MacFails {
            count,
            wanted: in_four(wanted),
            got: in_four(got),
        },
    }
}

// A short MAC in the place of four octets.
fn in_four(mac: [u8; 2]) -> [u8; 4]
    ensures { result ≡ in_four mac }
{
    let [a, b] = mac;
    [a, b, 0, 0]
}
