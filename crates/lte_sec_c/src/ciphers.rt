// The algorithms of TS 33.401 Annex B.
ghost use Rattle.std.specs.Prelude.{◌≡◌, ◌≢◌, ◌↔◌, IsTrue};
ghost use Rattle.ctr_eea2.specs.Eea2.{eea2_of};
ghost use Rattle.cmac_eia2.specs.Eia2.{eia2_of};
ghost use Rattle.eea1.specs.Eea1.{eea1_of};
ghost use Rattle.eea3.specs.Eea3.{eea3_of};
ghost use Rattle.eia1.specs.Eia1.{eia1_of};
ghost use Rattle.eia3.specs.Eia3.{eia3_of};
ghost use Rattle.lte_sec_c.specs.Ranges.{dir_of, is_use};
ghost use Rattle.lte_sec_c.specs.Status.{done, status_of};

use crate::fault::{DONE, Fault};
use crate::ranges::{dir_of, is_use};
use cmac_eia2::eia2;
use ctr_eea2::eea2;
use eea1::eea1;
use eea3::eea3;
use eia1::eia1;
use eia3::eia3;

/// 128-EEA1: enciphers a text of any length in place, or deciphers it (B.1.2).
#[unsafe(no_mangle)]
pub extern "C" fn ltesec_eea1(
    key: &[u8; 16],
    count: u32,
    bearer: u32,
    direction: u32,
    text: &mut [u8],
) -> u32
    ensures done { result ≡ done ↔ IsTrue (is_use bearer direction) }
    ensures value { result ≡ done → text.new ≡ eea1_of key.now count bearer (dir_of direction) text.old }
    ensures cause { result ≢ done → result ≡ status_of Fault.OutOfRange }
    ensures kept { result ≢ done → text.new ≡ text.old }
{
    if !is_use(bearer, direction) {
        return Fault::OutOfRange.status();
    }
    eea1(key, count, bearer as u8, dir_of(direction), text);
    DONE
}

/// 128-EEA2: enciphers a text of any length in place, or deciphers it (B.1.3).
#[unsafe(no_mangle)]
pub extern "C" fn ltesec_eea2(
    key: &[u8; 16],
    count: u32,
    bearer: u32,
    direction: u32,
    text: &mut [u8],
) -> u32
    ensures done { result ≡ done ↔ IsTrue (is_use bearer direction) }
    ensures value { result ≡ done → text.new ≡ eea2_of key.now count bearer (dir_of direction) text.old }
    ensures cause { result ≢ done → result ≡ status_of Fault.OutOfRange }
    ensures kept { result ≢ done → text.new ≡ text.old }
{
    if !is_use(bearer, direction) {
        return Fault::OutOfRange.status();
    }
    eea2(key, count, bearer as u8, dir_of(direction), text);
    DONE
}

/// 128-EEA3: enciphers a text of any length in place, or deciphers it (B.1.4).
#[unsafe(no_mangle)]
pub extern "C" fn ltesec_eea3(
    key: &[u8; 16],
    count: u32,
    bearer: u32,
    direction: u32,
    text: &mut [u8],
) -> u32
    ensures done { result ≡ done ↔ IsTrue (is_use bearer direction) }
    ensures value { result ≡ done → text.new ≡ eea3_of key.now count bearer (dir_of direction) text.old }
    ensures cause { result ≢ done → result ≡ status_of Fault.OutOfRange }
    ensures kept { result ≢ done → text.new ≡ text.old }
{
    if !is_use(bearer, direction) {
        return Fault::OutOfRange.status();
    }
    eea3(key, count, bearer as u8, dir_of(direction), text);
    DONE
}

/// 128-EIA1: the MAC of a text of any length (B.2.2).
#[unsafe(no_mangle)]
pub extern "C" fn ltesec_eia1(
    key: &[u8; 16],
    count: u32,
    bearer: u32,
    direction: u32,
    text: &[u8],
    mac: &mut [u8; 4],
) -> u32
    ensures done { result ≡ done ↔ IsTrue (is_use bearer direction) }
    ensures value { result ≡ done → mac.new ≡ eia1_of key.now count bearer (dir_of direction) text.now }
    ensures cause { result ≢ done → result ≡ status_of Fault.OutOfRange }
    ensures kept { result ≢ done → mac.new ≡ mac.old }
{
    if !is_use(bearer, direction) {
        return Fault::OutOfRange.status();
    }
    *mac = eia1(key, count, bearer as u8, dir_of(direction), text);
    DONE
}

/// 128-EIA2: the MAC of a text of any length (B.2.3).
#[unsafe(no_mangle)]
pub extern "C" fn ltesec_eia2(
    key: &[u8; 16],
    count: u32,
    bearer: u32,
    direction: u32,
    text: &[u8],
    mac: &mut [u8; 4],
) -> u32
    ensures done { result ≡ done ↔ IsTrue (is_use bearer direction) }
    ensures value { result ≡ done → mac.new ≡ eia2_of key.now count bearer (dir_of direction) text.now }
    ensures cause { result ≢ done → result ≡ status_of Fault.OutOfRange }
    ensures kept { result ≢ done → mac.new ≡ mac.old }
{
    if !is_use(bearer, direction) {
        return Fault::OutOfRange.status();
    }
    *mac = eia2(key, count, bearer as u8, dir_of(direction), text);
    DONE
}

/// 128-EIA3: the MAC of a text of any length (B.2.4).
#[unsafe(no_mangle)]
pub extern "C" fn ltesec_eia3(
    key: &[u8; 16],
    count: u32,
    bearer: u32,
    direction: u32,
    text: &[u8],
    mac: &mut [u8; 4],
) -> u32
    ensures done { result ≡ done ↔ IsTrue (is_use bearer direction) }
    ensures value { result ≡ done → mac.new ≡ eia3_of key.now count bearer (dir_of direction) text.now }
    ensures cause { result ≢ done → result ≡ status_of Fault.OutOfRange }
    ensures kept { result ≢ done → mac.new ≡ mac.old }
{
    if !is_use(bearer, direction) {
        return Fault::OutOfRange.status();
    }
    *mac = eia3(key, count, bearer as u8, dir_of(direction), text);
    DONE
}
