// The chain of a phone (TS 33.401 7.2.8.4.4).
ghost use Rattle.std.specs.Prelude.{◌≡◌, ◌≢◌, ◌≤◌, ◌↔◌, IsTrue};
ghost use Rattle.lte_sec_c.specs.Phone.{is_reaching, reached_by};
ghost use Rattle.lte_sec_c.specs.Status.{done, status_of};

use crate::fault::{DONE, Fault};
use annex_a_keys::{Cell, Kasme, Kenb, Nh};
use pdu_guard::{Phone, reach};

/// What a phone keeps of its chain.
#[repr(C)]
pub struct PhoneContext {
    /// KASME.
    pub kasme: [u8; 32],
    /// The active KeNB.
    pub active: [u8; 32],
    /// The NH of the present NCC, or the first KeNB of the chain where there was none yet.
    pub sync: [u8; 32],
    /// The present NCC, 0 to 7.
    pub ncc: u32,
}

/// What a phone comes to on an NCC.
#[repr(C)]
pub struct ReachedKeys {
    /// The NH of the NCC, or the `sync` that was where there were no steps.
    pub sync: [u8; 32],
    /// KeNB*.
    pub star: [u8; 32],
    /// The NH steps, 0 to 7: after none KeNB* is horizontal, and else vertical.
    pub steps: u32,
}

/// What a phone makes of a handover command with this NCC for a cell.
#[unsafe(no_mangle)]
pub extern "C" fn ltesec_reach(
    phone: &PhoneContext,
    ncc: u32,
    pci: u32,
    earfcn: u32,
    reached: &mut ReachedKeys,
) -> u32
    ensures done { result ≡ done ↔ IsTrue (is_reaching phone.now ncc pci earfcn) }
    ensures value { result ≡ done → reached.new ≡ reached_by phone.now ncc pci earfcn }
    ensures cause { result ≢ done → result ≡ status_of Fault.OutOfRange }
    ensures kept { result ≢ done → reached.new ≡ reached.old }
{
    if phone.ncc > 7 || ncc > 7 || pci > 503 {
        return Fault::OutOfRange.status();
    }
    let Ok(cell) = Cell::new(pci as u16, earfcn) else {
        return Fault::OutOfRange.status();
    };
    let (kasme, active, sync) = (phone.kasme, phone.active, phone.sync);
    let keys = Phone {
        root: Kasme::of_octets(kasme),
        active: Kenb::of_octets(active),
        sync: Nh::of_octets(sync),
        ncc: phone.ncc as u8,
    };
    let found = reach(&keys, ncc as u8, &cell);
    reached.sync = found.sync.octets();
    reached.star = found.star.octets();
    reached.steps = u32::from(found.steps);
    DONE
}
