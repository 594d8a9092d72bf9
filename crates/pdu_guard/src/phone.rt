ghost use Rattle.std.specs.Prelude.{◌≡◌, ◌≤◌};
ghost use Rattle.key_model.specs.Reading.{octet_reading};
ghost use Rattle.key_model.specs.HandoverLines.{nh_after, phone_line, steps_to};
ghost use Rattle.pdu_guard.specs.Phone.{keys_in};

use annex_a_keys::{Cell, Kasme, Kenb, Nh, Star};

/// What a phone keeps of its chain (TS 33.401 7.2.8.1.1).
#[derive(Clone, Copy)]
pub struct Phone {
    /// KASME.
    pub root: Kasme,
    /// The active KeNB.
    pub active: Kenb,
    /// The NH of the present NCC, or, as an `Nh`, the first KeNB of the chain where there was none yet.
    pub sync: Nh,
    /// The present NCC, 0 to 7.
    pub ncc: u8,
}

/// What a phone comes to on an NCC.
#[derive(Clone, Copy)]
pub struct Reached {
    /// The NH steps, 0 to 7: after none the way is horizontal, and else vertical.
    pub steps: u8,
    /// The NH of the NCC, or the `sync` that was where there were no steps.
    pub sync: Nh,
    /// KeNB*.
    pub star: Star,
}

/// What a phone makes of a handover command with this NCC, 0 to 7, for a cell (TS 33.401 7.2.8.4.4): it steps to the least
/// chain number at or above its own with the NCC. Where that is its own, KeNB* is derived of the active KeNB, and else of the
/// NH reached.
pub fn reach(phone: &Phone, ncc: u8, cell: &Cell) -> Reached
    requires own { phone.now.ncc ≤ 7 }
    requires ncc { ncc ≤ 7 }
    ensures steps { result.steps ≡ steps_to phone.now.ncc ncc }
    ensures few { result.steps ≤ 7 }
    ensures sync { result.sync ≡ nh_after octet_reading phone.now.root phone.now.sync result.steps }
    ensures star { result.star ≡ (phone_line octet_reading (keys_in phone.now) ncc cell.now.pci cell.now.earfcn).key }
{
    let steps = steps_to(phone.ncc, ncc);
    let sync = climb(&phone.root, phone.sync, steps);
    let (star, _) = if steps == 0 {
        phone.active.star(cell)
    } else {
        sync.star(cell)
    };
    Reached { steps, sync, star }
}

// The NH steps from one NCC to another.
#[tactic(auto, unfolding(key_model::specs::Least::least))]
fn steps_to(own: u8, ncc: u8) -> u8
    requires own { own ≤ 7 }
    requires ncc { ncc ≤ 7 }
    ensures steps { result ≡ steps_to own ncc }
    ensures few { result ≤ 7 }
{
    (ncc + 8 - own) % 8
}

// The NH so many steps on. What HMAC computes from KASME alone is computed once, and not at all where there is no step.
fn climb(root: &Kasme, sync: Nh, steps: u8) -> Nh
    ensures { result ≡ nh_after octet_reading root.now sync steps }
{
    if steps == 0 {
        return sync;
    }
    let kasme = root.keyed();
    let mut nh = sync;
    for _ in 0..steps {
        nh = kasme.nh_next(&nh).0;
    }
    nh
}
