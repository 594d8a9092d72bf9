// The derivations of TS 33.401 Annex A.
ghost use Rattle.std.specs.Prelude.{◌≡◌, ◌≢◌, ◌<◌, ◌≤◌, ◌↔◌};
ghost use Rattle.hmac_kdf.specs.Kdf.{greatest_earfcn, kdf};
ghost use Rattle.kasme_kdf.specs.Kasme.{kasme_of};
ghost use Rattle.annex_a_keys.specs.Cell.{greatest_pci};
ghost use Rattle.nas_count.specs.Estimate.{nas_count_limit};
ghost use Rattle.lte_sec_c.specs.Status.{done, status_of};

use crate::fault::{DONE, Fault};
use hmac_kdf::{KdfInput, kdf};
use kasme_kdf::kasme;
use nas_count::LIMIT;

/// KASME from CK and IK, for the PLMN identity of the serving network, as TS 24.301 9.9.3.32 writes it, and SQN xor AK (A.2).
#[unsafe(no_mangle)]
pub extern "C" fn ltesec_kasme(
    ck: &[u8; 16],
    ik: &[u8; 16],
    plmn: &[u8; 3],
    sqn_xor_ak: &[u8; 6],
    out: &mut [u8; 32],
)
    ensures { out.new ≡ kasme_of ck.now ik.now plmn.now sqn_xor_ak.now }
{
    *out = kasme(ck, ik, plmn, sqn_xor_ak);
}

/// KeNB from KASME at an uplink NAS COUNT, of 24 bits (A.3; TS 24.301 4.4.3.1).
#[unsafe(no_mangle)]
pub extern "C" fn ltesec_kenb(kasme: &[u8; 32], count: u32, kenb: &mut [u8; 32]) -> u32
    ensures done { result ≡ done ↔ (count < nas_count_limit) }
    ensures value { result ≡ done → kenb.new ≡ kdf kasme.now (KdfInput.Kenb count) }
    ensures cause { result ≢ done → result ≡ status_of Fault.OutOfRange }
    ensures kept { result ≢ done → kenb.new ≡ kenb.old }
{
    if count >= LIMIT {
        return Fault::OutOfRange.status();
    }
    *kenb = kdf(kasme, &KdfInput::Kenb(count));
    DONE
}

/// NH from KASME and the SYNC-input, which is the KeNB for the first NH and else the NH before (A.4).
#[unsafe(no_mangle)]
pub extern "C" fn ltesec_nh(kasme: &[u8; 32], sync: &[u8; 32], nh: &mut [u8; 32])
    ensures { nh.new ≡ kdf kasme.now (KdfInput.Nh sync.now) }
{
    *nh = kdf(kasme, &KdfInput::Nh(*sync));
}

/// KeNB* from NH or KeNB for a cell: its PCI, 0 to 503, and EARFCN-DL, 0 to 262143 (A.5).
#[unsafe(no_mangle)]
pub extern "C" fn ltesec_kenb_star(
    key: &[u8; 32],
    pci: u32,
    earfcn: u32,
    star: &mut [u8; 32],
) -> u32
    ensures done { result ≡ done ↔ ((pci ≤ greatest_pci) × (earfcn ≤ greatest_earfcn)) }
    ensures value { result ≡ done → star.new ≡ kdf key.now (KdfInput.Star pci earfcn) }
    ensures cause { result ≢ done → result ≡ status_of Fault.OutOfRange }
    ensures kept { result ≢ done → star.new ≡ star.old }
{
    if pci > 503 || earfcn > 262143 {
        return Fault::OutOfRange.status();
    }
    *star = kdf(key, &KdfInput::Star(pci as u16, earfcn));
    DONE
}

/// An algorithm key from KASME or KeNB: the algorithm type, 1 to 6, and identity, 0 to 15 (A.7).
#[unsafe(no_mangle)]
pub extern "C" fn ltesec_algorithm_key(
    key: &[u8; 32],
    kind: u32,
    identity: u32,
    out: &mut [u8; 32],
) -> u32
    ensures done { result ≡ done ↔ ((1 ≤ kind) × (kind ≤ 6) × (identity ≤ 15)) }
    ensures value { result ≡ done → out.new ≡ kdf key.now (KdfInput.Alg kind identity) }
    ensures cause { result ≢ done → result ≡ status_of Fault.OutOfRange }
    ensures kept { result ≢ done → out.new ≡ out.old }
{
    if kind < 1 || kind > 6 || identity > 15 {
        return Fault::OutOfRange.status();
    }
    *out = kdf(key, &KdfInput::Alg(kind as u8, identity as u8));
    DONE
}
