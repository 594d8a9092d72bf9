//! KASME of CK and IK (TS 33.401 A.2).
#![tactic(auto)]

ghost use Rattle.std.specs.Prelude.{◌≡◌, ◌+◌, ◌≤◌, ◌++◌, length};
ghost use Rattle.arrayvec.specs.ArrayVec.{array_vec_len};
ghost use Rattle.hmac_kdf.specs.Kdf.{parameter};
ghost use Rattle.kasme_kdf.specs.Kasme.{kasme_of, kasme_string};

use arrayvec::ArrayVec;
use hmac_kdf::hmac;

/// KASME of the CK and IK of an authentication (TS 33.401 A.2): 32 octets.
///
/// `plmn` is the PLMN identity of the serving network as TS 24.301 9.9.3.32 writes it, and `sqn_xor_ak` is SQN xor AK, the first six
/// octets of AUTN.
#[tactic(auto, unfolding(crate::specs::Kasme::kasme_of))]
pub fn kasme(ck: &[u8; 16], ik: &[u8; 16], plmn: &[u8; 3], sqn_xor_ak: &[u8; 6]) -> [u8; 32]
    ensures { result ≡ kasme_of ck.now ik.now plmn.now sqn_xor_ak.now }
{
    let mut key = [0; 32];
    both(ck, ik, &mut key);
    let string = string_of(plmn, sqn_xor_ak);
    hmac(&key, &string)
}

// CK and then IK.
fn both(ck: &[u8], ik: &[u8], key: &mut [u8; 32])
    requires ck { length ck.now ≡ 16 }
    requires ik { length ik.now ≡ 16 }
    ensures { key.new ≡ ck.now ++ ik.now }
{
    let (first, second) = key.split_at_mut(16);
    first.copy_from_slice(ck);
    second.copy_from_slice(ik);
}

// The string S.
#[tactic(auto, unfolding(crate::specs::Kasme::kasme_string))]
fn string_of(plmn: &[u8; 3], sqn_xor_ak: &[u8; 6]) -> ArrayVec<u8, 14>
    ensures { result.items ≡ kasme_string plmn.now sqn_xor_ak.now }
{
    let mut string = ArrayVec::new();
    string.push(0x10);
    push_parameter(&mut string, plmn);
    push_parameter(&mut string, sqn_xor_ak);
    string
}

// Puts a parameter at the end of a string: its octets, and their number in two octets.
fn push_parameter(string: &mut ArrayVec<u8, 14>, octets: &[u8])
    requires { array_vec_len string.old + length octets.now + 2 ≤ 14 }
    ensures items { string.new.items ≡ string.old.items ++ parameter octets.now }
    ensures len { array_vec_len string.new ≡ array_vec_len string.old + length octets.now + 2 }
{
    string.try_extend_from_slice(octets).unwrap();
    string
        .try_extend_from_slice(&(octets.len() as u16).to_be_bytes())
        .unwrap();
}
