ghost use Rattle.hmac_kdf.specs.Kdf.{IsKdfInput};

use crate::values::same_at;
use hmac_kdf::{KdfInput, hmac, kdf};
use std::process::Abort;

// The 32 octets whose halves are these.
fn octets(first: u128, last: u128) -> [u8; 32] {
    let mut octets = [0; 32];
    octets[..16].copy_from_slice(&first.to_be_bytes());
    octets[16..].copy_from_slice(&last.to_be_bytes());
    octets
}

// A key, a text and the two halves of its HMAC.
static RFC_4231: [(&[u8], &[u8], u128, u128); 4] = [
    (
        &[0x0b; 20],
        b"Hi There",
        0xb0344c61d8db38535ca8afceaf0bf12b,
        0x881dc200c9833da726e9376c2e32cff7,
    ),
    (
        b"Jefe",
        b"what do ya want for nothing?",
        0x5bdcc146bf60754e6a042426089575c7,
        0x5a003f089d2739839dec58b964ec3843,
    ),
    (
        &[0xaa; 20],
        &[0xdd; 50],
        0x773ea91e36800e46854db8ebd09181a7,
        0x2959098b3ef8c122d9635514ced565fe,
    ),
    // a key longer than a block
    (
        &[0xaa; 131],
        b"Test Using Larger Than Block-Size Key - Hash Key First",
        0x60e431591ee0b67f0d8a26aacbf5b77f,
        0x8e0bc6213728c5140546040f0ee37f54,
    ),
];

#[test]
fn texts_of_rfc_4231_have_their_hmac(rt: HostRuntime) {
    for (key, text, first, last) in &RFC_4231 {
        same_at(&rt, text, hmac(key, text), octets(*first, *last));
    }
}

// A key and an input give this key, of which these are the halves.
fn assert_key(rt: &impl Abort, key: &[u8; 32], input: KdfInput, first: u128, last: u128)
    requires { IsKdfInput input }
{
    same_at(rt, input, kdf(key, &input), octets(first, last));
}

#[test]
fn each_input_has_its_key(rt: HostRuntime) {
    let kasme = octets(
        0x000102030405060708090a0b0c0d0e0f,
        0x101112131415161718191a1b1c1d1e1f,
    );
    let kenb = octets(
        0xe6267359de012d9bda173d1b6fae57de,
        0xc0e04e01cfcf57cb33a7573f142b8b95,
    );
    assert_key(
        &rt,
        &kasme,
        KdfInput::Kenb(0),
        0xe6267359de012d9bda173d1b6fae57de,
        0xc0e04e01cfcf57cb33a7573f142b8b95,
    );
    assert_key(
        &rt,
        &kasme,
        KdfInput::Kenb(0x12345678),
        0x04068b4c0679979955fe1e2d4459283a,
        0x5b8e9c417c16007175a96197ef31eae7,
    );
    assert_key(
        &rt,
        &kasme,
        KdfInput::Nh(kenb),
        0x09aba1730b0aaeee84feac6bc03f66b9,
        0xaa90d45309b719114a90be777b24b74c,
    );
    assert_key(
        &rt,
        &kenb,
        KdfInput::Star(503, 65535),
        0x2ce4f3748097205255f1a84559de09c5,
        0xdc85e131159ff54901bac8f925c2daca,
    );
    assert_key(
        &rt,
        &kenb,
        KdfInput::Star(0, 65536),
        0x99b8d085ec4201335e225b2077c6f247,
        0x19c68005564f4aae2e7d6ae6f057e20c,
    );
    assert_key(
        &rt,
        &kenb,
        KdfInput::Star(503, 262143),
        0xee8a0346ac0962cfce383b8dc59c5ae3,
        0x750e0120881dabb0537a26e48714214d,
    );
    assert_key(
        &rt,
        &kenb,
        KdfInput::Alg(3, 2),
        0x9bf10551417d3b3128705dd54a20f8f1,
        0xae14c26e3ba014f8e4279841fb8ade28,
    );
}
