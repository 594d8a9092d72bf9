// The algorithm keys of TS 33.401 A.7 under one KASME and its KeNB at COUNT 0. The values come from an
// independent HMAC.

use crate::values::same;
use annex_a_keys::{AlgKey, AlgType, Derived, Kasme, Kenb};
use hex::FromHex;
use std::process::Abort;
use std::test::Fail;

// An identity, and the keys KNASenc, KNASint, KRRCenc, KRRCint and KUPenc.
static KEYS: [(u8, [&str; 5]); 2] = [
    (
        0,
        [
            "06938a579b1fe9673763e090f3aacedc703a30c79bb1fb49e262ecddd4795ec4",
            "085d816b7e76ec5048b1d52740d81fd6a2e32363cc7c817772d376016b37cc37",
            "7b58eea39d421d6915c923db5039c592a0dff9d96d44b15314a7e162fa050234",
            "85d159866863874862c57849e14fb9d05b0abc83cd4100fc96ed24c8f6a98e8a",
            "3374b9f621c8d4631e93fb732162e2753af2980984faa495d1982dffd7531ad6",
        ],
    ),
    (
        2,
        [
            "7c3efee61cc2d3e6823c33d84f42c8734eb6379f81a769c754e9dc2534ff77b9",
            "a66b7492bdd63f0e8896a95429302525b5a0e5f9ee4f887e391e3a640e3a688a",
            "9bf10551417d3b3128705dd54a20f8f1ae14c26e3ba014f8e4279841fb8ade28",
            "8d29257d8c531a021b5011fee965310a2f6e105d4dda7c910c988fcadc7b4844",
            "be46925a3289e88171c3922a1190737334172b8b71bb65bba51c03373ec5c528",
        ],
    ),
];

// The key that was made is this one.
fn expect_key(rt: &impl Abort, made: (AlgKey, Derived), want: &str) -> Result<(), Fail> {
    same(rt, made.0.octets(), <[u8; 32] as FromHex>::from_hex(want)?);
    Ok(())
}

#[test]
fn each_type_and_identity_has_its_key(rt: HostRuntime) -> Result<(), Fail> {
    let kasme = "000102030405060708090a0b0c0d0e0f101112131415161718191a1b1c1d1e1f";
    let kasme = Kasme::of_octets(<[u8; 32] as FromHex>::from_hex(kasme)?);
    let (kenb, _) = kasme.kenb(0);
    for (id, [nas_enc, nas_int, rrc_enc, rrc_int, up_enc]) in &KEYS {
        expect_key(&rt, kasme.nas_alg(AlgType::NasEnc, *id), nas_enc)?;
        expect_key(&rt, kasme.nas_alg(AlgType::NasInt, *id), nas_int)?;
        expect_key(&rt, kenb.alg(AlgType::RrcEnc, *id), rrc_enc)?;
        expect_key(&rt, kenb.alg(AlgType::RrcInt, *id), rrc_int)?;
        expect_key(&rt, kenb.alg(AlgType::UpEnc, *id), up_enc)?;
    }
    Ok(())
}

#[test]
fn a_128_bit_algorithm_takes_the_last_octets(rt: HostRuntime) -> Result<(), Fail> {
    let kenb = "e6267359de012d9bda173d1b6fae57dec0e04e01cfcf57cb33a7573f142b8b95";
    let kenb = Kenb::of_octets(<[u8; 32] as FromHex>::from_hex(kenb)?);
    let (key, _) = kenb.alg(AlgType::RrcEnc, 2);
    let want = <[u8; 16] as FromHex>::from_hex("ae14c26e3ba014f8e4279841fb8ade28")?;
    same(&rt, key.key128(), want);
    Ok(())
}
