// AES with 128-bit keys: the examples of FIPS 197, of NIST SP 800-38A, and known answers of the NIST
// AES validation suite (AESAVS, appendices B to E).

use crate::values::same_at;
use aes_core::Aes128;
use hex::{FromHex, FromHexError};
use std::process::Abort;
use std::test::Fail;

// A key, a block, and what it is ciphered to.
type Vector = (&'static str, &'static str, &'static str);

const ZERO: &str = "00000000000000000000000000000000";

// FIPS 197, appendices B and C.1.
static FIPS_197: [Vector; 2] = [
    (
        "2b7e151628aed2a6abf7158809cf4f3c",
        "3243f6a8885a308d313198a2e0370734",
        "3925841d02dc09fbdc118597196a0b32",
    ),
    (
        "000102030405060708090a0b0c0d0e0f",
        "00112233445566778899aabbccddeeff",
        "69c4e0d86a7b0430d8cdb78070b4c55a",
    ),
];

// SP 800-38A, ECB.
static SP_800_38A_ECB: [Vector; 4] = [
    (
        "2b7e151628aed2a6abf7158809cf4f3c",
        "6bc1bee22e409f96e93d7e117393172a",
        "3ad77bb40d7a3660a89ecaf32466ef97",
    ),
    (
        "2b7e151628aed2a6abf7158809cf4f3c",
        "ae2d8a571e03ac9c9eb76fac45af8e51",
        "f5d3d58503b9699de785895a96fdbaaf",
    ),
    (
        "2b7e151628aed2a6abf7158809cf4f3c",
        "30c81c46a35ce411e5fbc1191a0a52ef",
        "43b1cd7f598ece23881b00e3ed030688",
    ),
    (
        "2b7e151628aed2a6abf7158809cf4f3c",
        "f69f2445df4f9b17ad2b417be66c3710",
        "7b0c785e27e8ad3f8223207104725dd4",
    ),
];

// AESAVS, appendix B.
static GF_SBOX: [Vector; 7] = [
    (
        ZERO,
        "f34481ec3cc627bacd5dc3fb08f273e6",
        "0336763e966d92595a567cc9ce537f5e",
    ),
    (
        ZERO,
        "9798c4640bad75c7c3227db910174e72",
        "a9a1631bf4996954ebc093957b234589",
    ),
    (
        ZERO,
        "96ab5c2ff612d9dfaae8c31f30c42168",
        "ff4f8391a6a40ca5b25d23bedd44a597",
    ),
    (
        ZERO,
        "6a118a874519e64e9963798a503f1d35",
        "dc43be40be0e53712f7e2bf5ca707209",
    ),
    (
        ZERO,
        "cb9fceec81286ca3e989bd979b0cb284",
        "92beedab1895a94faa69b632e5cc47ce",
    ),
    (
        ZERO,
        "b26aeb1874e47ca8358ff22378f09144",
        "459264f4798f6a78bacb89c15ed3d601",
    ),
    (
        ZERO,
        "58c8e00b2631686d54eab84b91f0aca1",
        "08a4e2efec8a8e3312ca7460b9040bbf",
    ),
];

// AESAVS, appendix C.
static KEY_SBOX: [Vector; 21] = [
    (
        "10a58869d74be5a374cf867cfb473859",
        ZERO,
        "6d251e6944b051e04eaa6fb4dbf78465",
    ),
    (
        "caea65cdbb75e9169ecd22ebe6e54675",
        ZERO,
        "6e29201190152df4ee058139def610bb",
    ),
    (
        "a2e2fa9baf7d20822ca9f0542f764a41",
        ZERO,
        "c3b44b95d9d2f25670eee9a0de099fa3",
    ),
    (
        "b6364ac4e1de1e285eaf144a2415f7a0",
        ZERO,
        "5d9b05578fc944b3cf1ccf0e746cd581",
    ),
    (
        "64cf9c7abc50b888af65f49d521944b2",
        ZERO,
        "f7efc89d5dba578104016ce5ad659c05",
    ),
    (
        "47d6742eefcc0465dc96355e851b64d9",
        ZERO,
        "0306194f666d183624aa230a8b264ae7",
    ),
    (
        "3eb39790678c56bee34bbcdeccf6cdb5",
        ZERO,
        "858075d536d79ccee571f7d7204b1f67",
    ),
    (
        "64110a924f0743d500ccadae72c13427",
        ZERO,
        "35870c6a57e9e92314bcb8087cde72ce",
    ),
    (
        "18d8126516f8a12ab1a36d9f04d68e51",
        ZERO,
        "6c68e9be5ec41e22c825b7c7affb4363",
    ),
    (
        "f530357968578480b398a3c251cd1093",
        ZERO,
        "f5df39990fc688f1b07224cc03e86cea",
    ),
    (
        "da84367f325d42d601b4326964802e8e",
        ZERO,
        "bba071bcb470f8f6586e5d3add18bc66",
    ),
    (
        "e37b1c6aa2846f6fdb413f238b089f23",
        ZERO,
        "43c9f7e62f5d288bb27aa40ef8fe1ea8",
    ),
    (
        "6c002b682483e0cabcc731c253be5674",
        ZERO,
        "3580d19cff44f1014a7c966a69059de5",
    ),
    (
        "143ae8ed6555aba96110ab58893a8ae1",
        ZERO,
        "806da864dd29d48deafbe764f8202aef",
    ),
    (
        "b69418a85332240dc82492353956ae0c",
        ZERO,
        "a303d940ded8f0baff6f75414cac5243",
    ),
    (
        "71b5c08a1993e1362e4d0ce9b22b78d5",
        ZERO,
        "c2dabd117f8a3ecabfbb11d12194d9d0",
    ),
    (
        "e234cdca2606b81f29408d5f6da21206",
        ZERO,
        "fff60a4740086b3b9c56195b98d91a7b",
    ),
    (
        "13237c49074a3da078dc1d828bb78c6f",
        ZERO,
        "8146a08e2357f0caa30ca8c94d1a0544",
    ),
    (
        "3071a2a48fe6cbd04f1a129098e308f8",
        ZERO,
        "4b98e06d356deb07ebb824e5713f7be3",
    ),
    (
        "90f42ec0f68385f2ffc5dfc03a654dce",
        ZERO,
        "7a20a53d460fc9ce0423a7a0764c6cf2",
    ),
    (
        "febd9a24d8b65c1c787d50a4ed3619a9",
        ZERO,
        "f4a70d8af877f9b02b4c40df57d45b17",
    ),
];

// AESAVS, appendix D.
static VAR_TXT: [Vector; 13] = [
    (
        ZERO,
        "80000000000000000000000000000000",
        "3ad78e726c1ec02b7ebfe92b23d9ec34",
    ),
    (
        ZERO,
        "c0000000000000000000000000000000",
        "aae5939c8efdf2f04e60b9fe7117b2c2",
    ),
    (
        ZERO,
        "e0000000000000000000000000000000",
        "f031d4d74f5dcbf39daaf8ca3af6e527",
    ),
    (
        ZERO,
        "f0000000000000000000000000000000",
        "96d9fd5cc4f07441727df0f33e401a36",
    ),
    (
        ZERO,
        "f8000000000000000000000000000000",
        "30ccdb044646d7e1f3ccea3dca08b8c0",
    ),
    (
        ZERO,
        "fc000000000000000000000000000000",
        "16ae4ce5042a67ee8e177b7c587ecc82",
    ),
    (
        ZERO,
        "fe000000000000000000000000000000",
        "b6da0bb11a23855d9c5cb1b4c6412e0a",
    ),
    (
        ZERO,
        "ff000000000000000000000000000000",
        "db4f1aa530967d6732ce4715eb0ee24b",
    ),
    (
        ZERO,
        "ffffffff000000000000000000000000",
        "c26277437420c5d634f715aea81a9132",
    ),
    (
        ZERO,
        "ffffffffffffffff0000000000000000",
        "f807c3e7985fe0f5a50e2cdb25c5109e",
    ),
    (
        ZERO,
        "ffffffffffffffffffffffff00000000",
        "123c1f4af313ad8c2ce648b2e71fb6e1",
    ),
    (
        ZERO,
        "fffffffffffffffffffffffffffffffe",
        "5c005e72c1418c44f569f2ea33ba54f3",
    ),
    (
        ZERO,
        "ffffffffffffffffffffffffffffffff",
        "3f5b8cc9ea855a0afa7347d23e8d664e",
    ),
];

// AESAVS, appendix E.
static VAR_KEY: [Vector; 13] = [
    (
        "80000000000000000000000000000000",
        ZERO,
        "0edd33d3c621e546455bd8ba1418bec8",
    ),
    (
        "c0000000000000000000000000000000",
        ZERO,
        "4bc3f883450c113c64ca42e1112a9e87",
    ),
    (
        "e0000000000000000000000000000000",
        ZERO,
        "72a1da770f5d7ac4c9ef94d822affd97",
    ),
    (
        "f0000000000000000000000000000000",
        ZERO,
        "970014d634e2b7650777e8e84d03ccd8",
    ),
    (
        "f8000000000000000000000000000000",
        ZERO,
        "f17e79aed0db7e279e955b5f493875a7",
    ),
    (
        "fc000000000000000000000000000000",
        ZERO,
        "9ed5a75136a940d0963da379db4af26a",
    ),
    (
        "fe000000000000000000000000000000",
        ZERO,
        "c4295f83465c7755e8fa364bac6a7ea5",
    ),
    (
        "ff000000000000000000000000000000",
        ZERO,
        "b1d758256b28fd850ad4944208cf1155",
    ),
    (
        "ffffffff000000000000000000000000",
        ZERO,
        "9c28524a16a1e1c1452971caa8d13476",
    ),
    (
        "ffffffffffffffff0000000000000000",
        ZERO,
        "84be19e053635f09f2665e7bae85b42d",
    ),
    (
        "ffffffffffffffffffffffff00000000",
        ZERO,
        "f0c5c6ffa5e0bd3a94c88f6b6f7c16b9",
    ),
    (
        "fffffffffffffffffffffffffffffffe",
        ZERO,
        "9ba4a9143f4e5d4048521c4f8877d88e",
    ),
    (
        "ffffffffffffffffffffffffffffffff",
        ZERO,
        "a1f6258c877d5fcd8964484538bfc92c",
    ),
];

fn octets(text: &str) -> Result<[u8; 16], FromHexError> {
    <[u8; 16] as FromHex>::from_hex(text)
}

// Each block of a table is ciphered under its key to what stands there.
fn expect_all(rt: &impl Abort, table: &[Vector]) -> Result<(), Fail> {
    for (key, block, expected) in table {
        let ciphered = Aes128::new(&octets(key)?).encrypt(octets(block)?);
        same_at(rt, (*block, *key), ciphered, octets(expected)?);
    }
    Ok(())
}

#[test]
fn published_blocks_are_ciphered(rt: HostRuntime) -> Result<(), Fail> {
    expect_all(&rt, &FIPS_197)?;
    expect_all(&rt, &SP_800_38A_ECB)?;
    expect_all(&rt, &GF_SBOX)?;
    expect_all(&rt, &KEY_SBOX)?;
    expect_all(&rt, &VAR_TXT)?;
    expect_all(&rt, &VAR_KEY)
}
