// CMAC with AES-128: the examples of NIST SP 800-38B, which RFC 4493 has too.

use crate::values::{same, same_at};
use aes_core::Aes128;
use cmac_eia2::{Cmac, cmac_of};
use hex::FromHex;
use std::test::Fail;

// Text and its CMAC.
static SP_800_38B: [(&str, &str); 4] = [
    ("", "bb1d6929e95937287fa37d129b756746"),
    (
        "6bc1bee22e409f96e93d7e117393172a",
        "070a16b46b4d4144f79bdd9dd04a287c",
    ),
    (
        concat!(
            "6bc1bee22e409f96e93d7e117393172aae2d8a571e03ac9c9eb76fac45af8e51",
            "30c81c46a35ce411",
        ),
        "dfa66747de9ae63030ca32611497c827",
    ),
    (
        concat!(
            "6bc1bee22e409f96e93d7e117393172aae2d8a571e03ac9c9eb76fac45af8e51",
            "30c81c46a35ce411e5fbc1191a0a52eff69f2445df4f9b17ad2b417be66c3710",
        ),
        "51f0bebf7e3b9d92fc49741779363cfe",
    ),
];

#[test]
fn texts_of_sp_800_38b_have_their_cmac(rt: HostRuntime) -> Result<(), Fail> {
    let key = <[u8; 16] as FromHex>::from_hex("2b7e151628aed2a6abf7158809cf4f3c")?;
    let aes = Aes128::new(&key);
    for (text, cmac) in &SP_800_38B {
        let octets = hex::decode(rt.alloc(), text)?;
        let cmac = <[u8; 16] as FromHex>::from_hex(cmac)?;
        same_at(&rt, text, cmac_of(&aes, &octets), cmac);
    }
    Ok(())
}

// The CMAC of a text that comes in two pieces.
fn of_two(aes: &Aes128, first: &[u8], second: &[u8]) -> [u8; 16] {
    let mut cmac = Cmac::start(aes);
    cmac.feed(first);
    cmac.feed(second);
    cmac.end()
}

#[test]
fn pieces_have_the_cmac_of_the_text(rt: HostRuntime) -> Result<(), Fail> {
    let key = <[u8; 16] as FromHex>::from_hex("2b7e151628aed2a6abf7158809cf4f3c")?;
    let aes = Aes128::new(&key);
    let text = hex::decode(
        rt.alloc(),
        concat!(
            "6bc1bee22e409f96e93d7e117393172aae2d8a571e03ac9c9eb76fac45af8e51",
            "30c81c46a35ce411",
        ),
    )?;
    let none = <[u8; 16] as FromHex>::from_hex("bb1d6929e95937287fa37d129b756746")?;
    let block = <[u8; 16] as FromHex>::from_hex("070a16b46b4d4144f79bdd9dd04a287c")?;
    let whole = <[u8; 16] as FromHex>::from_hex("dfa66747de9ae63030ca32611497c827")?;
    same(&rt, Cmac::start(&aes).end(), none);
    let octets = text.as_slice();
    for cut in 0..=octets.len() {
        let (first, second) = octets.split_at(cut);
        same_at(&rt, cut, of_two(&aes, first, second), whole);
    }
    let Some((first, _)) = octets.split_first_chunk::<16>() else {
        return Err(Fail::from("shorter than a block"));
    };
    let mut octet_by_octet = Cmac::start(&aes);
    for octet in first {
        octet_by_octet.feed(&[*octet]);
    }
    same(&rt, octet_by_octet.end(), block);
    same(&rt, of_two(&aes, &first[..15], &first[15..]), block);
    let mut between_empty_pieces = Cmac::start(&aes);
    between_empty_pieces.feed(&[]);
    between_empty_pieces.feed(first);
    between_empty_pieces.feed(&[]);
    same(&rt, between_empty_pieces.end(), block);
    Ok(())
}
