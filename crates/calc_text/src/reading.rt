// What a line asks for: its first word says which line it is, and its fields stand behind it.
ghost use Rattle.std.specs.Prelude.{◌≡◌, ◌<◌, Ok, map, IfOk, IfErr};
ghost use Rattle.text_lines.specs.Words.{words_of};
ghost use Rattle.calc_text.specs.Answer.{IsRequest};
ghost use Rattle.calc_text.specs.Field.{Reads, Refuses};
ghost use Rattle.calc_text.specs.Reading.{usim_keys_of, kenb_of, nh_of, star_of, alg_of, keyed_text_of, cipher_of, mac_of, by_cipher, named, request_of};

use crate::fields::{Field, LineFault};
use crate::line_fields::Fields;
use crate::pdu_reading::pdu_named;
use crate::requests::{Algorithm, Inputs, KeyedText, Request, UsimKeys};
use alg_suite::{Ciphering, Integrity};
use std::alloc::Global;
use text_lines::all_words;

// CK, IK, the PLMN identity and SQN xor AK.
#[tactic(auto, unfolding(crate::specs::Reading::usim_keys_of))]
fn usim_keys(fields: &Fields) -> Result<UsimKeys, LineFault>
    ensures { Reads result (usim_keys_of fields.now) }
{
    fields.sized(4)?;
    let ck = fields.key(0, Field::Ck)?;
    let ik = fields.key(1, Field::Ik)?;
    let plmn = fields.key(2, Field::Plmn)?;
    let sqn_xor_ak = fields.key(3, Field::SqnXorAk)?;
    Ok(UsimKeys {
        ck,
        ik,
        plmn,
        sqn_xor_ak,
    })
}

// KASME and an uplink NAS COUNT.
#[tactic(auto, unfolding(crate::specs::Reading::kenb_of))]
fn kenb(fields: &Fields) -> Result<Request, LineFault>
    ensures reads { Reads result (kenb_of fields.now) }
    ensures fits { IfOk result IsRequest }
{
    fields.sized(2)?;
    let kasme = fields.key(0, Field::Kasme)?;
    let count = fields.nas_count(1)?;
    Ok(Request::Kenb { kasme, count })
}

// KASME and the SYNC-input.
#[tactic(auto, unfolding(crate::specs::Reading::nh_of))]
fn nh(fields: &Fields) -> Result<Request, LineFault>
    ensures reads { Reads result (nh_of fields.now) }
    ensures fits { IfOk result IsRequest }
{
    fields.sized(2)?;
    let kasme = fields.key(0, Field::Kasme)?;
    let sync = fields.key(1, Field::Sync)?;
    Ok(Request::Nh { kasme, sync })
}

// A KeNB or an NH, and the target cell.
#[tactic(auto, unfolding(crate::specs::Reading::star_of))]
fn star(fields: &Fields) -> Result<Request, LineFault>
    ensures reads { Reads result (star_of fields.now) }
    ensures fits { IfOk result IsRequest }
{
    fields.sized(3)?;
    let key = fields.key(0, Field::Key)?;
    let cell = fields.cell(1, 2)?;
    Ok(Request::Star { key, cell })
}

// KASME or a KeNB, and an algorithm by its type distinguisher and its identity.
#[tactic(auto, unfolding(crate::specs::Reading::alg_of))]
fn alg(fields: &Fields) -> Result<Request, LineFault>
    ensures reads { Reads result (alg_of fields.now) }
    ensures fits { IfOk result IsRequest }
{
    fields.sized(3)?;
    let key = fields.key(0, Field::Key)?;
    let kind = fields.number(1, 1, 6, Field::Type)?;
    let id = fields.number(2, 0, 15, Field::Id)?;
    let alg = Algorithm {
        kind: kind as u8,
        id: id as u8,
    };
    Ok(Request::Alg { key, alg })
}

// A text, and what an algorithm takes beside it.
#[tactic(auto, unfolding(crate::specs::Reading::keyed_text_of))]
fn keyed_text(fields: &Fields) -> Result<KeyedText, LineFault>
    ensures reads { Reads result (keyed_text_of fields.now) }
    ensures bearer { IfOk result (λ taken. taken.inputs.bearer < 32) }
{
    fields.sized(5)?;
    let key = fields.key(0, Field::Key)?;
    let count = fields.number(1, 0, 0xffff_ffff, Field::Count)?;
    let bearer = fields.number(2, 0, 31, Field::Bearer)?;
    let dir = fields.direction(3)?;
    let text = fields.octets(4, Field::Text)?;
    let inputs = Inputs {
        key,
        count,
        bearer: bearer as u8,
        dir,
    };
    Ok(KeyedText { inputs, text })
}

fn cipher(eea: Ciphering, fields: &Fields) -> Result<Request, LineFault>
    ensures reads { Reads result (cipher_of eea fields.now) }
    ensures fits { IfOk result IsRequest }
{
    Ok(Request::Cipher(eea, keyed_text(fields)?))
}

fn mac(eia: Integrity, fields: &Fields) -> Result<Request, LineFault>
    ensures reads { Reads result (mac_of eia fields.now) }
    ensures fits { IfOk result IsRequest }
{
    Ok(Request::Mac(eia, keyed_text(fields)?))
}

// The line of an algorithm.
#[tactic(auto, unfolding(crate::specs::Reading::by_cipher))]
fn by_cipher(name: &[u8], fields: &Fields) -> Result<Request, LineFault>
    ensures reads { Reads result (by_cipher name.now fields.now) }
    ensures fits { IfOk result IsRequest }
{
    match name {
        _ if name == b"eea1".as_slice() => cipher(Ciphering::Eea1, fields),
        _ if name == b"eea2".as_slice() => cipher(Ciphering::Eea2, fields),
        _ if name == b"eea3".as_slice() => cipher(Ciphering::Eea3, fields),
        _ if name == b"eia1".as_slice() => mac(Integrity::Eia1, fields),
        _ if name == b"eia2".as_slice() => mac(Integrity::Eia2, fields),
        _ if name == b"eia3".as_slice() => mac(Integrity::Eia3, fields),
        _ => pdu_named(name, fields),
    }
}

// The line of this first word.
#[tactic(auto, unfolding(crate::specs::Reading::named))]
fn named(name: &[u8], fields: &Fields) -> Result<Request, LineFault>
    ensures reads { Reads result (named name.now fields.now) }
    ensures fits { IfOk result IsRequest }
{
    match name {
        _ if name == b"kasme".as_slice() => Ok(Request::Kasme(usim_keys(fields)?)),
        _ if name == b"kenb".as_slice() => kenb(fields),
        _ if name == b"nh".as_slice() => nh(fields),
        _ if name == b"star".as_slice() => star(fields),
        _ if name == b"alg".as_slice() => alg(fields),
        _ => by_cipher(name, fields),
    }
}

// What these words ask for.
fn asked(alloc: Global, words: &[&[u8]]) -> Result<Request, LineFault>
    ensures reads { Reads result (request_of (map (λ word. word.now) words.now)) }
    ensures fits { IfOk result IsRequest }
{
    match words {
        [name, fields @ ..] => named(name, &Fields::new(alloc, fields)),
        [] => Err(LineFault::Bad(Field::Word)),
    }
}

impl Request {
    /// What a line asks for. `Memory` where memory ran out, `Bad` where it is no line, with the first field that is bad.
    pub fn read(alloc: Global, line: &[u8]) -> Result<Request, LineFault>
        ensures value { IfOk result (λ request. request_of (words_of line.now) ≡ Ok request) }
        ensures bad { IfErr result (λ fault. Refuses fault (request_of (words_of line.now))) }
        ensures fits { IfOk result IsRequest }
    {
        let words = all_words(alloc, line)?;
        asked(alloc, words.as_slice())
    }
}
