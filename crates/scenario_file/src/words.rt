// The words and the hex texts that stand as values of a scenario.
ghost use Rattle.std.specs.Prelude.{◌≡◌, ◌≤◌, ◌<◌, IfSome, length};
ghost use Rattle.rec_base.specs.Bearer.{IsSrb, IsDrb};
ghost use Rattle.scenario_file.specs.Words.{act_of, actor_of, radio_end_of, nas_end_of, srb_of, drb_of, bearer_of, nas_of, path_of, caps_of, key_of, octets_of, natural, in_range, eea_of, first_ncc_of, place_of};

use alg_choice::{Caps, Eea};
use annex_a_keys::Cell;
use hex::FromHex;
use lte_events::FirstNcc;
use rec_base::{Bearer, Bounded};

// What happens in a step: a word of `do`.
#[derive(Clone, Copy)]
pub(crate) enum Act {
    Auth,
    Smc,
    Release,
    Service,
    Resend,
    Idle,
    Connect,
    X2,
    S1,
    Intra,
    Command,
    Cancel,
    Ask,
    Deliver,
    User,
    Rrc,
    Nas,
    Skip,
    Inject,
}

// One of the actors.
#[derive(Clone, Copy)]
pub(crate) enum Actor {
    Phone,
    Station,
    Core,
}

// An actor with a radio interface.
#[derive(Clone, Copy)]
pub(crate) enum RadioEnd {
    Phone,
    Station,
}

// An actor that speaks NAS.
#[derive(Clone, Copy)]
pub(crate) enum NasEnd {
    Phone,
    Core,
}

pub(crate) fn act_at(word: &str) -> Option<Act>
    ensures { result ≡ act_of word.now }
{
    match word {
        "auth" => Some(Act::Auth),
        "smc" => Some(Act::Smc),
        "release" => Some(Act::Release),
        "service" => Some(Act::Service),
        "resend" => Some(Act::Resend),
        "idle" => Some(Act::Idle),
        "connect" => Some(Act::Connect),
        "x2" => Some(Act::X2),
        "s1" => Some(Act::S1),
        "intra" => Some(Act::Intra),
        "command" => Some(Act::Command),
        "cancel" => Some(Act::Cancel),
        "ask" => Some(Act::Ask),
        "deliver" => Some(Act::Deliver),
        "user" => Some(Act::User),
        "rrc" => Some(Act::Rrc),
        "nas" => Some(Act::Nas),
        "skip" => Some(Act::Skip),
        "inject" => Some(Act::Inject),
        _ => None,
    }
}

pub(crate) fn actor_at(word: &str) -> Option<Actor>
    ensures { result ≡ actor_of word.now }
{
    match word {
        "phone" => Some(Actor::Phone),
        "station" => Some(Actor::Station),
        "core" => Some(Actor::Core),
        _ => None,
    }
}

pub(crate) fn radio_end_at(word: &str) -> Option<RadioEnd>
    ensures { result ≡ radio_end_of word.now }
{
    match word {
        "phone" => Some(RadioEnd::Phone),
        "station" => Some(RadioEnd::Station),
        _ => None,
    }
}

pub(crate) fn nas_end_at(word: &str) -> Option<NasEnd>
    ensures { result ≡ nas_end_of word.now }
{
    match word {
        "phone" => Some(NasEnd::Phone),
        "core" => Some(NasEnd::Core),
        _ => None,
    }
}

pub(crate) fn srb(word: &str) -> Option<Bearer>
    ensures value { result ≡ srb_of word.now }
    ensures srb { IfSome result IsSrb }
{
    match word {
        "srb1" => Some(Bearer::Srb1),
        "srb2" => Some(Bearer::Srb2),
        _ => None,
    }
}

pub(crate) fn drb(word: &str) -> Option<Bearer>
    ensures value { result ≡ drb_of word.now }
    ensures drb { IfSome result IsDrb }
{
    match word {
        "drb1" => Some(Bearer::Drb1),
        "drb2" => Some(Bearer::Drb2),
        "drb3" => Some(Bearer::Drb3),
        "drb4" => Some(Bearer::Drb4),
        _ => None,
    }
}

pub(crate) fn bearer(word: &str) -> Option<Bearer>
    ensures { result ≡ bearer_of word.now }
{
    match word {
        "srb1" => Some(Bearer::Srb1),
        "srb2" => Some(Bearer::Srb2),
        "drb1" => Some(Bearer::Drb1),
        "drb2" => Some(Bearer::Drb2),
        "drb3" => Some(Bearer::Drb3),
        "drb4" => Some(Bearer::Drb4),
        _ => None,
    }
}

// `nas` alone.
pub(crate) fn nas(word: &str) -> Option<()>
    ensures { result ≡ nas_of word.now }
{
    match word {
        "nas" => Some(()),
        _ => None,
    }
}

// A bearer of the phone, or none for `nas`.
pub(crate) fn path(word: &str) -> Option<Option<Bearer>>
    ensures { result ≡ path_of word.now }
{
    match word {
        "nas" => Some(None),
        _ => Some(Some(bearer(word)?)),
    }
}

// Capabilities in 4 hex digits.
#[tactic(auto, unfolding(crate::specs::Words::caps_of))]
pub(crate) fn caps(word: &str) -> Option<Caps>
    ensures { result ≡ caps_of word.now }
{
    let [eea, eia] = <[u8; 2]>::from_hex(word).ok()?;
    Some(Caps { eea, eia })
}

// A key in 64 hex digits.
#[tactic(auto, unfolding(crate::specs::Words::key_of))]
pub(crate) fn key(word: &str) -> Option<[u8; 32]>
    ensures { result ≡ key_of word.now }
{
    <[u8; 32]>::from_hex(word).ok()
}

// At most `N` octets in hex digits.
#[tactic(auto, unfolding(crate::specs::Words::octets_of))]
pub(crate) fn octets<const N: usize>(word: &str) -> Option<Bounded<N>>
    ensures { result ≡ octets_of N word.now }
{
    let count = word.len() / 2;
    if count > N {
        return None;
    }
    let mut room = [0u8; N];
    hex::decode_to_slice(word, &mut room[..count]).ok()?;
    let mut octets = Bounded::new();
    octets.append(&room[..count]);
    Some(octets)
}

// An integer as a number of 32 bits.
pub(crate) fn natural(integer: i64) -> Option<u32>
    ensures { result ≡ natural integer }
{
    u32::try_from(integer).ok()
}

// A number from `low` to `high`.
pub(crate) fn in_range(low: u32, high: u32, n: u32) -> Option<u32>
    ensures value { result ≡ in_range low high n }
    ensures within { IfSome result (λ m. m ≤ high) }
{
    if low <= n && n <= high { Some(n) } else { None }
}

// An encryption algorithm by its identity.
pub(crate) fn eea(identity: i64) -> Option<Eea>
    ensures { result ≡ eea_of identity }
{
    match identity {
        0 => Some(Eea::Eea0),
        2 => Some(Eea::Eea2),
        _ => None,
    }
}

// The NCC of a first pair, 1 or 2.
pub(crate) fn first_ncc(integer: i64) -> Option<FirstNcc>
    ensures { result ≡ first_ncc_of integer }
{
    match integer {
        1 => Some(FirstNcc::One),
        2 => Some(FirstNcc::Two),
        _ => None,
    }
}

// The cell of a PCI and an EARFCN-DL, both in their ranges.
pub(crate) fn place(pci: u32, earfcn: u32) -> Option<Cell>
    ensures { result ≡ place_of pci earfcn }
{
    Cell::new(u16::try_from(pci).ok()?, earfcn).ok()
}
