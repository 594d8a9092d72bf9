// The packets and texts of the probe, and those of the scenario.
ghost use Rattle.std.specs.Prelude.{◌≡◌};
ghost use Rattle.item_outcomes.specs.Packets.{better, counts_apart, cut_off, fails, fate_in, fate_of, fates_of, is_lost, is_lost_on_way, is_stuck, nas_apart, opens_same, packet_lost, passes, stuck};

use crate::Standing;
use crate::names::{
    AGAIN_ARRIVES, NAS_DOWN_ARRIVES, NAS_UP_ARRIVES, PROBE, UP_ARRIVES, down_arrives, is_among,
};
use item_lines::{Told, line_of, opens, opens_to};
use lte_events::{Answer, Line};

/// What becomes of a text that an item of the probe is to bring.
#[derive(Clone, Copy)]
pub enum Fate {
    /// It does not come, or is refused.
    Fails,
    /// It comes, and opens to other octets.
    Garbled,
    /// It comes, and opens to what was sent.
    Arrives,
}

/// What becomes of the packets and NAS texts of a probe.
#[derive(Clone, Copy)]
pub struct Fates {
    /// The user packet up.
    pub up: Fate,
    /// The one down from the serving station.
    pub down: Fate,
    /// The NAS text up.
    pub nas_up: Fate,
    /// The one down.
    pub nas_down: Fate,
    /// The user packet after the Service Request.
    pub again: Fate,
}

// What becomes of the packets and texts of the probe by these lines.
pub(crate) fn fates_of(told: &[Told], serving: u8) -> Fates
    ensures { result ≡ fates_of told.now serving }
{
    Fates {
        up: fate_of(told, UP_ARRIVES, b"up"),
        down: fate_of(told, down_arrives(serving), b"down"),
        nas_up: fate_of(told, NAS_UP_ARRIVES, b"nas up"),
        nas_down: fate_of(told, NAS_DOWN_ARRIVES, b"nas down"),
        again: fate_of(told, AGAIN_ARRIVES, b"again"),
    }
}

// What becomes of this text, which the item of this name is to bring.
pub(crate) fn fate_of(told: &[Told], name: u32, text: &[u8]) -> Fate
    ensures { result ≡ fate_of told.now name text.now }
{
    match line_of(name, told) {
        Some(t) => fate_in(&t.line, text),
        None => Fate::Fails,
    }
}

// By its line.
fn fate_in(line: &Line, text: &[u8]) -> Fate
    ensures { result ≡ fate_in text.now line.now }
{
    if line.answer != Answer::Done {
        return Fate::Fails;
    }
    if opens_to(line, text) {
        Fate::Arrives
    } else {
        Fate::Garbled
    }
}

impl Fates {
    // Whether packets pass.
    pub(crate) fn passes(&self) -> bool
        ensures { result ≡ passes self.now }
    {
        self.up == Fate::Arrives && self.down == Fate::Arrives
    }

    // Whether one of them fails.
    fn fails(&self) -> bool
        ensures { result ≡ fails self.now }
    {
        self.up == Fate::Fails || self.down == Fate::Fails
    }

    /// Whether one of them fails, and the packet after the Service Request does not arrive.
    pub fn is_stuck(&self) -> bool
        ensures { result ≡ is_stuck self.now }
    {
        self.fails() && self.again != Fate::Arrives
    }
}

pub(crate) fn better(usual: &Fates, here: &Fates) -> bool
    ensures { result ≡ better usual.now here.now }
{
    here.passes() && !usual.passes()
}

pub(crate) fn counts_apart(usual: &Fates, here: &Fates) -> bool
    ensures { result ≡ counts_apart usual.now here.now }
{
    usual.passes() && (here.up == Fate::Garbled || here.down == Fate::Garbled)
}

pub(crate) fn cut_off(usual: &Fates, here: &Fates) -> bool
    ensures { result ≡ cut_off usual.now here.now }
{
    usual.passes() && here.fails() && here.again == Fate::Arrives
}

pub(crate) fn stuck(usual: &Fates, here: &Fates) -> bool
    ensures { result ≡ stuck usual.now here.now }
{
    usual.passes() && here.is_stuck()
}

fn is_lost_on_way(usual: Fate, here: Fate) -> bool
    ensures { result ≡ is_lost_on_way usual here }
{
    usual == Fate::Arrives && here != Fate::Arrives
}

pub(crate) fn nas_apart(usual: &Fates, here: &Fates) -> bool
    ensures { result ≡ nas_apart usual.now here.now }
{
    is_lost_on_way(usual.nas_up, here.nas_up)
        || is_lost_on_way(usual.nas_down, here.nas_down)
        || is_lost_on_way(usual.again, here.again)
}

pub(crate) fn packet_lost(own: &[u32], usual: &Standing, here: &Standing) -> bool
    ensures { result ≡ packet_lost own.now usual.now.told here.now.told }
{
    usual.told().iter().any(|t| is_lost(own, here, t))
}

pub(crate) fn is_lost(own: &[u32], here: &Standing, t: &Told) -> bool
    ensures { result ≡ is_lost own.now here.now.told t.now }
{
    !opens_same(here, t) && t.name < PROBE && !is_among(own, t.name)
}

// Whether the item of this line opens the same text here, where it opens one.
fn opens_same(here: &Standing, t: &Told) -> bool
    ensures { result ≡ opens_same here.now.told t.now.name t.now.line.opened }
{
    match &t.line.opened {
        None => true,
        Some(text) => opens(here.line_of(t.name), text.as_slice()),
    }
}
