ghost use Rattle.growth.specs.Growth.{WasRefused};
ghost use Rattle.std.specs.Prelude.{◌≡◌, ◌∷◌, [], IfOk, OnErr};
ghost use Rattle.item_outcomes.specs.Outcomes.{best, is_told, outcomes, sent_of, told_from, verdict_of, word_of, worse};

use crate::handovers::{context_left, misrouted, no_handover};
use crate::heals::Heals;
use crate::keys::{keys_differ, not_made, weaker_key};
use crate::packets::{better, counts_apart, cut_off, nas_apart, packet_lost, stuck};
use crate::same::same;
use crate::standing::Standing;
use item_lines::Told;
use std::alloc::{AllocError, Global};
use std::marker::Model;

/// What becomes of a variant beside its scenario, from the best to the worst.
#[derive(Clone, Copy)]
pub enum Outcome {
    /// Each line has the same actor, answer, text and way, but those of the fault itself.
    Same,
    /// Packets pass here, and not in the scenario.
    Better,
    /// A line differs, and no other outcome is told.
    GoesOn,
    /// A station that does not serve the phone has a context of it.
    ContextLeft,
    /// A text of the scenario is not opened here, or to other octets.
    PacketLost,
    /// The phone came by a key that is weaker, or more stations can derive its key.
    WeakerKey,
    /// The phone came by a key at an item of the scenario, and not here.
    NotMade,
    /// A handover behind the variant does not go as it does behind the scenario.
    NoHandover,
    /// The core has the phone at another station than the one that serves it.
    Misrouted,
    /// A NAS text, or a packet after a Service Request, does not arrive.
    NasApart,
    /// A packet opens to other octets.
    CountsApart,
    /// Packets fail until the phone asks for service.
    CutOff,
    /// Packets fail, and a Service Request does not mend it.
    Stuck,
    /// The phone took, at an air address, another key than the station there made.
    KeysDiffer,
    /// The run ends at a coincidence.
    Coincidence,
}

impl Outcome {
    /// Its word.
    pub fn word(&self) -> &'static str
        ensures { result.now ≡ word_of self.now }
    {
        match self {
            Outcome::Same => "same",
            Outcome::Better => "better",
            Outcome::GoesOn => "goes on",
            Outcome::ContextLeft => "context left",
            Outcome::PacketLost => "packet lost",
            Outcome::WeakerKey => "weaker key",
            Outcome::NotMade => "not made",
            Outcome::NoHandover => "no handover",
            Outcome::Misrouted => "misrouted",
            Outcome::NasApart => "NAS apart",
            Outcome::CountsApart => "COUNTs apart",
            Outcome::CutOff => "cut off",
            Outcome::Stuck => "stuck",
            Outcome::KeysDiffer => "keys differ",
            Outcome::Coincidence => "coincidence",
        }
    }
}

// Those that are told beside one another.
static WORST_FIRST: [Outcome; 12] = [
    Outcome::KeysDiffer,
    Outcome::Stuck,
    Outcome::CutOff,
    Outcome::CountsApart,
    Outcome::NasApart,
    Outcome::Misrouted,
    Outcome::NoHandover,
    Outcome::NotMade,
    Outcome::WeakerKey,
    Outcome::PacketLost,
    Outcome::ContextLeft,
    Outcome::Better,
];

/// What is told of a variant: its outcomes, the worst first, what heals it, the station that serves its phone, and which of its lines sent.
#[derive(Drop)]
pub struct Verdict {
    outcomes: Vec<Outcome>,
    heals: Option<Heals>,
    serving: u8,
    sent: Vec<bool>,
}

impl Model for Verdict {
    ghost use Rattle.item_outcomes.specs.Outcomes.{Verdict as AVerdict};

    ghost Value = { AVerdict };

    ghost view = { λ v. record { outcomes = v.outcomes.items; heals = v.heals; serving = v.serving; sent = v.sent.items } };
}

impl Verdict {
    /// Its outcomes, the worst first.
    pub fn outcomes(&self) -> &[Outcome]
        ensures { result.now ≡ self.now.outcomes }
    {
        self.outcomes.as_slice()
    }

    /// What heals it; none where a coincidence ended it.
    pub fn heals(&self) -> Option<Heals>
        ensures { result ≡ self.now.heals }
    {
        self.heals
    }

    /// The station that serves its phone.
    pub fn serving(&self) -> u8
        ensures { result ≡ self.now.serving }
    {
        self.serving
    }

    /// Of each of its lines, and of those of the probe behind them, whether a record was sent.
    pub fn sent(&self) -> &[bool]
        ensures { result.now ≡ self.now.sent }
    {
        self.sent.as_slice()
    }
}

/// What is told of a variant beside its scenario; `own` has the names of the items of its faults.
pub fn verdict_of(
    alloc: Global,
    own: &[u32],
    usual: &Standing,
    here: &Standing,
) -> Result<Verdict, AllocError>
    ensures verdict { IfOk result (λ told. told ≡ verdict_of own.now usual.now here.now) }
    ensures refused { OnErr result WasRefused }
{
    let outcomes = outcomes(alloc, own, usual, here)?;
    let sent = sent_of(alloc, here.told())?;
    let heals = if here.over() {
        None
    } else {
        Some(here.heals())
    };
    Ok(Verdict {
        outcomes,
        heals,
        serving: here.serving(),
        sent,
    })
}

// Of each of these lines whether a record was sent.
fn sent_of(alloc: Global, told: &[Told]) -> Result<Vec<bool>, AllocError>
    ensures sent { IfOk result (λ list. list.items ≡ sent_of told.now) }
    ensures refused { OnErr result WasRefused }
{
    let mut list = Vec::new(alloc);
    for t in told {
        growth::reserve(&mut list, 1)?;
        list.push_reserved(t.line.sent.is_some());
    }
    Ok(list)
}

/// All outcomes of a variant beside its scenario, the worst first; `own` has the names of the items of its faults. At a coincidence nothing
/// else is told.
fn outcomes(
    alloc: Global,
    own: &[u32],
    usual: &Standing,
    here: &Standing,
) -> Result<Vec<Outcome>, AllocError>
    ensures outcomes { IfOk result (λ told. told.items ≡ outcomes own.now usual.now here.now) }
    ensures refused { OnErr result WasRefused }
{
    if here.over() {
        return only(alloc, Outcome::Coincidence);
    }
    let found = worse(alloc, own, usual, here)?;
    if found.len() == 0 {
        return only(alloc, best(same(own, usual, here)));
    }
    Ok(found)
}

fn only(alloc: Global, outcome: Outcome) -> Result<Vec<Outcome>, AllocError>
    ensures one { IfOk result (λ told. told.items ≡ outcome ∷ []) }
    ensures refused { OnErr result WasRefused }
{
    growth::from_slice(alloc, &[outcome])
}

// What is told where all goes on.
fn best(as_usual: bool) -> Outcome
    ensures { result ≡ best as_usual }
{
    if as_usual {
        Outcome::Same
    } else {
        Outcome::GoesOn
    }
}

// Those that are told beside one another.
#[tactic(auto, unfolding(crate::specs::Outcomes::worse))]
fn worse(
    alloc: Global,
    own: &[u32],
    usual: &Standing,
    here: &Standing,
) -> Result<Vec<Outcome>, AllocError>
    ensures worse { IfOk result (λ told. told.items ≡ worse own.now usual.now here.now) }
    ensures refused { OnErr result WasRefused }
{
    told_of(alloc, &WORST_FIRST, own, usual, here)
}

// Those of these outcomes that are told.
#[tactic(auto, unfolding(crate::specs::Outcomes::told_from))]
fn told_of(
    alloc: Global,
    all: &[Outcome],
    own: &[u32],
    usual: &Standing,
    here: &Standing,
) -> Result<Vec<Outcome>, AllocError>
    ensures told { IfOk result (λ told. told.items ≡ told_from own.now usual.now here.now all.now []) }
    ensures refused { OnErr result WasRefused }
{
    let mut found = Vec::new(alloc);
    for outcome in all {
        if is_told(*outcome, own, usual, here) {
            growth::reserve(&mut found, 1)?;
            found.push_reserved(*outcome);
        }
    }
    Ok(found)
}

/// Whether this outcome is told of a variant beside its scenario.
#[tactic(auto, unfolding(crate::specs::Outcomes::is_told))]
pub fn is_told(outcome: Outcome, own: &[u32], usual: &Standing, here: &Standing) -> bool
    ensures { result ≡ is_told own.now usual.now here.now outcome }
{
    match outcome {
        Outcome::Coincidence => here.over(),
        Outcome::KeysDiffer => keys_differ(usual, here),
        Outcome::Stuck => stuck(usual.fates(), here.fates()),
        Outcome::CutOff => cut_off(usual.fates(), here.fates()),
        Outcome::CountsApart => counts_apart(usual.fates(), here.fates()),
        Outcome::NasApart => nas_apart(usual.fates(), here.fates()),
        Outcome::Misrouted => misrouted(usual, here),
        Outcome::NoHandover => no_handover(usual, here),
        Outcome::NotMade => not_made(usual, here),
        Outcome::WeakerKey => weaker_key(usual, here),
        Outcome::PacketLost => packet_lost(own, usual, here),
        Outcome::ContextLeft => context_left(usual, here),
        Outcome::Better => better(usual.fates(), here.fates()),
        Outcome::Same => same(own, usual, here),
        Outcome::GoesOn => true,
    }
}
