// The kinds of faults that happen.
ghost use Rattle.growth.specs.Growth.{WasRefused};
ghost use Rattle.std.specs.Prelude.{◌≡◌, IfOk, OnErr};
ghost use Rattle.item_faults.specs.Faults.{faults_of as all_faults};
ghost use Rattle.lte_variants.specs.Kinds.{happening};

use item_faults::{Entry, Fault, Kind, faults_of};
use std::alloc::{AllocError, Global};

/// The kinds of faults that are named.
#[derive(Clone, Copy)]
pub struct Kinds {
    /// A message that is lost.
    pub lost: bool,
    /// One that is late.
    pub late: bool,
    /// One that comes twice.
    pub twice: bool,
    /// One that is sent again.
    pub again: bool,
}

impl Kinds {
    ghost use Rattle.std.specs.Prelude.{◌≡◌};
    ghost use Rattle.lte_variants.specs.Kinds.{happens, is_named, names_none, with_kind};

    /// With one kind more.
    pub fn with(self, kind: Kind) -> Kinds
        ensures { result ≡ with_kind kind self }
    {
        let mut kinds = self;
        match kind {
            Kind::Lost => kinds.lost = true,
            Kind::Late => kinds.late = true,
            Kind::Twice => kinds.twice = true,
            Kind::Again => kinds.again = true,
        }
        kinds
    }

    fn is_named(self, kind: Kind) -> bool
        ensures { result ≡ is_named self kind }
    {
        match kind {
            Kind::Lost => self.lost,
            Kind::Late => self.late,
            Kind::Twice => self.twice,
            Kind::Again => self.again,
        }
    }

    fn names_none(self) -> bool
        ensures { result ≡ names_none self }
    {
        !(self.lost || self.late || self.twice || self.again)
    }

    /// Whether this fault happens: it is of a kind that is named, or none is.
    pub fn happens(self, fault: &Fault) -> bool
        ensures { result ≡ happens self fault.now }
    {
        self.names_none() || self.is_named(fault.kind)
    }
}

// Those of these faults that happen, in their order.
fn happening(alloc: Global, kinds: Kinds, faults: &[Fault]) -> Result<Vec<Fault>, AllocError>
    ensures faults { IfOk result (λ list. list.items ≡ happening kinds faults.now) }
    ensures refused { OnErr result WasRefused }
{
    let mut list = Vec::new(alloc);
    for fault in faults {
        if kinds.happens(fault) {
            growth::reserve(&mut list, 1)?;
            list.push_reserved(*fault);
        }
    }
    Ok(list)
}

/// The faults of these messages that happen, each at every place.
pub fn faults_with(
    alloc: Global,
    kinds: Kinds,
    entries: &[Entry],
    messages: &[u32],
) -> Result<Vec<Fault>, AllocError>
    ensures faults { IfOk result (λ list. list.items ≡ happening kinds (all_faults entries.now messages.now)) }
    ensures refused { OnErr result WasRefused }
{
    let faults = faults_of(alloc, entries, messages)?;
    happening(alloc, kinds, faults.as_slice())
}
