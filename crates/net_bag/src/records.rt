// The records and their octets.
ghost use Rattle.growth.specs.Growth.{WasRefused};
ghost use Rattle.std.specs.Prelude.{◌≡◌, ◌+◌, ◌<◌, ◌≤◌, ◌^◌, ◌-◌, [], ◌∷◌, ◌++◌, length, Some, slice_get, OnOk, OnErr};
ghost use Rattle.std.specs.Option.{option_map};
ghost use Rattle.rec_base.specs.Lengths.{longest_record};

use crate::BagView;
use lte_events::{Address, Texts};
use rec_base::{Octets, Use};
use std::alloc::{AllocError, Global};
use std::marker::Model;

// What a record is besides its octets: where it was sent, and the use by which it is protected.
#[derive(Clone, Copy)]
pub(crate) struct Entry {
    to: Address,
    tuple: Option<Use>,
}

// A list of records.
#[derive(Drop)]
pub(crate) struct Records {
    texts: Texts<Entry>,
}

impl Model for Records {
    ghost use Rattle.std.specs.Prelude.{◌+◌, ◌<◌, ◌^◌, length, map};
    ghost use Rattle.net_bag.specs.Bag as spec;

    ghost Value = { spec.Records };

    ghost view = { λ l. record { records = map spec.view_of l.texts.items; spare = l.texts.spare } };

    ghost invariant = { λ l. length l.texts.items + l.texts.spare < 2 ^ 32 };
}

impl Records {
    // No records. It takes no memory.
    pub fn new(alloc: Global) -> Records
        ensures records { result.records ≡ [] }
        ensures spare { result.spare ≡ 0 }
    {
        Records {
            texts: Texts::new(alloc),
        }
    }

    // Makes room for one record more. Where memory runs out nothing changes: there was room for none, and std refused it.
    pub fn reserve(&mut self) -> Result<(), AllocError>
        requires { length self.old.records < 2 ^ 32 - 1 }
        ensures lacking { OnErr result (self.old.spare ≡ 0) }
        ensures refused { OnErr result WasRefused }
        ensures room { OnOk result (0 < self.new.spare) }
        ensures records { self.new.records ≡ self.old.records }
        ensures spare { self.old.spare ≤ self.new.spare }
        ensures err { OnErr result (self.new ≡ self.old) }
    {
        if self.texts.spare() == 0 {
            self.texts.reserve()?;
        }
        Ok(())
    }

    // Puts a record at the end.
    pub fn put(&mut self, to: Address, octets: &[u8], tuple: Option<Use>)
        requires room { 0 < self.old.spare }
        requires short { length octets.now ≤ longest_record }
        ensures records { self.new.records ≡ self.old.records ++ record { to = to; octets = octets.now; tuple = tuple } ∷ [] }
        ensures spare { self.old.spare ≡ self.new.spare + 1 }
        ensures numbered { length self.new.records < 2 ^ 32 }
    {
        self.texts.put(Entry { to, tuple }, octets);
    }

    // Where a record was sent.
    pub fn to(&self, number: usize) -> Address
        requires { number < length self.now.records }
        ensures { option_map (λ r. r.to) (slice_get self.now.records number) ≡ Some result }
    {
        let (entry, _octets) = self.texts.at(number);
        entry.to
    }

    // The octets of a record.
    pub fn octets(&self, number: usize) -> &[u8]
        requires { number < length self.now.records }
        ensures value { option_map (λ r. r.octets) (slice_get self.now.records number) ≡ Some result.now }
        ensures short { length result.now ≤ longest_record }
    {
        let (_entry, octets) = self.texts.at(number);
        octets
    }

    // A record.
    pub fn get(&self, number: usize) -> BagView
        requires { number < length self.now.records }
        ensures { slice_get self.now.records number ≡ Some result }
    {
        let (entry, octets) = self.texts.at(number);
        let mut copied = Octets::new();
        copied.append(octets);
        BagView {
            to: entry.to,
            octets: copied,
            tuple: entry.tuple,
        }
    }

    // How many there are.
    pub fn len(&self) -> usize
        ensures len { result ≡ length self.now.records }
        ensures numbered { length self.now.records < 2 ^ 32 }
    {
        self.texts.len()
    }
}
