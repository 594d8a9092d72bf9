ghost use Rattle.growth.specs.Growth.{WasRefused};
ghost use Rattle.std.specs.Prelude.{◌≡◌, ℕ, ◌+◌, ◌-◌, ◌<◌, ◌≤◌, ◌^◌, [], ◌∷◌, ◌++◌, length, slice_get, option_copied, OnOk, OnErr};
ghost use Rattle.net_bag.specs.Bag as spec;
ghost use Rattle.net_bag.specs.Bag.{IsIndexOf};

use crate::BagView;
use crate::chains::Chains;
use crate::classes::digest;
use crate::records::Records;
use crate::search::first_sent;
use lte_events::{Class, Record};
use rec_base::Use;
use std::alloc::Global;
use std::cell::Cell;
use std::marker::Model;

/// Every record that was ever sent, in the order of sending. A contract sees it as the list of the
/// records, with the number of records for which there is room. From the second look-up on, a record is
/// found by its octets in constant time, once `reserve` was called after it came.
#[derive(Drop)]
pub struct Bag {
    records: Records,
    // the records that stood when room was last made, once a record was looked up
    index: Chains,
    // whether a record was ever looked up
    sought: Cell<bool>,
}

impl Model for Bag {
    ghost use Rattle.net_bag.specs.Bag as spec;

    ghost Value = { spec.Records };

    ghost view = { λ b. b.records };

    ghost invariant = { λ b. spec.IsIndexOf b.index b.records.records };
}

/// Memory ran out.
#[derive(Debug, Drop, Clone, Copy, PartialEq, Eq)]
pub struct BagMemory;

impl Bag {
    /// A bag with no records. It takes no memory.
    pub fn new(alloc: Global) -> Bag
        ensures records { result.records ≡ [] }
        ensures spare { result.spare ≡ 0 }
    {
        Bag {
            records: Records::new(alloc),
            index: Chains::new(alloc),
            sought: Cell::new(false),
        }
    }

    /// Makes room for one record more. Where memory runs out the bag is as before: there was room for none, and std refused it.
    pub fn reserve(&mut self) -> Result<(), BagMemory>
        requires { length self.old.records < 2 ^ 32 - 1 }
        ensures lacking { OnErr result (self.old.spare ≡ 0) }
        ensures refused { OnErr result WasRefused }
        ensures room { OnOk result (0 < self.new.spare) }
        ensures records { self.new.records ≡ self.old.records }
        ensures spare { self.old.spare ≤ self.new.spare }
        ensures err { OnErr result (self.new ≡ self.old) }
    {
        if self.sought.get() {
            index_all(&mut self.index, &self.records);
        }
        match self.records.reserve() {
            Ok(()) => Ok(()),
            Err(_) => Err(BagMemory),
        }
    }

    /// Puts a record at the end, with the use of the integrity key by which it is protected, if it is,
    /// and answers its number, counted from 0.
    pub fn put(&mut self, rec: &Record, tuple: Option<&Use>) -> u32
        requires { 0 < self.old.spare }
        ensures number { result ≡ length self.old.records }
        ensures records { self.new.records ≡ self.old.records ++ record { to = rec.now.to; octets = rec.now.octets; tuple = option_copied tuple.entry } ∷ [] }
        ensures spare { self.old.spare ≡ self.new.spare + 1 }
    {
        let number = self.records.len() as u32;
        let octets = rec.octets.as_slice();
        self.records.put(rec.to, octets, tuple.copied());
        number
    }

    /// A record by its number; none exactly where there is no record of this number.
    pub fn get(&self, i: u32) -> Option<BagView>
        ensures { result ≡ slice_get self.now.records i }
    {
        let number = i as usize;
        if number >= self.records.len() {
            return None;
        }
        Some(self.records.get(number))
    }

    /// The number of the first record of this interface that has these octets, on NAS from the second
    /// octet on; `None` exactly if there is no such record.
    pub fn find(&self, class: Class, octets: &[u8]) -> Option<u32>
        ensures { result ≡ spec.first_sent self.now.records class octets.now }
    {
        self.sought.set(true);
        first_sent(&self.index, &self.records, &class, octets)
    }

    /// How many records there are.
    pub fn len(&self) -> u32
        ensures { result ≡ length self.now.records }
    {
        self.records.len() as u32
    }
}

// Brings the index up to date with the records. Where it has no memory it has some of them, and the others are looked for one
// by one until a later call.
fn index_all(index: &mut Chains, records: &Records)
    requires { IsIndexOf index.old records.now.records }
    ensures { IsIndexOf index.new records.now.records }
{
    for number in index.len()..records.len() {
        let class = records.to(number).class();
        match index.push(digest(&class, records.octets(number))) {
            Ok(()) => {}
            Err(_) => return,
        }
    }
}
