ghost use Rattle.growth.specs.Growth.{WasRefused};
ghost use Rattle.std.specs.Prelude.{◌≡◌, IfOk, OnErr};
ghost use Rattle.std.specs.Option.{option_map};
ghost use Rattle.item_lines.specs.Lines.{line_of};
ghost use Rattle.item_outcomes.specs.Heals.{heals_of as heals_by};
ghost use Rattle.item_outcomes.specs.Keys.{parted};
ghost use Rattle.item_outcomes.specs.Packets.{fates};

use crate::heals::{Heals, heals_of};
use crate::keys::parted;
use crate::packets::{Fates, fates_of};
use item_lines::{Told, line_of};
use std::alloc::{AllocError, Global};
use std::marker::Model;

/// What became of phone, stations and core in a run of items with a probe behind it.
#[derive(Drop)]
pub struct Standing {
    told: Vec<Told>,
    serving: u8,
    core: Option<u8>,
    reach: Vec<u8>,
    over: bool,
    // what the lines say of the packets of the probe
    packets: Fates,
    // the items at which the phone took, at an air address, another key than the station there told
    parted_at: Vec<u32>,
    // what leads phone and station back to one key
    heals: Heals,
}

impl Model for Standing {
    ghost use Rattle.std.specs.Prelude.{◌≡◌};
    ghost use Rattle.item_outcomes.specs.Heals.{heals_of};
    ghost use Rattle.item_outcomes.specs.Keys.{parted};
    ghost use Rattle.item_outcomes.specs.Packets.{fates_of};
    ghost use Rattle.item_outcomes.specs.Standing.{Standing as State};

    ghost Value = { State };

    ghost view = { λ s. record {
      told = s.told.items;
      serving = s.serving;
      core = s.core;
      reach = s.reach.items;
      over = s.over;
    } };

    ghost invariant = { λ s. (s.packets ≡ fates_of s.told.items s.serving) × (s.parted_at.items ≡ parted s.told.items) × (s.heals ≡ heals_of s.told.items) };
}

impl Standing {
    /// By these lines, of the items and of the probe behind them: the station that serves the phone, and, before the probe, the station at
    /// which the core has it and those that can derive its key; and whether a coincidence ended it.
    pub fn of(
        alloc: Global,
        told: Vec<Told>,
        serving: u8,
        core: Option<u8>,
        reach: Vec<u8>,
        over: bool,
    ) -> Result<Standing, AllocError>
        ensures standing { IfOk result (λ s. s ≡ record { told = told.items; serving = serving; core = core; reach = reach.items; over = over }) }
        ensures refused { OnErr result WasRefused }
    {
        let packets = fates_of(told.as_slice(), serving);
        let parted_at = parted(alloc, told.as_slice())?;
        let heals = heals_of(told.as_slice(), parted_at.as_slice());
        Ok(Standing {
            told,
            serving,
            core,
            reach,
            over,
            packets,
            parted_at,
            heals,
        })
    }

    /// The lines of the items, and of the probe behind them.
    pub fn told(&self) -> &[Told]
        ensures { result.now ≡ self.now.told }
    {
        self.told.as_slice()
    }

    /// The first line of the item of this name.
    pub fn line_of(&self, name: u32) -> Option<&Told>
        ensures { option_map (λ t. t.now) result ≡ line_of name self.now.told }
    {
        line_of(name, self.told.as_slice())
    }

    /// The station that the probe's packet comes to; where it comes to none, the one that serves the phone in the scenario.
    pub fn serving(&self) -> u8
        ensures { result ≡ self.now.serving }
    {
        self.serving
    }

    /// The station at which the core has the phone before the probe.
    pub fn core(&self) -> Option<u8>
        ensures { result ≡ self.now.core }
    {
        self.core
    }

    /// The stations that can derive the phone's last key before the probe.
    pub fn reach(&self) -> &[u8]
        ensures { result.now ≡ self.now.reach }
    {
        self.reach.as_slice()
    }

    /// Whether a coincidence ended it.
    pub fn over(&self) -> bool
        ensures { result ≡ self.now.over }
    {
        self.over
    }

    /// What becomes of the packets and NAS texts of the probe.
    pub fn fates(&self) -> &Fates
        ensures { result.now ≡ fates self.now }
    {
        &self.packets
    }

    /// The items at which the phone took, at an air address, another key than the station there told.
    pub fn parted(&self) -> &[u32]
        ensures { result.now ≡ parted self.now.told }
    {
        self.parted_at.as_slice()
    }
    /// What leads phone and station back to one key.
    pub fn heals(&self) -> Heals
        ensures { result ≡ heals_by self.now.told }
    {
        self.heals
    }
}
