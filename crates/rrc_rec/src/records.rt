ghost use Rattle.std.specs.Prelude.{◌≡◌, ◌≤◌, IfOk, length};

use crate::reading::record_of;
use alg_choice::Algs;
use annex_a_keys::Cell;
use rec_base::{Octets, RecFault, ShortText};
use rec_fields::{algs_octet, list_of, put_cell, put_u32};

/// An RRC text: its kind, one octet, and then its fields in order.
#[derive(Drop)]
pub enum RrcRecord {
    /// 01, SecurityModeCommand (TS 36.331 5.3.4): 7 octets.
    SecurityModeCommand {
        /// The chosen algorithms, one octet: 02 is EEA0 with 128-EIA2, 22 is 128-EEA2 with 128-EIA2.
        algs: Algs,
        /// The station, one octet from 0 to 7.
        station: u8,
        /// The address of the phone on the radio interface, four octets, at least 1.
        air: u32,
    },
    /// 02, SecurityModeComplete (TS 36.331 5.3.4): 1 octet.
    SecurityModeComplete,
    /// 03, RRCConnectionReconfiguration with mobilityControlInfo (TS 36.331 5.3.5.4): 14 octets.
    Reconfiguration {
        /// The target cell, PCI in two octets and EARFCN-DL in four.
        cell: Cell,
        /// nextHopChainingCount, one octet from 0 to 7.
        ncc: u8,
        /// The algorithms chosen by the target, one octet.
        algs: Algs,
        /// The target station, one octet from 0 to 7.
        station: u8,
        /// The address of the phone at the target, four octets, at least 1.
        air: u32,
    },
    /// 04, RRCConnectionReconfigurationComplete (TS 36.331 5.3.5.4): 1 octet.
    ReconfigurationComplete,
    /// 05, any other RRC text: 0 to 200 octets, to the end.
    RrcData(ShortText),
    /// 06, RRCConnectionReconfiguration with mobilityControlInfo to the present cell and keyChangeIndicator
    /// (TS 36.331 5.3.5.4), which takes the KeNB of the NAS context in use (re-keying of KeNB, TS 33.401
    /// 7.2.9.2). NCC is 0 and is not written: 13 octets.
    KeyChange {
        /// The cell of the phone, PCI in two octets and EARFCN-DL in four.
        cell: Cell,
        /// The algorithms chosen by the station, one octet.
        algs: Algs,
        /// The station, one octet from 0 to 7.
        station: u8,
        /// The new address of the phone, four octets, at least 1.
        air: u32,
    },
}

impl RrcRecord {
    ghost use Rattle.rrc_rec.specs.declared.records.RrcRecord.{RrcRecord};
    ghost use Rattle.rrc_rec.specs.Spelling.{kind_of, spelling_of, InRange};
    ghost use Rattle.rrc_rec.specs.Reading.{read_rrc};

    /// The record that the octets spell, all of them. Otherwise the first fault: no octet is `Short`;
    /// then an unknown kind is `BadKind`; then fewer octets than the layout has are `Short` and more
    /// are `Long`; then the first field out of its range is `BadField`, with its offset in octets.
    pub fn read(octets: &[u8]) -> Result<RrcRecord, RecFault>
        // What is read is spelled so.
        ensures found { IfOk result (λ r. InRange r × (octets.now ≡ spelling_of r)) }
        // What is spelled so is read.
        ensures only { (r : RrcRecord) → InRange r → octets.now ≡ spelling_of r → result ≡ Ok r }
        // Which fault it is.
        ensures exact { result ≡ read_rrc octets.now }
    {
        record_of(octets)
    }

    /// The first octet of the spelling, which tells the kind.
    pub fn kind(&self) -> u8
        ensures { result ≡ kind_of self.now }
    {
        match self {
            RrcRecord::SecurityModeCommand { .. } => 0x01,
            RrcRecord::SecurityModeComplete => 0x02,
            RrcRecord::Reconfiguration { .. } => 0x03,
            RrcRecord::ReconfigurationComplete => 0x04,
            RrcRecord::RrcData(_) => 0x05,
            RrcRecord::KeyChange { .. } => 0x06,
        }
    }

    /// The one spelling of a record whose fields are in their ranges: at most 201 octets.
    #[tactic(auto, unfolding(crate::specs::Spelling::spelling_of))]
    pub fn write(&self) -> Octets
        requires { InRange self.now }
        ensures value { result ≡ spelling_of self.now }
        ensures length { length result ≤ 201 }
    {
        let mut out = list_of(&[self.kind()]);
        match self {
            RrcRecord::SecurityModeCommand { algs, station, air } => {
                out.append(&[algs_octet(algs), *station]);
                put_u32(&mut out, *air);
            }
            RrcRecord::Reconfiguration {
                cell,
                ncc,
                algs,
                station,
                air,
            } => {
                put_cell(&mut out, cell);
                out.append(&[*ncc, algs_octet(algs), *station]);
                put_u32(&mut out, *air);
            }
            RrcRecord::RrcData(text) => out.append(text.as_slice()),
            RrcRecord::KeyChange {
                cell,
                algs,
                station,
                air,
            } => {
                put_cell(&mut out, cell);
                out.append(&[algs_octet(algs), *station]);
                put_u32(&mut out, *air);
            }
            RrcRecord::SecurityModeComplete | RrcRecord::ReconfigurationComplete => {}
        }
        out
    }
}
