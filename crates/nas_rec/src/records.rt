ghost use Rattle.std.specs.Prelude.{◌≡◌, ◌≤◌, IfOk, length};

use crate::reading::record_of;
use alg_choice::{Algs, Caps};
use rec_base::{Bounded, RecFault, ShortText};
use rec_fields::{algs_octet, list_of};

/// A NAS text: its kind, one octet, and then its fields in order.
#[derive(Drop)]
pub enum NasRecord {
    /// 01, SECURITY MODE COMMAND (TS 24.301 8.2.20): 5 octets.
    SecurityModeCommand {
        /// The KSI of the security context, one octet from 0 to 6.
        ksi: u8,
        /// The chosen algorithms, one octet: 02 is EEA0 with 128-EIA2, 22 is 128-EEA2 with 128-EIA2.
        algs: Algs,
        /// The capabilities of the phone as the core knows them, two octets.
        caps: Caps,
    },
    /// 02, SECURITY MODE COMPLETE (TS 24.301 8.2.21): 1 octet.
    SecurityModeComplete,
    /// 03, SECURITY MODE REJECT (TS 24.301 8.2.22): 2 octets.
    SecurityModeReject {
        /// EMM cause, one octet: 23, security capabilities mismatch, or 24, security mode rejected
        /// for another reason (TS 24.301 9.9.3.9).
        cause: u8,
    },
    /// 04, SERVICE REQUEST (TS 24.301 8.2.25): 1 octet.
    ServiceRequest,
    /// 05, any other NAS text: 0 to 200 octets, to the end.
    NasData(ShortText),
}

impl NasRecord {
    ghost use Rattle.nas_rec.specs.declared.records.NasRecord.{NasRecord};
    ghost use Rattle.nas_rec.specs.Spelling.{kind_of, spelling_of, InRange};
    ghost use Rattle.nas_rec.specs.Reading.{read_nas};

    /// The record that the octets spell, all of them. Otherwise the first fault: no octet is `Short`;
    /// then an unknown kind is `BadKind`; then fewer octets than the layout has are `Short` and more
    /// are `Long`; then the first field out of its range is `BadField`, with its offset in octets.
    pub fn read(octets: &[u8]) -> Result<NasRecord, RecFault>
        // What is read is spelled so.
        ensures found { IfOk result (λ r. InRange r × (octets.now ≡ spelling_of r)) }
        // What is spelled so is read.
        ensures only { (r : NasRecord) → InRange r → octets.now ≡ spelling_of r → result ≡ Ok r }
        // Which fault it is.
        ensures exact { result ≡ read_nas octets.now }
    {
        record_of(octets)
    }

    /// The first octet of the spelling, which tells the kind.
    pub fn kind(&self) -> u8
        ensures { result ≡ kind_of self.now }
    {
        match self {
            NasRecord::SecurityModeCommand { .. } => 0x01,
            NasRecord::SecurityModeComplete => 0x02,
            NasRecord::SecurityModeReject { .. } => 0x03,
            NasRecord::ServiceRequest => 0x04,
            NasRecord::NasData(_) => 0x05,
        }
    }

    /// The one spelling of a record whose fields are in their ranges: at most 201 octets.
    #[tactic(auto, unfolding(crate::specs::Spelling::spelling_of))]
    pub fn write(&self) -> Bounded<256>
        requires { InRange self.now }
        ensures spelled { result ≡ spelling_of self.now }
        ensures within { length result ≤ 201 }
    {
        let mut out = list_of(&[self.kind()]);
        match self {
            NasRecord::SecurityModeCommand { ksi, algs, caps } => {
                out.append(&[*ksi, algs_octet(algs), caps.eea, caps.eia])
            }
            NasRecord::SecurityModeReject { cause } => out.append(&[*cause]),
            NasRecord::NasData(text) => out.append(text.as_slice()),
            NasRecord::SecurityModeComplete | NasRecord::ServiceRequest => {}
        }
        out
    }
}
