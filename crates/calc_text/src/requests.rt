use crate::octet_texts::Octets;
use alg_suite::{Ciphering, Integrity};
use annex_a_keys::Cell;
use pdu_guard::{Numbers, Phone};
use rec_base::Dir;

/// EPS algorithms (TS 33.401 5.1.3.2 and 5.1.4.2).
#[derive(Clone, Copy, Drop)]
pub struct Algorithms {
    /// That of encryption.
    pub eea: Ciphering,
    /// That of integrity.
    pub eia: Integrity,
}

/// What an algorithm of Annex B takes beside the text (TS 33.401 B.1.1 and B.2.1).
#[derive(Clone, Copy, Drop)]
pub struct Inputs {
    /// The algorithm key, of 128 bits.
    pub key: [u8; 16],
    /// COUNT.
    pub count: u32,
    /// BEARER, of 5 bits.
    pub bearer: u8,
    /// DIRECTION.
    pub dir: Dir,
}

/// A text, and what an algorithm of Annex B takes beside it.
#[derive(Drop)]
pub struct KeyedText {
    /// What it takes beside the text.
    pub inputs: Inputs,
    /// The text.
    pub text: Octets,
}

/// An algorithm of TS 33.401 A.7.
#[derive(Clone, Copy, Drop)]
pub struct Algorithm {
    /// The algorithm type distinguisher.
    pub kind: u8,
    /// The algorithm identity, of 4 bits.
    pub id: u8,
}

/// A NAS message as sent (TS 24.301 4.4).
#[derive(Drop)]
pub struct NasPdu {
    /// KASME.
    pub kasme: [u8; 32],
    /// The least that the NAS COUNT may be, of 24 bits, or none where it may be any.
    pub count: Option<u32>,
    /// DIRECTION.
    pub dir: Dir,
    /// Its octets.
    pub pdu: Octets,
}

/// A NAS message to be protected.
#[derive(Drop)]
pub struct NasText {
    /// KASME.
    pub kasme: [u8; 32],
    /// The algorithms.
    pub algorithms: Algorithms,
    /// The NAS COUNT, of 24 bits.
    pub count: u32,
    /// DIRECTION.
    pub dir: Dir,
    /// The security header type, 1 to 4.
    pub header: u8,
    /// Its octets.
    pub text: Octets,
}

/// What protects a PDU of a radio bearer (TS 36.323 5.6 and 5.7).
#[derive(Clone, Copy, Drop)]
pub struct BearerInputs {
    /// KeNB.
    pub kenb: [u8; 32],
    /// The algorithms.
    pub algorithms: Algorithms,
    /// COUNT, or the least that it may be.
    pub count: u32,
    /// BEARER, of 5 bits.
    pub bearer: u8,
    /// DIRECTION.
    pub dir: Dir,
}

/// A PDU of a signalling radio bearer.
#[derive(Drop)]
pub struct SrbPdu {
    /// KeNB.
    pub kenb: [u8; 32],
    /// The least that COUNT may be.
    pub count: u32,
    /// BEARER, of 5 bits.
    pub bearer: u8,
    /// DIRECTION.
    pub dir: Dir,
    /// Its octets.
    pub pdu: Octets,
}

/// A text of a signalling radio bearer.
#[derive(Drop)]
pub struct SrbText {
    /// What protects it.
    pub inputs: BearerInputs,
    /// Its octets.
    pub text: Octets,
}

/// A PDU of a data radio bearer, or its text.
#[derive(Drop)]
pub struct DrbOctets {
    /// What protects it.
    pub inputs: BearerInputs,
    /// The sequence numbers.
    pub numbers: Numbers,
    /// Its octets.
    pub octets: Octets,
}

/// A Service Request (TS 24.301 8.2.25).
#[derive(Clone, Copy, Drop)]
pub struct ServicePdu {
    /// KASME.
    pub kasme: [u8; 32],
    /// The least that the NAS COUNT may be, of 24 bits, or none where it may be any.
    pub count: Option<u32>,
    /// Its octets.
    pub pdu: [u8; 4],
}

/// What a phone proves itself by that re-establishes its connection (TS 36.331 5.3.7.4 and 7.1).
#[derive(Clone, Copy, Drop)]
pub struct Reestablishment {
    /// The KeNB of the connection that failed.
    pub kenb: [u8; 32],
    /// Its integrity algorithm.
    pub eia: Integrity,
    /// cellIdentity of the cell that the phone comes to, of 28 bits.
    pub cell_identity: u32,
    /// physCellId of the cell in which the connection failed.
    pub pci: u16,
    /// c-RNTI that the phone had there.
    pub c_rnti: u16,
}

/// What KASME is derived of (TS 33.401 A.2).
#[derive(Clone, Copy, Drop)]
pub struct UsimKeys {
    /// CK.
    pub ck: [u8; 16],
    /// IK.
    pub ik: [u8; 16],
    /// The PLMN identity of the serving network, as TS 24.301 9.9.3.32 writes it.
    pub plmn: [u8; 3],
    /// SQN xor AK.
    pub sqn_xor_ak: [u8; 6],
}

/// What a line asks for.
#[derive(Drop)]
pub enum Request {
    /// `kasme`: the KASME (TS 33.401 A.2) of a CK and an IK.
    Kasme(UsimKeys),
    /// `kenb`: the KeNB (TS 33.401 A.3) of a KASME at an uplink NAS COUNT.
    Kenb { kasme: [u8; 32], count: u32 },
    /// `nh`: the NH (TS 33.401 A.4) of a KASME with this SYNC-input.
    Nh { kasme: [u8; 32], sync: [u8; 32] },
    /// `star`: the KeNB* (TS 33.401 A.5) of a KeNB or an NH for a cell.
    Star { key: [u8; 32], cell: Cell },
    /// `alg`: the algorithm key (TS 33.401 A.7) of a KASME or a KeNB.
    Alg { key: [u8; 32], alg: Algorithm },
    /// `eea1`, `eea2` and `eea3`: a text that the algorithm enciphers or deciphers (TS 33.401 B.1).
    Cipher(Ciphering, KeyedText),
    /// `eia1`, `eia2` and `eia3`: the MAC of a text by the algorithm (TS 33.401 B.2).
    Mac(Integrity, KeyedText),
    /// `nas`: what a NAS message opens to (TS 24.301 4.4). With `any` COUNT it is the least with its sequence number at which its MAC is right.
    Nas(Algorithms, NasPdu),
    /// `nas` with `any` algorithms: under which the MAC is right.
    TryNas(NasPdu),
    /// `seal-nas`: a NAS message, protected.
    SealNas(NasText),
    /// `service-request`: whether the short MAC of a Service Request is right (TS 24.301 9.9.3.28). With `any` COUNT it is the least with its 5
    /// bits at which it is.
    ServiceRequest(Integrity, ServicePdu),
    /// `service-request` with `any` algorithm: under which the short MAC is right.
    TryServiceRequest(ServicePdu),
    /// `short-mac-i`: shortMAC-I (TS 36.331 5.3.7.4) of a phone that re-establishes its connection.
    ShortMacI(Reestablishment),
    /// `srb`: what a PDU of a signalling radio bearer opens to (TS 36.323 5.6 and 5.7).
    Srb(Algorithms, SrbPdu),
    /// `srb` with `any` algorithms: under which the MAC-I is right.
    TrySrb(SrbPdu),
    /// `seal-srb`: the PDU of a text.
    SealSrb(SrbText),
    /// `drb`: what a PDU of a data radio bearer opens to (TS 36.323 5.6).
    Drb(DrbOctets),
    /// `seal-drb`: the PDU of a text.
    SealDrb(DrbOctets),
    /// `reach`: what a phone makes of a handover command with an NCC, for a cell (TS 33.401 7.2.8.4.4).
    Reach { phone: Phone, ncc: u8, cell: Cell },
}
