ghost use Rattle.std.specs.Prelude.{◌≡◌, ◌+◌, ◌-◌, ◌<◌, ◌≤◌, IfErr, IfOk, IsTrue, OnErr, length};
ghost use Rattle.pdcp_guard.specs.Counts.{count_limit};
ghost use Rattle.pdu_guard.specs.Drb.{drb_count_of, drb_head, drb_pdu, drb_pdu_opened, drb_pdu_text, header_octets, is_data, number_in, numbers_of, values_of};

use alg_suite::{Ciphering, GivenKey, cipher};
use pdcp_guard::{PdcpFault, count_from};
use rec_base::Dir;

/// The sequence numbers of a data radio bearer, by their bits (TS 36.323 6.3.2).
#[derive(Clone, Copy)]
pub enum Numbers {
    /// Of 7 bits, in one header octet (6.2.4).
    Seven,
    /// Of 12 bits, in two header octets (6.2.3).
    Twelve,
    /// Of 15 bits, in two header octets (6.2.9).
    Fifteen,
    /// Of 18 bits, in three header octets (6.2.11).
    Eighteen,
}

impl Numbers {
    /// The sequence numbers of so many bits, if there are such.
    pub fn of_bits(bits: u8) -> Option<Numbers>
        ensures { result ≡ numbers_of bits }
    {
        match bits {
            7 => Some(Numbers::Seven),
            12 => Some(Numbers::Twelve),
            15 => Some(Numbers::Fifteen),
            18 => Some(Numbers::Eighteen),
            _ => None,
        }
    }

    /// How many octets the header of a PDU has.
    pub fn header_octets(self) -> usize
        ensures { result ≡ header_octets self }
    {
        match self {
            Numbers::Seven => 1,
            Numbers::Twelve | Numbers::Fifteen => 2,
            Numbers::Eighteen => 3,
        }
    }

    /// How many sequence numbers there are.
    pub fn values(self) -> u32
        ensures value { result ≡ values_of self }
        ensures eighteen_bits { result ≤ 262144 }
    {
        match self {
            Numbers::Seven => 128,
            Numbers::Twelve => 4096,
            Numbers::Fifteen => 32768,
            Numbers::Eighteen => 262144,
        }
    }

    // Whether a first octet is that of a data PDU.
    pub(crate) fn is_data(self, first: u8) -> bool
        ensures { result ≡ is_data self first }
    {
        match self {
            Numbers::Twelve => first / 16 == 8,
            Numbers::Eighteen => first / 4 == 32 || first / 4 == 48,
            _ => first >= 128,
        }
    }

    // The sequence number of a PDU that has its header.
    pub(crate) fn number_in(self, pdu: &[u8]) -> u32
        requires { header_octets self ≤ length pdu.now }
        ensures value { result ≡ number_in self pdu.now }
        ensures below { result < values_of self }
    {
        let first = u32::from(pdu[0]);
        match self {
            Numbers::Seven => first % 128,
            Numbers::Twelve => 256 * (first % 16) + u32::from(pdu[1]),
            Numbers::Fifteen => 256 * (first % 128) + u32::from(pdu[1]),
            Numbers::Eighteen => {
                65536 * (first % 4) + 256 * u32::from(pdu[1]) + u32::from(pdu[2])
            }
        }
    }

    // Writes the header of a PDU.
    #[tactic(auto, unfolding(crate::specs::Drb::drb_head))]
    fn write(self, count: u32, head: &mut [u8])
        requires { length head.old ≡ header_octets self }
        ensures { head.new ≡ drb_head self count }
    {
        let low = (count % 256) as u8;
        match self {
            Numbers::Seven => head.copy_from_slice(&[128 + (count % 128) as u8]),
            Numbers::Twelve => head.copy_from_slice(&[128 + (count / 256 % 16) as u8, low]),
            Numbers::Fifteen => head.copy_from_slice(&[128 + (count / 256 % 128) as u8, low]),
            Numbers::Eighteen => {
                let middle = (count / 256 % 256) as u8;
                head.copy_from_slice(&[128 + (count / 65536 % 4) as u8, middle, low]);
            }
        }
    }
}

/// What both ends of a data radio bearer have (TS 36.323 5.6).
#[derive(Clone, Copy)]
pub struct DrbKeys {
    /// KUPenc.
    pub enc: GivenKey,
    /// The encryption algorithm.
    pub eea: Ciphering,
    /// BEARER, of 5 bits: the identity minus 1.
    pub bearer: u8,
    /// The sequence numbers.
    pub numbers: Numbers,
}

/// Makes the PDU of a text of any length at a COUNT (TS 36.323 5.6 and 6.2): it goes into `pdu`, longer than the text by the header.
#[tactic(auto, unfolding(crate::specs::Drb::drb_pdu))]
pub fn seal_drb(keys: &DrbKeys, count: u32, dir: Dir, text: &[u8], pdu: &mut [u8])
    requires bearer { keys.now.bearer < 32 }
    requires room { length pdu.old ≡ header_octets keys.now.numbers + length text.now }
    ensures { pdu.new ≡ drb_pdu keys.now count dir text.now }
{
    let (head, sent) = pdu.split_at_mut(keys.numbers.header_octets());
    keys.numbers.write(count, head);
    sent.copy_from_slice(text);
    cipher(keys.eea, &keys.enc, count, keys.bearer, dir, sent);
}

/// The COUNT of a PDU: the least at or above `next`, of at most 2^32, with its sequence number (TS 36.323 5.1.2.1.3).
///
/// The answer is `Short` where the header is not whole, else `BadHeader` where D/C is 0 or a reserved bit is set, else
/// `CountSpent` where that COUNT is 2^32 or more.
#[tactic(auto, unfolding(crate::specs::Drb::drb_count_of))]
pub fn drb_count(next: u64, numbers: Numbers, pdu: &[u8]) -> Result<u32, PdcpFault>
    requires { next ≤ count_limit }
    ensures value { result ≡ drb_count_of numbers next pdu.now }
    ensures long { IfOk result (λ _. header_octets numbers ≤ length pdu.now) }
{
    if pdu.len() < numbers.header_octets() {
        return Err(PdcpFault::Short);
    }
    let first = pdu[0];
    if !numbers.is_data(first) {
        return Err(PdcpFault::BadHeader(first));
    }
    count_from(next, numbers.number_in(pdu), numbers.values())
}

/// Opens a PDU of any length at the least COUNT at or above `next`, of at most 2^32, with its sequence number (TS 36.323
/// 5.1.2.1.3): its text, shorter by the header, goes into `text`.
///
/// Nothing is verified on a DRB: any PDU with a good header opens to some text. Where causes of refusal stand together the answer
/// is the first of `Short`, `BadHeader` and `CountSpent`, and `text` is as it was.
pub fn open_drb(
    keys: &DrbKeys,
    next: u64,
    dir: Dir,
    pdu: &[u8],
    text: &mut [u8],
) -> Result<u32, PdcpFault>
    requires bearer { keys.now.bearer < 32 }
    requires next { next ≤ count_limit }
    requires room { length text.old ≡ length pdu.now - header_octets keys.now.numbers }
    ensures opens { IfOk result (λ count. drb_pdu_opened keys.now next dir pdu.now ≡ Ok (record { count = count; text = text.new })) }
    ensures refused { IfErr result (λ fault. drb_pdu_opened keys.now next dir pdu.now ≡ Err fault) }
    ensures err { OnErr result (text.new ≡ text.old) }
{
    let count = drb_count(next, keys.numbers, pdu)?;
    drb_text(keys, count, dir, pdu, text);
    Ok(count)
}

// The text of a PDU at a COUNT.
#[tactic(auto, unfolding(crate::specs::Drb::drb_pdu_text))]
pub(crate) fn drb_text(keys: &DrbKeys, count: u32, dir: Dir, pdu: &[u8], text: &mut [u8])
    requires bearer { keys.now.bearer < 32 }
    requires long { header_octets keys.now.numbers ≤ length pdu.now }
    requires room { length text.old ≡ length pdu.now - header_octets keys.now.numbers }
    ensures { text.new ≡ drb_pdu_text keys.now count dir pdu.now }
{
    text.copy_from_slice(&pdu[keys.numbers.header_octets()..]);
    cipher(keys.eea, &keys.enc, count, keys.bearer, dir, text);
}
