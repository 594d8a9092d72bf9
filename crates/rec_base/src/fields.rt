// Fields of a record, read at a place.
ghost use Rattle.std.specs.Prelude.{◌≡◌, ℕ, ◌+◌, ◌^◌, ◌<◌, ◌≤◌, length, slice_index};
ghost use Rattle.rec_base.specs.BigEndian.{field_at, number_at, number_of, octets_of};

use byteorder::{BigEndian, ByteOrder};

/// The octet at a place.
pub fn u8_at(octets: &[u8], place: usize) -> u8
    requires { place < length octets.now }
    ensures octet { result ≡ slice_index octets.now place }
    ensures number { result ≡ number_at octets.now place 1 }
{
    octets[place]
}

/// The number in the two octets from a place on, the highest octet first.
pub fn u16_at(octets: &[u8], place: usize) -> u16
    requires { place + 2 ≤ length octets.now }
    ensures { result ≡ number_at octets.now place 2 }
{
    BigEndian::read_u16(&octets[place..])
}

/// The number in the four octets from a place on, the highest octet first.
pub fn u32_at(octets: &[u8], place: usize) -> u32
    requires { place + 4 ≤ length octets.now }
    ensures { result ≡ number_at octets.now place 4 }
{
    BigEndian::read_u32(&octets[place..])
}

/// The 32 octets from a place on.
pub fn key_at(octets: &[u8], place: usize) -> [u8; 32]
    requires { place + 32 ≤ length octets.now }
    ensures { result ≡ field_at octets.now place 32 }
{
    let mut key = [0; 32];
    key.copy_from_slice(&octets[place..place + 32]);
    key
}

/// Two octet strings of one width with one number are equal.
pub fn same_from_number(a: &[u8], b: &[u8])
    requires width { length a.now ≡ length b.now }
    requires number { number_of a.now ≡ number_of b.now }
    ensures { a.now ≡ b.now }
{}

/// A number that fits a width, written in so many octets, reads as that number.
pub fn written_reads_back()
    ensures { (width number : ℕ) → number < 256 ^ width → number_of (octets_of width number) ≡ number }
{}
