//! A text combined with the words of a keystream, as 128-EEA1 and 128-EEA3 do it (TS 33.401 B.1).
#![tactic(auto)]

ghost use Rattle.std.specs.Prelude.{◌≡◌, ℕ, ◌<◌, ◌≤◌, length, slice_index};
ghost use Rattle.keystream.specs.Combined.{combined, octet_in};

/// Combines a piece of a text, of at most 64 octets, with the keystream at its place: sixteen words of 32 bits,
/// the highest octet of a word first (TS 33.401 B.1.1).
pub fn combine_words(piece: &mut [u8], words: &[u32; 16])
    requires { length piece.old ≤ 64 }
    ensures { piece.new ≡ combined (octet_in (slice_index words.now)) 0 piece.old }
{
    let stream = octets(words);
    combine(piece, &stream);
}

// The octets of sixteen words.
#[inline(always)]
fn octets(words: &[u32; 16]) -> [u8; 64]
    ensures { (i : ℕ) → i < 64 → slice_index result i ≡ octet_in (slice_index words.now) i }
{
    let mut stream = [0; 64];
    for i in 0..16usize {
        stream[4 * i..4 * i + 4].copy_from_slice(&words[i].to_be_bytes());
    }
    stream
}

// Combines a piece of a text with the octets at its place.
#[inline(always)]
fn combine(piece: &mut [u8], stream: &[u8; 64])
    requires { length piece.old ≤ 64 }
    ensures { piece.new ≡ combined (slice_index stream.now) 0 piece.old }
{
    for (i, octet) in piece.iter_mut().enumerate() {
        *octet ^= stream[i];
    }
}
