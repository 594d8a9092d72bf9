// A text as a polynomial over GF(2^64), evaluated at a point (TS 35.215 4.5).
ghost use Rattle.std.specs.Prelude.{◌≡◌, ◌*◌, ◌<◌, length, slice_index};
ghost use Rattle.eia1.specs.Eia1.{block_in, blocks_of, evaluated};

use crate::rows::{rows_of, sum_of};

// What the blocks of a text evaluate to at `p`.
pub(crate) fn evaluated(text: &[u8], p: u64) -> u64
    ensures { result ≡ evaluated text.now p (blocks_of text.now) }
{
    let rows = rows_of(p);
    let mut value = 0;
    for i in 0..text.len().div_ceil(8) {
        value = sum_of(&rows, value ^ block_in(text, i));
    }
    value
}

// Block `i` of a text, with zeros behind the end.
#[inline(always)]
fn block_in(text: &[u8], i: usize) -> u64
    requires { 8 * i < length text.now }
    ensures { result ≡ block_in text.now i }
{
    let place = 8 * i;
    if place + 8 <= text.len() {
        u64::from_be_bytes([
            text[place],
            text[place + 1],
            text[place + 2],
            text[place + 3],
            text[place + 4],
            text[place + 5],
            text[place + 6],
            text[place + 7],
        ])
    } else {
        u64::from_be_bytes([
            octet_in(text, place),
            octet_in(text, place + 1),
            octet_in(text, place + 2),
            octet_in(text, place + 3),
            octet_in(text, place + 4),
            octet_in(text, place + 5),
            octet_in(text, place + 6),
            octet_in(text, place + 7),
        ])
    }
}

// The octet of a text at a place, and 0 behind its end.
fn octet_in(text: &[u8], place: usize) -> u8
    ensures { result ≡ slice_index text.now place }
{
    if place < text.len() { text[place] } else { 0 }
}
