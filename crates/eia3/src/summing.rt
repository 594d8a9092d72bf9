// Sums of windows of a keystream (TS 35.221 4.5).
ghost use Rattle.std.specs.Prelude.{◌≡◌, ◌+◌, ◌*◌, ◌<◌, ◌≤◌, ℕ, length, slice_index};
ghost use Rattle.eia3.specs.Eia3.{mac_number, sums};
ghost use Rattle.eia3.specs.Words.{HasWords, number_in, word_sum};

// The sum over a piece of a text, of at most 64 octets. `words` are the words from its first bit on, and `next` is
// the one behind them.
pub(crate) fn piece_sum(piece: &[u8], words: &[u32; 16], next: u32) -> u32
    requires { length piece.now ≤ 64 }
    ensures { (z : ℕ → ℕ) → HasWords z words.now next → result ≡ sums z piece.now (8 * length piece.now) }
{
    let mut sum = 0;
    for i in 0..piece.len().div_ceil(4) {
        sum ^= word_sum(number_in(piece, i), words[i], word_behind(words, next, i));
    }
    sum
}

// The word behind word `i` of sixteen.
#[inline(always)]
fn word_behind(words: &[u32; 16], next: u32, i: usize) -> u32
    requires { i < 16 }
    ensures { (z : ℕ → ℕ) → HasWords z words.now next → result ≡ z (i + 1) }
{
    if i < 15 { words[i + 1] } else { next }
}

// The number in the four octets from place 4 i on, with zeros behind the end.
#[inline(always)]
fn number_in(text: &[u8], i: usize) -> u32
    requires { 4 * i < length text.now }
    ensures { result ≡ number_in text.now i }
{
    let place = 4 * i;
    if place + 4 <= text.len() {
        u32::from_be_bytes([
            text[place],
            text[place + 1],
            text[place + 2],
            text[place + 3],
        ])
    } else {
        u32::from_be_bytes([
            octet_in(text, place),
            octet_in(text, place + 1),
            octet_in(text, place + 2),
            octet_in(text, place + 3),
        ])
    }
}

// The octet of a text at a place, and 0 behind its end.
fn octet_in(text: &[u8], place: usize) -> u8
    ensures { result ≡ slice_index text.now place }
{
    if place < text.len() { text[place] } else { 0 }
}

// The sum over a word of a text, where the keystream has the words `high` and `low` from its first bit on.
#[inline(always)]
fn word_sum(m: u32, high: u32, low: u32) -> u32
    ensures { result ≡ word_sum m high low 32 }
{
    let pair = high as u64 * (1 << 32) + low as u64;
    let mut sum = 0;
    for i in 0..32u32 {
        sum ^= times_bit((m >> (31 - i)) % 2, ((pair >> (32 - i)) % (1 << 32)) as u32);
    }
    sum
}

// A word where a bit is 1, and 0 where it is 0.
#[inline(always)]
fn times_bit(bit: u32, word: u32) -> u32
    requires { bit < 2 }
    ensures { result ≡ bit * word }
{
    if bit == 1 { word } else { 0 }
}

// The sum over the rest of a text, of less than 64 octets, with the window behind it and the last word. `words` and
// `next` are the words from its first bit on.
pub(crate) fn rest_sum(rest: &[u8], words: &[u32; 16], next: &[u32; 16]) -> u32
    requires { length rest.now < 64 }
    ensures { (z : ℕ → ℕ) → HasWords z words.now (slice_index next.now 0) → HasWords (λ i. z (16 + i)) next.now (z 32)
        → result ≡ mac_number z rest.now (8 * length rest.now) }
{
    let octets = rest.len();
    let high = word_at(words, next, octets / 4);
    let low = word_at(words, next, octets / 4 + 1);
    let last = word_at(words, next, octets.div_ceil(4) + 1);
    let pair = high as u64 * (1 << 32) + low as u64;
    let window = ((pair >> (32 - 8 * (octets % 4))) % (1 << 32)) as u32;
    piece_sum(rest, words, next[0]) ^ window ^ last
}

// Word `i` of 32.
#[inline(always)]
fn word_at(words: &[u32; 16], next: &[u32; 16], i: usize) -> u32
    requires { i < 32 }
    ensures { (z : ℕ → ℕ) → HasWords z words.now (slice_index next.now 0) → HasWords (λ k. z (16 + k)) next.now (z 32) → result ≡ z i }
{
    if i < 16 { words[i] } else { next[i - 16] }
}
