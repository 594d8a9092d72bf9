// The state of the cipher, held as its columns (FIPS 197, 3.5 and 5.1).
ghost use Rattle.std.specs.Prelude.{◌≡◌, ◌≤◌, map};
ghost use Rattle.aes_core.specs.Aes.{add_round_key, mix_columns, shift_rows, sub_bytes};
ghost use Rattle.aes_core.specs.SBox.{sub_byte};
ghost use Rattle.aes_core.specs.Word.{diagonal, state_octets, word_octets};

use crate::key_expansion::Word;
use crate::round_tables::mixed_column;
use crate::s_box::sub_byte;

/// A state: its columns 0 to 3.
#[derive(Drop)]
pub struct State(Word, Word, Word, Word);

impl State {
    /// The state of a block.
    #[inline(always)]
    pub fn of_block(block: [u8; 16]) -> State
        ensures { state_octets result ≡ block }
    {
        State(
            Word::from_be_bytes([block[0], block[1], block[2], block[3]]),
            Word::from_be_bytes([block[4], block[5], block[6], block[7]]),
            Word::from_be_bytes([block[8], block[9], block[10], block[11]]),
            Word::from_be_bytes([block[12], block[13], block[14], block[15]]),
        )
    }

    /// The block of the state.
    #[inline(always)]
    pub fn block(self) -> [u8; 16]
        ensures { result ≡ state_octets self }
    {
        let State(a, b, c, d) = self;
        let mut block = [0; 16];
        block[..4].copy_from_slice(&a.to_be_bytes());
        block[4..8].copy_from_slice(&b.to_be_bytes());
        block[8..12].copy_from_slice(&c.to_be_bytes());
        block[12..].copy_from_slice(&d.to_be_bytes());
        block
    }

    /// The sum with a round key (AddRoundKey).
    #[inline(always)]
    pub fn add_round_key(self, words: &[Word; 44], round: usize) -> State
        requires { round ≤ 10 }
        ensures { state_octets result ≡ add_round_key (state_octets self) (map word_octets words.now) round }
    {
        let State(a, b, c, d) = self;
        State(
            a ^ words[4 * round],
            b ^ words[4 * round + 1],
            c ^ words[4 * round + 2],
            d ^ words[4 * round + 3],
        )
    }

    /// A round: SubBytes, ShiftRows, MixColumns and AddRoundKey.
    #[inline(always)]
    pub fn round(self, words: &[Word; 44], round: usize) -> State
        requires { round ≤ 10 }
        ensures { state_octets result
            ≡ add_round_key (mix_columns (shift_rows (sub_bytes (state_octets self)))) (map word_octets words.now) round }
    {
        let State(a, b, c, d) = self;
        State(
            mixed_column(a, b, c, d, words[4 * round]),
            mixed_column(b, c, d, a, words[4 * round + 1]),
            mixed_column(c, d, a, b, words[4 * round + 2]),
            mixed_column(d, a, b, c, words[4 * round + 3]),
        )
    }

    /// SubBytes and ShiftRows.
    #[inline(always)]
    pub fn substituted(self) -> State
        ensures { state_octets result ≡ shift_rows (sub_bytes (state_octets self)) }
    {
        let State(a, b, c, d) = self;
        State(
            substituted_column(a, b, c, d),
            substituted_column(b, c, d, a),
            substituted_column(c, d, a, b),
            substituted_column(d, a, b, c),
        )
    }
}

// The column of SubBytes of one octet each of four columns: row 0 of `a`, row 1 of `b`, row 2 of `c` and
// row 3 of `d`.
#[inline(always)]
fn substituted_column(a: Word, b: Word, c: Word, d: Word) -> Word
    ensures { word_octets result ≡ map sub_byte (diagonal a b c d) }
{
    Word::from_be_bytes([
        sub_byte((a >> 24) as u8),
        sub_byte(((b >> 16) % 256) as u8),
        sub_byte(((c >> 8) % 256) as u8),
        sub_byte((d % 256) as u8),
    ])
}
