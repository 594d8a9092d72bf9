ghost use Rattle.std.specs.Prelude.{◌≡◌, ◌+◌, ◌≤◌, length, take, drop};
ghost use Rattle.std.specs.Int.{w64, to_le_bytes};
ghost use Rattle.key_terms.specs.Words.{octets_of, AreWords};

// The 32 octets of a key as four words, by which keys are compared and hashed, the lowest octet of
// each word first.
#[derive(Clone, Copy, PartialEq, Eq, Hash)]
pub(crate) struct Words {
    first: u64,
    second: u64,
    third: u64,
    fourth: u64,
}

impl Words {
    // The words of these octets.
    pub(crate) fn of(octets: &[u8; 32]) -> Words
        ensures octets { octets_of result ≡ octets.now }
        ensures words { AreWords result }
    {
        Words {
            first: word_at(octets, 0),
            second: word_at(octets, 8),
            third: word_at(octets, 16),
            fourth: word_at(octets, 24),
        }
    }
}

// The word of the eight octets from a place on.
fn word_at(octets: &[u8], place: usize) -> u64
    requires { place + 8 ≤ length octets.now }
    ensures { to_le_bytes w64 result ≡ take 8 (drop place octets.now) }
{
    let mut word = [0; 8];
    word.copy_from_slice(&octets[place..place + 8]);
    u64::from_le_bytes(word)
}
