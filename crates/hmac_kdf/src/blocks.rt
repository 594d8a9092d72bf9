// The block of a key, and what HMAC makes of it (RFC 2104, 2).
ghost use Rattle.std.specs.Prelude.{◌≡◌, ◌-◌, ◌≤◌, ◌++◌, length, replicate};
ghost use Rattle.sha2.specs.Sha256.{sha256};
ghost use Rattle.hmac_kdf.specs.Hmac.{key_block, padded_with};

use sha2::{Digest, Sha256};

// The key as one block of 64 octets.
pub(crate) fn block_of(key: &[u8]) -> [u8; 64]
    ensures { result ≡ key_block key.now }
{
    if key.len() > 64 {
        with_zeros(&Sha256::digest(key))
    } else {
        with_zeros(key)
    }
}

// The octets and zeros behind them, 64 in all.
fn with_zeros(octets: &[u8]) -> [u8; 64]
    requires { length octets.now ≤ 64 }
    ensures { result ≡ octets.now ++ replicate (64 - length octets.now) 0 }
{
    let mut block = [0; 64];
    block[..octets.len()].copy_from_slice(octets);
    block
}

// The block with each octet combined with `pad`.
pub(crate) fn padded(mut block: [u8; 64], pad: u8) -> [u8; 64]
    ensures { result ≡ padded_with pad block }
{
    combine(&mut block, pad);
    block
}

fn combine(octets: &mut [u8], pad: u8)
    ensures { octets.new ≡ padded_with pad octets.old }
{
    for octet in octets.iter_mut() {
        *octet ^= pad;
    }
}
