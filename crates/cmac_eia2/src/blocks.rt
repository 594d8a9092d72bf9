// Sums and doublings of blocks.
ghost use Rattle.std.specs.Prelude.{◌≡◌};
ghost use Rattle.cmac_eia2.specs.Cmac.{doubled, xor_blocks};

// The sum of two blocks.
pub(crate) fn add(a: [u8; 16], b: [u8; 16]) -> [u8; 16]
    ensures { result ≡ xor_blocks a b }
{
    let mut sum = [0; 16];
    for i in 0..16 {
        sum[i] = a[i] ^ b[i];
    }
    sum
}

// Twice a block in GF(2^128).
pub(crate) fn double(block: [u8; 16]) -> [u8; 16]
    ensures { result ≡ doubled block }
{
    let number = u128::from_be_bytes(block);
    let shifted = number << 1;
    if number >> 127 == 0 {
        shifted.to_be_bytes()
    } else {
        (shifted ^ 0x87).to_be_bytes()
    }
}
