// The table of a point of GF(2^64), by which products with it are sixteen look-ups.
ghost use Rattle.std.specs.Prelude.{◌≡◌, ◌^◌, ◌<◌, ℕ};
ghost use Rattle.eia1.specs.Rows.{row_of, rows_of, sum_of};

use crate::polynomials::times_x;

// The rows of a point.
pub(crate) fn rows_of(p: u64) -> [[u64; 16]; 16]
    ensures { result ≡ rows_of p }
{
    let mut rows = [[0; 16]; 16];
    let mut power = p;
    for j in 0..16usize {
        rows[j] = row_of(power);
        power = times_x(times_x(times_x(times_x(power))));
    }
    rows
}

// The row of a number: the sums of it and its products with x, x^2 and x^3.
#[inline(always)]
fn row_of(a: u64) -> [u64; 16]
    ensures { result ≡ row_of a }
{
    let b = times_x(a);
    let c = times_x(b);
    let d = times_x(c);
    let ab = a ^ b;
    let ac = a ^ c;
    let bc = b ^ c;
    let abc = ab ^ c;
    [
        0,
        a,
        b,
        ab,
        c,
        ac,
        bc,
        abc,
        d,
        a ^ d,
        b ^ d,
        ab ^ d,
        c ^ d,
        ac ^ d,
        bc ^ d,
        abc ^ d,
    ]
}

// The sum of one entry of each row, by the sixteen groups of four bits of `v`.
#[inline(always)]
pub(crate) fn sum_of(rows: &[[u64; 16]; 16], v: u64) -> u64
    ensures { result ≡ sum_of rows.now v 16 }
{
    let mut sum = 0;
    for j in 0..16usize {
        sum ^= rows[j][(v >> (4 * j)) as usize % 16];
    }
    sum
}
