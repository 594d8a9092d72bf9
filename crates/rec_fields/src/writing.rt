// Fields of a record, written at the end of a list.
ghost use Rattle.std.specs.Prelude.{◌≡◌, ℕ, ◌+◌, ◌++◌, ◌<◌, ◌≤◌, length};
ghost use Rattle.rec_base.specs.BigEndian.{octets_of};
ghost use Rattle.rec_fields.specs.Spelled.{algs_octet, cell_octets};

use alg_choice::Algs;
use annex_a_keys::Cell;
use rec_base::Bounded;

/// The list of these octets.
pub fn list_of<const N: usize>(octets: &[u8]) -> Bounded<N>
    requires { length octets.now ≤ N }
    ensures { result ≡ octets.now }
{
    let mut out = Bounded::new();
    out.append(octets);
    out
}

/// Appends a number in two octets, the highest first.
pub fn put_u16<const N: usize>(out: &mut Bounded<N>, n: u16)
    requires { length out.old + 2 ≤ N }
    ensures octets { out.new ≡ out.old ++ octets_of 2 n }
    ensures count { length out.new ≡ length out.old + 2 }
{
    out.append(&n.to_be_bytes());
}

/// Appends a number in four octets, the highest first.
pub fn put_u32<const N: usize>(out: &mut Bounded<N>, n: u32)
    requires { length out.old + 4 ≤ N }
    ensures octets { out.new ≡ out.old ++ octets_of 4 n }
    ensures count { length out.new ≡ length out.old + 4 }
{
    out.append(&n.to_be_bytes());
}

/// Appends a cell: PCI in two octets, EARFCN-DL in four.
pub fn put_cell<const N: usize>(out: &mut Bounded<N>, cell: &Cell)
    requires { length out.old + 6 ≤ N }
    ensures octets { out.new ≡ out.old ++ cell_octets cell.now }
    ensures count { length out.new ≡ length out.old + 6 }
{
    put_u16(out, cell.pci());
    put_u32(out, cell.earfcn());
}

/// The octet of the chosen algorithms: the identity of the ciphering algorithm in the high half, that
/// of 128-EIA2, which is 2, in the low (TS 24.301 9.9.3.23).
pub fn algs_octet(algs: &Algs) -> u8
    ensures { result ≡ algs_octet algs.now }
{
    16 * algs.eea.identity() + 2
}
