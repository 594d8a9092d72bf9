ghost use Rattle.std.specs.Prelude.{◌≡◌, ◌≢◌, ◌+◌, ◌≤◌, ◌<◌, IsTrue, length, take, IfOk, OnOk, OnErr, Err, IsErrOf, IfSome};
ghost use Rattle.growth.specs.Growth.{WasRefused};
ghost use Rattle.edge_io.specs.Cause.{Rose, HasCause, NoCountFell, NoFault};
ghost use Rattle.edge_io.specs.Octets.{Gives, LosesFewer, LosesPrefix, LosesWithin, octets_of};
ghost use Rattle.edge_io.specs.Told.{HasEnded};

use crate::failed::Failed;
use crate::source::Source;
use std::alloc::Global;

/// The octets that one read asks for.
const PIECE: usize = 4096;

/// Why a source was not read to its end.
#[derive(Clone, Copy, Debug, PartialEq, Eq)]
pub enum ReadAll {
    /// Want of memory.
    Memory,
    /// A read of the source failed.
    ReadFault,
    /// The source has more octets than the limit.
    TooLong,
}

/// Reads the source to its end, and answers all octets that were left: at most `limit`, else
/// `TooLong`. `ReadFault` where a read failed, `Memory` where std refused memory.
pub fn read_all<S: Source>(alloc: Global, src: &mut S, limit: usize) -> Result<Vec<u8>, ReadAll>
    requires { IsTrue (S.told src.old).ready }
    ensures ready { IsTrue (S.told src.new).ready }

    // What is read, and when it is refused.
    ensures all { IfOk result (λ octets.
        IfSome (S.told src.old).left (λ left. octets.items ≡ left)) }
    ensures end { OnOk result (HasEnded (S.told src.new)) }
    ensures no_end { OnErr result ((S.told src.new).ended ≡ (S.told src.old).ended) }
    ensures within { IfOk result (λ octets. length octets.items ≤ limit) }
    ensures too_long { IsErrOf result ReadAll.TooLong →
        IfSome (S.told src.old).left (λ left. limit < length left) }
    ensures past { IsErrOf result ReadAll.TooLong →
        (S.told src.new).most + limit < (S.told src.old).most }
    ensures not_past { result ≢ Err ReadAll.TooLong →
        LosesWithin limit (S.told src.old).left (S.told src.new).left }
    ensures memory { IsErrOf result ReadAll.Memory → WasRefused }
    ensures fault { IsErrOf result ReadAll.ReadFault →
        Rose (S.told src.old).read_faults (S.told src.new).read_faults }
    ensures no_fault { result ≢ Err ReadAll.ReadFault →
        NoFault (S.told src.old) (S.told src.new) }

    // What becomes of the source.
    ensures left { LosesPrefix (S.told src.old).left (S.told src.new).left }
    ensures most { (S.told src.new).most ≤ (S.told src.old).most }
    ensures written { (S.told src.new).written ≡ (S.told src.old).written }
    ensures pieces { (S.told src.new).pieces ≡ (S.told src.old).pieces }
    ensures counts { NoCountFell (S.told src.old) (S.told src.new) }
{
    let mut octets = Vec::new(alloc);
    let mut piece = [0u8; PIECE];
    'pieces: loop {
        let count = match src.read(&mut piece) {
            Ok(count) => count,
            Err(_) => return Err(ReadAll::ReadFault),
        };
        if count == 0 {
            return Ok(octets);
        }
        if count > limit - octets.len() {
            return Err(ReadAll::TooLong);
        }
        if growth::extend_from_slice(&mut octets, &piece[..count]).is_err() {
            return Err(ReadAll::Memory);
        }
    }
}

/// Reads until `buf` is full or the input ends, and answers how many octets it read. `Failed` where a
/// read failed.
pub fn read_fill<S: Source>(src: &mut S, buf: &mut [u8]) -> Result<usize, Failed>
    requires { IsTrue (S.told src.old).ready }
    ensures ready { IsTrue (S.told src.new).ready }

    // What is read.
    ensures count { IfOk result (λ n. n ≤ length buf.old) }
    ensures octets { IfOk result (λ n.
        Gives (S.told src.old).left (S.told src.new).left (take n buf.new)) }
    ensures end { IfOk result (λ n. n < length buf.old → HasEnded (S.told src.new)) }
    ensures no_end { IfOk result (λ n. n ≡ length buf.old →
        (S.told src.new).ended ≡ (S.told src.old).ended) }
    ensures fewer { OnErr result
        (LosesFewer (length buf.old) (S.told src.old).left (S.told src.new).left) }
    ensures failed { OnErr result ((S.told src.new).ended ≡ (S.told src.old).ended) }
    ensures cause { HasCause (S.told src.old).read_faults (S.told src.new).read_faults result }
    ensures no_fault { OnOk result (NoFault (S.told src.old) (S.told src.new)) }

    // What becomes of the source.
    ensures left { LosesPrefix (S.told src.old).left (S.told src.new).left }
    ensures most { (S.told src.new).most + length (octets_of result buf.new)
        ≤ (S.told src.old).most }
    ensures written { (S.told src.new).written ≡ (S.told src.old).written }
    ensures pieces { (S.told src.new).pieces ≡ (S.told src.old).pieces }
    ensures counts { NoCountFell (S.told src.old) (S.told src.new) }
{
    let mut filled = 0;
    'pieces: while filled < buf.len() {
        let got = src.read(&mut buf[filled..])?;
        if got == 0 {
            return Ok(filled);
        }
        filled += got;
    }
    Ok(filled)
}
