ghost use Rattle.std.specs.Prelude.{◌≡◌, IsTrue, true, OnOk, OnErr};
ghost use Rattle.edge_io.specs.Cause.{HasCause, NoCountFell, NoFault};
ghost use Rattle.edge_io.specs.Lines.{are_lines};
ghost use Rattle.edge_io.specs.Octets.{Grows, GrowsByProperPrefix};

use crate::failed::Failed;
use crate::sink::Sink;

/// Writes all these octets. It returns, since each turn writes at least one octet or ends with a
/// fault. `Failed` where a write failed; a prefix is then written, which is not all.
pub fn write_all<K: Sink>(sink: &mut K, octets: &[u8]) -> Result<(), Failed>
    requires { IsTrue (K.told sink.old).ready }
    ensures ready { IsTrue (K.told sink.new).ready }

    // What is written.
    ensures all { OnOk result
        (Grows (K.told sink.old).written (K.told sink.new).written octets.now) }
    ensures prefix { OnErr result
        (GrowsByProperPrefix (K.told sink.old).written (K.told sink.new).written octets.now) }
    ensures cause { HasCause (K.told sink.old).write_faults (K.told sink.new).write_faults result }
    ensures lines { are_lines octets.now ≡ true →
        (K.told sink.new).lines ≡ (K.told sink.old).lines }
    ensures pieces { (K.told sink.new).pieces ≡ (K.told sink.old).pieces }
    ensures no_fault { OnOk result (NoFault (K.told sink.old) (K.told sink.new)) }

    // What becomes of the sink.
    ensures left { (K.told sink.new).left ≡ (K.told sink.old).left }
    ensures most { (K.told sink.new).most ≡ (K.told sink.old).most }
    ensures ended { (K.told sink.new).ended ≡ (K.told sink.old).ended }
    ensures counts { NoCountFell (K.told sink.old) (K.told sink.new) }
{
    let mut sent = 0;
    'pieces: while sent < octets.len() {
        sent += sink.write(&octets[sent..])?;
    }
    Ok(())
}
