ghost use Rattle.growth.specs.Growth.{WasRefused};
ghost use Rattle.std.specs.Prelude.{◌≡◌, ◌≢◌, ◌≤◌, Err, length, IfOk, IfErr, IfSome, IsTrue, OnOk};
ghost use Rattle.edge_io.specs.Cause.{NoFault};
ghost use Rattle.edge_io.specs.Told.{Told, HasEnded};
ghost use Rattle.edge_io.specs.Used.{UsedAsSource};
ghost use Rattle.lte_variants.specs.Run.{most_octets, RunAt};
ghost use Rattle.lte_variants.specs.declared.request.Request.{Request};

use crate::status::Status;
use edge_io::{ReadAll, Source, read_all};
use std::alloc::Global;

/// The greatest number of octets of an input.
pub const MOST_OCTETS: usize = 16_777_216;

/// Reads the text of a scenario, or answers the status that says why it was not read.
pub(crate) fn read_text<R: Source>(alloc: Global, input: &mut R) -> Result<Vec<u8>, Status>
    requires { IsTrue (R.told input.old).ready }
    ensures end { OnOk result (HasEnded (R.told input.new)) }
    ensures text { IfOk result (λ text. IfSome (R.told input.old).left (λ left. text.items ≡ left)) }
    ensures within { IfOk result (λ text. length text.items ≤ most_octets) }
    ensures unread { IfErr result (λ status. (request : Request) (out : Told) → RunAt request status (R.told input.old) (R.told input.new) out out) }
    ensures not_done { IfErr result (λ status. status ≢ Status.Done) }
    ensures memory { IfErr result (λ status. status ≡ Status.Memory → WasRefused) }
    ensures no_fault { result ≢ Err Status.ReadFault → NoFault (R.told input.old) (R.told input.new) }
    ensures input { UsedAsSource (R.told input.old) (R.told input.new) }
{
    match read_all(alloc, input, MOST_OCTETS) {
        Ok(octets) => Ok(octets),
        Err(ReadAll::Memory) => Err(Status::Memory),
        Err(ReadAll::ReadFault) => Err(Status::ReadFault),
        Err(ReadAll::TooLong) => Err(Status::TooLong),
    }
}
