ghost use Rattle.std.specs.Prelude.{IsTrue};
ghost use Rattle.lte_sec_app.specs.Ladder.{ladder_output};
ghost use Rattle.lte_sec_app.specs.Run.{WritesOutput};

use crate::status::Status;
use edge_io::Sink;
use ladder_text::{Ending, write_answer};
use std::alloc::Global;

// Writes the keys of a ladder text.
pub(crate) fn report_ladder<W: Sink>(alloc: Global, octets: &[u8], out: &mut W) -> Status
    requires { IsTrue (W.told out.old).ready }
    ensures { WritesOutput W.told (ladder_output octets.now) result out.old out.new }
{
    match write_answer(alloc, octets, out) {
        Ending::Done => Status::Done,
        Ending::Memory => Status::Memory,
        Ending::Refused => Status::Refused,
        Ending::WriteFault => Status::WriteFault,
        Ending::Coincidence => Status::Coincidence,
    }
}
