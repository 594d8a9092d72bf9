ghost use Rattle.std.specs.Prelude.{◌++◌, length, IsTrue};
ghost use Rattle.key_audit.specs.Exact.{Exact};
ghost use Rattle.key_audit.specs.Local.{exact_mark};
ghost use Rattle.key_audit.specs.Text.{row_lines, last_line, audit_text};
ghost use Rattle.run_report.specs.Written.{WritesText};

use edge_io::Sink;
use key_audit::{Audit, first_line, last_line, row_line};
use key_terms::{Ladder, Row};
use run_report::{Unwritten, write_lines, write_text};
use std::alloc::Global;

// Writes an audit that is exact, line by line.
pub(crate) fn write_checked<W: Sink>(
    alloc: Global,
    ladder: &Ladder,
    audit: &Audit,
    out: &mut W,
) -> Result<(), Unwritten>
    requires exact { Exact ladder.now.rows audit.now.rows.items }
    requires out_ready { IsTrue (W.told out.old).ready }
    ensures { WritesText (audit_text ladder.now.rows) result (W.told out.old) (W.told out.new) }
{
    write_text(first_line(alloc, ladder), out)?;
    write_rest(alloc, ladder, audit, out)
}

// Writes all lines but the first.
fn write_rest<W: Sink>(
    alloc: Global,
    ladder: &Ladder,
    audit: &Audit,
    out: &mut W,
) -> Result<(), Unwritten>
    requires exact { Exact ladder.now.rows audit.now.rows.items }
    requires out_ready { IsTrue (W.told out.old).ready }
    ensures { WritesText (row_lines ladder.now.rows (exact_mark ladder.now.rows) 0 (length ladder.now.rows) ++ last_line) result (W.told out.old) (W.told out.new) }
{
    write_rows(alloc, ladder, audit, out)?;
    write_lines(last_line(), out)
}

// Writes a line for each row.
fn write_rows<W: Sink>(
    alloc: Global,
    ladder: &Ladder,
    audit: &Audit,
    out: &mut W,
) -> Result<(), Unwritten>
    requires exact { Exact ladder.now.rows audit.now.rows.items }
    requires out_ready { IsTrue (W.told out.old).ready }
    ensures { WritesText (row_lines ladder.now.rows (exact_mark ladder.now.rows) 0 (length ladder.now.rows)) result (W.told out.old) (W.told out.new) }
{
    for k in 0..ladder.len() {
        write_text(row_line(alloc, ladder, audit, Row(k as u32)), out)?;
    }
    Ok(())
}
