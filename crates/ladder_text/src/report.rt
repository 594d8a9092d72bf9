ghost use Rattle.std.specs.Prelude.{◌≡◌, ◌≢◌, ℕ, ◌<◌, ◌≤◌, true, List, [], length, map, Err, IfOk, IsTrue, OnErr};
ghost use Rattle.growth.specs.Growth.{WasRefused};
ghost use Rattle.std.specs.String.{string_bytes};
ghost use Rattle.edge_io.specs.Cause.{NoFault};
ghost use Rattle.edge_io.specs.Lines.{are_lines};
ghost use Rattle.hmac_kdf.specs.Kdf.{IsKdfInput};
ghost use Rattle.key_terms.specs.Ladder.{IsLadder};
ghost use Rattle.ladder_text.specs.Text.{meets, AreGood};
ghost use Rattle.ladder_text.specs.Report.{KeyRow, key_at, derived_in, kind_of, row_text, root_coincidence_text, rows_coincidence_text, coincidence_text, refusal_text, place_in, rows_after, text_at, output_from, ends_at, IsReported, TextAt, Writes};
ghost use Rattle.edge_io.specs.Used.{UsedAsSink};
ghost use Rattle.ladder_text.specs.Rows.{StandsFor, Awaits, Asks, IsInput, IsAsked, answer_at};
ghost use Rattle.ladder_text.specs.declared.line.LadderLine.{LadderLine};

use crate::asked::{Asked, asked_by, octets};
use crate::ending::Ending;
use crate::line::LadderLine;
use annex_a_keys::Derived;
use edge_io::{Sink, write_all};
use itoa::Buffer;
use key_terms::{Ladder, LadderFault, Row};
use rec_base::Bounded;
use std::alloc::{AllocError, Global};

/// Writes the output for the lines of a ladder text, each line by one `write_all`. `Memory` only where std refuses memory.
pub fn write_report<W: Sink>(alloc: Global, lines: &[LadderLine], out: &mut W) -> Ending
    requires ready { IsTrue (W.told out.old).ready }
    requires good { AreGood [] lines.now }
    requires few { length lines.now ≤ 4096 }
    ensures output { Writes (output_from [] 1 lines.now) result (W.told out.old) (W.told out.new) }
    ensures memory { result ≡ Ending.Memory → WasRefused }
    ensures no_fault { result ≢ Ending.WriteFault → NoFault (W.told out.old) (W.told out.new) }
    ensures out { UsedAsSink (W.told out.old) (W.told out.new) }
{
    let mut ladder = Ladder::new(alloc);
    let ended = write_lines(alloc, lines, &mut ladder, out);
    drop(ladder);
    ended
}

// The same, with a ladder that has no row yet.
fn write_lines<W: Sink>(
    alloc: Global,
    lines: &[LadderLine],
    ladder: &mut Ladder,
    out: &mut W,
) -> Ending
    requires ready { IsTrue (W.told out.old).ready }
    requires good { AreGood [] lines.now }
    requires few { length lines.now ≤ 4096 }
    requires empty { ladder.old.rows ≡ [] }
    ensures output { Writes (output_from [] 1 lines.now) result (W.told out.old) (W.told out.new) }
    ensures memory { result ≡ Ending.Memory → WasRefused }
    ensures no_fault { result ≢ Ending.WriteFault → NoFault (W.told out.old) (W.told out.new) }
    ensures out { UsedAsSink (W.told out.old) (W.told out.new) }
{
    for (index, line) in lines.iter().enumerate() {
        // For each line and not once for all of them: this also indexes the rows that stand, so that the
        // line finds its row in constant time.
        match ladder.reserve(1) {
            Ok(()) => {}
            Err(_) => return Ending::Memory,
        }
        match write_line(alloc, ladder, line, index as u32 + 1, out) {
            Ending::Done => {}
            ended => return ended,
        }
    }
    Ending::Done
}

/// Writes the refusal of a text by the number of its first bad line, counted from 1. It takes no memory.
#[tactic(auto, using(crate::proofs::Ends::refusal_is))]
pub fn write_refusal<W: Sink>(line: u32, out: &mut W) -> Ending
    requires { IsTrue (W.told out.old).ready }
    ensures output { Writes (record { text = refusal_text line; ends = Ending.Refused }) result (W.told out.old) (W.told out.new) }
    ensures memory { result ≢ Ending.Memory }
    ensures no_fault { result ≢ Ending.WriteFault → NoFault (W.told out.old) (W.told out.new) }
    ensures out { UsedAsSink (W.told out.old) (W.told out.new) }
{
    match write_all(out, refusal_line(line).as_slice()) {
        Ok(()) => Ending::Refused,
        Err(_) => Ending::WriteFault,
    }
}

// Writes the line for a line of the text: its row, or the coincidence, which ends the output.
fn write_line<W: Sink>(
    alloc: Global,
    ladder: &mut Ladder,
    line: &LadderLine,
    number: u32,
    out: &mut W,
) -> Ending
    requires ready { IsTrue (W.told out.old).ready }
    requires room { 0 < ladder.old.spare }
    requires ladder { IsLadder ladder.old.rows }
    requires awaits { Awaits ladder.old.rows line.now }
    ensures line { (rows : List KeyRow) → StandsFor rows ladder.old.rows → meets (map (λ r. r.line) rows) line.now ≡ true
        → TextAt result (ends_at (place_in rows line.now)) (text_at (place_in rows line.now) rows number line.now) (W.told out.old) (W.told out.new) }
    ensures rows { (rows : List KeyRow)
        → StandsFor rows ladder.old.rows
        → meets (map (λ r. r.line) rows) line.now ≡ true
        → StandsFor (rows_after (place_in rows line.now) rows line.now) ladder.new.rows }
    ensures ladder { IsLadder ladder.new.rows }
    ensures memory { result ≡ Ending.Memory → WasRefused }
    ensures no_fault { result ≢ Ending.WriteFault → NoFault (W.told out.old) (W.told out.new) }
    ensures out { UsedAsSink (W.told out.old) (W.told out.new) }
{
    let asked = asked_by(ladder, line);
    match place(ladder, &asked) {
        Ok(row) => write_row(alloc, ladder, row, line, out),
        Err(LadderFault::Memory) => unreachable!(),
        // A root that stands is its row again, as a derivation is.
        Err(LadderFault::RepeatedRoot(row)) => write_row(alloc, ladder, row, line, out),
        Err(LadderFault::Coincidence(row, _)) => {
            let text = coincidence_line(alloc, number, row, &asked);
            write_text(text, Ending::Coincidence, out)
        }
    }
}

// Writes the output line of a row.
fn write_row<W: Sink>(
    alloc: Global,
    ladder: &Ladder,
    row: Row,
    line: &LadderLine,
    out: &mut W,
) -> Ending
    requires ready { IsTrue (W.told out.old).ready }
    requires stands { row.0 < length ladder.now.rows }
    ensures text { (rows : List KeyRow) → StandsFor rows ladder.now.rows → TextAt result Ending.Done (row_text row.0 (kind_of line.now) (key_at rows row)) (W.told out.old) (W.told out.new) }
    ensures memory { result ≡ Ending.Memory → WasRefused }
    ensures no_fault { result ≢ Ending.WriteFault → NoFault (W.told out.old) (W.told out.new) }
    ensures out { UsedAsSink (W.told out.old) (W.told out.new) }
{
    let text = row_line(alloc, row, line, &octets(ladder, row));
    write_text(text, Ending::Done, out)
}

// Writes a text for which there was memory, and answers how the output ends then.
fn write_text<W: Sink>(text: Result<String, AllocError>, ends: Ending, out: &mut W) -> Ending
    requires ready { IsTrue (W.told out.old).ready }
    requires reported { IsReported ends }
    requires line { IfOk text (λ t. are_lines (string_bytes t) ≡ true) }
    requires refused { OnErr text WasRefused }
    ensures text { (octets : List ℕ) → IfOk text (λ t. string_bytes t ≡ octets) → TextAt result ends octets (W.told out.old) (W.told out.new) }
    ensures memory { result ≡ Ending.Memory → WasRefused }
    ensures no_fault { result ≢ Ending.WriteFault → NoFault (W.told out.old) (W.told out.new) }
    ensures out { UsedAsSink (W.told out.old) (W.told out.new) }
{
    match text {
        Err(_) => Ending::Memory,
        Ok(text) => match write_all(out, text.as_bytes()) {
            Ok(()) => ends,
            Err(_) => Ending::WriteFault,
        },
    }
}

// The row of what a line asks for, a new one where no row is the same derivation yet.
fn place(ladder: &mut Ladder, asked: &Asked) -> Result<Row, LadderFault>
    requires room { 0 < ladder.old.spare }
    requires ladder { IsLadder ladder.old.rows }
    requires asked { IsAsked ladder.old.rows asked.now }
    ensures answer { (rows : List KeyRow) (line : LadderLine)
        → StandsFor rows ladder.old.rows
        → meets (map (λ r. r.line) rows) line ≡ true
        → Asks rows line asked.now
        → result ≡ answer_at (place_in rows line) rows line }
    ensures rows { (rows : List KeyRow) (line : LadderLine)
        → StandsFor rows ladder.old.rows
        → meets (map (λ r. r.line) rows) line ≡ true
        → Asks rows line asked.now
        → StandsFor (rows_after (place_in rows line) rows line) ladder.new.rows }
    ensures ladder { IsLadder ladder.new.rows }
    ensures memory { result ≢ Err LadderFault.Memory }
{
    match asked {
        Asked::Root(octets) => ladder.root(*octets),
        Asked::Derivation(made) => ladder.add(made),
    }
}

// The output line of a row.
#[tactic(auto, unfolding(crate::specs::Report::row_text))]
fn row_line(
    alloc: Global,
    row: Row,
    line: &LadderLine,
    octets: &[u8; 32],
) -> Result<String, AllocError>
    ensures text { IfOk result (λ text. string_bytes text ≡ row_text row.0 (kind_of line.now) octets.now) }
    ensures refused { OnErr result WasRefused }
{
    let kind = line.kind();
    let hex = growth::encode(alloc, octets)?;
    let row = row.0;
    growth::format(alloc, format_args!("{row} {kind} {hex}\n"))
}

// The output line of a coincidence with a row.
fn coincidence_line(
    alloc: Global,
    number: u32,
    row: Row,
    asked: &Asked,
) -> Result<String, AllocError>
    requires { IsInput asked.now }
    ensures line { IfOk result (λ text. are_lines (string_bytes text) ≡ true) }
    ensures text { (rows : List KeyRow) (line : LadderLine) → Asks rows line asked.now → IfOk result (λ text. string_bytes text ≡ coincidence_text number row.0 (derived_in rows line)) }
    ensures refused { OnErr result WasRefused }
{
    match asked {
        Asked::Root(_) => root_coincidence(alloc, number, row),
        Asked::Derivation(made) => rows_coincidence(alloc, number, row, made),
    }
}

// The output line of a root that has a row's octets.
#[tactic(auto, unfolding(crate::specs::Report::root_coincidence_text))]
fn root_coincidence(alloc: Global, number: u32, row: Row) -> Result<String, AllocError>
    ensures text { IfOk result (λ text. string_bytes text ≡ root_coincidence_text number row.0) }
    ensures refused { OnErr result WasRefused }
{
    let row = row.0;
    growth::format(alloc, format_args!("{number} coincidence root {row}\n"))
}

// The output line of a derivation that gave a row's octets.
#[tactic(auto, unfolding(crate::specs::Report::rows_coincidence_text))]
fn rows_coincidence(
    alloc: Global,
    number: u32,
    row: Row,
    made: &Derived,
) -> Result<String, AllocError>
    requires { IsKdfInput made.now.input }
    ensures text { IfOk result (λ text. string_bytes text ≡ rows_coincidence_text number row.0 made.now.key made.now.input) }
    ensures refused { OnErr result WasRefused }
{
    let row = row.0;
    let key = growth::encode(alloc, &made.key)?;
    let string = growth::encode(alloc, made.input.string().as_slice())?;
    growth::format(
        alloc,
        format_args!("{number} coincidence rows {row} {key} {string}\n"),
    )
}

// The output line of a refusal.
#[tactic(auto, unfolding(crate::specs::Report::refusal_text))]
fn refusal_line(line: u32) -> Bounded<24>
    ensures { result ≡ refusal_text line }
{
    let mut text = Bounded::new();
    text.append(b"refused line ");
    text.append(Buffer::new().format(line).as_bytes());
    text.append(b"\n");
    text
}
