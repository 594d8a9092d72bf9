ghost use Rattle.std.specs.Prelude.{◌≡◌, ℕ, ◌<◌, ◌≤◌, ◌∷◌, [], length, IfErr, IfOk, IfSome, Ok, OnErr, Err, position};
ghost use Rattle.growth.specs.Growth.{WasRefused};
ghost use Rattle.text_lines.specs.Lines.{lines_of};
ghost use Rattle.text_lines.specs.Words.{words_of};
ghost use Rattle.ladder_text.specs.Text.{is_root, is_hop_of, has_star, is_kenb, has_alg, stands_as, meets, rows_of, next_line, reading_of, AreGood};

use crate::derivations::Derivations;
use crate::line::LadderLine;
use annex_a_keys::AlgType;
use key_terms::Row;
use std::alloc::{AllocError, AllocFailed, Global};
use text_lines::first_line;

/// Why a ladder text was not read.
#[derive(Debug, Drop)]
pub enum TextFault {
    /// Memory ran out.
    Memory,
    /// The number of the first bad line, counted from 1.
    BadLine(u32),
}

impl From<AllocError> for TextFault {
    ghost use Rattle.std.specs.Prelude.{◌≡◌};
    ghost use Rattle.ladder_text.specs.declared.text.TextFault.TheVariants.{Memory};

    ghost from_gives = { λ _ fault. fault ≡ Memory };

    fn from(_fault: AllocError) -> TextFault {
        TextFault::Memory
    }
}

impl<T: Drop> From<AllocFailed<T>> for TextFault {
    ghost use Rattle.std.specs.Prelude.{◌≡◌};
    ghost use Rattle.ladder_text.specs.declared.text.TextFault.TheVariants.{Memory};

    ghost from_gives = { λ _ fault. fault ≡ Memory };

    fn from(_fault: AllocFailed<T>) -> TextFault {
        TextFault::Memory
    }
}

/// The lines of a ladder text, at most 4,096, all checked for form and need.
pub fn read_lines(alloc: Global, text: &[u8]) -> Result<Vec<LadderLine>, TextFault>
    ensures lines { IfOk result (λ lines. reading_of text.now ≡ Ok lines.items) }
    ensures good { IfOk result (λ lines. AreGood [] lines.items) }
    ensures few { IfOk result (λ lines. length lines.items ≤ 4096) }
    ensures bad { (k : ℕ) → result ≡ Err (TextFault.BadLine k) → reading_of text.now ≡ Err k }
    ensures memory { IfErr result (λ fault. fault ≡ TextFault.Memory → WasRefused) }
{
    let mut lines = Vec::new(alloc);
    let mut rows = Derivations::new(alloc);
    let mut rest = text;
    while !rest.is_empty() {
        let (line, behind) = first_line(rest);
        let Some(line) = read_next(alloc, &lines, &rows, line)? else {
            return Err(TextFault::BadLine(lines.len() as u32 + 1));
        };
        rows.add(&line)?;
        growth::push(&mut lines, line)?;
        rest = behind;
    }
    Ok(lines)
}

// The next line, if the text spells one and its need is met.
fn read_next(
    alloc: Global,
    lines: &[LadderLine],
    rows: &Derivations,
    text: &[u8],
) -> Result<Option<LadderLine>, AllocError>
    requires { rows.now ≡ rows_of lines.now }
    ensures line { IfOk result (λ line. line ≡ next_line lines.now (words_of text.now)) }
    ensures refused { OnErr result WasRefused }
{
    if lines.len() >= 4096 {
        return Ok(None);
    }
    Ok(match LadderLine::read(alloc, text)? {
        Some(line) if meets(rows, &line) => Some(line),
        _ => None,
    })
}

// Whether a line's need is met.
fn meets(rows: &Derivations, line: &LadderLine) -> bool
    ensures { result ≡ meets rows.now line.now }
{
    match line {
        LadderLine::Root(_) => !rows.has(line),
        LadderLine::Kenb { root, .. } => has_root(rows, *root),
        LadderLine::Nh { root, sync } => has_root(rows, *root) && has_hop(rows, *root, *sync),
        LadderLine::Star { key, .. } => has_as_key(rows, *key),
        LadderLine::Alg { key, kind, .. } => has_for(rows, *kind, *key),
    }
}

// Whether a row is a root.
fn has_root(rows: &Derivations, row: Row) -> bool
    ensures { result ≡ stands_as is_root rows.now row }
{
    matches!(rows.get(row), Some(LadderLine::Root(_)))
}

// Whether a row is a KeNB or an NH of a root.
fn has_hop(rows: &Derivations, root: Row, row: Row) -> bool
    ensures { result ≡ stands_as (is_hop_of root) rows.now row }
{
    match rows.get(row) {
        Some(LadderLine::Kenb { root: of, .. } | LadderLine::Nh { root: of, .. }) => root.0 == of.0,
        _ => false,
    }
}

// Whether a row is a key from which KeNB* is derived.
fn has_as_key(rows: &Derivations, row: Row) -> bool
    ensures { result ≡ stands_as has_star rows.now row }
{
    match rows.get(row) {
        Some(LadderLine::Root(_) | LadderLine::Alg { .. }) | None => false,
        Some(_) => true,
    }
}

// Whether a row is a key from which a key of an algorithm type is derived.
fn has_for(rows: &Derivations, kind: AlgType, row: Row) -> bool
    ensures { result ≡ stands_as (has_alg kind) rows.now row }
{
    match kind {
        AlgType::NasEnc | AlgType::NasInt => has_root(rows, row),
        AlgType::RrcEnc | AlgType::RrcInt | AlgType::UpEnc => has_kenb(rows, row),
    }
}

// Whether a row is a KeNB, or a KeNB* that becomes one.
fn has_kenb(rows: &Derivations, row: Row) -> bool
    ensures { result ≡ stands_as is_kenb rows.now row }
{
    matches!(
        rows.get(row),
        Some(LadderLine::Kenb { .. } | LadderLine::Star { .. })
    )
}
