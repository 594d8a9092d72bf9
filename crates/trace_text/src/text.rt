// The question that a text is.
ghost use Rattle.std.specs.Prelude.{◌≡◌, ℕ, ◌≤◌, Some, None, Ok, Err, if◌then◌else◌, IfErr, IfOk, OnErr, OnOk};
ghost use Rattle.growth.specs.Growth.{WasRefused};
ghost use Rattle.trace_text.specs.Question.{nothing};
ghost use Rattle.trace_text.specs.Text.{is_silent, with_line, reading_of};

use crate::question::Question;
use crate::reading::read_entry;
use std::alloc::{AllocError, Global};
use text_lines::first_line;

/// Why a text is no question that was read.
#[derive(Clone, Copy, Drop)]
pub enum TextFault {
    /// Memory ran out.
    Memory,
    /// The number of the first bad line, counted from 1.
    BadLine(usize),
}

impl From<AllocError> for TextFault {
    ghost use Rattle.std.specs.Prelude.{◌≡◌};
    ghost use Rattle.trace_text.specs.declared.text.TextFault.TheVariants.{Memory};

    ghost from_gives = { λ _ fault. fault ≡ Memory };

    fn from(_fault: AllocError) -> TextFault {
        TextFault::Memory
    }
}

// Whether a line says nothing.
fn is_silent(line: &[u8]) -> bool
    ensures { result ≡ is_silent line.now }
{
    match line {
        [] => true,
        [first, ..] => *first == b'#',
    }
}

// Adds a line, and answers whether it is one.
fn add_line(alloc: Global, question: &mut Question, line: &[u8]) -> Result<bool, AllocError>
    ensures line { IfOk result (λ good. with_line question.old line.now ≡ (if good then Some question.new else None)) }
    ensures refused { OnErr result WasRefused }
{
    if is_silent(line) {
        return Ok(true);
    }
    match read_entry(alloc, line)? {
        Some(entry) => {
            question.add(&entry)?;
            Ok(true)
        }
        None => Ok(false),
    }
}

/// Adds the lines of a text to a question of nothing.
pub fn read_lines(alloc: Global, question: &mut Question, text: &[u8]) -> Result<(), TextFault>
    requires { question.old ≡ nothing }
    ensures reads { OnOk result (reading_of text.now ≡ Ok question.new) }
    ensures bad { (line : ℕ) → result ≡ Err (TextFault.BadLine line) → reading_of text.now ≡ Err line }
    ensures memory { result ≡ Err TextFault.Memory → WasRefused }
{
    let mut number: usize = 1;
    let mut rest = text;
    while !rest.is_empty() {
        let (line, behind) = first_line(rest);
        let good = add_line(alloc, question, line)?;
        if !good {
            return Err(TextFault::BadLine(number));
        }
        number += 1;
        rest = behind;
    }
    Ok(())
}
