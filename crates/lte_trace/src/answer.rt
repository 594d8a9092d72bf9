// The answer to a question.
ghost use Rattle.std.specs.Prelude.{◌≡◌, ◌++◌, ◌≤◌, true, length, Ok, Err, IfOk, OnErr};
ghost use Rattle.std.specs.String.{string_bytes};
ghost use Rattle.growth.specs.Growth.{WasRefused};
ghost use Rattle.lte_trace.specs.Answer.{Finds, HasHistory, IsAnswer, IsFound, IsTooLarge, IsWitness, TellsIf, IsNeverMore, explained_text, bad_text, word_if};
ghost use Rattle.lte_trace.specs.Moves.{moves_text};
ghost use Rattle.trace_text.specs.Question.{nothing};
ghost use Rattle.trace_text.specs.Text.{reading_of};

use crate::moves::add_moves;
use std::alloc::{AllocError, Global};
use trace_keys::Net;
use trace_order::{is_beyond, is_foreign, is_misplaced, is_never};
use trace_plain::{Found, Told, Unsearched, explained, way_to};
use trace_text::{Question, TextFault, moves_of, read_lines};

/// What became of a text.
#[derive(Clone, Copy, Drop)]
pub enum Ends {
    /// It is a question, and it was searched.
    Explained,
    /// It is no question.
    Refused,
    /// It is a question whose search was given up, since more nets are possible than are kept.
    TooMany,
}

/// The answer to a text.
#[derive(Drop)]
pub struct Answer {
    /// What is written: lines, or nothing.
    pub text: Vec<u8>,
    /// What became of the text.
    pub ends: Ends,
}

/// The answer to a text. The one error is want of memory.
pub fn answered(alloc: Global, text: &[u8]) -> Result<Answer, AllocError>
    ensures answer { IfOk result (λ answer. IsAnswer text.now answer.ends answer.text.items) }
    ensures refused { OnErr result WasRefused }
{
    let mut question = Question::new(alloc);
    let answer = answer_to(alloc, &mut question, text);
    drop(question);
    answer
}

// The same, with a question of nothing to read it into.
fn answer_to(alloc: Global, question: &mut Question, text: &[u8]) -> Result<Answer, AllocError>
    requires { question.old ≡ nothing }
    ensures answer { IfOk result (λ answer. IsAnswer text.now answer.ends answer.text.items) }
    ensures refused { OnErr result WasRefused }
{
    match read_lines(alloc, question, text) {
        Ok(()) => searched(alloc, question, text),
        Err(TextFault::BadLine(line)) => refusal(alloc, line, text),
        Err(TextFault::Memory) => Err(AllocError),
    }
}

// The answer to a question, which this text is.
fn searched(alloc: Global, question: &Question, text: &[u8]) -> Result<Answer, AllocError>
    requires { reading_of text.now ≡ Ok question.now }
    ensures answer { IfOk result (λ answer. IsAnswer text.now answer.ends answer.text.items) }
    ensures refused { OnErr result WasRefused }
{
    match found(alloc, question) {
        Ok(text) => Ok(Answer {
            text,
            ends: Ends::Explained,
        }),
        Err(Unsearched::TooMany) => Ok(Answer {
            text: Vec::new(alloc),
            ends: Ends::TooMany,
        }),
        Err(Unsearched::Memory) => Err(AllocError),
    }
}

// How far a question is explained, and the moves that explain, as lines.
fn found(alloc: Global, question: &Question) -> Result<Vec<u8>, Unsearched>
    ensures found { IfOk result (λ text. IsFound question.now text.items) }
    ensures large { result ≡ Err Unsearched.TooMany → IsTooLarge question.now }
    ensures memory { result ≡ Err Unsearched.Memory → WasRefused }
{
    let found = search(alloc, question)?;
    let told = told(alloc, question, found.count)?;
    let never = known(alloc, question, found.count)?;
    let all = question.capture().len();
    let text = lines(alloc, found, never, all, told.as_slice())?;
    Ok(text)
}

// The moves that explain so many sightings, if they are asked for.
fn told(alloc: Global, question: &Question, count: usize) -> Result<Vec<Told>, AllocError>
    requires within { count ≤ length question.now.capture }
    requires explained { HasHistory question.now count }
    ensures tells { IfOk result (λ told. TellsIf question.now.moves question.now count told.items) }
    ensures refused { OnErr result WasRefused }
{
    if question.moves() {
        witness(alloc, question, count)
    } else {
        Ok(Vec::new(alloc))
    }
}

fn witness(alloc: Global, question: &Question, count: usize) -> Result<Vec<Told>, AllocError>
    requires within { count ≤ length question.now.capture }
    requires explained { HasHistory question.now count }
    ensures witness { IfOk result (λ told. IsWitness question.now count told.items) }
    ensures refused { OnErr result WasRefused }
{
    let family = moves_of(alloc, question)?;
    way_to(
        alloc,
        question.kasmes(),
        question.covered(),
        family.as_slice(),
        question.bound(),
        &Net::idle(0, 0),
        &question.capture()[..count],
    )
}

/// Why no history shows one sighting more, where that is known.
#[derive(Clone, Copy, Drop)]
pub struct Never {
    /// Its NH is not further on than the last one.
    pub unordered: bool,
    /// No message there carries its key.
    pub misplaced: bool,
    /// Its NH is further on than the steps since the last one.
    pub beyond: bool,
    /// Its key is made of another KeNB than its connection began with.
    pub foreign: bool,
}

// Which of them are known of the sighting behind so many.
fn known(alloc: Global, question: &Question, count: usize) -> Result<Never, AllocError>
    requires { count ≤ length question.now.capture }
    ensures order { IfOk result (λ never. never.unordered ≡ true → IsNeverMore question.now count) }
    ensures place { IfOk result (λ never. never.misplaced ≡ true → IsNeverMore question.now count) }
    ensures reach { IfOk result (λ never. never.beyond ≡ true → IsNeverMore question.now count) }
    ensures chain { IfOk result (λ never. never.foreign ≡ true → IsNeverMore question.now count) }
    ensures refused { OnErr result WasRefused }
{
    let Some(sight) = question.capture().get(count) else {
        return Ok(Never {
            unordered: false,
            misplaced: false,
            beyond: false,
            foreign: false,
        });
    };
    let moves = moves_of(alloc, question)?;
    let family = moves.as_slice();
    let before = &question.capture()[..count];
    let kasmes = question.kasmes();
    let covered = question.covered();
    let clues = question.clues();
    Ok(Never {
        unordered: is_never(kasmes, covered, family, before, sight),
        misplaced: is_misplaced(kasmes, family, clues, sight),
        beyond: is_beyond(kasmes, covered, family, before, sight),
        foreign: is_foreign(kasmes, covered, family, clues, before, sight),
    })
}

// How far a question is explained.
fn search(alloc: Global, question: &Question) -> Result<Found, Unsearched>
    ensures found { IfOk result (λ e. Finds question.now e.count e.closed) }
    ensures large { result ≡ Err Unsearched.TooMany → IsTooLarge question.now }
    ensures memory { result ≡ Err Unsearched.Memory → WasRefused }
{
    let family = moves_of(alloc, question)?;
    explained(
        alloc,
        question.kasmes(),
        question.covered(),
        family.as_slice(),
        question.bound(),
        &Net::idle(0, 0),
        question.capture(),
    )
}

// The line of a question that was searched.
#[tactic(auto, unfolding(crate::specs::Answer::explained_text))]
fn explained_line(
    alloc: Global,
    found: Found,
    never: Never,
    all: usize,
) -> Result<String, AllocError>
    ensures text { IfOk result (λ text. string_bytes text ≡ explained_text found.count all found.closed never) }
    ensures refused { OnErr result WasRefused }
{
    let count = found.count;
    let closed = word_if(found.closed, " closed");
    let order = word_if(never.unordered, " out-of-order");
    let place = word_if(never.misplaced, " out-of-place");
    let reach = word_if(never.beyond, " out-of-reach");
    let chain = word_if(never.foreign, " out-of-chain");
    growth::format(
        alloc,
        format_args!("explained {count} of {all}{closed}{order}{place}{reach}{chain}\n"),
    )
}

// That line, and those of the moves.
fn lines(
    alloc: Global,
    found: Found,
    never: Never,
    all: usize,
    told: &[Told],
) -> Result<Vec<u8>, AllocError>
    ensures text { IfOk result (λ text. text.items ≡ explained_text found.count all found.closed never ++ moves_text told.now) }
    ensures refused { OnErr result WasRefused }
{
    let line = explained_line(alloc, found, never, all)?;
    let mut text = growth::from_slice(alloc, line.as_bytes())?;
    add_moves(alloc, &mut text, told)?;
    Ok(text)
}

// A word, if that is so which it tells.
fn word_if(is: bool, word: &'static str) -> &'static str
    ensures { result.now ≡ word_if is word.now }
{
    if is { word } else { "" }
}

// The line of a text that is no question.
fn refusal(alloc: Global, line: usize, text: &[u8]) -> Result<Answer, AllocError>
    requires { reading_of text.now ≡ Err line }
    ensures answer { IfOk result (λ answer. IsAnswer text.now answer.ends answer.text.items) }
    ensures refused { OnErr result WasRefused }
{
    let refusal = bad_line(alloc, line)?;
    Ok(Answer {
        text: growth::from_slice(alloc, refusal.as_bytes())?,
        ends: Ends::Refused,
    })
}

#[tactic(auto, unfolding(crate::specs::Answer::bad_text))]
fn bad_line(alloc: Global, line: usize) -> Result<String, AllocError>
    ensures text { IfOk result (λ text. string_bytes text ≡ bad_text line) }
    ensures refused { OnErr result WasRefused }
{
    growth::format(alloc, format_args!("bad line {line}\n"))
}
