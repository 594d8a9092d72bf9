ghost use Rattle.std.specs.Prelude.{◌≡◌, IfSome};
ghost use Rattle.std.specs.String.{string_bytes};
ghost use Rattle.lte_sec_app.specs.Command.{generator_of, generator_by, named, one_word, text_command, more_words, IsCommand};

use crate::roles::role_of;
use edge_io::Role;
use text_lines::number;

/// The greatest number of steps of a generated scenario.
pub const MOST_STEPS: u32 = 100_000;

/// What is written for a text that the program reads.
#[derive(Clone, Copy)]
pub enum TextCommand {
    /// The keys of a ladder text.
    Ladder,
    /// The report of a scenario.
    Run,
    /// The report of a scenario of many phones.
    Fleet,
    /// The report of a scenario of two cores.
    Two,
    /// The audit of the keys of a scenario.
    Audit,
}

/// What the program is asked to do.
#[derive(Clone, Copy)]
pub enum Command {
    /// Read a text, and write what is asked for it.
    Text(TextCommand),
    /// Drive a scenario against peers.
    Drive,
    /// Serve the actor of a role over the port.
    Serve(Role),
    /// Run the scenario of so many steps, 1 to 100,000, that a seed gives: the steps, and the seed.
    Gen(u32, u32),
}

/// The command that these words are, if they are one. It takes no memory.
pub fn command_of(words: &[String]) -> Option<Command>
    ensures value { result ≡ named words.now }
    ensures within { IfSome result IsCommand }
{
    match words {
        [] => None,
        [word] => one_word(word),
        [word, words @ ..] => more_words(word, words),
    }
}

// The command that a word alone is.
fn one_word(word: &String) -> Option<Command>
    ensures value { result ≡ one_word (string_bytes word.now) }
    ensures within { IfSome result IsCommand }
{
    match word.as_str() {
        "drive" => Some(Command::Drive),
        _ => Some(Command::Text(text_command(word)?)),
    }
}

// The command that reads a text, of this word.
fn text_command(word: &String) -> Option<TextCommand>
    ensures { result ≡ text_command (string_bytes word.now) }
{
    match word.as_str() {
        "ladder" => Some(TextCommand::Ladder),
        "run" => Some(TextCommand::Run),
        "fleet" => Some(TextCommand::Fleet),
        "two" => Some(TextCommand::Two),
        "audit" => Some(TextCommand::Audit),
        _ => None,
    }
}

// The command that a word is with others behind it.
fn more_words(word: &String, words: &[String]) -> Option<Command>
    ensures value { result ≡ more_words (string_bytes word.now) words.now }
    ensures within { IfSome result IsCommand }
{
    match word.as_str() {
        "serve" => Some(Command::Serve(role_of(words)?)),
        "gen" => generator_of(words),
        _ => None,
    }
}

// The command `gen` with these words, if they are its numbers.
fn generator_of(words: &[String]) -> Option<Command>
    ensures value { result ≡ generator_of words.now }
    ensures within { IfSome result IsCommand }
{
    match words {
        [steps, seed] => generator_by(steps, seed),
        _ => None,
    }
}

fn generator_by(steps: &String, seed: &String) -> Option<Command>
    ensures value { result ≡ generator_by (string_bytes steps.now) (string_bytes seed.now) }
    ensures within { IfSome result IsCommand }
{
    let steps = number(steps.as_bytes())?;
    let seed = number(seed.as_bytes())?;
    if steps < 1 || steps > MOST_STEPS {
        return None;
    }
    Some(Command::Gen(steps, seed))
}
