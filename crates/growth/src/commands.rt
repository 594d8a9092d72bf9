// Commands, which keep their words.
ghost use Rattle.std.specs.Prelude.{◌≡◌, ◌++◌, ◌∷◌, [], IfOk, IfSome, OnErr, OnOk};
ghost use Rattle.std.specs.Process.{command_program, command_args};
ghost use Rattle.growth.specs.Growth.{WasRefused};

use std::alloc::{AllocError, Global};
use std::path::AsPath;
use std::process::Command;

/// A command that starts a program, with no word.
pub fn command<S: AsPath>(alloc: Global, program: S) -> Result<Command, AllocError>
    ensures program { IfOk result (λ c. IfSome (S.path_text program) (λ text. command_program c ≡ text)) }
    ensures args { IfOk result (λ c. command_args c ≡ []) }
    ensures refused { OnErr result WasRefused }
{
    Command::new(alloc, program)
}

/// Puts a word at the end of a command.
pub fn arg<S: AsPath>(command: &mut Command, word: S) -> Result<(), AllocError>
    ensures args { OnOk result (IfSome (S.path_text word) (λ text. command_args command.new ≡ command_args command.old ++ text ∷ [])) }
    ensures program { OnOk result (command_program command.new ≡ command_program command.old) }
    ensures refused { OnErr result WasRefused }
{
    command.arg(word)?;
    Ok(())
}
