ghost use Rattle.std.specs.Prelude.{◌≡◌, ◌++◌, Some, None, IfOk, OnErr, OnOk, IfSome, map, string_bytes};
ghost use Rattle.std.specs.Process.{command_program, command_args};
ghost use Rattle.std.specs.Path.{path_buf_bytes};
ghost use Rattle.growth.specs.Growth.{WasRefused};
ghost use Rattle.edge_io.specs.RoleWords.{role_words};
ghost use Rattle.edge_io.specs.Serving.{program_of};

use crate::peers::Role;
use itoa::Buffer;
use std::alloc::{AllocError, Global};
use std::path::PathBuf;
use std::process::Command;

/// A program that serves a role by frames.
#[derive(Drop)]
pub struct Program {
    /// Its path. A name with no slash is looked for in the `PATH`.
    pub path: PathBuf,
    /// The words that stand before those of the role.
    pub words: Vec<String>,
}

/// The programs that play the roles. A role that has none is not started.
#[derive(Drop)]
pub struct Programs {
    /// That of the phone.
    pub phone: Option<Program>,
    /// Those of the stations, by their numbers.
    pub stations: Vec<Option<Program>>,
    /// That of the core.
    pub core: Option<Program>,
}

impl Programs {
    // The program of a role.
    pub(crate) fn of(&self, role: Role) -> Option<&Program>
        ensures some { IfSome result (λ program. program_of role self.now ≡ Some program.now) }
        ensures none { result ≡ None → program_of role self.now ≡ None }
    {
        match role {
            Role::Phone => self.phone.as_ref(),
            Role::Station(number) => self.stations.get(number as usize)?.as_ref(),
            Role::Core => self.core.as_ref(),
        }
    }
}

// The command that starts a program in a role.
pub(crate) fn command_of(
    alloc: Global,
    program: &Program,
    role: Role,
) -> Result<Command, AllocError>
    ensures program { IfOk result (λ c. command_program c ≡ path_buf_bytes program.now.path) }
    ensures words { IfOk result (λ c. command_args c ≡ map string_bytes program.now.words.items ++ role_words role) }
    ensures refused { OnErr result WasRefused }
{
    let mut command = command_without_role(alloc, program)?;
    add_role(&mut command, role)?;
    Ok(command)
}

// The command with its own words.
fn command_without_role(alloc: Global, program: &Program) -> Result<Command, AllocError>
    ensures program { IfOk result (λ c. command_program c ≡ path_buf_bytes program.now.path) }
    ensures words { IfOk result (λ c. command_args c ≡ map string_bytes program.now.words.items) }
    ensures refused { OnErr result WasRefused }
{
    let mut command = growth::command(alloc, &program.path)?;
    'words: for word in program.words.as_slice() {
        growth::arg(&mut command, word)?;
    }
    Ok(command)
}

// And the words for a role after them.
fn add_role(command: &mut Command, role: Role) -> Result<(), AllocError>
    ensures program { OnOk result (command_program command.new ≡ command_program command.old) }
    ensures words { OnOk result (command_args command.new ≡ command_args command.old ++ role_words role) }
    ensures refused { OnErr result WasRefused }
{
    growth::arg(command, "serve")?;
    match role {
        Role::Phone => growth::arg(command, "phone"),
        Role::Station(number) => {
            let mut digits = Buffer::new();
            growth::arg(command, "station")?;
            growth::arg(command, digits.format(number))
        }
        Role::Core => growth::arg(command, "core"),
    }
}
