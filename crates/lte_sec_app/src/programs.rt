// The programs that play the roles, as the environment names them.
use edge_io::{Program, Programs};
use std::alloc::AllocError;
use std::env::{self, VarError};
use std::path::PathBuf;

// How many stations there may be.
const STATIONS: u8 = 8;

// For each role the program that its variable names, or else this program. The one error is want of memory.
pub(crate) fn programs_of(rt: &HostRuntime) -> Result<Programs, AllocError> {
    let own = env::current_exe(rt).ok();
    let mut programs = Programs {
        phone: None,
        stations: Vec::new(rt.alloc()),
        core: None,
    };
    name_programs(rt, &own, &mut programs)?;
    Ok(programs)
}

// Names the programs of all roles.
fn name_programs(
    rt: &HostRuntime,
    own: &Option<PathBuf>,
    programs: &mut Programs,
) -> Result<(), AllocError> {
    programs.phone = program_of(rt, "LTE_SEC_PHONE", own)?;
    programs.core = program_of(rt, "LTE_SEC_CORE", own)?;
    let any = program_of(rt, "LTE_SEC_STATION", own)?;
    name_stations(rt, &any, &mut programs.stations)
}

// Names the programs of the stations: of each the one that its own variable names, or else the one for all.
fn name_stations(
    rt: &HostRuntime,
    any: &Option<Program>,
    stations: &mut Vec<Option<Program>>,
) -> Result<(), AllocError> {
    for number in 0..STATIONS {
        let name = format!(in rt.alloc(); "LTE_SEC_STATION_{number}")?;
        stations.push(station_of(rt, name.as_str(), any)?)?;
    }
    Ok(())
}

// The program that the variable of a station names, or else the one for all.
fn station_of(
    rt: &HostRuntime,
    name: &str,
    any: &Option<Program>,
) -> Result<Option<Program>, AllocError> {
    match named(rt, name)? {
        Some(program) => Ok(Some(program)),
        None => copied(any),
    }
}

// The program that a variable names, or else this program, where its path is known.
fn program_of(
    rt: &HostRuntime,
    name: &str,
    own: &Option<PathBuf>,
) -> Result<Option<Program>, AllocError> {
    match (named(rt, name)?, own) {
        (Some(program), _) => Ok(Some(program)),
        (None, Some(path)) => Ok(Some(Program {
            path: path.clone()?,
            words: Vec::new(rt.alloc()),
        })),
        (None, None) => Ok(None),
    }
}

// The program that a variable names: its path, and the words before those of the role, in lines. One that is empty or
// no text names none.
fn named(rt: &HostRuntime, name: &str) -> Result<Option<Program>, AllocError> {
    let text = match env::var(rt, name) {
        Ok(text) => text,
        Err(VarError::OutOfMemory) => return Err(AllocError),
        Err(_) => return Ok(None),
    };
    let mut lines = text.as_str().lines();
    let Some(path) = lines.next() else {
        return Ok(None);
    };
    let mut words = Vec::new(rt.alloc());
    for line in lines {
        words.push(String::from_str(rt.alloc(), line)?)?;
    }
    Ok(Some(Program {
        path: PathBuf::from_str(rt.alloc(), path)?,
        words,
    }))
}

// The same program.
fn copied(program: &Option<Program>) -> Result<Option<Program>, AllocError> {
    match program {
        Some(program) => Ok(Some(Program {
            path: program.path.clone()?,
            words: program.words.clone()?,
        })),
        None => Ok(None),
    }
}
