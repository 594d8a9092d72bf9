// What is tried where no algorithm is known, and how it is answered.
ghost use Rattle.std.specs.Prelude.{◌≡◌, IfOk, OnErr};
ghost use Rattle.std.specs.Option.{option_map};
ghost use Rattle.std.specs.String.{string_bytes};
ghost use Rattle.growth.specs.Growth.{WasRefused};
ghost use Rattle.calc_text.specs.NasText.{is_nas};
ghost use Rattle.calc_text.specs.Trying.{direction_name, mistaken_line, no_algorithm_line, other};

use alg_suite::Integrity;
use rec_base::Dir;
use std::alloc::{AllocError, Global};

/// An integrity algorithm under which a MAC is right, and the COUNT.
#[derive(Clone, Copy)]
pub struct Fit {
    /// The algorithm.
    pub eia: Integrity,
    /// The COUNT.
    pub count: u32,
}

// The other direction.
pub(crate) fn other(dir: Dir) -> Dir
    ensures { result ≡ other dir }
{
    match dir {
        Dir::Up => Dir::Down,
        Dir::Down => Dir::Up,
    }
}

// Whether octets begin as a plain NAS message does: of EMM without security header, or of ESM.
#[tactic(auto, unfolding(crate::specs::NasText::is_nas))]
pub(crate) fn is_nas(text: &[u8]) -> bool
    ensures { result ≡ is_nas text.now }
{
    match text {
        [7, kind, ..] => *kind / 64 == 1,
        [first, _, kind, ..] => *first % 16 == 2 && *kind / 64 == 3,
        _ => false,
    }
}

// What opens in the other direction alone, if it does.
#[tactic(auto, unfolding(crate::specs::Trying::mistaken_line))]
pub(crate) fn mistaken(alloc: Global, dir: Dir, line: Option<String>) -> Result<String, AllocError>
    ensures line { IfOk result (λ text. string_bytes text ≡ mistaken_line dir (option_map string_bytes line)) }
    ensures refused { OnErr result WasRefused }
{
    let Some(line) = line else {
        return no_algorithm(alloc);
    };
    let direction = direction_name(dir);
    growth::format(alloc, format_args!("no algorithm but {direction} {line}"))
}

// Nothing opens.
pub(crate) fn no_algorithm(alloc: Global) -> Result<String, AllocError>
    ensures line { IfOk result (λ text. string_bytes text ≡ no_algorithm_line) }
    ensures refused { OnErr result WasRefused }
{
    growth::from_str(alloc, "no algorithm")
}

fn direction_name(dir: Dir) -> &'static str
    ensures { result.now ≡ direction_name dir }
{
    match dir {
        Dir::Up => "uplink",
        Dir::Down => "downlink",
    }
}
