ghost use Rattle.std.specs.Prelude.{◌≡◌, ◌↔◌, IsTrue};
ghost use Rattle.std.specs.IoError.{error_kind};

use std::io::{Error, ErrorKind};

/// Whether a call was interrupted, so that it gave and took nothing.
pub(crate) fn is_interrupted(e: &Error) -> bool
    ensures { IsTrue result ↔ (error_kind e.now ≡ ErrorKind.Interrupted) }
{
    e.kind() == ErrorKind::Interrupted
}
