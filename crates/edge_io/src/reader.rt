ghost use Rattle.std.specs.Prelude.{ℕ, Option, Result, List, length};
ghost use Rattle.std.specs.Io.{ReadsAtMost};
ghost use Rattle.std.specs.Io.KnownBytes.{ReadConsumes};
ghost use Rattle.std.specs.declared.io.Error.{Error};

use std::io::{self, Read};

/// What a `ReaderSource` reads: each reader of std.
pub trait Reader {
    // The octets that it has left, where it tells them.
    ghost remaining: { Self → Option (List ℕ) };

    // What one call does that asks for so many octets: the reader before, the answer, the reader after.
    ghost answers: { ℕ → Self → Result ℕ Error → Self → Type 0 };

    /// One read, which asks for as many octets as `buf` has room for and may be interrupted.
    fn try_read(&mut self, buf: &mut [u8]) -> io::Result<usize>
        ensures bound { ReadsAtMost result buf.new }
        ensures bytes { ReadConsumes (remaining self.old) (remaining self.new) result buf.new }
        ensures answers { answers (length buf.old) self.old result self.new };
}

impl<R: Read> Reader for R {
    ghost use Rattle.std.specs.Prelude.{⊤};

    ghost remaining = { R.remaining };

    // Of which calls fail std says nothing.
    ghost answers = { λ _ _ _ _. ⊤ };

    fn try_read(&mut self, buf: &mut [u8]) -> io::Result<usize> {
        self.read(buf)
    }
}
