ghost use Rattle.std.specs.Prelude.{ℕ, Option, Result, List};
ghost use Rattle.std.specs.Io.{WritesAtMost};
ghost use Rattle.std.specs.Io.KnownBytes.{WriteAppends};
ghost use Rattle.std.specs.declared.io.Error.{Error};

use std::io::{self, Write};

/// What a `WriterSink` writes: each writer of std.
pub trait Writer {
    // The octets that it holds, where it tells them.
    ghost contents: { Self → Option (List ℕ) };

    // What one call with a piece does: the writer before, the answer, the writer after.
    ghost answers: { List ℕ → Self → Result ℕ Error → Self → Type 0 };

    /// One write of this piece, which may be interrupted.
    fn try_write(&mut self, piece: &[u8]) -> io::Result<usize>
        ensures bound { WritesAtMost result piece.now }
        ensures bytes { WriteAppends (contents self.old) (contents self.new) result piece.now }
        ensures answers { answers piece.now self.old result self.new };
}

impl<W: Write> Writer for W {
    ghost use Rattle.std.specs.Prelude.{⊤};

    ghost contents = { W.contents };

    // Of which calls fail std says nothing.
    ghost answers = { λ _ _ _ _. ⊤ };

    fn try_write(&mut self, piece: &[u8]) -> io::Result<usize> {
        self.write(piece)
    }
}
