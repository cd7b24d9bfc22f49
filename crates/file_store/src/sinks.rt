// Outputs: what a write takes, and a whole text written piece by piece.
ghost use Rattle.std.specs.Prelude.{◌≡◌, ◌≤◌, Bool, length, drop};
ghost use Rattle.file_store.specs.Tape.{Tape, CountsBoth, PieceEnds, WholeEnds};

use crate::errors::SinkErr;

/// An output. A write takes a first part of the piece, and at least one byte of a piece that isn't empty.
pub trait Sink {
    /// Whether it tells what it took.
    ghost tells: { Bool };

    /// The bytes that it took, how often it failed, and how often it found no memory.
    ghost tape: { Self → Tape };

    /// How many bytes of the piece were taken.
    fn write(&mut self, piece: &[u8]) -> Result<usize, SinkErr>
        ensures later { CountsBoth (tape self.old) (tape self.new) result }
        ensures ends { PieceEnds tells piece.now (tape self.old) (tape self.new) result };
}

fn rest(bytes: &[u8], done: usize) -> &[u8]
    requires { done ≤ length bytes.now }
    ensures { result.now ≡ drop done bytes.now }
{
    &bytes[done..]
}

/// Writes all of a text. After an error the sink has a first part of it.
pub fn write_whole<S: Sink>(sink: &mut S, bytes: &[u8]) -> Result<(), SinkErr>
    ensures later { CountsBoth (S.tape sink.old) (S.tape sink.new) result }
    ensures ends { WholeEnds S.tells bytes.now (S.tape sink.old) (S.tape sink.new) result }
{
    let mut done = 0;
    while done < bytes.len() {
        done += sink.write(rest(bytes, done))?;
    }
    Ok(())
}
