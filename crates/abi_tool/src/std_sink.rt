ghost use Rattle.std.specs.Prelude.{◌≡◌, None};

use crate::failed::Failed;
use crate::sink::Sink;
use std::io::Write;

/// A sink over a writer of std, flushed after each write. It tells no bytes, and each error of the writer raises its
/// count of faults. A write fails also where the writer took bytes and then failed to flush.
#[derive(Drop)]
pub struct StdSink<W> {
    inner: W,
    faults: u64,
}

impl<W: Write> StdSink<W> {
    /// A sink over `inner`, with no fault so far.
    pub fn new(inner: W) -> StdSink<W>
        ensures { ⟦<StdSink<W> as Sink>⟧.faults result ≡ 0 }
    {
        StdSink { inner, faults: 0 }
    }
}

impl<W: Write> Sink for StdSink<W> {
    ghost got = { λ _. None };

    ghost faults = { λ s. s.faults };

    fn write(&mut self, piece: &[u8]) -> Result<usize, Failed> {
        if let Ok(count) = self.inner.write(piece)
            && (count > 0 || piece.is_empty())
            && self.inner.flush().is_ok()
        {
            return Ok(count);
        }
        self.faults = self.faults.saturating_add(1);
        Err(Failed)
    }
}

#[cfg(test)]
mod tests {
    use super::*;
    use std::io::{Error, ErrorKind};
    use std::str;
    use std::test::Fail;

    // Keeps at most 2 bytes of a piece, and none of a piece of 3. It fails to flush after a piece of 4, and takes no
    // piece of 5.
    #[derive(Drop)]
    struct Narrow {
        taken: Vec<u8>,
        flushes: u64,
        fails: bool,
    }

    impl Write for Narrow {
        fn write(&mut self, buf: &[u8]) -> std::io::Result<usize> {
            self.fails = buf.len() == 4;
            let count = match buf.len() {
                5 => return Err(Error::from(ErrorKind::Other)),
                3 => 0,
                length => length.min(2),
            };
            match self.taken.extend_from_slice(&buf[..count]) {
                Ok(()) => Ok(count),
                Err(_) => Err(Error::from(ErrorKind::OutOfMemory)),
            }
        }

        fn flush(&mut self) -> std::io::Result<()> {
            self.flushes = self.flushes.saturating_add(1);
            if self.fails {
                Err(Error::from(ErrorKind::Other))
            } else {
                Ok(())
            }
        }
    }

    #[test]
    fn pieces_are_written_once_and_faults_rise_at_each_error_alone(
        rt: HostRuntime,
    ) -> Result<(), Fail> {
        let mut sink = StdSink::new(Narrow {
            taken: Vec::new(rt.alloc()),
            flushes: 0,
            fails: false,
        });
        // the piece, the answer, what the writer has by then, the flushes and the faults so far
        for (piece, count, taken, flushes, faults) in [
            ("", Ok(0), "", 1, 0),
            ("a", Ok(1), "a", 2, 0),
            ("bcd", Err(Failed), "a", 2, 1),
            // a write that took bytes and then failed to flush
            ("efgh", Err(Failed), "aef", 3, 2),
            ("ijklm", Err(Failed), "aef", 3, 3),
            ("nopqrs", Ok(2), "aefno", 4, 3),
        ] {
            assert_eq!(rt; sink.write(piece.as_bytes()), count, "{piece}");
            let written = str::from_utf8(&sink.inner.taken).ok().ok_or("no UTF-8")?;
            assert_eq!(rt;
                (written, sink.inner.flushes, sink.faults),
                (taken, flushes, faults),
                "{piece}"
            );
        }
        Ok(())
    }
}
