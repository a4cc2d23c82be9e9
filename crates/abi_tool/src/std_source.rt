ghost use Rattle.std.specs.Prelude.{◌≡◌, None};

use crate::failed::Failed;
use crate::source::Source;
use std::io::Read;

/// A source over a reader of std. It tells no bytes, and each error of the reader raises its count of faults.
#[derive(Drop)]
pub struct StdSource<R> {
    inner: R,
    faults: u64,
}

impl<R: Read> StdSource<R> {
    /// A source over `inner`, with no fault so far.
    pub fn new(inner: R) -> StdSource<R>
        ensures { ⟦<StdSource<R> as Source>⟧.faults result ≡ 0 }
    {
        StdSource { inner, faults: 0 }
    }
}

impl<R: Read> Source for StdSource<R> {
    ghost left = { λ _. None };

    ghost faults = { λ s. s.faults };

    fn read(&mut self, buf: &mut [u8]) -> Result<usize, Failed> {
        match self.inner.read(buf) {
            Ok(count) => Ok(count),
            Err(_) => {
                self.faults = self.faults.saturating_add(1);
                Err(Failed)
            }
        }
    }
}

#[cfg(test)]
mod tests {
    use super::*;
    use std::io::{Error, ErrorKind};

    // Gives one byte, and fails at every second read.
    #[derive(Drop)]
    struct Flaky {
        fails: bool,
    }

    impl Read for Flaky {
        fn read(&mut self, buf: &mut [u8]) -> std::io::Result<usize> {
            self.fails = !self.fails;
            match buf {
                [first, ..] if self.fails => {
                    *first = b'a';
                    Ok(1)
                }
                _ => Err(Error::from(ErrorKind::Other)),
            }
        }
    }

    #[test]
    fn faults_rise_at_each_error_alone(rt: HostRuntime) {
        let mut source = StdSource::new(Flaky { fails: false });
        for (count, faults, got) in [
            (Ok(1), 0, b'a'),
            (Err(Failed), 1, 0),
            (Ok(1), 1, b'a'),
            (Err(Failed), 2, 0),
        ] {
            let mut buf = [0; 4];
            assert_eq!(rt; source.read(&mut buf), count);
            assert_eq!(rt; source.faults, faults);
            assert_eq!(rt; buf, [got, 0, 0, 0]);
        }
    }
}
