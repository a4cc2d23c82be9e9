ghost use Rattle.std.specs.Prelude.{codes, Some};

use std::fmt;

/// The number is the one that the type forbids.
#[derive(Debug, Clone, Copy, Default, PartialEq, Eq, PartialOrd, Ord, Hash)]
pub struct IllegalValue;

impl fmt::Display for IllegalValue {
    ghost output = { λ _. Some (codes "IllegalValue") };

    fn fmt<W: fmt::Write>(&self, f: &mut fmt::Formatter<W>) -> fmt::Result {
        f.write_str("IllegalValue")
    }
}
