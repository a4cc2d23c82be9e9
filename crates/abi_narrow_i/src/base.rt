ghost use Rattle.std.specs.Prelude.{◌≡◌, ℤ, FitsSigned};
ghost use Rattle.std.specs.Int.{Width, w8, w16, w32, w64, w128};
ghost use Rattle.abi_narrow_i.specs.Texts.{WritesWord};
ghost use Rattle.abi_narrow_i.specs.Width.{has_width};

use std::fmt::{self, Binary, Debug, Display, Formatter, HasDigits, LowerHex, Octal, UpperHex};
use std::hash::Hash;

/// A signed integer type in which narrow numbers are kept.
pub trait Base: Copy + Ord + Hash + Debug + Display + HasDigits + UpperHex {
    ghost number: { Self → ℤ };

    ghost width: { Width };

    /// The number as an `i128`.
    fn widen(self) -> i128
        ensures value { result ≡ number self }
        ensures range { FitsSigned width result };

    /// The number `n`, which must fit the type.
    fn keep(n: i128) -> Self
        requires { FitsSigned width n }
        ensures { number result ≡ n };

    /// Whether it keeps numbers of so many binary digits.
    fn holds(count: u32) -> bool
        ensures { result ≡ has_width width count };

    /// Writes it as `LowerHex` does.
    fn write_hex<W: fmt::Write>(&self, f: &mut Formatter<W>) -> fmt::Result
        ensures { WritesWord W.write_str_gives 16 (Self.word self.now) f.old result f.new };

    /// Writes it as `Octal` does.
    fn write_octal<W: fmt::Write>(&self, f: &mut Formatter<W>) -> fmt::Result
        ensures { WritesWord W.write_str_gives 8 (Self.word self.now) f.old result f.new };

    /// Writes it as `Binary` does.
    fn write_binary<W: fmt::Write>(&self, f: &mut Formatter<W>) -> fmt::Result
        ensures { WritesWord W.write_str_gives 2 (Self.word self.now) f.old result f.new };
}

impl Base for i8 {
    ghost number = { λ n. n };

    ghost width = { w8 };

    fn widen(self) -> i128 {
        i128::from(self)
    }

    fn keep(n: i128) -> i8 {
        n as i8
    }

    fn holds(count: u32) -> bool {
        0 < count && count < 8
    }

    fn write_hex<W: fmt::Write>(&self, f: &mut Formatter<W>) -> fmt::Result {
        LowerHex::fmt(self, f)
    }

    fn write_octal<W: fmt::Write>(&self, f: &mut Formatter<W>) -> fmt::Result {
        Octal::fmt(self, f)
    }

    fn write_binary<W: fmt::Write>(&self, f: &mut Formatter<W>) -> fmt::Result {
        Binary::fmt(self, f)
    }
}

impl Base for i16 {
    ghost number = { λ n. n };

    ghost width = { w16 };

    fn widen(self) -> i128 {
        i128::from(self)
    }

    fn keep(n: i128) -> i16 {
        n as i16
    }

    fn holds(count: u32) -> bool {
        8 < count && count < 16
    }

    fn write_hex<W: fmt::Write>(&self, f: &mut Formatter<W>) -> fmt::Result {
        LowerHex::fmt(self, f)
    }

    fn write_octal<W: fmt::Write>(&self, f: &mut Formatter<W>) -> fmt::Result {
        Octal::fmt(self, f)
    }

    fn write_binary<W: fmt::Write>(&self, f: &mut Formatter<W>) -> fmt::Result {
        Binary::fmt(self, f)
    }
}

impl Base for i32 {
    ghost number = { λ n. n };

    ghost width = { w32 };

    fn widen(self) -> i128 {
        i128::from(self)
    }

    fn keep(n: i128) -> i32 {
        n as i32
    }

    fn holds(count: u32) -> bool {
        16 < count && count < 32
    }

    fn write_hex<W: fmt::Write>(&self, f: &mut Formatter<W>) -> fmt::Result {
        LowerHex::fmt(self, f)
    }

    fn write_octal<W: fmt::Write>(&self, f: &mut Formatter<W>) -> fmt::Result {
        Octal::fmt(self, f)
    }

    fn write_binary<W: fmt::Write>(&self, f: &mut Formatter<W>) -> fmt::Result {
        Binary::fmt(self, f)
    }
}

impl Base for i64 {
    ghost number = { λ n. n };

    ghost width = { w64 };

    fn widen(self) -> i128 {
        i128::from(self)
    }

    fn keep(n: i128) -> i64 {
        n as i64
    }

    fn holds(count: u32) -> bool {
        32 < count && count < 64
    }

    fn write_hex<W: fmt::Write>(&self, f: &mut Formatter<W>) -> fmt::Result {
        LowerHex::fmt(self, f)
    }

    fn write_octal<W: fmt::Write>(&self, f: &mut Formatter<W>) -> fmt::Result {
        Octal::fmt(self, f)
    }

    fn write_binary<W: fmt::Write>(&self, f: &mut Formatter<W>) -> fmt::Result {
        Binary::fmt(self, f)
    }
}

impl Base for i128 {
    ghost number = { λ n. n };

    ghost width = { w128 };

    fn widen(self) -> i128 {
        self
    }

    fn keep(n: i128) -> i128 {
        n
    }

    fn holds(count: u32) -> bool {
        64 < count && count < 128
    }

    fn write_hex<W: fmt::Write>(&self, f: &mut Formatter<W>) -> fmt::Result {
        LowerHex::fmt(self, f)
    }

    fn write_octal<W: fmt::Write>(&self, f: &mut Formatter<W>) -> fmt::Result {
        Octal::fmt(self, f)
    }

    fn write_binary<W: fmt::Write>(&self, f: &mut Formatter<W>) -> fmt::Result {
        Binary::fmt(self, f)
    }
}
