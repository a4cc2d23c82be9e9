ghost use Rattle.std.specs.Prelude.{◌≡◌, ◌<◌, ◌^◌, ℕ};
ghost use Rattle.std.specs.Int.{Width, w8, w16, w32, w64, w128};
ghost use mir.Val.{bits};
ghost use Rattle.abi_narrow_u.specs.Texts.{WritesWord};

use std::fmt::{self, Binary, Debug, Display, Formatter, HasDigits, LowerHex, Octal, UpperHex};
use std::hash::Hash;

/// An unsigned integer type in which narrow numbers are kept.
pub trait Base: Copy + Ord + Hash + Debug + Display + HasDigits + UpperHex {
    ghost number: { Self → ℕ };

    ghost width: { Width };

    /// The number as a `u128`.
    fn widen(self) -> u128
        ensures value { result ≡ number self }
        ensures range { result < 2 ^ bits width };

    /// The number `n`, which must have at most as many binary digits as the type has bits.
    fn keep(n: u128) -> Self
        requires { n < 2 ^ bits width }
        ensures { number result ≡ n };

    /// Writes it as `LowerHex` does.
    fn write_hex<W: fmt::Write>(&self, f: &mut Formatter<W>) -> fmt::Result
        ensures { WritesWord W.write_str_gives 16 (Self.word self.now) f.old result f.new };

    /// Writes it as `Octal` does.
    fn write_octal<W: fmt::Write>(&self, f: &mut Formatter<W>) -> fmt::Result
        ensures { WritesWord W.write_str_gives 8 (Self.word self.now) f.old result f.new };

    /// Writes it as `Binary` does.
    fn write_binary<W: fmt::Write>(&self, f: &mut Formatter<W>) -> fmt::Result
        ensures { WritesWord W.write_str_gives 2 (Self.word self.now) f.old result f.new };
}

impl Base for u8 {
    ghost number = { λ n. n };

    ghost width = { w8 };

    fn widen(self) -> u128 {
        u128::from(self)
    }

    fn keep(n: u128) -> u8 {
        n as u8
    }

    fn write_hex<W: fmt::Write>(&self, f: &mut Formatter<W>) -> fmt::Result {
        LowerHex::fmt(self, f)
    }

    fn write_octal<W: fmt::Write>(&self, f: &mut Formatter<W>) -> fmt::Result {
        Octal::fmt(self, f)
    }

    fn write_binary<W: fmt::Write>(&self, f: &mut Formatter<W>) -> fmt::Result {
        Binary::fmt(self, f)
    }
}

impl Base for u16 {
    ghost number = { λ n. n };

    ghost width = { w16 };

    fn widen(self) -> u128 {
        u128::from(self)
    }

    fn keep(n: u128) -> u16 {
        n as u16
    }

    fn write_hex<W: fmt::Write>(&self, f: &mut Formatter<W>) -> fmt::Result {
        LowerHex::fmt(self, f)
    }

    fn write_octal<W: fmt::Write>(&self, f: &mut Formatter<W>) -> fmt::Result {
        Octal::fmt(self, f)
    }

    fn write_binary<W: fmt::Write>(&self, f: &mut Formatter<W>) -> fmt::Result {
        Binary::fmt(self, f)
    }
}

impl Base for u32 {
    ghost number = { λ n. n };

    ghost width = { w32 };

    fn widen(self) -> u128 {
        u128::from(self)
    }

    fn keep(n: u128) -> u32 {
        n as u32
    }

    fn write_hex<W: fmt::Write>(&self, f: &mut Formatter<W>) -> fmt::Result {
        LowerHex::fmt(self, f)
    }

    fn write_octal<W: fmt::Write>(&self, f: &mut Formatter<W>) -> fmt::Result {
        Octal::fmt(self, f)
    }

    fn write_binary<W: fmt::Write>(&self, f: &mut Formatter<W>) -> fmt::Result {
        Binary::fmt(self, f)
    }
}

impl Base for u64 {
    ghost number = { λ n. n };

    ghost width = { w64 };

    fn widen(self) -> u128 {
        u128::from(self)
    }

    fn keep(n: u128) -> u64 {
        n as u64
    }

    fn write_hex<W: fmt::Write>(&self, f: &mut Formatter<W>) -> fmt::Result {
        LowerHex::fmt(self, f)
    }

    fn write_octal<W: fmt::Write>(&self, f: &mut Formatter<W>) -> fmt::Result {
        Octal::fmt(self, f)
    }

    fn write_binary<W: fmt::Write>(&self, f: &mut Formatter<W>) -> fmt::Result {
        Binary::fmt(self, f)
    }
}

impl Base for u128 {
    ghost number = { λ n. n };

    ghost width = { w128 };

    fn widen(self) -> u128 {
        self
    }

    fn keep(n: u128) -> u128 {
        n
    }

    fn write_hex<W: fmt::Write>(&self, f: &mut Formatter<W>) -> fmt::Result {
        LowerHex::fmt(self, f)
    }

    fn write_octal<W: fmt::Write>(&self, f: &mut Formatter<W>) -> fmt::Result {
        Octal::fmt(self, f)
    }

    fn write_binary<W: fmt::Write>(&self, f: &mut Formatter<W>) -> fmt::Result {
        Binary::fmt(self, f)
    }
}
