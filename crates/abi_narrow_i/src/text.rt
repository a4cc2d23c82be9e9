ghost use Rattle.abi_narrow_i.specs.Texts.{WritesWord};

use crate::base::Base;
use crate::narrow::Narrow;
use std::fmt::{self, Binary, Debug, Display, Formatter, HasDigits, LowerHex, Octal, UpperHex};

impl<B: Base, const N: u32> Display for Narrow<B, N> {
    ghost output = { B.output };

    ghost styled_output = { B.styled_output };

    fn fmt<W: fmt::Write>(&self, f: &mut Formatter<W>) -> fmt::Result {
        Display::fmt(&self.get(), f)
    }
}

impl<B: Base, const N: u32> Debug for Narrow<B, N> {
    ghost debug_output = { B.debug_output };

    fn fmt<W: fmt::Write>(&self, f: &mut Formatter<W>) -> fmt::Result {
        Debug::fmt(&self.get(), f)
    }
}

impl<B: Base, const N: u32> HasDigits for Narrow<B, N> {
    ghost word = { B.word };

    fn bits(self) -> (u64, u64) {
        self.get().bits()
    }
}

impl<B: Base, const N: u32> LowerHex for Narrow<B, N> {
    fn fmt<W: fmt::Write>(&self, f: &mut Formatter<W>) -> fmt::Result
        ensures { WritesWord W.write_str_gives 16 (B.word self.now) f.old result f.new }
    {
        self.get().write_hex(f)
    }
}

impl<B: Base, const N: u32> UpperHex for Narrow<B, N> {
    fn fmt<W: fmt::Write>(&self, f: &mut Formatter<W>) -> fmt::Result {
        UpperHex::fmt(&self.get(), f)
    }
}

impl<B: Base, const N: u32> Octal for Narrow<B, N> {
    fn fmt<W: fmt::Write>(&self, f: &mut Formatter<W>) -> fmt::Result
        ensures { WritesWord W.write_str_gives 8 (B.word self.now) f.old result f.new }
    {
        self.get().write_octal(f)
    }
}

impl<B: Base, const N: u32> Binary for Narrow<B, N> {
    fn fmt<W: fmt::Write>(&self, f: &mut Formatter<W>) -> fmt::Result
        ensures { WritesWord W.write_str_gives 2 (B.word self.now) f.old result f.new }
    {
        self.get().write_binary(f)
    }
}
