ghost use Rattle.std.specs.Prelude.{◌≡◌, ◌+◌, ◌*◌, ◌^◌, ◌<◌, ◌≤◌};
ghost use Rattle.abi_layout.specs.Prims.{width_size, scalar_size, in_width};

/// How a value without parts stands in its bytes.
#[derive(Debug, Clone, Copy, PartialEq, Eq)]
pub enum Scalar {
    /// One value, in no bytes.
    Unit,
    /// A byte that is 0 or 1.
    Bool,
    /// A byte that is 255, 0 or 1, for less, equal or greater.
    Order,
    /// An integer.
    Int(Integer),
}

/// How an integer stands in its bytes; a negative one stands in two's complement.
#[derive(Debug, Clone, Copy, PartialEq, Eq)]
pub struct Integer {
    /// Number of bytes.
    pub width: Width,
    /// Whether it may be negative.
    pub signed: bool,
    /// Whether the bytes may all be 0.
    pub zero: bool,
    /// Whether the least significant byte comes first.
    pub little: bool,
    /// What number stands in the bytes.
    pub stored: Stored,
}

/// What number stands for an integer, of as many binary digits as its width has.
#[derive(Debug, Clone, Copy, PartialEq, Eq)]
pub enum Stored {
    /// The integer itself.
    Itself,
    /// Its complement: every binary digit turned over.
    Complement,
    /// Its distance above another integer, counted around the width's end.
    Distance {
        /// How far the other integer lies from 0.
        magnitude: u128,
        /// Whether it lies below 0.
        negative: bool,
    },
}

/// The size of an integer, in bytes.
#[derive(Debug, Clone, Copy, PartialEq, Eq)]
pub enum Width {
    /// 1 byte.
    One,
    /// 2 bytes.
    Two,
    /// 4 bytes.
    Four,
    /// 8 bytes.
    Eight,
    /// 16 bytes.
    Sixteen,
}

impl Width {
    /// The number of bytes.
    pub fn bytes(self) -> u64
        ensures same { result ≡ width_size self }
        ensures some { 0 < result }
        ensures bound { result ≤ 16 }
    {
        match self {
            Width::One => 1,
            Width::Two => 2,
            Width::Four => 4,
            Width::Eight => 8,
            Width::Sixteen => 16,
        }
    }

    /// The greatest number that stands in that many bytes.
    pub fn greatest(self) -> u128
        ensures bits { result + 1 ≡ 2 ^ (8 * width_size self) }
        ensures bytes { result + 1 ≡ 256 ^ width_size self }
    {
        match self {
            Width::One => 0xff,
            Width::Two => 0xffff,
            Width::Four => 0xffff_ffff,
            Width::Eight => 0xffff_ffff_ffff_ffff,
            Width::Sixteen => 0xffff_ffff_ffff_ffff_ffff_ffff_ffff_ffff,
        }
    }

    /// Whether the integer of this distance from 0 has a place in the width, `negative` where it lies below 0; no 0
    /// lies below 0.
    pub fn holds(self, signed: bool, magnitude: u128, negative: bool) -> bool
        ensures { result ≡ in_width self signed magnitude negative }
    {
        let most = self.greatest();
        if negative {
            signed && 0 < magnitude && magnitude <= most / 2 + 1
        } else if signed {
            magnitude <= most / 2
        } else {
            magnitude <= most
        }
    }
}

impl Scalar {
    /// The number of bytes, at most 16.
    pub fn size(&self) -> u64
        ensures same { result ≡ scalar_size self.now }
        ensures bound { result ≤ 16 }
    {
        match self {
            Scalar::Unit => 0,
            Scalar::Bool => 1,
            Scalar::Order => 1,
            Scalar::Int(integer) => integer.width.bytes(),
        }
    }
}
