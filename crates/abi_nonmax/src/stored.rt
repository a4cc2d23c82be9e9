ghost use Rattle.std.specs.Prelude.{◌≡◌, ◌↔◌, IsTrue, IsFalse, IsNone, IfSome, ⊤};

use crate::word::Word;
use std::alloc::AllocError;
use std::marker::Model;

/// A form that is not 0.
#[derive(Copy)]
pub struct Stored<W: Word> {
    form: W,
}

impl<W: Word> Model for Stored<W> {
    ghost Value = { W };

    ghost view = { λ s. s.form };

    ghost inverse = { λ n. record { form = n } };

    ghost invariant = { λ s. IsFalse (W.is_zero s.form) };
}

impl<W: Word> Clone for Stored<W> {
    ghost is_clone = { λ x y. x ≡ y };

    ghost is_infallible = { λ _. ⊤ };

    fn clone(&self) -> Result<Self, AllocError> {
        Ok(*self)
    }
}

impl<W: Word> Stored<W> {
    /// The form `n`; `None` exactly at 0.
    pub fn new(n: W) -> Option<Self>
        ensures none { IsNone result ↔ IsTrue (W.is_zero n) }
        ensures value { IfSome result (λ stored. stored ≡ n) }
    {
        if n.is_zero() {
            None
        } else {
            Some(Stored { form: n })
        }
    }

    /// The form.
    pub fn get(self) -> W
        ensures value { result ≡ self }
        ensures nonzero { IsFalse (W.is_zero result) }
    {
        self.form
    }
}

/// A form of 8 bits.
pub type StoredU8 = Stored<u8>;

/// A form of 16 bits.
pub type StoredU16 = Stored<u16>;

/// A form of 32 bits.
pub type StoredU32 = Stored<u32>;

/// A form of 64 bits.
pub type StoredU64 = Stored<u64>;

/// A form of 128 bits.
pub type StoredU128 = Stored<u128>;

/// A form as wide as an address.
pub type StoredUsize = Stored<usize>;
