//! Integers of a fixed width, as a distance from 0 and a sign.

ghost use Rattle.std.specs.Prelude.{
  ◌≡◌,
  ◌↔◌,
  ℕ,
  ℤ,
  Bool,
  true,
  false,
  IsSome,
  IfSome,
  unsigned_abs,
  ◌^◌,
  ◌*◌,
  ◌-◌,
};
ghost use Rattle.std.specs.Int.{is_negative};
ghost use Rattle.std.proofs.Common.{◌∙◌};
ghost use Rattle.abi_layout.specs.Prims.{width_size};
ghost use Rattle.abi_layout.specs.Trees.{prim};
ghost use Rattle.abi_layout.specs.declared.scalar.Width.{Width as Size};
ghost use Rattle.abi_pack.specs.Plain.{integer};
ghost use Rattle.abi_layout.specs.declared.scalar.Width.TheVariants as width;
ghost use Rattle.abi_typed.specs.Integers.{IsWithin, kind_of, primitive_of};
ghost use Rattle.abi_typed.specs.IntegerLaws.{signed_same, whole_fixed, whole_fits, whole_direct};

use crate::stable::IStable;
use abi_layout::{Desc, IntKind, Prim, Width};
use abi_num::OutOfMemory;
use abi_pack::Value;
use std::alloc::Global;

/// An integer type of a fixed width.
pub trait Whole: Copy {
    ghost width: { Size };

    ghost signed: { Bool };

    ghost magnitude: { Self → ℕ };

    ghost negative: { Self → Bool };

    /// Its kind.
    fn kind() -> IntKind
        ensures { result ≡ kind_of width signed };

    /// Its distance from 0, and whether it lies below 0.
    fn parts(self) -> (u128, bool)
        ensures placed { IsWithin width signed (magnitude self) (negative self) }
        ensures magnitude { result.0 ≡ magnitude self }
        ensures negative { result.1 ≡ negative self };

    /// The integer of this distance from 0, below it where `below`; `None` exactly where the type has none.
    fn of_parts(distance: u128, below: bool) -> Option<Self>
        ensures some { IsSome result ↔ IsWithin width signed distance below }
        ensures magnitude { IfSome result (λ x. magnitude x ≡ distance) }
        ensures negative { IfSome result (λ x. negative x ≡ below) };

    ghost same: { (x y : Self) → magnitude x ≡ magnitude y → negative x ≡ negative y → x ≡ y };
}

impl<T: Whole> IStable for T {
    ghost is_value = { λ x. IsWithin T.width T.signed (T.magnitude x) (T.negative x) };

    ghost description = { prim (primitive_of (kind_of T.width T.signed)) };

    ghost value_of = { λ x. integer (T.magnitude x) (T.negative x) };

    ghost indirections = { false };

    fn describe(_alloc: Global) -> Result<Desc, OutOfMemory> {
        Ok(Desc::Prim(primitive(T::kind())))
    }

    fn to_value(&self, _alloc: Global) -> Result<Value, OutOfMemory> {
        let (magnitude, negative) = self.parts();
        Ok(Value::Int {
            magnitude,
            negative,
        })
    }

    fn from_value(value: &Value) -> Option<T> {
        match value {
            Value::Int {
                magnitude,
                negative,
            } => T::of_parts(*magnitude, *negative),
            _ => None,
        }
    }

    fn indirections() -> bool {
        false
    }

    ghost fixed = { whole_fixed T.width T.signed };

    ghost fitting = { λ x told rules target.
        whole_fits T.width T.signed rules target (T.magnitude x) (T.negative x) ∙ told };

    ghost indirect = { whole_direct T.width T.signed };
}

/// The primitive of that kind.
pub(crate) fn primitive(kind: IntKind) -> Prim
    ensures { result ≡ primitive_of kind }
{
    match kind {
        IntKind::U8 => Prim::U8,
        IntKind::U16 => Prim::U16,
        IntKind::U32 => Prim::U32,
        IntKind::U64 => Prim::U64,
        IntKind::U128 => Prim::U128,
        IntKind::Usize => Prim::Usize,
        IntKind::I8 => Prim::I8,
        IntKind::I16 => Prim::I16,
        IntKind::I32 => Prim::I32,
        IntKind::I64 => Prim::I64,
        IntKind::I128 => Prim::I128,
        IntKind::Isize => Prim::Isize,
    }
}

/// The distance from 0 to which integers with a sign go, in that many bytes: below 0 up to it, above not.
fn half(width: Width) -> u128
    ensures { result ≡ 2 ^ (8 * width_size width - 1) }
{
    match width {
        Width::One => 0x80,
        Width::Two => 0x8000,
        Width::Four => 0x8000_0000,
        Width::Eight => 0x8000_0000_0000_0000,
        Width::Sixteen => 0x8000_0000_0000_0000_0000_0000_0000_0000,
    }
}

/// The integer with a sign of this distance from 0, below it where `below`; `None` exactly where the width has none.
fn signed_of(width: Width, distance: u128, below: bool) -> Option<i128>
    ensures some { IsSome result ↔ IsWithin width true distance below }
    ensures magnitude { IfSome result (λ n. unsigned_abs n ≡ distance) }
    ensures negative { IfSome result (λ n. is_negative n ≡ below) }
{
    let half = half(width);
    if below {
        if 0 < distance && distance <= half {
            Some(-1 - (distance - 1) as i128)
        } else {
            None
        }
    } else if distance < half {
        Some(distance as i128)
    } else {
        None
    }
}

impl Whole for u8 {
    ghost width = { width.One };

    ghost signed = { false };

    ghost magnitude = { λ n. n };

    ghost negative = { λ _. false };

    fn kind() -> IntKind {
        IntKind::U8
    }

    fn parts(self) -> (u128, bool) {
        (u128::from(self), false)
    }

    fn of_parts(distance: u128, below: bool) -> Option<u8> {
        if below || u128::from(u8::MAX) < distance {
            return None;
        }
        Some(distance as u8)
    }

    ghost same = { λ x y e _. e };
}

impl Whole for u16 {
    ghost width = { width.Two };

    ghost signed = { false };

    ghost magnitude = { λ n. n };

    ghost negative = { λ _. false };

    fn kind() -> IntKind {
        IntKind::U16
    }

    fn parts(self) -> (u128, bool) {
        (u128::from(self), false)
    }

    fn of_parts(distance: u128, below: bool) -> Option<u16> {
        if below || u128::from(u16::MAX) < distance {
            return None;
        }
        Some(distance as u16)
    }

    ghost same = { λ x y e _. e };
}

impl Whole for u32 {
    ghost width = { width.Four };

    ghost signed = { false };

    ghost magnitude = { λ n. n };

    ghost negative = { λ _. false };

    fn kind() -> IntKind {
        IntKind::U32
    }

    fn parts(self) -> (u128, bool) {
        (u128::from(self), false)
    }

    fn of_parts(distance: u128, below: bool) -> Option<u32> {
        if below || u128::from(u32::MAX) < distance {
            return None;
        }
        Some(distance as u32)
    }

    ghost same = { λ x y e _. e };
}

impl Whole for u64 {
    ghost width = { width.Eight };

    ghost signed = { false };

    ghost magnitude = { λ n. n };

    ghost negative = { λ _. false };

    fn kind() -> IntKind {
        IntKind::U64
    }

    fn parts(self) -> (u128, bool) {
        (u128::from(self), false)
    }

    fn of_parts(distance: u128, below: bool) -> Option<u64> {
        if below || u128::from(u64::MAX) < distance {
            return None;
        }
        Some(distance as u64)
    }

    ghost same = { λ x y e _. e };
}

impl Whole for u128 {
    ghost width = { width.Sixteen };

    ghost signed = { false };

    ghost magnitude = { λ n. n };

    ghost negative = { λ _. false };

    fn kind() -> IntKind {
        IntKind::U128
    }

    fn parts(self) -> (u128, bool) {
        (self, false)
    }

    fn of_parts(distance: u128, below: bool) -> Option<u128> {
        if below { None } else { Some(distance) }
    }

    ghost same = { λ x y e _. e };
}

impl Whole for i8 {
    ghost width = { width.One };

    ghost signed = { true };

    ghost magnitude = { unsigned_abs };

    ghost negative = { is_negative };

    fn kind() -> IntKind {
        IntKind::I8
    }

    fn parts(self) -> (u128, bool) {
        (u128::from(self.unsigned_abs()), self < 0)
    }

    fn of_parts(distance: u128, below: bool) -> Option<i8> {
        match signed_of(Width::One, distance, below) {
            Some(n) => Some(n as i8),
            None => None,
        }
    }

    ghost same = { signed_same };
}

impl Whole for i16 {
    ghost width = { width.Two };

    ghost signed = { true };

    ghost magnitude = { unsigned_abs };

    ghost negative = { is_negative };

    fn kind() -> IntKind {
        IntKind::I16
    }

    fn parts(self) -> (u128, bool) {
        (u128::from(self.unsigned_abs()), self < 0)
    }

    fn of_parts(distance: u128, below: bool) -> Option<i16> {
        match signed_of(Width::Two, distance, below) {
            Some(n) => Some(n as i16),
            None => None,
        }
    }

    ghost same = { signed_same };
}

impl Whole for i32 {
    ghost width = { width.Four };

    ghost signed = { true };

    ghost magnitude = { unsigned_abs };

    ghost negative = { is_negative };

    fn kind() -> IntKind {
        IntKind::I32
    }

    fn parts(self) -> (u128, bool) {
        (u128::from(self.unsigned_abs()), self < 0)
    }

    fn of_parts(distance: u128, below: bool) -> Option<i32> {
        match signed_of(Width::Four, distance, below) {
            Some(n) => Some(n as i32),
            None => None,
        }
    }

    ghost same = { signed_same };
}

impl Whole for i64 {
    ghost width = { width.Eight };

    ghost signed = { true };

    ghost magnitude = { unsigned_abs };

    ghost negative = { is_negative };

    fn kind() -> IntKind {
        IntKind::I64
    }

    fn parts(self) -> (u128, bool) {
        (u128::from(self.unsigned_abs()), self < 0)
    }

    fn of_parts(distance: u128, below: bool) -> Option<i64> {
        match signed_of(Width::Eight, distance, below) {
            Some(n) => Some(n as i64),
            None => None,
        }
    }

    ghost same = { signed_same };
}

impl Whole for i128 {
    ghost width = { width.Sixteen };

    ghost signed = { true };

    ghost magnitude = { unsigned_abs };

    ghost negative = { is_negative };

    fn kind() -> IntKind {
        IntKind::I128
    }

    fn parts(self) -> (u128, bool) {
        (self.unsigned_abs(), self < 0)
    }

    fn of_parts(distance: u128, below: bool) -> Option<i128> {
        match signed_of(Width::Sixteen, distance, below) {
            Some(n) => Some(n),
            None => None,
        }
    }

    ghost same = { signed_same };
}
