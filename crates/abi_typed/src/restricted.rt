//! Integers of a fixed width with one forbidden number.

ghost use Rattle.std.specs.Prelude.{◌≡◌, ◌≢◌, ◌↔◌, true, false, refl, unsigned_abs, Some, IfSome};
ghost use Rattle.std.specs.Int.{is_negative};
ghost use Rattle.abi_num.specs.declared.target.Target.{Target};
ghost use Rattle.abi_layout.specs.Prims.{prim_row, restricted};
ghost use Rattle.abi_layout.specs.Trees.{prim};
ghost use Rattle.abi_layout.specs.declared.prim.Primitive.{Primitive};
ghost use Rattle.abi_layout.specs.declared.prim.Primitive.TheVariants as primitive;
ghost use Rattle.abi_layout.specs.declared.prim.IntKind.TheVariants as kind;
ghost use Rattle.abi_layout.specs.declared.scalar.Stored.{Stored};
ghost use Rattle.abi_layout.specs.declared.scalar.Stored.TheVariants as stored;
ghost use Rattle.abi_layout.specs.declared.scalar.Width.TheVariants as width;
ghost use Rattle.abi_nonx.specs.Distance.{wide, signed_wide};
ghost use Rattle.abi_pack.specs.Plain.{integer};
ghost use Rattle.abi_pack.specs.Values.{left_out};
ghost use Rattle.abi_typed.specs.IntegerLaws.{
  restricted_fixed,
  restricted_fitting,
  restricted_direct,
  greatest_left_out,
  number_left_out,
  signed_left_out,
};
ghost use Rattle.abi_typed.specs.Integers.{IsWithin, kind_of};
ghost use Rattle.abi_typed.specs.Stable.{FitsWhereSome};

use crate::stable::IStable;
use crate::whole::Whole;
use abi_layout::{Desc, Prim};
use abi_nonmax::{BelowGreatest, Restricted, Restriction, Word};
use abi_nonx::{
    ExceptI8, ExceptI16, ExceptI32, ExceptI64, ExceptI128, ExceptU8, ExceptU16, ExceptU32,
    ExceptU64, ExceptU128,
};
use abi_num::OutOfMemory;
use abi_pack::Value;
use std::alloc::Global;

/// The primitive whose values are all integers but the forbidden one.
pub trait Excluding<W: Word, N: Whole>: Restriction<W, Number = N> {
    ghost primitive: { Primitive };

    ghost how: { Stored };

    /// The primitive.
    fn primitive() -> Prim
        ensures { result ≡ primitive };

    ghost in_table: { (target : Target)
        → prim_row target primitive ≡ restricted target (kind_of N.width N.signed) how };

    ghost excluded: { (x : N) → IsWithin N.width N.signed (N.magnitude x) (N.negative x)
        → (left_out how N.width false (N.magnitude x) (N.negative x) ≡ true)
        ↔ (x ≡ Self.forbidden) };
}

/// The primitive whose values are all integers of the type but this one.
fn all_but<N: Whole>(n: N) -> Prim
    ensures { result ≡ primitive.NonX (kind_of N.width N.signed) (N.magnitude n) (N.negative n) }
{
    let (magnitude, negative) = n.parts();
    Prim::NonX {
        kind: N::kind(),
        magnitude,
        negative,
    }
}

/// The number of 128 bits with these halves.
fn joined(high: u64, low: u64) -> u128
    ensures { result ≡ wide high low }
{
    u128::from(high) * 0x1_0000_0000_0000_0000 + u128::from(low)
}

/// The number of 128 bits with these halves, of which the upper one has the sign.
fn signed_joined(high: i64, low: u64) -> i128
    ensures { result ≡ signed_wide high low }
{
    i128::from(high) * 0x1_0000_0000_0000_0000 + i128::from(low)
}

/// The integer of these parts; `None` exactly where it is none of the primitive's.
fn restricted_of<W: Word, N: Whole, R: Restriction<W, Number = N> + Excluding<W, N>>(
    magnitude: u128,
    negative: bool,
) -> Option<Restricted<W, R>>
    ensures some { FitsWhereSome (prim R.primitive) (integer magnitude negative) result }
    ensures placed { IfSome result (λ x. IsWithin N.width N.signed (N.magnitude x) (N.negative x)) }
    ensures allowed { IfSome result (λ x. x ≢ R.forbidden) }
    ensures magnitude { IfSome result (λ x. N.magnitude x ≡ magnitude) }
    ensures negative { IfSome result (λ x. N.negative x ≡ negative) }
    ensures back { (x : N) → IsWithin N.width N.signed (N.magnitude x) (N.negative x)
        → x ≢ R.forbidden
        → N.magnitude x ≡ magnitude → N.negative x ≡ negative → result ≡ Some x }
{
    match N::of_parts(magnitude, negative) {
        Some(number) => Restricted::new(number),
        None => None,
    }
}

impl Excluding<u8, u8> for BelowGreatest {
    ghost primitive = { primitive.NonMaxU8 };

    ghost how = { stored.Complement };

    fn primitive() -> Prim {
        Prim::NonMaxU8
    }

    ghost in_table = { λ _. refl };

    ghost excluded = { λ x _. greatest_left_out width.One x };
}

impl Excluding<u16, u16> for BelowGreatest {
    ghost primitive = { primitive.NonMaxU16 };

    ghost how = { stored.Complement };

    fn primitive() -> Prim {
        Prim::NonMaxU16
    }

    ghost in_table = { λ _. refl };

    ghost excluded = { λ x _. greatest_left_out width.Two x };
}

impl Excluding<u32, u32> for BelowGreatest {
    ghost primitive = { primitive.NonMaxU32 };

    ghost how = { stored.Complement };

    fn primitive() -> Prim {
        Prim::NonMaxU32
    }

    ghost in_table = { λ _. refl };

    ghost excluded = { λ x _. greatest_left_out width.Four x };
}

impl Excluding<u64, u64> for BelowGreatest {
    ghost primitive = { primitive.NonMaxU64 };

    ghost how = { stored.Complement };

    fn primitive() -> Prim {
        Prim::NonMaxU64
    }

    ghost in_table = { λ _. refl };

    ghost excluded = { λ x _. greatest_left_out width.Eight x };
}

impl Excluding<u128, u128> for BelowGreatest {
    ghost primitive = { primitive.NonMaxU128 };

    ghost how = { stored.Complement };

    fn primitive() -> Prim {
        Prim::NonMaxU128
    }

    ghost in_table = { λ _. refl };

    ghost excluded = { λ x _. greatest_left_out width.Sixteen x };
}

impl<const F: u8> Excluding<u8, u8> for ExceptU8<F> {
    ghost primitive = { primitive.NonX kind.U8 F false };

    ghost how = { stored.Distance F false };

    fn primitive() -> Prim {
        all_but(F)
    }

    ghost in_table = { λ _. refl };

    ghost excluded = { λ x _. number_left_out width.One F x };
}

impl<const F: u16> Excluding<u16, u16> for ExceptU16<F> {
    ghost primitive = { primitive.NonX kind.U16 F false };

    ghost how = { stored.Distance F false };

    fn primitive() -> Prim {
        all_but(F)
    }

    ghost in_table = { λ _. refl };

    ghost excluded = { λ x _. number_left_out width.Two F x };
}

impl<const F: u32> Excluding<u32, u32> for ExceptU32<F> {
    ghost primitive = { primitive.NonX kind.U32 F false };

    ghost how = { stored.Distance F false };

    fn primitive() -> Prim {
        all_but(F)
    }

    ghost in_table = { λ _. refl };

    ghost excluded = { λ x _. number_left_out width.Four F x };
}

impl<const F: u64> Excluding<u64, u64> for ExceptU64<F> {
    ghost primitive = { primitive.NonX kind.U64 F false };

    ghost how = { stored.Distance F false };

    fn primitive() -> Prim {
        all_but(F)
    }

    ghost in_table = { λ _. refl };

    ghost excluded = { λ x _. number_left_out width.Eight F x };
}

impl<const HIGH: u64, const LOW: u64> Excluding<u128, u128> for ExceptU128<HIGH, LOW> {
    ghost primitive = { primitive.NonX kind.U128 (wide HIGH LOW) false };

    ghost how = { stored.Distance (wide HIGH LOW) false };

    fn primitive() -> Prim {
        all_but(joined(HIGH, LOW))
    }

    ghost in_table = { λ _. refl };

    ghost excluded = { λ x _. number_left_out width.Sixteen (wide HIGH LOW) x };
}

impl<const F: i8> Excluding<u8, i8> for ExceptI8<F> {
    ghost primitive = { primitive.NonX kind.I8 (unsigned_abs F) (is_negative F) };

    ghost how = { stored.Distance (unsigned_abs F) (is_negative F) };

    fn primitive() -> Prim {
        all_but(F)
    }

    ghost in_table = { λ _. refl };

    ghost excluded = { λ x _. signed_left_out width.One F x };
}

impl<const F: i16> Excluding<u16, i16> for ExceptI16<F> {
    ghost primitive = { primitive.NonX kind.I16 (unsigned_abs F) (is_negative F) };

    ghost how = { stored.Distance (unsigned_abs F) (is_negative F) };

    fn primitive() -> Prim {
        all_but(F)
    }

    ghost in_table = { λ _. refl };

    ghost excluded = { λ x _. signed_left_out width.Two F x };
}

impl<const F: i32> Excluding<u32, i32> for ExceptI32<F> {
    ghost primitive = { primitive.NonX kind.I32 (unsigned_abs F) (is_negative F) };

    ghost how = { stored.Distance (unsigned_abs F) (is_negative F) };

    fn primitive() -> Prim {
        all_but(F)
    }

    ghost in_table = { λ _. refl };

    ghost excluded = { λ x _. signed_left_out width.Four F x };
}

impl<const F: i64> Excluding<u64, i64> for ExceptI64<F> {
    ghost primitive = { primitive.NonX kind.I64 (unsigned_abs F) (is_negative F) };

    ghost how = { stored.Distance (unsigned_abs F) (is_negative F) };

    fn primitive() -> Prim {
        all_but(F)
    }

    ghost in_table = { λ _. refl };

    ghost excluded = { λ x _. signed_left_out width.Eight F x };
}

impl<const HIGH: i64, const LOW: u64> Excluding<u128, i128> for ExceptI128<HIGH, LOW> {
    ghost primitive = { primitive.NonX kind.I128
        (unsigned_abs (signed_wide HIGH LOW)) (is_negative (signed_wide HIGH LOW)) };

    ghost how = { stored.Distance
        (unsigned_abs (signed_wide HIGH LOW)) (is_negative (signed_wide HIGH LOW)) };

    fn primitive() -> Prim {
        all_but(signed_joined(HIGH, LOW))
    }

    ghost in_table = { λ _. refl };

    ghost excluded = { λ x _. signed_left_out width.Sixteen (signed_wide HIGH LOW) x };
}

impl<W: Word, N: Whole, R: Restriction<W, Number = N> + Excluding<W, N>> IStable
    for Restricted<W, R> {
    ghost is_value = { λ x.
        IsWithin N.width N.signed (N.magnitude x) (N.negative x) × (x ≢ R.forbidden) };

    ghost description = { prim R.primitive };

    ghost value_of = { λ x. integer (N.magnitude x) (N.negative x) };

    ghost indirections = { false };

    fn describe(_alloc: Global) -> Result<Desc, OutOfMemory> {
        Ok(Desc::Prim(R::primitive()))
    }

    fn to_value(&self, _alloc: Global) -> Result<Value, OutOfMemory> {
        let (magnitude, negative) = self.get().parts();
        Ok(Value::Int {
            magnitude,
            negative,
        })
    }

    fn from_value(value: &Value) -> Option<Self> {
        match value {
            Value::Int {
                magnitude,
                negative,
            } => restricted_of(*magnitude, *negative),
            _ => None,
        }
    }

    fn indirections() -> bool {
        false
    }

    ghost fixed = { restricted_fixed R.primitive N.width N.signed R.how R.in_table };

    ghost fitting = { λ x told. restricted_fitting R.primitive N.width N.signed R.how R.in_table
        (N.magnitude x) (N.negative x) (x ≡ R.forbidden) (R.excluded x told.0) told.0 told.1 };

    ghost indirect = { restricted_direct R.primitive N.width N.signed R.how R.in_table };
}
