use super::*;
use abi_nonmax::{
    BelowGreatest, IllegalValue, NonMaxU8, NonMaxU16, NonMaxU32, NonMaxU64, NonMaxU128,
    NonMaxUsize, Restricted, Restriction, StoredU8, StoredU128, Word,
};
use std::cmp::Ordering;
use std::hash::{DefaultHasher, Hash, Hasher};
use std::process::Abort;
use std::test::Fail;

fn try_number<W: Word, R: Restriction<W>>(rt: &impl Abort, n: R::Number, forbidden: R::Number) {
    match Restricted::<W, R>::new(n) {
        Some(restricted) => {
            assert!(rt; n != forbidden);
            assert!(rt; restricted.get() == n);
        }
        None => assert!(rt; n == forbidden),
    }
}

/// The numbers from 0 to 254 and those in `more`.
fn try_unsigned<W: Word, R: Restriction<W>>(
    rt: &impl Abort,
    forbidden: R::Number,
    more: &[R::Number],
)
where
    R::Number: From<u8>,
{
    for n in 0..=254 {
        try_number::<W, R>(rt, R::Number::from(n), forbidden);
    }
    for n in more {
        try_number::<W, R>(rt, *n, forbidden);
    }
    assert!(rt; Restricted::<W, R>::new(forbidden).is_none());
}

/// The numbers from -127 to 127 and those in `more`.
fn try_signed<W: Word, R: Restriction<W>>(rt: &impl Abort, forbidden: R::Number, more: &[R::Number])
where
    R::Number: From<i8>,
{
    for n in -127..=127 {
        try_number::<W, R>(rt, R::Number::from(n), forbidden);
    }
    for n in more {
        try_number::<W, R>(rt, *n, forbidden);
    }
    assert!(rt; Restricted::<W, R>::new(forbidden).is_none());
}

#[test]
fn all_but_the_greatest_number_are_kept(rt: HostRuntime) {
    try_unsigned::<u8, BelowGreatest>(&rt, u8::MAX, &[]);
    try_unsigned::<u16, BelowGreatest>(&rt, u16::MAX, &[u16::MAX - 1]);
    try_unsigned::<u32, BelowGreatest>(&rt, u32::MAX, &[u32::MAX - 1]);
    try_unsigned::<u64, BelowGreatest>(&rt, u64::MAX, &[u64::MAX - 1]);
    try_unsigned::<u128, BelowGreatest>(&rt, u128::MAX, &[u128::MAX - 1]);
    try_unsigned::<usize, BelowGreatest>(&rt, usize::MAX, &[usize::MAX - 1]);
}

#[test]
fn unsigned_numbers_other_than_72_and_the_greatest_are_kept(rt: HostRuntime) {
    try_unsigned::<u8, ExceptU8<72>>(&rt, 72, &[255]);
    try_unsigned::<u8, ExceptU8<255>>(&rt, 255, &[]);
    try_unsigned::<u16, ExceptU16<72>>(&rt, 72, &[71, 73]);
    try_unsigned::<u16, ExceptU16<{ u16::MAX }>>(&rt, u16::MAX, &[u16::MAX - 1]);
    try_unsigned::<u32, ExceptU32<72>>(&rt, 72, &[71, 73]);
    try_unsigned::<u32, ExceptU32<{ u32::MAX }>>(&rt, u32::MAX, &[u32::MAX - 1]);
    try_unsigned::<u64, ExceptU64<72>>(&rt, 72, &[71, 73]);
    try_unsigned::<u64, ExceptU64<{ u64::MAX }>>(&rt, u64::MAX, &[u64::MAX - 1]);
    try_unsigned::<u128, ExceptU128<0, 72>>(&rt, 72, &[71, 73]);
    try_unsigned::<u128, ExceptU128<{ u64::MAX }, { u64::MAX }>>(&rt, u128::MAX, &[u128::MAX - 1]);
    try_unsigned::<usize, ExceptUsize<72>>(&rt, 72, &[71, 73]);
    try_unsigned::<usize, ExceptUsize<{ usize::MAX }>>(&rt, usize::MAX, &[usize::MAX - 1]);
}

#[test]
fn signed_numbers_other_than_72_and_the_least_are_kept(rt: HostRuntime) {
    try_signed::<u8, ExceptI8<72>>(&rt, 72, &[-128]);
    try_signed::<u8, ExceptI8<{ -128 }>>(&rt, -128, &[]);
    try_signed::<u16, ExceptI16<72>>(&rt, 72, &[71, 73]);
    try_signed::<u16, ExceptI16<{ i16::MIN }>>(&rt, i16::MIN, &[i16::MIN + 1]);
    try_signed::<u32, ExceptI32<72>>(&rt, 72, &[71, 73]);
    try_signed::<u32, ExceptI32<{ i32::MIN }>>(&rt, i32::MIN, &[i32::MIN + 1]);
    try_signed::<u64, ExceptI64<72>>(&rt, 72, &[71, 73]);
    try_signed::<u64, ExceptI64<{ i64::MIN }>>(&rt, i64::MIN, &[i64::MIN + 1]);
    try_signed::<u128, ExceptI128<0, 72>>(&rt, 72, &[71, 73]);
    try_signed::<u128, ExceptI128<{ i64::MIN }, 0>>(&rt, i128::MIN, &[i128::MIN + 1]);
    try_signed::<usize, ExceptIsize<72>>(&rt, 72, &[71, 73]);
    try_signed::<usize, ExceptIsize<{ isize::MIN }>>(&rt, isize::MIN, &[isize::MIN + 1]);
}

fn hash_of<T: Hash>(value: &T) -> u64 {
    let mut state = DefaultHasher::new();
    value.hash(&mut state);
    state.finish()
}

#[test]
fn restricted_numbers_compare_and_hash_as_their_numbers(rt: HostRuntime) -> Result<(), Fail> {
    // stored as 250 and 252
    let (small, large) = (NonMaxU8::new_unchecked(3), NonMaxU8::new_unchecked(5));
    assert_eq!(rt;
        (small < large, small == large, small.cmp(&large)),
        (true, false, Ordering::Less)
    );
    assert_eq!(rt; hash_of(&small), hash_of(&3u8));
    // stored as 127 and 1
    let low = NonXI8::<{ -128 }>::try_from(-1).ok().ok_or("-1")?;
    let high = NonXI8::<{ -128 }>::try_from(-127).ok().ok_or("-127")?;
    assert_eq!(rt; low.partial_cmp(&high), Some(Ordering::Greater));
    assert!(rt; NonXI8::<{ -128 }>::try_from(-128).err() == Some(IllegalValue));
    let copy = low.clone()?;
    assert!(rt; copy == low && i8::from(copy) == -1);
    Ok(())
}

#[test]
fn a_restricted_number_gives_back_its_integer(rt: HostRuntime) {
    assert_eq!(rt; u8::from(NonXU8::<72>::new_unchecked(73)), 73);
    assert_eq!(rt; u16::from(NonMaxU16::new_unchecked(500)), 500);
    assert_eq!(rt; u32::from(NonMaxU32::new_unchecked(70_000)), 70_000);
    assert_eq!(rt; u64::from(NonMaxU64::new_unchecked(1)), 1);
    assert_eq!(rt;
        u128::from(NonMaxU128::new_unchecked(u128::MAX - 1)),
        u128::MAX - 1
    );
    assert_eq!(rt; usize::from(NonMaxUsize::new_unchecked(9)), 9);
    assert_eq!(rt; i16::from(NonXI16::<0>::new_unchecked(-500)), -500);
    assert_eq!(rt; i32::from(NonXI32::<0>::new_unchecked(-70_000)), -70_000);
    assert_eq!(rt; i64::from(NonXI64::<0>::new_unchecked(i64::MIN)), i64::MIN);
    assert_eq!(rt;
        i128::from(NonXI128::<0, 0>::new_unchecked(i128::MAX)),
        i128::MAX
    );
    assert_eq!(rt; isize::from(NonXIsize::<{ -1 }>::new_unchecked(0)), 0);
}

#[test]
fn a_stored_form_is_not_zero(rt: HostRuntime) -> Result<(), Fail> {
    assert!(rt; StoredU8::new(0).is_none() && StoredU128::new(0).is_none());
    assert_eq!(rt; StoredU8::new(7).ok_or("7")?.get(), 7);
    assert_eq!(rt; ExceptU8::<72>::form(73), 1);
    assert_eq!(rt;
        format!(in rt.alloc(); "{IllegalValue}")?.as_str(),
        "IllegalValue"
    );
    Ok(())
}
