use crate::pod::{AssertStable, IPod, assert_stable};
use crate::stable::IStable;
use abi_nonmax::NonMaxU8;
use abi_nonx::NonXI8;
use abi_num::Target;
use std::alloc::Global;
use std::cmp::Ordering;
use std::test::Fail;

/// The value comes back from what it stands for.
fn comes_back<T: IStable + PartialEq>(x: &T, alloc: Global) -> bool {
    let Ok(value) = x.to_value(alloc) else {
        return false;
    };
    match T::from_value(&value) {
        Some(back) => back == *x,
        None => false,
    }
}

#[test]
fn values_come_back(rt: HostRuntime) -> Result<(), Fail> {
    let alloc = rt.alloc();
    assert!(rt; comes_back(&(), alloc));
    assert!(rt; comes_back(&true, alloc));
    assert!(rt; comes_back(&Ordering::Less, alloc));
    assert!(rt; comes_back(&u128::MAX, alloc));
    assert!(rt; comes_back(&i128::MIN, alloc));
    let below = NonMaxU8::new(254).ok_or("not 255")?;
    assert!(rt; comes_back(&below, alloc));
    let beside = NonXI8::<-128>::new(-127).ok_or("not -128")?;
    assert!(rt; comes_back(&beside, alloc));
    assert_stable::<NonXI8<-128>>();
    let _ = AssertStable::<u8>::assert();
    Ok(())
}

#[test]
fn plain_data_has_its_identifier(rt: HostRuntime) -> Result<(), Fail> {
    let alloc = rt.alloc();
    let target = Target::named("le64").ok_or("no such target")?;
    let Ok(id) = u8::id(alloc, &target) else {
        return Err("no identifier".into());
    };
    assert!(rt; u8::identifier(alloc, &target) == Ok(id));
    assert!(rt; u8::layout(alloc, &target).is_ok());
    assert!(rt; u8::report(alloc, &target).is_ok());
    Ok(())
}
