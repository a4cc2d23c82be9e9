use super::*;
use crate::hash_of::hash_of;
use abi_num::Target;
use abi_typed::IStable;
use std::test::Fail;

type Like = StableLike<u32, u8>;

#[test]
fn it_holds_a_value(rt: HostRuntime) {
    let mut it = Like::new(700);
    let before = it;
    *it.as_mut_unchecked() = 701;
    assert_eq!(rt; (*it.as_ref(), *it.as_ref_unchecked()), (701, 701));
    assert_eq!(rt;
        (before.into_inner(), it.into_inner_unchecked()),
        (700, 701)
    );
}

#[test]
fn it_compares_hashes_and_prints_as_its_value(rt: HostRuntime) -> Result<(), Fail> {
    let (low, high) = (Like::new(7), Like::new(12));
    assert!(rt; low < high && low != high && low == Like::new(7) && low.max(high) == high);
    assert_eq!(rt; hash_of(&high), hash_of(&12u32));
    let text = format!(in rt.alloc(); "{low:?} {high} {high:>4}")?;
    assert_eq!(rt; text.as_str(), "7 12   12");
    Ok(())
}

/// 8 bytes aligned to 4: a `u32` after a tag, which takes as many bytes as the alignment.
type Tagged = crate::Result<u32, u32>;

#[test]
fn a_check_compares_size_and_alignment(rt: HostRuntime) -> Result<(), Fail> {
    let target = Target::named("le64").ok_or("no such target")?;
    let alloc = rt.alloc();
    assert!(rt; StableLike::<u32, u32>::check(alloc, &target)?);
    assert!(rt; !StableLike::<u32, u8>::check(alloc, &target)?);
    assert!(rt; !StableLike::<u64, Tagged>::check(alloc, &target)?);
    assert!(rt; !StableLike::<Tagged, u32>::check(alloc, &target)?);
    Ok(())
}

#[test]
fn it_is_laid_out_and_reported_as_the_other_type(rt: HostRuntime) -> Result<(), Fail> {
    let target = Target::named("le64").ok_or("no such target")?;
    let alloc = rt.alloc();
    let layout = Like::layout(alloc, &target)?;
    assert_eq!(rt; (layout.size(), layout.align()), (1, 1));
    assert!(rt; Like::report(alloc, &target)? == u8::report(alloc, &target)?);
    assert!(rt; Like::report(alloc, &target)? != u32::report(alloc, &target)?);
    assert_eq!(rt; Like::id(alloc, &target)?, u8::id(alloc, &target)?);
    Ok(())
}
