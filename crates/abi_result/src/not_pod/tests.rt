use super::*;
use crate::hash_of::hash_of;
use std::test::Fail;

#[test]
fn it_is_its_contents(rt: HostRuntime) -> Result<(), Fail> {
    let mut it = NotPod(7u8);
    let before = it;
    *it = 9;
    assert_eq!(rt; (*it, *before, before.clone()?.0), (9, 7, 7));
    assert!(rt; before < it && before != it && before.max(it) == it);
    assert_eq!(rt; NotPod::<u8>::default(), NotPod(0));
    assert_eq!(rt; hash_of(&it), hash_of(&9u8));
    let text = format!(in rt.alloc(); "{it:?}")?;
    assert_eq!(rt; text.as_str(), "NotPod(9)");
    Ok(())
}
