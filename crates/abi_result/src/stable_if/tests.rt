use super::*;

#[test]
fn it_is_its_contents(rt: HostRuntime) {
    let mut it = StableIf::<u8, bool>::new(7);
    let before = it;
    *it = 9;
    assert_eq!(rt; (*it, it.value, *before, before.value), (9, 9, 7, 7));
}
