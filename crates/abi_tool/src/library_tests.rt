//! The example of docs/LIBRARY.md.

use abi_layout::{Desc, Prim, layout_of};
use abi_num::{Items, Target};
use abi_pack::{Plan, Value, run};
use std::test::Fail;

#[test]
fn a_value_is_laid_out_packed_and_read(rt: HostRuntime) -> Result<(), Fail> {
    let alloc = rt.alloc();
    let target = Target::named("be32").ok_or("no such target")?;
    let some = Box::new(alloc, Desc::Prim(Prim::U16))?;
    let desc = Desc::Option { some };
    let layout = layout_of(alloc, &target, &desc)?;
    assert_eq!(rt; (layout.size(), layout.align()), (4, 2));
    let image = run(alloc, &target, &desc, &Value::None, &[])?;
    assert_eq!(rt; image.bytes.as_slice(), [1, 0, 0, 0].as_slice());
    let plan = Plan::of(alloc, &target, &desc)?;
    assert!(rt; plan.fits(&Value::None) && plan.shown(&[1, 0, 9, 9]));
    let value = plan.read(alloc, &[0, 0, 1, 2])?;
    let again = run(alloc, &target, &desc, &value, &[])?;
    assert_eq!(rt; again.bytes.as_slice(), [0, 0, 1, 2].as_slice());
    Ok(())
}
