//! Plans in the hands of another crate: what these functions promise follows from what the calls of a plan promise.

ghost use Rattle.std.specs.Prelude.{◌≡◌, false, IfOk, MatchOption};
ghost use Rattle.abi_layout.specs.Trees.{tree};
ghost use Rattle.abi_pack.specs.Reading.{IsReading};
ghost use Rattle.abi_pack.specs.Values.{fits, IsImageOf};
ghost use Rattle.abi_pack.specs.View.{plain};

use abi_det::Rules;
use abi_layout::{Desc, DescError, Field, Prim};
use abi_num::{Items, Target, Text};
use abi_pack::{Plan, ReadError, Value};
use std::alloc::Global;
use std::process::Abort;
use std::test::Fail;

/// The canonical bytes of the value; `None` where it is none of the description's.
fn packed(
    alloc: Global,
    target: &Target,
    desc: &Desc,
    value: &Value,
) -> Result<Option<Vec<u8>>, DescError>
    ensures { IfOk result (λ found. MatchOption found
        (fits Rules.One target.now (tree desc.now) (plain value.now) ≡ false)
        (λ bytes. IsImageOf Rules.One target.now (tree desc.now) (plain value.now) bytes.items)) }
{
    let plan = Plan::of(alloc, target, desc)?;
    if !plan.fits(value) {
        return Ok(None);
    }
    let size = plan.layout().size() as usize;
    let Ok(mut bytes) = vec![in alloc; 0; size] else {
        return Err(DescError::OutOfMemory);
    };
    plan.write(value, &mut bytes);
    Ok(Some(bytes))
}

/// The value that the bytes show.
fn shown(
    alloc: Global,
    target: &Target,
    desc: &Desc,
    bytes: &[u8],
) -> Result<Result<Value, ReadError>, DescError>
    ensures { IfOk result (λ r. IsReading Rules.One target.now (tree desc.now) bytes.now r) }
{
    let plan = Plan::of(alloc, target, desc)?;
    Ok(plan.read(alloc, bytes))
}

fn field(rt: &impl Abort, alloc: Global, ty: Desc) -> Field {
    Field {
        name: Text::new(alloc, "f").expect(rt, "memory"),
        ty,
    }
}

/// A struct of a `u16` and an option of a `bool`.
fn record(rt: &impl Abort, alloc: Global) -> Desc {
    let option = Desc::Option {
        some: Box::new(alloc, Desc::Prim(Prim::Bool)).expect(rt, "memory"),
    };
    let mut fields = Items::new(alloc);
    fields
        .push(field(rt, alloc, Desc::Prim(Prim::U16)))
        .expect(rt, "memory");
    fields.push(field(rt, alloc, option)).expect(rt, "memory");
    Desc::Struct {
        name: Text::new(alloc, "S").expect(rt, "memory"),
        module: Text::new(alloc, "demo").expect(rt, "memory"),
        version: 0,
        fields,
        align: None,
    }
}

/// The number 258 and `Some(true)`.
fn numbered(rt: &impl Abort, alloc: Global) -> Value {
    let truth = Box::new(alloc, Value::Bool(true)).expect(rt, "memory");
    let mut values = Items::new(alloc);
    values
        .push(Value::Int {
            magnitude: 258,
            negative: false,
        })
        .expect(rt, "memory");
    values.push(Value::Some(truth)).expect(rt, "memory");
    Value::List(values)
}

// 258 is 1 * 256 + 2; `true` is 1 in the byte after it, and the fourth byte is padding.
fn expected(target: &Target) -> [u8; 4] {
    if target.little {
        [2, 1, 1, 0]
    } else {
        [1, 2, 1, 0]
    }
}

#[test]
fn packed_and_read_back_on_each_target(rt: HostRuntime) -> Result<(), Fail> {
    let alloc = rt.alloc();
    let desc = record(&rt, alloc);
    let value = numbered(&rt, alloc);
    for name in ["le64", "le64o", "be64", "le32", "le32o", "be32", "le16"] {
        let target = Target::named(name).expect(&rt, "no such target");
        let bytes = packed(alloc, &target, &desc, &value).expect(&rt, "no plan");
        let bytes = bytes.expect(&rt, "no such value");
        assert!(rt; bytes.as_slice() == expected(&target).as_slice(), "{name}");
        let plan = Plan::of(alloc, &target, &desc).expect(&rt, "no plan");
        assert!(rt; plan.shown(&bytes), "{name}");
        let again = shown(alloc, &target, &desc, &bytes).expect(&rt, "no plan");
        let again = again.expect(&rt, "not read");
        let once_more = packed(alloc, &target, &desc, &again).expect(&rt, "no plan");
        let once_more = once_more.expect(&rt, "no such value");
        assert!(rt; once_more.as_slice() == bytes.as_slice(), "{name}");
    }
    Ok(())
}

#[test]
fn what_is_none_of_the_description(rt: HostRuntime) -> Result<(), Fail> {
    let alloc = rt.alloc();
    let desc = record(&rt, alloc);
    let target = Target::named("be32").expect(&rt, "no such target");
    let bytes = packed(alloc, &target, &desc, &Value::Unit).expect(&rt, "no plan");
    assert!(rt; bytes.is_none());
    let found = shown(alloc, &target, &desc, &[1, 2, 3, 0]).expect(&rt, "no plan");
    assert!(rt; found.err() == Some(ReadError::IllegalBytes));
    let found = shown(alloc, &target, &desc, &[1, 2, 1]).expect(&rt, "no plan");
    assert!(rt; found.err() == Some(ReadError::WrongLength));
    Ok(())
}
