use abi_bits::SaturatingAddValue;
use abi_layout::{Desc, Field, FieldDescs, PointerKind, Prim};
use abi_num::{Items, Target, Text};
use std::alloc::Global;
use std::process::Abort;

pub const NONE: SaturatingAddValue = SaturatingAddValue::B0;

pub const ONE: SaturatingAddValue = SaturatingAddValue::B1;

pub const MANY: SaturatingAddValue = SaturatingAddValue::Saturator;

pub fn target(rt: &impl Abort, name: &str) -> Target {
    Target::named(name).expect(rt, "no such target")
}

pub fn text(rt: &impl Abort, alloc: Global, text: &str) -> Text {
    Text::new(alloc, text).expect(rt, "memory")
}

pub fn boxed(rt: &impl Abort, alloc: Global, desc: Desc) -> Box<Desc> {
    Box::new(alloc, desc).expect(rt, "memory")
}

pub fn boxed_prim(rt: &impl Abort, alloc: Global, prim: Prim) -> Box<Desc> {
    boxed(rt, alloc, Desc::Prim(prim))
}

pub fn reference(rt: &impl Abort, alloc: Global, pointee: Desc) -> Desc {
    Desc::Pointer {
        kind: PointerKind::Ref,
        pointee: boxed(rt, alloc, pointee),
    }
}

pub fn add_field(rt: &impl Abort, alloc: Global, fields: &mut FieldDescs, name: &str, ty: Desc) {
    let name = text(rt, alloc, name);
    fields.push(Field { name, ty }).expect(rt, "memory");
}

pub fn record(rt: &impl Abort, alloc: Global, fields: FieldDescs, align: Option<u64>) -> Desc {
    Desc::Struct {
        name: text(rt, alloc, "S"),
        module: text(rt, alloc, "demo"),
        version: 0,
        fields,
        align,
    }
}

pub fn of_prims(rt: &impl Abort, alloc: Global, prims: &[Prim], align: Option<u64>) -> Desc {
    let mut fields = Items::new(alloc);
    for prim in prims {
        add_field(rt, alloc, &mut fields, "f", Desc::Prim(*prim));
    }
    record(rt, alloc, fields, align)
}
