use abi_det::{Kind, Test};
use abi_layout::{Desc, Field, FieldDescs, Prim};
use abi_num::{Items, Target, Text};
use abi_pack::{AbiError, Bytes, Placed, Plan, ReadError, Value, run};
use std::alloc::Global;
use std::process::Abort;

fn text(rt: &impl Abort, alloc: Global, text: &str) -> Text {
    Text::new(alloc, text).expect(rt, "memory")
}

fn record(rt: &impl Abort, alloc: Global, fields: FieldDescs, align: Option<u64>) -> Desc {
    Desc::Struct {
        name: text(rt, alloc, "S"),
        module: text(rt, alloc, "demo"),
        version: 0,
        fields,
        align,
    }
}

fn of_prims(rt: &impl Abort, alloc: Global, prims: &[Prim], align: Option<u64>) -> Desc {
    let mut fields = Items::new(alloc);
    for prim in prims {
        let field = Field {
            name: text(rt, alloc, "f"),
            ty: Desc::Prim(*prim),
        };
        fields.push(field).expect(rt, "memory");
    }
    record(rt, alloc, fields, align)
}

/// A struct of structs of one byte, each aligned to 65,536 bytes.
fn wide_fields(rt: &impl Abort, alloc: Global, count: u32) -> Desc {
    let mut fields = Items::new(alloc);
    for _ in 0..count {
        let field = Field {
            name: text(rt, alloc, "f"),
            ty: of_prims(rt, alloc, &[Prim::U8], Some(65536)),
        };
        fields.push(field).expect(rt, "memory");
    }
    record(rt, alloc, fields, None)
}

fn result(rt: &impl Abort, alloc: Global, ok: Desc, err: Desc) -> Desc {
    Desc::Result {
        ok: Box::new(alloc, ok).expect(rt, "memory"),
        err: Box::new(alloc, err).expect(rt, "memory"),
    }
}

fn option(rt: &impl Abort, alloc: Global, some: Desc) -> Desc {
    Desc::Option {
        some: Box::new(alloc, some).expect(rt, "memory"),
    }
}

fn array(rt: &impl Abort, alloc: Global, item: Desc, len: u64) -> Desc {
    Desc::Array {
        item: Box::new(alloc, item).expect(rt, "memory"),
        len,
    }
}

fn int(magnitude: u128) -> Value {
    Value::Int {
        magnitude,
        negative: false,
    }
}

fn ok(rt: &impl Abort, alloc: Global, value: Value) -> Value {
    Value::Ok(Box::new(alloc, value).expect(rt, "memory"))
}

fn err(rt: &impl Abort, alloc: Global, value: Value) -> Value {
    Value::Err(Box::new(alloc, value).expect(rt, "memory"))
}

fn some(rt: &impl Abort, alloc: Global, value: Value) -> Value {
    Value::Some(Box::new(alloc, value).expect(rt, "memory"))
}

/// Integers, and after them a truth value where there is one.
fn list(rt: &impl Abort, alloc: Global, magnitudes: &[u128], truth: Option<bool>) -> Value {
    let mut values = Items::new(alloc);
    for magnitude in magnitudes {
        values.push(int(*magnitude)).expect(rt, "memory");
    }
    if let Some(truth) = truth {
        values.push(Value::Bool(truth)).expect(rt, "memory");
    }
    Value::List(values)
}

fn target(rt: &impl Abort, name: &str) -> Target {
    Target::named(name).expect(rt, "no such target")
}

fn plan(rt: &impl Abort, alloc: Global, target_name: &str, desc: &Desc) -> Plan {
    Plan::of(alloc, &target(rt, target_name), desc).expect(rt, "no plan")
}

/// The bytes that the value is packed into.
fn packed(rt: &impl Abort, alloc: Global, target_name: &str, desc: &Desc, value: &Value) -> Bytes {
    let image = run(alloc, &target(rt, target_name), desc, value, &[]);
    image.expect(rt, "not packed").bytes
}

/// Packs the value, and the value that its bytes show; both have these bytes.
fn packs(
    rt: &impl Abort,
    alloc: Global,
    target_name: &str,
    desc: &Desc,
    value: Value,
    bytes: &[u8],
) {
    assert!(rt; packed(rt, alloc, target_name, desc, &value).as_slice() == bytes);
    let again = plan(rt, alloc, target_name, desc).read(alloc, bytes);
    let again = again.expect(rt, "not read");
    assert!(rt; packed(rt, alloc, target_name, desc, &again).as_slice() == bytes);
}

/// `Result<u8, u16>`
fn tagged(rt: &impl Abort, alloc: Global) -> Desc {
    result(rt, alloc, Desc::Prim(Prim::U8), Desc::Prim(Prim::U16))
}

/// `Result<Result<u8, u8>, u8>`
fn nested(rt: &impl Abort, alloc: Global) -> Desc {
    let inner = result(rt, alloc, Desc::Prim(Prim::U8), Desc::Prim(Prim::U8));
    result(rt, alloc, inner, Desc::Prim(Prim::U8))
}

/// `Result<(u32, bool), u8>`
fn pattern_of_ok(rt: &impl Abort, alloc: Global) -> Desc {
    let ok = of_prims(rt, alloc, &[Prim::U32, Prim::Bool], None);
    result(rt, alloc, ok, Desc::Prim(Prim::U8))
}

/// `Result<(u32, u8), (u32, u8, u8, bool)>`
fn pattern_of_err(rt: &impl Abort, alloc: Global) -> Desc {
    let ok = of_prims(rt, alloc, &[Prim::U32, Prim::U8], None);
    let err = of_prims(
        rt,
        alloc,
        &[Prim::U32, Prim::U8, Prim::U8, Prim::Bool],
        None,
    );
    result(rt, alloc, ok, err)
}

/// `Result<(u32, u8), NonZeroU8>`
fn free_bit(rt: &impl Abort, alloc: Global) -> Desc {
    let ok = of_prims(rt, alloc, &[Prim::U32, Prim::U8], None);
    result(rt, alloc, ok, Desc::Prim(Prim::NonZeroU8))
}

#[test]
fn variants_behind_a_tag(rt: HostRuntime) {
    let alloc = rt.alloc();
    let desc = tagged(&rt, alloc);
    packs(
        &rt,
        alloc,
        "le64",
        &desc,
        ok(&rt, alloc, int(7)),
        &[1, 0, 7, 0],
    );
    packs(
        &rt,
        alloc,
        "le64",
        &desc,
        err(&rt, alloc, int(258)),
        &[0, 0, 2, 1],
    );
    packs(
        &rt,
        alloc,
        "be32",
        &desc,
        err(&rt, alloc, int(258)),
        &[0, 0, 1, 2],
    );
}

#[test]
fn err_in_a_forbidden_byte_of_ok(rt: HostRuntime) {
    let alloc = rt.alloc();
    let desc = pattern_of_ok(&rt, alloc);
    let value = ok(&rt, alloc, list(&rt, alloc, &[1], Some(true)));
    packs(&rt, alloc, "le64", &desc, value, &[1, 0, 0, 0, 1, 0, 0, 0]);
    packs(
        &rt,
        alloc,
        "le64",
        &desc,
        err(&rt, alloc, int(9)),
        &[9, 0, 0, 0, 2, 0, 0, 0],
    );
}

#[test]
fn ok_in_a_forbidden_byte_of_err(rt: HostRuntime) {
    let alloc = rt.alloc();
    let desc = pattern_of_err(&rt, alloc);
    let value = ok(&rt, alloc, list(&rt, alloc, &[1, 2], None));
    packs(&rt, alloc, "le64", &desc, value, &[1, 0, 0, 0, 2, 0, 2, 0]);
    let value = err(&rt, alloc, list(&rt, alloc, &[1, 2, 3], Some(true)));
    packs(&rt, alloc, "le64", &desc, value, &[1, 0, 0, 0, 2, 3, 1, 0]);
}

#[test]
fn err_in_a_free_bit_of_ok(rt: HostRuntime) {
    let alloc = rt.alloc();
    let desc = free_bit(&rt, alloc);
    let value = ok(&rt, alloc, list(&rt, alloc, &[1, 2], None));
    packs(&rt, alloc, "le64", &desc, value, &[1, 0, 0, 0, 2, 0, 0, 0]);
    packs(
        &rt,
        alloc,
        "le64",
        &desc,
        err(&rt, alloc, int(9)),
        &[9, 0, 0, 0, 0, 1, 0, 0],
    );
}

#[test]
fn a_result_in_a_result(rt: HostRuntime) {
    let alloc = rt.alloc();
    let desc = nested(&rt, alloc);
    packs(&rt, alloc, "le64", &desc, err(&rt, alloc, int(7)), &[2, 7]);
    packs(
        &rt,
        alloc,
        "le64",
        &desc,
        ok(&rt, alloc, err(&rt, alloc, int(5))),
        &[1, 5],
    );
    assert!(rt; has_free(&plan(&rt, alloc, "le64", &desc), 2, &[252]));
}

#[test]
fn an_option_in_an_option_in_an_option(rt: HostRuntime) {
    let alloc = rt.alloc();
    let desc = option(
        &rt,
        alloc,
        option(&rt, alloc, option(&rt, alloc, Desc::Prim(Prim::Bool))),
    );
    packs(&rt, alloc, "le64", &desc, Value::None, &[2, 0]);
    packs(
        &rt,
        alloc,
        "le64",
        &desc,
        some(&rt, alloc, Value::None),
        &[1, 0],
    );
    packs(
        &rt,
        alloc,
        "le64",
        &desc,
        some(&rt, alloc, some(&rt, alloc, Value::None)),
        &[0, 2],
    );
    assert!(rt; has_free(&plan(&rt, alloc, "le64", &desc), 2, &[252]));
}

/// Whether the description has that size in bytes, and these masks of free bits, and none behind them.
fn has_free(plan: &Plan, size: u64, free: &[u8]) -> bool {
    let layout = plan.layout();
    for (at, mask) in free.iter().enumerate() {
        if layout.unused().byte_at(at as u64) != *mask {
            return false;
        }
    }
    layout.size() == size && layout.unused().next_entry(free.len() as u64).is_none()
}

#[test]
fn structs_and_integers(rt: HostRuntime) {
    let alloc = rt.alloc();
    let empty = of_prims(&rt, alloc, &[], None);
    packs(&rt, alloc, "le64", &empty, list(&rt, alloc, &[], None), &[]);
    let aligned = of_prims(&rt, alloc, &[Prim::U32, Prim::U8], Some(16));
    let bytes = [1, 0, 0, 0, 2, 0, 0, 0, 0, 0, 0, 0, 0, 0, 0, 0];
    packs(
        &rt,
        alloc,
        "le64",
        &aligned,
        list(&rt, alloc, &[1, 2], None),
        &bytes,
    );
    assert!(rt;
        has_free(
            &plan(&rt, alloc, "le64", &aligned),
            16,
            &[0, 0, 0, 0, 0, 255, 255, 255]
        )
    );
    packs(
        &rt,
        alloc,
        "be64",
        &Desc::Prim(Prim::U32),
        int(1),
        &[0, 0, 0, 1],
    );
}

/// What tells the variant of a sum.
#[derive(Debug, Clone, Copy, PartialEq, Eq)]
enum Mark {
    Tag,
    /// A byte's offset, and a mask of its bits.
    Bits(u64, u8),
    /// The offset of a byte, and its value.
    Byte(u64, u8),
    Bytes,
}

/// What is expected of a placed sum. Offsets are in bytes.
#[derive(Debug, Clone, Copy, PartialEq, Eq)]
struct Row {
    part: u32,
    place: u64,
    front: u64,
    ok_shift: u64,
    err_shift: u64,
    kind: Kind,
    mark: Mark,
    means_ok: bool,
}

fn row_of(placed: &Placed) -> Row {
    let mark = match &placed.determinant.test {
        Test::BitDeterminant => Mark::Tag,
        Test::BitIsErr { offset, mask } => Mark::Bits(*offset, *mask),
        Test::ValueIsErr(pattern) => match pattern.pairs() {
            [(offset, byte)] => Mark::Byte(*offset, *byte),
            _ => Mark::Bytes,
        },
    };
    Row {
        part: placed.part,
        place: placed.place,
        front: placed.front,
        ok_shift: placed.ok_shift,
        err_shift: placed.err_shift,
        kind: placed.kind,
        mark,
        means_ok: placed.determinant.not,
    }
}

fn has_rows(rt: &impl Abort, alloc: Global, desc: &Desc, rows: &[Row]) {
    let plan = plan(rt, alloc, "le64", desc);
    let sums = plan.placed().as_slice();
    assert!(rt; sums.len() == rows.len());
    for i in 0..rows.len() {
        assert!(rt; row_of(&sums[i]) == rows[i]);
    }
}

const TAGGED: Row = Row {
    part: 2,
    place: 0,
    front: 2,
    ok_shift: 0,
    err_shift: 0,
    kind: Kind::Tag,
    mark: Mark::Tag,
    means_ok: true,
};

#[test]
fn a_tag_and_the_places_without_a_niche(rt: HostRuntime) {
    let alloc = rt.alloc();
    let desc = tagged(&rt, alloc);
    has_rows(&rt, alloc, &desc, &[TAGGED]);
    let plan = plan(&rt, alloc, "le64", &desc);
    for placed in plan.placed().as_slice() {
        let refusals = placed.refusals.as_slice();
        assert!(rt; refusals.len() == 2 && refusals[0].place == 0 && refusals[1].place == 1);
    }
}

#[test]
fn sums_stand_before_those_of_their_variants(rt: HostRuntime) {
    let alloc = rt.alloc();
    let outer = Row {
        part: 4,
        place: 1,
        front: 0,
        ok_shift: 0,
        err_shift: 1,
        kind: Kind::SharedBit,
        mark: Mark::Bits(0, 2),
        means_ok: false,
    };
    let inner = Row {
        front: 1,
        means_ok: false,
        ..TAGGED
    };
    has_rows(&rt, alloc, &nested(&rt, alloc), &[outer, inner]);
}

const LARGER_PATTERN: Row = Row {
    part: 4,
    place: 0,
    front: 0,
    ok_shift: 0,
    err_shift: 0,
    kind: Kind::LargerPattern,
    mark: Mark::Byte(4, 2),
    means_ok: false,
};

#[test]
fn niches_of_either_variant(rt: HostRuntime) {
    let alloc = rt.alloc();
    has_rows(&rt, alloc, &pattern_of_ok(&rt, alloc), &[LARGER_PATTERN]);
    let bit = Row {
        kind: Kind::SharedBit,
        mark: Mark::Bits(5, 1),
        ..LARGER_PATTERN
    };
    has_rows(&rt, alloc, &free_bit(&rt, alloc), &[bit]);
    let pattern = Row {
        part: 8,
        kind: Kind::SmallerPattern,
        mark: Mark::Byte(6, 2),
        means_ok: true,
        ..LARGER_PATTERN
    };
    has_rows(&rt, alloc, &pattern_of_err(&rt, alloc), &[pattern]);
}

fn fault(
    rt: &impl Abort,
    alloc: Global,
    target: &Target,
    desc: Desc,
    value: Value,
) -> Option<AbiError> {
    run(alloc, target, &desc, &value, &[]).err()
}

#[test]
fn faults_of_the_description_come_before_those_of_the_value(rt: HostRuntime) {
    let alloc = rt.alloc();
    let le64 = target(&rt, "le64");
    let odd = Target { pointer: 3, ..le64 };
    let byte = option(&rt, alloc, Desc::Prim(Prim::U8));
    assert!(rt; fault(&rt, alloc, &odd, byte, int(0)) == Some(AbiError::BadTarget));
    let ill = of_prims(&rt, alloc, &[Prim::U8], Some(3));
    let ill = result(&rt, alloc, ill, Desc::Prim(Prim::U8));
    assert!(rt; fault(&rt, alloc, &le64, ill, int(0)) == Some(AbiError::IllFormed { part: 1 }));
    let large = wide_fields(&rt, alloc, 17);
    assert!(rt; fault(&rt, alloc, &le64, large, int(0)) == Some(AbiError::TooLarge { part: 34 }));
    let byte = option(&rt, alloc, Desc::Prim(Prim::U8));
    let value = some(&rt, alloc, int(256));
    assert!(rt; fault(&rt, alloc, &le64, byte, value) == Some(AbiError::WrongValue));
}

#[test]
fn free_bits_do_not_change_what_bytes_show(rt: HostRuntime) {
    let alloc = rt.alloc();
    let desc = of_prims(&rt, alloc, &[Prim::U32, Prim::U8], None);
    let value = plan(&rt, alloc, "le64", &desc).read(alloc, &[1, 0, 0, 0, 2, 9, 0, 255]);
    let value = value.expect(&rt, "not read");
    packs(&rt, alloc, "le64", &desc, value, &[1, 0, 0, 0, 2, 0, 0, 0]);
}

#[test]
fn bytes_that_are_not_read(rt: HostRuntime) {
    let alloc = rt.alloc();
    let desc = of_prims(&rt, alloc, &[Prim::NonZeroU8, Prim::Bool], None);
    let plan = plan(&rt, alloc, "le64", &desc);
    assert!(rt; plan.shown(&[1, 1]));
    assert!(rt; plan.read(alloc, &[0, 1]).err() == Some(ReadError::IllegalBytes));
    assert!(rt; plan.read(alloc, &[1, 2]).err() == Some(ReadError::IllegalBytes));
    assert!(rt; plan.read(alloc, &[1]).err() == Some(ReadError::WrongLength));
}

/// Arrays of arrays, 128 items each, so many deep; the innermost items are `()`.
fn units(rt: &impl Abort, alloc: Global, depth: u32) -> Desc {
    let mut desc = Desc::Prim(Prim::Unit);
    for _ in 0..depth {
        desc = array(rt, alloc, desc, 128);
    }
    desc
}

#[test]
fn items_without_bytes_are_read_up_to_a_number(rt: HostRuntime) {
    let alloc = rt.alloc();
    // 128 * 128 units in 128 lists, in one
    let few = plan(&rt, alloc, "le64", &units(&rt, alloc, 2));
    match few.read(alloc, &[]) {
        Ok(Value::List(lists)) => assert!(rt; lists.as_slice().len() == 128),
        _ => panic!(rt; "not read"),
    }
    // 128 ^ 4 units are 2 ^ 28
    let many = plan(&rt, alloc, "le64", &units(&rt, alloc, 4));
    assert!(rt; many.shown(&[]));
    assert!(rt; matches!(many.read(alloc, &[]), Err(ReadError::OutOfMemory)));
    // four times 128 ^ 3 units are 2 ^ 23, and the lists come to them
    let mut fields = Items::new(alloc);
    for _ in 0..4 {
        let field = Field {
            name: text(&rt, alloc, "f"),
            ty: units(&rt, alloc, 3),
        };
        fields.push(field).expect(&rt, "memory");
    }
    let together = plan(&rt, alloc, "le64", &record(&rt, alloc, fields, None));
    assert!(rt; together.shown(&[]) && together.shows_many(&[]) && !few.shows_many(&[]));
    assert!(rt; matches!(together.read(alloc, &[]), Err(ReadError::OutOfMemory)));
}

#[test]
fn every_field_of_every_item_is_checked(rt: HostRuntime) {
    let alloc = rt.alloc();
    // bytes 0 and 4 are the truth value and the last field, bytes 2 and 3 the number, bytes 1 and 5 are free
    let prims = [
        Prim::Bool,
        Prim::Unit,
        Prim::NonZeroU16,
        Prim::Unit,
        Prim::U8,
    ];
    let item = of_prims(&rt, alloc, &prims, None);
    // two lists of two
    let desc = array(&rt, alloc, array(&rt, alloc, item, 2), 2);
    let plan = plan(&rt, alloc, "le64", &desc);
    let item = [1, 9, 0, 1, 7, 9];
    let mut bytes = [0u8; 24];
    for i in 0..24 {
        bytes[i] = item[i % 6];
    }
    assert!(rt; plan.shown(&bytes));
    for i in 0..4 {
        let mut odd = bytes;
        odd[6 * i] = 2;
        assert!(rt; !plan.shown(&odd));
        let mut none = bytes;
        none[6 * i + 3] = 0;
        assert!(rt; !plan.shown(&none));
        let mut free = bytes;
        free[6 * i + 1] = 2;
        free[6 * i + 5] = 2;
        assert!(rt; plan.shown(&free));
    }
}
