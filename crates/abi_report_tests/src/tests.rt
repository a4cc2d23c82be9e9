use abi_num::{Items, Target, Text};
use abi_report::{FieldReport, TyTy, TypeReport, gen_id};
use std::alloc::Global;
use std::hash::{DefaultHasher, Hash, Hasher};
use std::process::Abort;

const PRIMITIVES: &str = "stabby_abi::stable_impls";

fn text(rt: &impl Abort, alloc: Global, text: &str) -> Text {
    Text::new(alloc, text).expect(rt, "memory")
}

/// A type without fields, of version 0.
fn bare(rt: &impl Abort, alloc: Global, module: &str, name: &str, tyty: TyTy) -> TypeReport {
    TypeReport {
        name: text(rt, alloc, name),
        module: text(rt, alloc, module),
        fields: Items::new(alloc),
        tyty,
        version: 0,
    }
}

fn primitive(rt: &impl Abort, alloc: Global, name: &str) -> TypeReport {
    bare(rt, alloc, PRIMITIVES, name, TyTy::Struct)
}

fn push(rt: &impl Abort, alloc: Global, report: &mut TypeReport, name: &str, ty: TypeReport) {
    let name = text(rt, alloc, name);
    let pushed = report.fields.push(FieldReport { name, ty });
    pushed.expect(rt, "memory");
}

fn push_primitive(rt: &impl Abort, alloc: Global, report: &mut TypeReport, name: &str, ty: &str) {
    push(rt, alloc, report, name, primitive(rt, alloc, ty));
}

/// The report of the packed result of `bool` and `()`.
fn result_of_bool(rt: &impl Abort, alloc: Global) -> TypeReport {
    let rules = TyTy::Enum(text(rt, alloc, "stabby"));
    let mut report = bare(rt, alloc, "stabby_abi::result", "Result", rules);
    push_primitive(rt, alloc, &mut report, "Ok", "bool");
    push_primitive(rt, alloc, &mut report, "Err", "()");
    report.version = 1;
    report
}

/// The report of the packed option of `bool`.
fn option_of_bool(rt: &impl Abort, alloc: Global) -> TypeReport {
    let mut report = bare(rt, alloc, "stabby_abi::option", "Option", TyTy::Struct);
    push(rt, alloc, &mut report, "inner", result_of_bool(rt, alloc));
    report
}

/// The report of a struct of a `u32` and a `bool`.
fn pair(rt: &impl Abort, alloc: Global) -> TypeReport {
    let mut report = bare(rt, alloc, "demo", "Pair", TyTy::Struct);
    push_primitive(rt, alloc, &mut report, "left", "u32");
    push_primitive(rt, alloc, &mut report, "right", "bool");
    report
}

/// The report of a reference to that struct.
fn pair_ref(rt: &impl Abort, alloc: Global) -> TypeReport {
    let mut report = primitive(rt, alloc, "&");
    push(rt, alloc, &mut report, "inner", pair(rt, alloc));
    report
}

fn id_on(rt: &impl Abort, name: &str, report: &TypeReport) -> u64 {
    let target = Target::named(name).expect(rt, "no such target");
    assert!(rt; target.is_row());
    gen_id(report, &target)
}

fn has_id(rt: &impl Abort, report: TypeReport, target: &str, wanted: u64) {
    let id = id_on(rt, target, &report);
    assert_eq!(rt; id, wanted, "{report} on {target}");
}

// The expected numbers are from Python's hashlib, the hashed bytes and the target's written out.
// The last row:
//     d = sha256(b"stabby_abi::stable_impls&\0" b"inner" b"demoPair\0"
//         b"leftstabby_abi::stable_implsu32\0" b"rightstabby_abi::stable_implsbool\0").digest()
//     arch = b"\x00\x08\x08\x08\x08\x10\x00\x00"
//     int.from_bytes(d[:8], "little") ^ int.from_bytes(arch, "little")
#[test]
fn identifiers_are_those_that_hashlib_gives(rt: HostRuntime) {
    let alloc = rt.alloc();
    let byte = primitive(&rt, alloc, "u8");
    // "stabby_abi::stable_implsu8\0"
    has_id(&rt, byte, "le64", 0xfd1d_5dfc_bb7f_baab);
    let wide = primitive(&rt, alloc, "u128(16)");
    // "stabby_abi::stable_implsu128(16)\0"
    has_id(&rt, wide, "le64", 0xcbd8_8b1c_5bf6_28a2);
    let wide = primitive(&rt, alloc, "u128(8)");
    // "stabby_abi::stable_implsu128(8)\0"
    has_id(&rt, wide, "le64o", 0x127b_aafc_316a_4cdb);
    let option = option_of_bool(&rt, alloc);
    // "stabby_abi::optionOption\0inner" "stabby_abi::resultResultstabby"
    // "Okstabby_abi::stable_implsbool\0" "Errstabby_abi::stable_impls()\0"
    has_id(&rt, option, "le64", 0x9a28_2566_c648_e49b);
    // "demoPair\0" "leftstabby_abi::stable_implsu32\0" "rightstabby_abi::stable_implsbool\0"
    has_id(&rt, pair(&rt, alloc), "le64", 0x79a7_5c6d_43a1_3c30);
    has_id(&rt, pair(&rt, alloc), "be32", 0x79a6_4461_4fad_3030);
    let union = bare(&rt, alloc, "demo", "Either", TyTy::Union);
    // "demoEither\1"
    has_id(&rt, union, "le16", 0xe55d_edf9_c49d_3b33);
    has_id(&rt, pair_ref(&rt, alloc), "le64", 0xaee1_8a40_1e14_0001);
}

fn reads(rt: &impl Abort, alloc: Global, report: &TypeReport, wanted: &str) {
    let text = format!(in alloc; "{report}").expect(rt, "memory");
    assert_eq!(rt; text.as_str(), wanted);
}

#[test]
fn a_report_is_written_with_all_it_says(rt: HostRuntime) {
    let alloc = rt.alloc();
    let byte = primitive(&rt, alloc, "u8");
    let wanted = "Struct stabby_abi::stable_impls :: u8 (version0) {}";
    reads(&rt, alloc, &byte, wanted);
    let mut union = bare(&rt, alloc, "demo", "Either", TyTy::Union);
    union.version = 4_294_967_295;
    let wanted = "Union demo :: Either (version4294967295) {}";
    reads(&rt, alloc, &union, wanted);
    let result = result_of_bool(&rt, alloc);
    let wanted = "Enum(stabby) stabby_abi::result :: Result (version1) {\
        Ok: Struct stabby_abi::stable_impls :: bool (version0) {}, \
        Err: Struct stabby_abi::stable_impls :: () (version0) {}, }";
    reads(&rt, alloc, &result, wanted);
}

#[test]
fn a_report_with_more_fields_is_another(rt: HostRuntime) {
    let alloc = rt.alloc();
    let report = pair(&rt, alloc);
    let mut longer = pair(&rt, alloc);
    assert!(rt; report.is_compatible(&longer) && report == longer);
    push_primitive(&rt, alloc, &mut longer, "more", "u8");
    assert!(rt; !report.is_compatible(&longer) && !longer.is_compatible(&report));
    assert!(rt; report != longer);
    let mut later = pair(&rt, alloc);
    later.version = 1;
    assert!(rt; !report.is_compatible(&later));
    assert_eq!(rt; id_on(&rt, "le64", &report), id_on(&rt, "le64", &later));
}

#[test]
fn fields_come_once_and_in_order(rt: HostRuntime) {
    let report = pair(&rt, rt.alloc());
    let (rest, first) = report.fields().next_const();
    let first = first.expect(&rt, "no first field");
    assert_eq!(rt; first.name.as_str(), "left");
    let (rest, second) = rest.next_const();
    let second = second.expect(&rt, "no second field");
    assert_eq!(rt; second.name.as_str(), "right");
    let (mut rest, none) = rest.next_const();
    assert!(rt; none.is_none() && rest.next().is_none());
    let mut seen = 0;
    for field in report.fields() {
        assert!(rt; *field == *(if seen == 0 { first } else { second }));
        seen = 1;
    }
}

fn hash_of<T: Hash>(value: &T) -> u64 {
    let mut state = DefaultHasher::new();
    value.hash(&mut state);
    state.finish()
}

#[test]
fn hashes_feed_name_module_fields_version_and_kind(rt: HostRuntime) {
    let report = option_of_bool(&rt, rt.alloc());
    let mut state = DefaultHasher::new();
    report.name.hash(&mut state);
    report.module.hash(&mut state);
    for field in report.fields() {
        field.name.hash(&mut state);
        field.ty.hash(&mut state);
    }
    0u32.hash(&mut state);
    TyTy::Struct.hash(&mut state);
    assert_eq!(rt; hash_of(&report), state.finish());
    let again = option_of_bool(&rt, rt.alloc());
    assert_eq!(rt; hash_of(&report), hash_of(&again));
}
