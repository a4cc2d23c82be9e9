use crate::made::{add_field, boxed, boxed_prim, reference, target, text};
use abi_bits::SaturatingAddValue;
use abi_layout::{
    Desc, DescError, IntKind, LeafDesc, PointerKind, Prim, WrapKind, id_of, report_of,
};
use abi_num::{Items, Target};
use std::alloc::Global;
use std::process::Abort;

const STABLE: &str = "stabby_abi::stable_impls";

/// The text of a description's report on that target.
fn report(rt: &impl Abort, alloc: Global, name: &str, desc: &Desc) -> String {
    let report = report_of(alloc, &target(rt, name), desc).expect(rt, "no report");
    format!(in alloc; "{report}").expect(rt, "memory")
}

/// The description's report on `le64` has that text.
fn reads(rt: &impl Abort, alloc: Global, desc: &Desc, wanted: &str) {
    assert_eq!(rt; report(rt, alloc, "le64", desc).as_str(), wanted);
}

/// A struct of a `u32` and a `bool`.
fn pair(rt: &impl Abort, alloc: Global, version: u32) -> Desc {
    let mut fields = Items::new(alloc);
    add_field(rt, alloc, &mut fields, "left", Desc::Prim(Prim::U32));
    add_field(rt, alloc, &mut fields, "right", Desc::Prim(Prim::Bool));
    Desc::Struct {
        name: text(rt, alloc, "Pair"),
        module: text(rt, alloc, "demo"),
        version,
        fields,
        align: None,
    }
}

fn core_result(rt: &impl Abort, alloc: Global, ok: Prim, err: Prim) -> Desc {
    Desc::CoreResult {
        ok: boxed_prim(rt, alloc, ok),
        err: boxed_prim(rt, alloc, err),
    }
}

fn has_id(rt: &impl Abort, alloc: Global, name: &str, desc: &Desc, wanted: u64) {
    assert_eq!(rt; id_of(alloc, &target(rt, name), desc), Ok(wanted));
}

// The expected numbers are from Python's hashlib, the hashed bytes and the target's written out.
// The last but one:
//     d = sha256(b"stabby_abi::stable_impls&\0" b"inner" b"demoPair\0"
//         b"leftstabby_abi::stable_implsu32\0" b"rightstabby_abi::stable_implsbool\0").digest()
//     arch = b"\x00\x08\x08\x08\x08\x10\x00\x00"
//     int.from_bytes(d[:8], "little") ^ int.from_bytes(arch, "little")
// The bytes of `be32` are b"\x00\x04\x04\x04\x04\x08\x01\x00".
#[test]
fn identifiers_are_those_that_hashlib_gives(rt: HostRuntime) {
    let alloc = rt.alloc();
    let byte = Desc::Prim(Prim::U8);
    // "stabby_abi::stable_implsu8\0"
    has_id(&rt, alloc, "le64", &byte, 0xfd1d_5dfc_bb7f_baab);
    let wide = Desc::Prim(Prim::U128);
    // "stabby_abi::stable_implsu128(16)\0"
    has_id(&rt, alloc, "le64", &wide, 0xcbd8_8b1c_5bf6_28a2);
    // "stabby_abi::stable_implsu128(8)\0"
    has_id(&rt, alloc, "be32", &wide, 0x127a_aaf0_3d66_40db);
    let some = boxed_prim(&rt, alloc, Prim::Bool);
    let option = Desc::Option { some };
    // "stabby_abi::optionOption\0inner" "stabby_abi::resultResultstabby"
    // "Okstabby_abi::stable_implsbool\0" "Errstabby_abi::stable_impls()\0"
    has_id(&rt, alloc, "le64", &option, 0x9a28_2566_c648_e49b);
    let fields = pair(&rt, alloc, 7);
    // "demoPair\0" "leftstabby_abi::stable_implsu32\0" "rightstabby_abi::stable_implsbool\0"
    has_id(&rt, alloc, "le64", &fields, 0x79a7_5c6d_43a1_3c30);
    let unversioned = pair(&rt, alloc, 0);
    let pointer = reference(&rt, alloc, unversioned);
    has_id(&rt, alloc, "le64", &pointer, 0xaee1_8a40_1e14_0001);
    let core = core_result(&rt, alloc, Prim::Unit, Prim::NonZeroU8);
    // "core::resultResultrust" "Errstabby_abi::stable_implscore::num::NonZeroU8\0"
    has_id(&rt, alloc, "le64", &core, 0xc25f_6c99_ecdb_4af5);
}

/// The primitive's report on that target is of this module and name.
fn is_named(rt: &impl Abort, alloc: Global, name: &str, prim: Prim, wanted: (&str, &str)) {
    let (module, own) = wanted;
    let wanted = format!(in alloc; "Struct {module} :: {own} (version0) {{}}").expect(rt, "memory");
    assert_eq!(rt;
        report(rt, alloc, name, &Desc::Prim(prim)).as_str(),
        wanted.as_str()
    );
}

fn is_stable(rt: &impl Abort, alloc: Global, prim: Prim, own: &str) {
    is_named(rt, alloc, "le16", prim, (STABLE, own));
}

#[test]
fn primitives_are_reported_by_path_and_name(rt: HostRuntime) {
    let alloc = rt.alloc();
    is_stable(&rt, alloc, Prim::Unit, "()");
    is_stable(&rt, alloc, Prim::PhantomData, "core::marker::PhantomData");
    is_stable(
        &rt,
        alloc,
        Prim::PhantomPinned,
        "core::marker::PhantomPinned",
    );
    is_stable(&rt, alloc, Prim::CVoid, "core::ffi::c_void");
    is_stable(&rt, alloc, Prim::Bool, "bool");
    is_stable(&rt, alloc, Prim::Ordering, "core::cmp::Ordering");
    is_stable(&rt, alloc, Prim::Usize, "usize");
    is_stable(&rt, alloc, Prim::I128, "i128");
    is_stable(&rt, alloc, Prim::NonZeroI64, "core::num::NonZeroI64");
    is_stable(&rt, alloc, Prim::NonZeroUsize, "core::num::NonZeroUsize");
    is_stable(
        &rt,
        alloc,
        Prim::AtomicBool,
        "core::sync::atomic::AtomicBool",
    );
    is_stable(&rt, alloc, Prim::AtomicU16, "core::sync::atomic::AtomicU16");
    is_stable(
        &rt,
        alloc,
        Prim::AtomicIsize,
        "core::sync::atomic::AtomicIsize",
    );
    is_stable(&rt, alloc, Prim::OwnedFd, "std::os::fd::OwnedFd");
    is_stable(&rt, alloc, Prim::BorrowedFd, "std::os::fd::BorrowedFd");
    is_stable(&rt, alloc, Prim::FnPtr, "extern \"C\" fn");
}

fn never(rt: &impl Abort, alloc: Global, magnitude: u128, negative: bool) {
    let never = Prim::NonX {
        kind: IntKind::I8,
        magnitude,
        negative,
    };
    is_named(rt, alloc, "le64", never, ("stabby_abi::num", "NonXI8"));
}

#[test]
fn names_tell_wide_alignments_and_not_forbidden_numbers(rt: HostRuntime) {
    let alloc = rt.alloc();
    is_named(&rt, alloc, "le32", Prim::U128, (STABLE, "u128(16)"));
    is_named(&rt, alloc, "le16", Prim::U128, (STABLE, "u128(8)"));
    let greatest = ("stabby_abi::num", "NonMaxU32");
    is_named(&rt, alloc, "le64", Prim::NonMaxU32, greatest);
    never(&rt, alloc, 0, false);
    never(&rt, alloc, 128, true);
}

fn is_wrapped(rt: &impl Abort, alloc: Global, kind: WrapKind, wanted: &str) {
    let inner = boxed_prim(rt, alloc, Prim::I8);
    reads(rt, alloc, &Desc::Wrap { kind, inner }, wanted);
}

#[test]
fn wrappers_are_reported_by_what_they_hold(rt: HostRuntime) {
    let alloc = rt.alloc();
    let bare = "Struct stabby_abi::stable_impls :: i8 (version0) {}";
    let pinned = "Struct stabby_abi::stable_impls :: core::pin::Pin (version0) \
        {inner: Struct stabby_abi::stable_impls :: i8 (version0) {}, }";
    let not_pod = "Struct stabby_abi::istable :: NotPod (version0) \
        {inner: Struct stabby_abi::stable_impls :: i8 (version0) {}, }";
    is_wrapped(&rt, alloc, WrapKind::ManuallyDrop, bare);
    is_wrapped(&rt, alloc, WrapKind::MaybeUninit, bare);
    is_wrapped(&rt, alloc, WrapKind::UnsafeCell, bare);
    is_wrapped(&rt, alloc, WrapKind::Pin, pinned);
    is_wrapped(&rt, alloc, WrapKind::NotPod, not_pod);
    is_wrapped(&rt, alloc, WrapKind::OrInfallible, bare);
}

#[test]
fn a_wrapper_loses_all_but_the_name(rt: HostRuntime) {
    let alloc = rt.alloc();
    let pair = pair(&rt, alloc, 7);
    let whole = "Struct demo :: Pair (version7) \
        {left: Struct stabby_abi::stable_impls :: u32 (version0) {}, \
        right: Struct stabby_abi::stable_impls :: bool (version0) {}, }";
    reads(&rt, alloc, &pair, whole);
    let wrapped = Desc::Wrap {
        kind: WrapKind::MaybeUninit,
        inner: boxed(&rt, alloc, pair),
    };
    let wanted = "Struct stabby_abi::stable_impls :: Pair (version0) {}";
    reads(&rt, alloc, &wrapped, wanted);
}

fn is_pointer(rt: &impl Abort, alloc: Global, kind: PointerKind, own: &str) {
    let pointee = boxed_prim(rt, alloc, Prim::U8);
    let wanted = format!(in alloc;
        "Struct {STABLE} :: {own} (version0) {{inner: Struct {STABLE} :: u8 (version0) {{}}, }}"
    );
    let wanted = wanted.expect(rt, "memory");
    reads(rt, alloc, &Desc::Pointer { kind, pointee }, wanted.as_str());
}

#[test]
fn pointers_are_reported_by_their_kind(rt: HostRuntime) {
    let alloc = rt.alloc();
    is_pointer(&rt, alloc, PointerKind::ConstPtr, "*const");
    is_pointer(&rt, alloc, PointerKind::MutPtr, "*mut");
    is_pointer(
        &rt,
        alloc,
        PointerKind::AtomicPtr,
        "core::sync::atomic::AtomicPtr",
    );
    is_pointer(&rt, alloc, PointerKind::NonNull, "core::ptr::NonNull");
    is_pointer(&rt, alloc, PointerKind::Ref, "&");
    is_pointer(&rt, alloc, PointerKind::RefMut, "&mut");
}

const PACKED: &str = "Enum(stabby) stabby_abi::result :: Result (version1) \
    {Ok: Struct stabby_abi::stable_impls :: u8 (version0) {}, \
    Err: Struct stabby_abi::stable_impls :: () (version0) {}, }";

#[test]
fn sums_are_reported_by_who_lays_them_out(rt: HostRuntime) {
    let alloc = rt.alloc();
    let ok = boxed_prim(&rt, alloc, Prim::U8);
    let err = boxed_prim(&rt, alloc, Prim::Unit);
    reads(&rt, alloc, &Desc::Result { ok, err }, PACKED);
    let some = boxed_prim(&rt, alloc, Prim::U8);
    let option = format!(in alloc;
        "Struct stabby_abi::option :: Option (version0) {{inner: {PACKED}, }}"
    );
    let option = option.expect(&rt, "memory");
    reads(&rt, alloc, &Desc::Option { some }, option.as_str());
    let some = boxed_prim(&rt, alloc, Prim::NonZeroU8);
    let core = "Enum(rust) core::option :: Option (version0) \
        {Some: Struct stabby_abi::stable_impls :: core::num::NonZeroU8 (version0) {}, }";
    reads(&rt, alloc, &Desc::CoreOption { some }, core);
    let first = "Enum(rust) core::result :: Result (version0) \
        {Ok: Struct stabby_abi::stable_impls :: core::num::NonZeroU8 (version0) {}, }";
    let ok = core_result(&rt, alloc, Prim::NonZeroU8, Prim::Unit);
    reads(&rt, alloc, &ok, first);
    let second = "Enum(rust) core::result :: Result (version0) \
        {Err: Struct stabby_abi::stable_impls :: core::num::NonZeroU8 (version0) {}, }";
    let err = core_result(&rt, alloc, Prim::Unit, Prim::NonZeroU8);
    reads(&rt, alloc, &err, second);
}

/// A leaf without fields.
fn leaf(rt: &impl Abort, alloc: Global) -> Desc {
    Desc::Leaf(LeafDesc {
        name: text(rt, alloc, "u5"),
        module: text(rt, alloc, "demo::narrow"),
        size: 1,
        align: 1,
        free: Items::new(alloc),
        forbidden: Items::new(alloc),
        niches: SaturatingAddValue::B0,
        indirections: false,
    })
}

#[test]
fn bytes_are_reported_without_fields(rt: HostRuntime) {
    let alloc = rt.alloc();
    let ok = boxed_prim(&rt, alloc, Prim::U8);
    let err = boxed_prim(&rt, alloc, Prim::U16);
    let union = "Struct stabby_abi::istable :: Union (version0) {}";
    reads(&rt, alloc, &Desc::Union { ok, err }, union);
    let opaque = Desc::NoNiches {
        size: 4,
        align: 2,
        niches: SaturatingAddValue::B0,
        indirections: true,
    };
    let wanted = "Struct stabby_abi :: NoNiches (version0) {}";
    reads(&rt, alloc, &opaque, wanted);
    let wanted = "Struct demo::narrow :: u5 (version0) {}";
    reads(&rt, alloc, &leaf(&rt, alloc), wanted);
}

#[test]
fn arrays_tell_their_length_and_conditions_nothing(rt: HostRuntime) {
    let alloc = rt.alloc();
    let item = boxed_prim(&rt, alloc, Prim::U8);
    let wanted = "Struct stabby_abi::stable_impls :: [T;128] (version0) \
        {inner: Struct stabby_abi::stable_impls :: u8 (version0) {}, }";
    reads(&rt, alloc, &Desc::Array { item, len: 128 }, wanted);
    let value = boxed_prim(&rt, alloc, Prim::U8);
    let cond = boxed_prim(&rt, alloc, Prim::U16);
    let wanted = "Struct stabby_abi::stable_impls :: u8 (version0) {}";
    reads(&rt, alloc, &Desc::StableIf { value, cond }, wanted);
}

#[test]
fn what_has_no_layout_has_no_report(rt: HostRuntime) {
    let alloc = rt.alloc();
    let le64 = target(&rt, "le64");
    let two = core_result(&rt, alloc, Prim::NonZeroU8, Prim::NonZeroU8);
    let unstable = DescError::NotStable { part: 2 };
    assert!(rt; report_of(alloc, &le64, &two).err() == Some(unstable));
    assert_eq!(rt; id_of(alloc, &le64, &two), Err(unstable));
    let odd = Target { pointer: 3, ..le64 };
    let unknown = DescError::BadTarget;
    assert_eq!(rt; id_of(alloc, &odd, &Desc::Prim(Prim::U8)), Err(unknown));
}
