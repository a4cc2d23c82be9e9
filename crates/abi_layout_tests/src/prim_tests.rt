use crate::made::{MANY, NONE, ONE, boxed, boxed_prim, target, text};
use abi_bits::{ForbiddenValues, Pairs, SaturatingAddValue};
use abi_det::Layout;
use abi_layout::{
    Desc, DescError, Forbid, Forbids, IntKind, LeafDesc, PointerKind, Prim, Row, WrapKind, as_uint,
    layout_of, pointer_row, row_of,
};
use abi_num::{Alignment, Items};
use std::alloc::Global;
use std::process::Abort;

/// What is expected of a row: size and alignment in bytes, the count of niches, and pointers.
#[derive(Clone, Copy)]
struct Wanted(u64, u64, SaturatingAddValue, bool);

fn is_row(row: &Row, wanted: Wanted) -> bool {
    row.scalar.size() == wanted.0
        && row.align == wanted.1
        && row.niches == wanted.2
        && row.indirections == wanted.3
}

fn is_layout(layout: &Layout, wanted: Wanted) -> bool {
    layout.size() == wanted.0
        && layout.align() == wanted.1
        && layout.niches() == wanted.2
        && layout.indirections() == wanted.3
}

fn has_row(rt: &impl Abort, name: &str, prim: Prim, wanted: Wanted) {
    assert!(rt; is_row(&row_of(&target(rt, name), prim.form()), wanted));
}

#[test]
fn rows_of_primitives_are_those_of_their_target(rt: HostRuntime) {
    let below = Prim::NonX {
        kind: IntKind::I64,
        magnitude: 7,
        negative: true,
    };
    has_row(&rt, "le64", Prim::CVoid, Wanted(0, 1, NONE, false));
    has_row(&rt, "le64", Prim::AtomicBool, Wanted(1, 1, MANY, false));
    has_row(&rt, "le64", Prim::Ordering, Wanted(1, 1, MANY, false));
    has_row(&rt, "le32o", Prim::I64, Wanted(8, 4, NONE, false));
    has_row(&rt, "le32o", Prim::AtomicI64, Wanted(8, 8, NONE, false));
    has_row(&rt, "le16", Prim::AtomicUsize, Wanted(2, 2, NONE, false));
    has_row(&rt, "be32", Prim::NonZeroI128, Wanted(16, 8, ONE, false));
    has_row(&rt, "le16", Prim::NonMaxU64, Wanted(8, 4, ONE, false));
    has_row(&rt, "be32", Prim::NonMaxUsize, Wanted(4, 4, ONE, false));
    has_row(&rt, "le32o", below, Wanted(8, 4, ONE, false));
    has_row(&rt, "be64", Prim::OwnedFd, Wanted(4, 4, MANY, true));
    has_row(&rt, "le16", Prim::FnPtr, Wanted(2, 2, ONE, true));
}

fn is_address(rt: &impl Abort, kind: PointerKind, niches: SaturatingAddValue) {
    let row = pointer_row(&target(rt, "be32"), kind);
    assert!(rt; is_row(&row, Wanted(4, 4, niches, true)));
}

#[test]
fn pointers_are_addresses(rt: HostRuntime) {
    is_address(&rt, PointerKind::AtomicPtr, NONE);
    is_address(&rt, PointerKind::NonNull, ONE);
}

fn has_integer(rt: &impl Abort, alloc: Global, align: u64, wanted: Wanted) {
    let target = target(rt, "le32o");
    assert!(rt; target.is_row());
    let align = Alignment::new(align).expect(rt, "no alignment");
    let layout = as_uint(alloc, &target, align).expect(rt, "memory");
    assert!(rt; is_layout(&layout, wanted));
}

#[test]
fn integers_by_their_alignment(rt: HostRuntime) {
    let alloc = rt.alloc();
    has_integer(&rt, alloc, 2, Wanted(2, 2, NONE, false));
    has_integer(&rt, alloc, 8, Wanted(8, 4, NONE, false));
    has_integer(&rt, alloc, 16, Wanted(16, 16, NONE, false));
    has_integer(&rt, alloc, 32, Wanted(32, 32, MANY, false));
    has_integer(&rt, alloc, 65536, Wanted(65536, 65536, MANY, false));
}

fn layout(rt: &impl Abort, alloc: Global, desc: Desc) -> Layout {
    layout_of(alloc, &target(rt, "le64"), &desc).expect(rt, "no layout")
}

fn fault(rt: &impl Abort, alloc: Global, desc: Desc) -> Option<DescError> {
    layout_of(alloc, &target(rt, "le64"), &desc).err()
}

/// What is told of an integer that is never the number.
fn never(
    rt: &impl Abort,
    alloc: Global,
    kind: IntKind,
    number: (u128, bool),
    wanted: Option<DescError>,
) {
    let prim = Prim::NonX {
        kind,
        magnitude: number.0,
        negative: number.1,
    };
    assert!(rt; fault(rt, alloc, Desc::Prim(prim)) == wanted);
}

#[test]
fn what_an_integer_never_is_is_one_of_its_kind(rt: HostRuntime) {
    let alloc = rt.alloc();
    let ill = Some(DescError::IllFormed { part: 0 });
    never(&rt, alloc, IntKind::U8, (255, false), None);
    never(&rt, alloc, IntKind::U8, (256, false), ill);
    never(&rt, alloc, IntKind::U8, (1, true), ill);
    never(&rt, alloc, IntKind::I8, (127, false), None);
    never(&rt, alloc, IntKind::I8, (128, false), ill);
    never(&rt, alloc, IntKind::I8, (128, true), None);
    never(&rt, alloc, IntKind::I8, (129, true), ill);
    never(&rt, alloc, IntKind::I8, (0, true), ill);
    never(&rt, alloc, IntKind::U128, (u128::MAX, false), None);
}

fn is_wrapped(rt: &impl Abort, alloc: Global, kind: WrapKind, wanted: Wanted) {
    let inner = boxed_prim(rt, alloc, Prim::NonZeroU16);
    let layout = layout(rt, alloc, Desc::Wrap { kind, inner });
    assert!(rt; is_layout(&layout, wanted));
    assert!(rt; matches!(layout.forbidden(), ForbiddenValues::Array(_)));
}

#[test]
fn wrappers_keep_what_is_forbidden(rt: HostRuntime) {
    let alloc = rt.alloc();
    is_wrapped(&rt, alloc, WrapKind::Pin, Wanted(2, 2, ONE, false));
    is_wrapped(&rt, alloc, WrapKind::UnsafeCell, Wanted(2, 2, NONE, false));
    is_wrapped(&rt, alloc, WrapKind::MaybeUninit, Wanted(2, 2, NONE, false));
    is_wrapped(&rt, alloc, WrapKind::NotPod, Wanted(2, 2, ONE, true));
}

fn core_option(rt: &impl Abort, alloc: Global, some: Desc) -> Desc {
    Desc::CoreOption {
        some: boxed(rt, alloc, some),
    }
}

fn is_unstable(rt: &impl Abort, alloc: Global, some: Desc) {
    let desc = core_option(rt, alloc, some);
    assert!(rt; fault(rt, alloc, desc) == Some(DescError::NotStable { part: 1 }));
}

#[test]
fn core_sums_take_the_one_pattern(rt: HostRuntime) {
    let alloc = rt.alloc();
    let word = core_option(&rt, alloc, Desc::Prim(Prim::NonZeroU32));
    let word = layout(&rt, alloc, word);
    assert!(rt; is_layout(&word, Wanted(4, 4, NONE, false)));
    assert!(rt; matches!(word.forbidden(), ForbiddenValues::End));
    let opaque = Desc::NoNiches {
        size: 1,
        align: 1,
        niches: ONE,
        indirections: false,
    };
    is_unstable(&rt, alloc, opaque);
    is_unstable(&rt, alloc, Desc::Prim(Prim::Bool));
}

fn pairs(rt: &impl Abort, alloc: Global, some: &[(u64, u8)]) -> Pairs {
    Items::from_slice(alloc, some).expect(rt, "memory")
}

/// A leaf of 4 bytes, whose bit 0 of byte 1 is free.
fn leaf(rt: &impl Abort, alloc: Global, forbidden: Forbids) -> Desc {
    Desc::Leaf(LeafDesc {
        name: text(rt, alloc, "L"),
        module: text(rt, alloc, "demo"),
        size: 4,
        align: 2,
        free: pairs(rt, alloc, &[(1, 1)]),
        forbidden,
        niches: MANY,
        indirections: false,
    })
}

fn leaf_of_one(rt: &impl Abort, alloc: Global, forbid: Forbid) -> Desc {
    let mut forbidden = Items::new(alloc);
    forbidden.push(forbid).expect(rt, "memory");
    leaf(rt, alloc, forbidden)
}

fn forbidding(rt: &impl Abort, alloc: Global, some: &[(u64, u8)]) -> Option<DescError> {
    let pattern = Forbid::Pattern(pairs(rt, alloc, some));
    let leaf = leaf_of_one(rt, alloc, pattern);
    fault(rt, alloc, leaf)
}

#[test]
fn patterns_of_leaves_rise_in_bytes_without_free_bits(rt: HostRuntime) {
    let alloc = rt.alloc();
    assert!(rt; forbidding(&rt, alloc, &[(0, 5), (3, 0)]).is_none());
    let ill = Some(DescError::IllFormed { part: 0 });
    assert!(rt; forbidding(&rt, alloc, &[(0, 5), (1, 0)]) == ill);
    assert!(rt; forbidding(&rt, alloc, &[(3, 0), (0, 5)]) == ill);
    assert!(rt; forbidding(&rt, alloc, &[(2, 0), (4, 0)]) == ill);
    assert!(rt; forbidding(&rt, alloc, &[]) == ill);
}

/// The values of the byte at `offset` from 1 to `max`.
fn range(offset: u64, max: u8) -> Forbid {
    Forbid::Range {
        offset,
        min: 1,
        max,
    }
}

fn leaf_of_three(rt: &impl Abort, alloc: Global) -> Desc {
    let mut forbidden = Items::new(alloc);
    forbidden.push(range(0, 2)).expect(rt, "memory");
    forbidden.push(range(2, 9)).expect(rt, "memory");
    forbidden.push(range(3, 255)).expect(rt, "memory");
    leaf(rt, alloc, forbidden)
}

#[test]
fn items_of_leaves_are_joined_from_the_left(rt: HostRuntime) {
    let alloc = rt.alloc();
    let desc = leaf_of_three(&rt, alloc);
    let layout = layout(&rt, alloc, desc);
    assert!(rt; is_layout(&layout, Wanted(4, 2, MANY, false)));
    let ForbiddenValues::Or(both, last) = layout.forbidden() else {
        panic!(rt; "not joined");
    };
    assert!(rt; matches!(&**both, ForbiddenValues::Or(_, _)));
    assert!(rt; matches!(&**last, ForbiddenValues::ForbiddenRange { offset: 3, .. }));
    let one = leaf_of_one(&rt, alloc, range(1, 2));
    assert!(rt; fault(&rt, alloc, one) == Some(DescError::IllFormed { part: 0 }));
}
