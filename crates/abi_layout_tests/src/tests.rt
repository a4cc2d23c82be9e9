ghost use Rattle.abi_det.specs.FrameOf.{frame};
ghost use Rattle.abi_layout.specs.Builders.{IsOpen};

use crate::made::{
    MANY, NONE, ONE, add_field, boxed, boxed_prim, of_prims, record, reference, target,
};
use abi_bits::SaturatingAddValue;
use abi_det::{Kind, Layout, RawLayout, Rules};
use abi_layout::{
    Desc, DescError, Integer, Part, Prim, Scalar, Sort, Stored, Width, aligned_after,
    aligned_struct, array_of, end_after, field_pair, lay_out, layout_of, parts, prim_layout,
    row_of, struct_of, union_of,
};
use abi_num::{Alignment, Items, Target};
use std::alloc::Global;
use std::process::Abort;

/// What is expected of a layout: size and alignment in bytes, the count of niches, and the mask of
/// free bits of each byte.
#[derive(Clone, Copy)]
struct Wanted(u64, u64, SaturatingAddValue, &'static [u8]);

fn is_wanted(raw: &RawLayout, wanted: &Wanted) -> bool {
    for (at, byte) in wanted.3.iter().enumerate() {
        if raw.unused.byte_at(at as u64) != *byte {
            return false;
        }
    }
    let past = wanted.3.len() as u64;
    raw.size == wanted.0
        && raw.align == wanted.1
        && raw.niches == wanted.2
        && raw.unused.next_entry(past).is_none()
}

fn primitive(rt: &impl Abort, alloc: Global, name: &str, prim: Prim) -> Layout {
    let target = target(rt, name);
    assert!(rt; target.is_row());
    prim_layout(alloc, &target, &prim).expect(rt, "memory")
}

#[tactic(auto, using(abi_layout::proofs::Opening::lawful_is_open))]
fn two_fields(rt: &impl Abort, alloc: Global, first: Prim, second: Prim) -> RawLayout
    ensures { IsOpen (frame result) }
{
    let second = primitive(rt, alloc, "le64", second);
    let first = primitive(rt, alloc, "le64", first).into_raw();
    assert!(rt; first.size <= 16);
    assert!(rt; end_after(first.size, &second) <= 64);
    field_pair(alloc, &first, &second).expect(rt, "memory")
}

fn has_pair(rt: &impl Abort, alloc: Global, first: Prim, second: Prim, wanted: &Wanted) {
    assert!(rt; is_wanted(&two_fields(rt, alloc, first, second), wanted));
}

#[test]
fn bytes_before_a_start_are_free(rt: HostRuntime) {
    let word = primitive(&rt, rt.alloc(), "le64", Prim::U16);
    assert!(rt; end_after(3, &word) <= 64);
    let raw = aligned_after(rt.alloc(), &word, 3).expect(&rt, "memory");
    assert!(rt; is_wanted(&raw, &Wanted(6, 2, NONE, &[0, 0, 0, 255])));
}

#[test]
fn pairs_add_counts_where_no_byte_is_added(rt: HostRuntime) {
    let alloc = rt.alloc();
    let byte = Prim::NonZeroU8;
    has_pair(&rt, alloc, Prim::U8, byte, &Wanted(2, 1, ONE, &[]));
    has_pair(&rt, alloc, byte, byte, &Wanted(2, 1, MANY, &[]));
    let padded = Wanted(4, 2, MANY, &[0, 255]);
    has_pair(&rt, alloc, Prim::U8, Prim::U16, &padded);
}

#[test]
fn structs_are_rounded_up(rt: HostRuntime) {
    let alloc = rt.alloc();
    let pair = two_fields(&rt, alloc, Prim::U32, Prim::Bool);
    assert!(rt; is_wanted(&pair, &Wanted(5, 4, MANY, &[])));
    let whole = struct_of(alloc, pair).expect(&rt, "memory");
    assert!(rt; !whole.forbidden().is_below(4));
    assert!(rt; whole.forbidden().is_below(5));
    let wanted = Wanted(8, 4, MANY, &[0, 0, 0, 0, 0, 255, 255, 255]);
    assert!(rt; is_wanted(&whole.into_raw(), &wanted));
}

#[test]
fn bytes_for_a_requested_alignment_are_not_free(rt: HostRuntime) {
    let alloc = rt.alloc();
    let pair = two_fields(&rt, alloc, Prim::U32, Prim::U8);
    let sixteen = Alignment::new(16).expect(&rt, "no alignment");
    let whole = aligned_struct(alloc, pair, sixteen).expect(&rt, "memory");
    let wanted = Wanted(16, 16, MANY, &[0, 0, 0, 0, 0, 255, 255, 255]);
    assert!(rt; is_wanted(&whole.into_raw(), &wanted));
}

#[test]
fn arrays_of_one_keep_what_they_hold(rt: HostRuntime) {
    let alloc = rt.alloc();
    let truth = primitive(&rt, alloc, "le64", Prim::Bool);
    assert!(rt; truth.size() == 1);
    let one = array_of(alloc, &truth, 1).expect(&rt, "memory");
    let bytes = [7];
    assert!(rt; one.size() <= 1);
    assert!(rt; one.is_invalid(&bytes));
    assert!(rt; is_wanted(&one.into_raw(), &Wanted(1, 1, MANY, &[])));
    let two = array_of(alloc, &truth, 2).expect(&rt, "memory").into_raw();
    assert!(rt; two.forbidden.is_below(0));
    assert!(rt; is_wanted(&two, &Wanted(2, 1, MANY, &[])));
    let none = array_of(alloc, &truth, 0).expect(&rt, "memory").into_raw();
    assert!(rt; is_wanted(&none, &Wanted(0, 1, NONE, &[])));
}

#[test]
fn unions_have_nothing_free(rt: HostRuntime) {
    let alloc = rt.alloc();
    let word = primitive(&rt, alloc, "le64", Prim::U32);
    let truth = primitive(&rt, alloc, "le64", Prim::Bool);
    let either = union_of(alloc, &truth, &word).into_raw();
    assert!(rt; either.forbidden.is_below(0));
    assert!(rt; is_wanted(&either, &Wanted(4, 4, NONE, &[])));
}

#[test]
fn targets_align_wide_integers(rt: HostRuntime) {
    let alloc = rt.alloc();
    let old = primitive(&rt, alloc, "le32o", Prim::U64).into_raw();
    assert!(rt; is_wanted(&old, &Wanted(8, 4, NONE, &[])));
    let wide = primitive(&rt, alloc, "le64", Prim::NonZeroU128).into_raw();
    assert!(rt; is_wanted(&wide, &Wanted(16, 16, ONE, &[])));
}

fn result(rt: &impl Abort, alloc: Global, ok: Desc, err: Desc) -> Desc {
    Desc::Result {
        ok: boxed(rt, alloc, ok),
        err: boxed(rt, alloc, err),
    }
}

fn option(rt: &impl Abort, alloc: Global, some: Desc) -> Desc {
    Desc::Option {
        some: boxed(rt, alloc, some),
    }
}

fn has_layout(rt: &impl Abort, alloc: Global, desc: &Desc, wanted: &Wanted) {
    let layout = layout_of(alloc, &target(rt, "le64"), desc).expect(rt, "no layout");
    assert!(rt; is_wanted(&layout.into_raw(), wanted));
}

#[test]
fn descriptions_have_their_written_layouts(rt: HostRuntime) {
    let alloc = rt.alloc();
    let aligned = of_prims(&rt, alloc, &[Prim::U32, Prim::U8], Some(16));
    let wanted = Wanted(16, 16, MANY, &[0, 0, 0, 0, 0, 255, 255, 255]);
    has_layout(&rt, alloc, &aligned, &wanted);
    let empty = of_prims(&rt, alloc, &[], None);
    has_layout(&rt, alloc, &empty, &Wanted(0, 1, NONE, &[]));
    let sum = result(&rt, alloc, Desc::Prim(Prim::U8), Desc::Prim(Prim::U16));
    has_layout(&rt, alloc, &sum, &Wanted(4, 2, NONE, &[254, 255]));
    let word = of_prims(&rt, alloc, &[Prim::U32, Prim::Bool], None);
    let wanted = Wanted(8, 4, NONE, &[0, 0, 0, 0, 0, 254, 255, 255]);
    has_layout(&rt, alloc, &option(&rt, alloc, word), &wanted);
}

/// Fields of one byte each, aligned to 65,536 bytes.
fn wide_fields(rt: &impl Abort, alloc: Global, count: u32) -> Desc {
    let mut fields = Items::new(alloc);
    for _ in 0..count {
        let byte = of_prims(rt, alloc, &[Prim::U8], Some(65536));
        add_field(rt, alloc, &mut fields, "f", byte);
    }
    record(rt, alloc, fields, None)
}

fn bytes(rt: &impl Abort, alloc: Global, count: u32) -> Desc {
    let mut fields = Items::new(alloc);
    for _ in 0..count {
        add_field(rt, alloc, &mut fields, "f", Desc::Prim(Prim::U8));
    }
    record(rt, alloc, fields, None)
}

fn has_fault(rt: &impl Abort, alloc: Global, desc: &Desc, fault: DescError) {
    assert!(rt; layout_of(alloc, &target(rt, "le64"), desc).err() == Some(fault));
}

#[test]
fn faults_name_the_first_part_in_post_order(rt: HostRuntime) {
    let alloc = rt.alloc();
    let ill = of_prims(&rt, alloc, &[Prim::U8, Prim::U8], Some(3));
    let sum = result(&rt, alloc, Desc::Prim(Prim::Bool), ill);
    has_fault(&rt, alloc, &sum, DescError::IllFormed { part: 3 });
    let small = wide_fields(&rt, alloc, 16);
    assert!(rt; layout_of(alloc, &target(&rt, "le64"), &small).is_ok());
    let large = wide_fields(&rt, alloc, 17);
    has_fault(&rt, alloc, &large, DescError::TooLarge { part: 34 });
}

#[test]
fn targets_and_numbers_of_parts_come_first(rt: HostRuntime) {
    let alloc = rt.alloc();
    let many = bytes(&rt, alloc, 4096);
    assert!(rt; parts(&many) == 4097);
    has_fault(&rt, alloc, &many, DescError::TooManyParts);
    let odd = Target {
        pointer: 3,
        ..target(&rt, "le64")
    };
    assert!(rt; layout_of(alloc, &odd, &many).err() == Some(DescError::BadTarget));
    let few = bytes(&rt, alloc, 4095);
    assert!(rt; parts(&few) == 4096);
    has_layout(&rt, alloc, &few, &Wanted(4095, 1, NONE, &[]));
}

/// The names of the part's variants, where both start, and its size; `None` where it is no sum.
fn sum_told(part: &Part) -> Option<(Sort, u64, u64, u64)> {
    match part {
        Part::Sum {
            names,
            sum_layout,
            ..
        } => Some((*names, sum_layout.ok, sum_layout.err, sum_layout.size)),
        _ => None,
    }
}

/// An option of `(u32, bool)` has a determinant of that kind, which leaves these bits of byte 5.
fn option_takes(rt: &impl Abort, alloc: Global, rules: Rules, kind: Kind, left: u8) {
    let word = of_prims(rt, alloc, &[Prim::U32, Prim::Bool], None);
    let option = option(rt, alloc, word);
    let found = lay_out(alloc, rules, &target(rt, "le64"), &option).expect(rt, "no layout");
    assert!(rt; found.layout.unused().byte_at(5) == left);
    assert!(rt; sum_told(&found.part) == Some((Sort::OfOption, 0, 0, 8)));
    let placed = found.placed.as_slice();
    assert!(rt; placed.len() == 1);
    // The option is the part after the struct, which comes after its two fields.
    assert!(rt; placed[0].part == 3);
    assert!(rt; placed[0].kind == kind);
}

#[test]
fn none_takes_what_its_rules_let_it_see(rt: HostRuntime) {
    option_takes(&rt, rt.alloc(), Rules::One, Kind::SharedBit, 254);
    option_takes(&rt, rt.alloc(), Rules::Two, Kind::LargerPattern, 255);
}

fn stands_in_order(rt: &impl Abort, name: &str, little: bool) {
    let word = Integer {
        width: Width::Four,
        signed: true,
        zero: true,
        little,
        stored: Stored::Itself,
    };
    assert!(rt; row_of(&target(rt, name), Prim::I32.form()).scalar == Scalar::Int(word));
}

#[test]
fn integers_stand_in_the_byte_order_of_the_target(rt: HostRuntime) {
    stands_in_order(&rt, "le64", true);
    stands_in_order(&rt, "be64", false);
}

/// A byte behind a condition that has two parts.
fn conditional(rt: &impl Abort, alloc: Global, len: u64) -> Desc {
    let item = boxed_prim(rt, alloc, Prim::Bool);
    Desc::StableIf {
        value: boxed_prim(rt, alloc, Prim::U8),
        cond: boxed(rt, alloc, Desc::Array { item, len }),
    }
}

/// A conditional byte, a pointer to an option, and an option, as fields.
fn nine_parts(rt: &impl Abort, alloc: Global) -> Desc {
    let mut fields = Items::new(alloc);
    // Parts 0 to 3: the byte, the condition's item, the condition, the whole.
    let byte = conditional(rt, alloc, 9);
    add_field(rt, alloc, &mut fields, "f", byte);
    // Parts 4 to 6: a truth value, an option of it, a pointer to that.
    let inner = option(rt, alloc, Desc::Prim(Prim::Bool));
    add_field(rt, alloc, &mut fields, "f", reference(rt, alloc, inner));
    // Parts 7 and 8: a truth value, and the option of it.
    let last = option(rt, alloc, Desc::Prim(Prim::Bool));
    add_field(rt, alloc, &mut fields, "f", last);
    record(rt, alloc, fields, None)
}

#[test]
fn conditions_and_pointees_are_numbered_and_hold_no_bytes(rt: HostRuntime) {
    let alloc = rt.alloc();
    let whole = nine_parts(&rt, alloc);
    let found = lay_out(alloc, Rules::One, &target(&rt, "le64"), &whole);
    let found = found.expect(&rt, "no layout");
    // A byte, 7 bytes before the pointer, the pointer's 8, the option's 1, 7 bytes more.
    assert!(rt; found.layout.size() == 24);
    assert!(rt; found.layout.indirections());
    let placed = found.placed.as_slice();
    assert!(rt; placed.len() == 1);
    assert!(rt; placed[0].part == 8);
}

#[test]
fn faults_of_conditions_and_pointees_are_found(rt: HostRuntime) {
    let alloc = rt.alloc();
    let long = conditional(&rt, alloc, 129);
    has_fault(&rt, alloc, &long, DescError::ArrayLength { part: 2 });
    let to_long = reference(&rt, alloc, long);
    has_fault(&rt, alloc, &to_long, DescError::ArrayLength { part: 2 });
    let some = boxed_prim(&rt, alloc, Prim::Bool);
    let to_core = reference(&rt, alloc, Desc::CoreOption { some });
    has_fault(&rt, alloc, &to_core, DescError::NotStable { part: 1 });
}
