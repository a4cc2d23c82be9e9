ghost use Rattle.std.specs.Prelude.{◌≡◌, ◌<◌, ◌+◌, ◌∷◌, []};
ghost use Rattle.abi_bits.specs.Forbidden.{items, pattern, range};

use abi_bits::{
    BitMask, ByteMask, ForbiddenValues, Pattern, SaturatingAddValue, SingleForbiddenValue, Steps,
    are_rising,
};
use std::alloc::Global;
use std::marker::Brand;
use std::process::Abort;
use std::sync::ledger::{Blank, Ledger};

fn mask_of(rt: &impl Abort, alloc: Global, entries: &[(u64, u8)]) -> BitMask
    ensures { result ≡ entries.now }
{
    let mask = BitMask::from_entries(alloc, entries).expect(rt, "memory");
    mask.expect(rt, "no mask")
}

/// Whether these are the entries of the set, in order.
fn has_entries(mask: &BitMask, entries: &[(u64, u8)]) -> bool {
    let mut from = 0;
    for (offset, bits) in entries {
        match mask.next_entry(from) {
            Some((at, byte)) if at == *offset && byte == *bits => from = at.saturating_add(1),
            _ => return false,
        }
    }
    mask.next_entry(from).is_none()
}

/// Whether the entries make a set.
fn are_entries(rt: &impl Abort, alloc: Global, entries: &[(u64, u8)]) -> bool {
    let mask = BitMask::from_entries(alloc, entries).expect(rt, "memory");
    mask.is_some()
}

#[test]
fn entries_make_a_mask_only_where_they_rise_and_have_bits(rt: HostRuntime) {
    let alloc = rt.alloc();
    let mask = mask_of(&rt, alloc, &[(1, 255), (3, 1)]);
    assert!(rt; has_entries(&mask, &[(1, 255), (3, 1)]));
    assert!(rt; !are_entries(&rt, alloc, &[(3, 1), (1, 255)]));
    assert!(rt; !are_entries(&rt, alloc, &[(2, 1), (2, 4)]));
    assert!(rt; !are_entries(&rt, alloc, &[(0, 0)]));
    assert!(rt; !are_entries(&rt, alloc, &[(1048576, 1)]));
    assert!(rt; are_entries(&rt, alloc, &[(1048575, 1)]));
    assert!(rt; BitMask::new(alloc).is_empty());
}

#[test]
fn masks_join(rt: HostRuntime) {
    let alloc = rt.alloc();
    let mask = mask_of(&rt, alloc, &[(1, 255), (3, 1)]);
    let union = mask.bit_or(alloc, &mask_of(&rt, alloc, &[(3, 2)]));
    let union = union.expect(&rt, "memory");
    assert!(rt; has_entries(&union, &[(1, 255), (3, 3)]));
    let low = mask.bit_and(alloc, &mask_of(&rt, alloc, &[(1, 15)]));
    assert!(rt; has_entries(&low.expect(&rt, "memory"), &[(1, 15)]));
    let copy = mask.copy(alloc).expect(&rt, "memory");
    assert!(rt; has_entries(&copy, &[(1, 255), (3, 1)]));
}

#[test]
fn masks_move(rt: HostRuntime) {
    let mask = mask_of(&rt, rt.alloc(), &[(1, 255), (3, 1)]);
    let moved = mask.shift(rt.alloc(), 2).expect(&rt, "memory");
    assert!(rt; has_entries(&moved, &[(3, 255), (5, 1)]));
}

#[test]
fn a_mask_takes_in_another(rt: HostRuntime) {
    let alloc = rt.alloc();
    let mut mask = mask_of(&rt, alloc, &[(0, 1)]);
    let other = mask_of(&rt, alloc, &[(0, 2)]);
    mask.or_shifted(&other, 3).expect(&rt, "memory");
    assert!(rt; has_entries(&mask, &[(0, 1), (3, 2)]));
}

/// The bits at offsets 3 and 9, for two steps.
fn two_probes<L: Ledger>(mask: &ByteMask, steps: &mut Steps<L>) -> (u8, u8)
    ensures { steps.new ≡ steps.old + 2 }
{
    let third = mask.probe(3, steps);
    let ninth = mask.probe(9, steps);
    (third, ninth)
}

fn probed<L: Ledger>(mask: &ByteMask, blank: Blank) -> (u8, u8)
    requires name { blank.name ≡ L.name }
    requires parts { blank.parts ≡ L.parts }
    requires some { 0 < blank.parts }
{
    let mut steps = Steps::<L>::new(blank);
    two_probes(mask, &mut steps)
}

#[test]
fn a_mask_is_probed_byte_by_byte(rt: HostRuntime) {
    let mask = mask_of(&rt, rt.alloc(), &[(1, 255), (3, 1)]);
    let mask = ByteMask::of(rt.alloc(), &mask).expect(&rt, "memory");
    assert_eq!(rt; probed::<Brand>(&mask, Blank::new(1)), (1, 0));
}

#[test]
fn padding_is_whole_bytes(rt: HostRuntime) {
    let three = BitMask::padding(rt.alloc(), 5, 3).expect(&rt, "memory");
    assert!(rt; has_entries(&three, &[(5, 255), (6, 255), (7, 255)]));
    let none = BitMask::padding(rt.alloc(), 5, 0).expect(&rt, "memory");
    assert!(rt; none.is_empty());
}

#[test]
fn masks_lose_their_least_bit(rt: HostRuntime) {
    let alloc = rt.alloc();
    let mask = mask_of(&rt, alloc, &[(1, 255), (3, 1)]);
    let less = mask.extract_bit(alloc).expect(&rt, "memory");
    assert!(rt; has_entries(&less, &[(1, 254), (3, 1)]));
    assert_eq!(rt; mask.extracted_bit_byte_offset(), Some(1));
    assert_eq!(rt; mask.extracted_bit_mask(), Some(1));
    // 12 = 4 + 8, so the least bit has the value 4
    let two_bits = mask_of(&rt, alloc, &[(7, 12)]);
    assert_eq!(rt; two_bits.extracted_bit_mask(), Some(4));
    let empty = BitMask::new(alloc).extract_bit(alloc);
    assert!(rt; empty.expect(&rt, "memory").is_empty());
}

#[test]
fn masks_tell_their_bytes(rt: HostRuntime) {
    let mask = mask_of(&rt, rt.alloc(), &[(1, 255), (3, 1)]);
    assert_eq!(rt; mask.next_entry(2), Some((3, 1)));
    assert_eq!(rt; mask.byte_at(2), 0);
    assert!(rt; mask.has_free_byte_at(1) && !mask.has_free_byte_at(3));
    assert!(rt; mask.includes(&[]) && mask.includes(&[(1, 7)]));
    assert!(rt; !mask.includes(&[(1, 7), (2, 7)]));
    assert!(rt; mask.is_below(4) && !mask.is_below(3));
}

#[test]
fn a_walk_passes_what_lies_before(rt: HostRuntime) {
    let mask = mask_of(&rt, rt.alloc(), &[(1, 255), (3, 1), (9, 6)]);
    let mut walk = mask.walk();
    assert_eq!(rt; walk.next_entry(0), Some((1, 255)));
    assert_eq!(rt; walk.next_entry(2), Some((3, 1)));
    assert_eq!(rt; walk.byte_at(3), 1);
    assert_eq!(rt; walk.byte_at(8), 0);
    assert_eq!(rt; walk.next_entry(0), Some((9, 6)));
    assert_eq!(rt; walk.next_entry(10), None);
    assert_eq!(rt; mask.walk().byte_at(9), 6);
}

#[test]
fn a_set_tells_its_first_bytes(rt: HostRuntime) {
    let alloc = rt.alloc();
    let mask = mask_of(&rt, alloc, &[(1, 255), (3, 1), (9, 6)]);
    let five = mask.bytes(alloc, 5).expect(&rt, "memory");
    assert_eq!(rt; five.as_slice(), [0, 255, 0, 1, 0].as_slice());
    let none = mask.bytes(alloc, 0).expect(&rt, "memory");
    assert!(rt; none.as_slice().is_empty());
}

#[test]
fn bytes_are_added_past_the_last(rt: HostRuntime) {
    let mut mask = mask_of(&rt, rt.alloc(), &[(1, 255)]);
    mask.push_byte(9, 6).expect(&rt, "memory");
    assert!(rt; has_entries(&mask, &[(1, 255), (9, 6)]));
}

fn pattern_of(rt: &impl Abort, alloc: Global, pairs: &[(u64, u8)]) -> Option<Pattern> {
    Pattern::new(alloc, pairs).expect(rt, "memory")
}

#[test]
fn pairs_make_a_pattern_only_where_they_rise(rt: HostRuntime) {
    let alloc = rt.alloc();
    let made = pattern_of(&rt, alloc, &[(0, 0), (1, 0)]);
    let made = made.expect(&rt, "no pattern");
    assert_eq!(rt; made.pairs(), [(0, 0), (1, 0)].as_slice());
    let copy = made.copy(alloc).expect(&rt, "memory");
    assert_eq!(rt; copy.pairs(), [(0, 0), (1, 0)].as_slice());
    assert!(rt; pattern_of(&rt, alloc, &[]).is_none());
    assert!(rt; pattern_of(&rt, alloc, &[(1, 0), (0, 0)]).is_none());
    assert!(rt; are_rising(&[]) && !are_rising(&[(1048576, 0)]));
}

/// The byte 0 at offset 0, or 2 to 255 at offset 1.
fn pattern_or_range(rt: &impl Abort, alloc: Global) -> ForbiddenValues
    ensures { items result ≡ pattern ((0, 0) ∷ []) ∷ range 1 2 255 ∷ [] }
{
    let left = Pattern::new(alloc, &[(0, 0)]).expect(rt, "memory");
    let left = left.expect(rt, "no pattern");
    let right = ForbiddenValues::ForbiddenRange {
        min: 2,
        max: 255,
        offset: 1,
    };
    ForbiddenValues::either(alloc, ForbiddenValues::Array(left), right).expect(rt, "memory")
}

/// The pairs of the found pattern; none where nothing was found.
fn pairs_of(found: &SingleForbiddenValue) -> &[(u64, u8)] {
    match found {
        SingleForbiddenValue::Array(pattern) => pattern.pairs(),
        _ => &[],
    }
}

/// What the leftmost leaf offers has these pairs.
fn has_head(rt: &impl Abort, alloc: Global, values: &ForbiddenValues, pairs: &[(u64, u8)]) {
    assert!(rt; values.is_sound());
    let head = values.select_one(alloc).expect(rt, "memory");
    assert!(rt; matches!(head, SingleForbiddenValue::Array(_)));
    assert_eq!(rt; pairs_of(&head), pairs);
}

fn is_matched(values: &ForbiddenValues, bytes: &[u8]) -> bool {
    values.is_below(bytes.len() as u64) && values.is_invalid(bytes)
}

#[test]
fn the_first_pattern_in_free_bytes_is_found(rt: HostRuntime) {
    let alloc = rt.alloc();
    let values = pattern_or_range(&rt, alloc);
    let free = mask_of(&rt, alloc, &[(1, 255)]);
    let found = values.select_from(alloc, &free).expect(&rt, "memory");
    assert_eq!(rt; pairs_of(&found), [(1, 2)].as_slice());
    let none = values.select_from(alloc, &BitMask::new(alloc));
    assert!(rt; matches!(none.expect(&rt, "memory"), SingleForbiddenValue::End));
}

#[test]
fn forbidden_values_offer_patterns(rt: HostRuntime) {
    let alloc = rt.alloc();
    let values = pattern_or_range(&rt, alloc);
    let offered = values.patterns(alloc).expect(&rt, "memory");
    let [first, second] = offered.as_slice() else {
        panic!(rt; "not two patterns");
    };
    assert_eq!(rt; first.pairs(), [(0, 0)].as_slice());
    assert_eq!(rt; second.pairs(), [(1, 2)].as_slice());
    has_head(&rt, alloc, &values, &[(0, 0)]);
}

#[test]
fn forbidden_values_match_bytes(rt: HostRuntime) {
    let alloc = rt.alloc();
    let values = ForbiddenValues::End.or(alloc, pattern_or_range(&rt, alloc));
    let values = values.expect(&rt, "memory");
    assert!(rt; is_matched(&values, &[0, 1]));
    assert!(rt; is_matched(&values, &[1, 7]));
    assert!(rt; !is_matched(&values, &[1, 1]));
    assert!(rt; values.is_solid(2, &mask_of(&rt, alloc, &[(2, 1)])));
    assert!(rt; !values.is_solid(2, &mask_of(&rt, alloc, &[(1, 1)])));
}

#[test]
fn forbidden_values_move(rt: HostRuntime) {
    let alloc = rt.alloc();
    let moved = pattern_or_range(&rt, alloc).shift(alloc, 4);
    let moved = moved.expect(&rt, "memory").copy(alloc);
    let moved = moved.expect(&rt, "memory");
    assert!(rt; is_matched(&moved, &[9, 9, 9, 9, 0, 1]));
    assert!(rt; is_matched(&moved, &[9, 9, 9, 9, 9, 2]));
    assert!(rt; !is_matched(&moved, &[0, 2, 9, 9, 9, 1]));
}

/// With a pattern and a range joined behind it, its leftmost leaf offers these pairs.
fn joins_behind(rt: &impl Abort, alloc: Global, first: ForbiddenValues, pairs: &[(u64, u8)]) {
    let joined = first.or(alloc, pattern_or_range(rt, alloc));
    has_head(rt, alloc, &joined.expect(rt, "memory"), pairs);
}

#[test]
fn a_range_stands_before_what_it_is_joined_with(rt: HostRuntime) {
    let alloc = rt.alloc();
    let range = ForbiddenValues::ForbiddenRange {
        min: 3,
        max: 4,
        offset: 7,
    };
    joins_behind(&rt, alloc, range, &[(7, 3)]);
    let pattern = pattern_of(&rt, alloc, &[(9, 9)]);
    let pattern = ForbiddenValues::Array(pattern.expect(&rt, "no pattern"));
    joins_behind(&rt, alloc, pattern, &[(0, 0)]);
}

#[test]
fn answers_of_a_search_combine(rt: HostRuntime) {
    let one = SingleForbiddenValue::End.push(rt.alloc(), 3, 9);
    let one = one.expect(&rt, "memory");
    assert_eq!(rt; pairs_of(&one), [(3, 9)].as_slice());
    let same = SingleForbiddenValue::Saturator.or(one);
    assert_eq!(rt; pairs_of(&same), [(3, 9)].as_slice());
    let none = SingleForbiddenValue::Saturator.and(same);
    assert!(rt; matches!(none.resolve(), SingleForbiddenValue::End));
}

const NONE: SaturatingAddValue = SaturatingAddValue::B0;

const ONE: SaturatingAddValue = SaturatingAddValue::B1;

const MANY: SaturatingAddValue = SaturatingAddValue::Saturator;

#[test]
fn niche_counts_saturate(rt: HostRuntime) {
    assert_eq!(rt; NONE.saturating_add(NONE), NONE);
    assert_eq!(rt; NONE.saturating_add(ONE), ONE);
    assert_eq!(rt; ONE.saturating_add(ONE), MANY);
    assert_eq!(rt; MANY.saturating_add(NONE), MANY);
    assert_eq!(rt; ONE.saturating_add_b1(), MANY);
}
