ghost use Rattle.std.specs.Prelude.{◌≡◌, ◌≤◌, ◌<◌, length};
ghost use Rattle.abi_det.specs.State.{IsCovered};

use abi_bits::{BitMask, ForbiddenValues, Pattern, SaturatingAddValue, Steps};
use abi_det::{
    Determinant, Found, Kind, Layout, Placement, RawLayout, Refusal, Rules, Test, check_refusal,
    placement, placement_by, search, sum_layout, sum_size,
};
use abi_num::Items;
use std::alloc::{AllocError, Global};
use std::fmt::Write;
use std::marker::Brand;
use std::process::Abort;
use std::sync::ledger::{Blank, Ledger};

/// What a row's variant forbids.
enum Forbids {
    Nothing,
    /// A pattern.
    Pattern(&'static [(u64, u8)]),
    /// What a `bool` at that offset forbids.
    Bool(u64),
    /// The same in a struct that begins with a number, whose leftmost leaf forbids nothing.
    LaterBool(u64),
}

/// A variant of a sum: sizes in bytes, and the entries of its free bits.
struct Side {
    size: u64,
    align: u64,
    free: &'static [(u64, u8)],
    forbids: Forbids,
}

/// Two variants, and what is told of their placement.
struct Row {
    ok: Side,
    err: Side,
    told: &'static str,
}

impl Forbids {
    fn values(&self, rt: &impl Abort, alloc: Global) -> ForbiddenValues {
        match self {
            Forbids::Nothing => ForbiddenValues::End,
            Forbids::Pattern(pairs) => ForbiddenValues::Array(pattern(rt, alloc, pairs)),
            Forbids::Bool(offset) => no_bool(*offset),
            Forbids::LaterBool(offset) => {
                let left = Box::new(alloc, ForbiddenValues::End).expect(rt, "memory");
                let right = Box::new(alloc, no_bool(*offset)).expect(rt, "memory");
                ForbiddenValues::Or(left, right)
            }
        }
    }
}

fn pattern(rt: &impl Abort, alloc: Global, pairs: &[(u64, u8)]) -> Pattern {
    let pattern = Pattern::new(alloc, pairs).expect(rt, "memory");
    pattern.expect(rt, "no pattern")
}

/// The values that no `bool` at that offset has.
fn no_bool(offset: u64) -> ForbiddenValues {
    ForbiddenValues::ForbiddenRange {
        min: 2,
        max: 255,
        offset,
    }
}

impl Side {
    fn layout(&self, rt: &impl Abort, alloc: Global) -> Layout {
        let unused = BitMask::from_entries(alloc, self.free).expect(rt, "memory");
        let raw = RawLayout {
            size: self.size,
            align: self.align,
            forbidden: self.forbids.values(rt, alloc),
            unused: unused.expect(rt, "entries out of order"),
            niches: SaturatingAddValue::B0,
            indirections: false,
        };
        Layout::new(raw).expect(rt, "no lawful layout")
    }
}

fn push_pairs(out: &mut String, pairs: &[(u64, u8)]) -> Result<(), AllocError> {
    for (offset, byte) in pairs {
        write!(out, " {offset}={byte}")?;
    }
    Ok(())
}

fn push_offsets(out: &mut String, offsets: &[u64]) -> Result<(), AllocError> {
    for offset in offsets {
        write!(out, " {offset}")?;
    }
    Ok(())
}

fn push_determinant(
    out: &mut String,
    kind: Kind,
    determinant: &Determinant,
) -> Result<(), AllocError> {
    let word = match kind {
        Kind::SmallerPattern => "smaller",
        Kind::LargerPattern => "larger",
        Kind::SharedBit => "bit",
        Kind::Tag => "tag",
    };
    write!(out, " {word}")?;
    match &determinant.test {
        Test::BitDeterminant => {}
        Test::ValueIsErr(pattern) => push_pairs(out, pattern.pairs())?,
        Test::BitIsErr { offset, mask } => write!(out, " {offset}:{mask}")?,
    }
    let side = if determinant.not { "ok" } else { "err" };
    write!(out, " means {side}")
}

fn push_free_byte(out: &mut String, at: u64, mask: u8) -> Result<(), AllocError> {
    if mask == 0 {
        return Ok(());
    }
    write!(out, " {at}:{mask}")
}

fn push_free(out: &mut String, free: &BitMask, size: u64) -> Result<(), AllocError> {
    out.push_str(" free")?;
    for at in 0..size {
        push_free_byte(out, at, free.byte_at(at))?;
    }
    Ok(())
}

fn push_refusal(out: &mut String, refusal: &Refusal) -> Result<(), AllocError> {
    let place = refusal.place;
    write!(out, "; refusal {place} smaller")?;
    push_offsets(out, refusal.smaller.as_slice())?;
    out.push_str(" larger")?;
    push_offsets(out, refusal.larger.as_slice())
}

fn told(alloc: Global, p: &Placement, size: u64) -> Result<String, AllocError> {
    let place = p.place;
    let front = p.front;
    let ok = p.ok_shift;
    let err = p.err_shift;
    let mut out = format!(in alloc; "size {size} place {place} front {front} ok {ok} err {err}")?;
    push_determinant(&mut out, p.kind, &p.determinant)?;
    push_free(&mut out, &p.exported, size)?;
    for refusal in p.refusals.as_slice() {
        push_refusal(&mut out, refusal)?;
    }
    Ok(out)
}

/// What a placement of the two is: sizes and offsets in bytes, and what is free and refused.
fn placed(rt: &impl Abort, alloc: Global, ok: &Layout, err: &Layout, p: &Placement) -> String
    requires { p.now.front ≤ 65536 }
{
    let size = sum_size(ok, err, p);
    told(alloc, p, size).expect(rt, "memory")
}

/// An integer of one byte.
const BYTE: Side = Side {
    size: 1,
    align: 1,
    free: &[],
    forbids: Forbids::Nothing,
};

/// An integer of two bytes.
const PAIR: Side = Side {
    size: 2,
    align: 2,
    free: &[],
    forbids: Forbids::Nothing,
};

/// A struct without fields.
const UNIT: Side = Side {
    size: 0,
    align: 1,
    free: &[],
    forbids: Forbids::Nothing,
};

/// An array of no integers of eight bytes.
const NO_WORDS: Side = Side {
    size: 0,
    align: 8,
    free: &[],
    forbids: Forbids::Nothing,
};

/// An array of three bytes.
const THREE_BYTES: Side = Side {
    size: 3,
    align: 1,
    free: &[],
    forbids: Forbids::Nothing,
};

/// A byte that is not 0.
const NON_ZERO: Side = Side {
    size: 1,
    align: 1,
    free: &[],
    forbids: Forbids::Pattern(&[(0, 0)]),
};

/// Two bytes that are not both 0.
const NON_ZERO_PAIR: Side = Side {
    size: 2,
    align: 2,
    free: &[],
    forbids: Forbids::Pattern(&[(0, 0), (1, 0)]),
};

/// A struct of four bytes and a `bool`.
const WORD_AND_BOOL: Side = Side {
    size: 8,
    align: 4,
    free: &[(5, 255), (6, 255), (7, 255)],
    forbids: Forbids::LaterBool(4),
};

/// A struct of four bytes and one.
const WORD_AND_BYTE: Side = Side {
    size: 8,
    align: 4,
    free: &[(5, 255), (6, 255), (7, 255)],
    forbids: Forbids::Nothing,
};

/// A struct of four bytes, one, one, and a `bool`.
const WORD_BYTES_AND_BOOL: Side = Side {
    size: 8,
    align: 4,
    free: &[(7, 255)],
    forbids: Forbids::LaterBool(6),
};

/// Three bytes, of which the middle is free.
const HOLLOW: Side = Side {
    size: 3,
    align: 1,
    free: &[(1, 255)],
    forbids: Forbids::Nothing,
};

/// A struct of a `bool` and a byte.
const BOOL_AND_BYTE: Side = Side {
    size: 2,
    align: 1,
    free: &[],
    forbids: Forbids::Bool(0),
};

/// A `bool`.
const BOOL: Side = Side {
    size: 1,
    align: 1,
    free: &[],
    forbids: Forbids::Bool(0),
};

/// A tagged sum of two bytes.
const TAGGED_BYTES: Side = Side {
    size: 2,
    align: 1,
    free: &[(0, 254)],
    forbids: Forbids::Nothing,
};

/// Fifteen bytes, of which the one at offset 7 has a free bit.
const LONG: Side = Side {
    size: 15,
    align: 1,
    free: &[(7, 1)],
    forbids: Forbids::Nothing,
};

/// Eight bytes, of which the last has another free bit.
const SHORT: Side = Side {
    size: 8,
    align: 1,
    free: &[(7, 2)],
    forbids: Forbids::Nothing,
};

static ROWS: [Row; 14] = [
    // at place k the smaller variant covers the bytes from k to k + 7, and so the larger's one free bit each time
    Row {
        ok: LONG,
        err: SHORT,
        told: "size 16 place 0 front 1 ok 0 err 0 tag means err free 0:254; refusal 0 smaller larger; refusal 1 smaller larger; refusal 2 smaller larger; refusal 3 smaller larger; refusal 4 smaller larger; refusal 5 smaller larger; refusal 6 smaller larger; refusal 7 smaller larger",
    },
    Row {
        ok: BYTE,
        err: BYTE,
        told: "size 2 place 0 front 1 ok 0 err 0 tag means err free 0:254; refusal 0 smaller larger",
    },
    Row {
        ok: BYTE,
        err: PAIR,
        told: "size 4 place 0 front 2 ok 0 err 0 tag means ok free 0:254 1:255; refusal 0 smaller larger; refusal 1 smaller larger",
    },
    Row {
        ok: BYTE,
        err: NO_WORDS,
        told: "size 16 place 0 front 8 ok 0 err 0 tag means err free 0:254 1:255 2:255 3:255 4:255 5:255 6:255 7:255; refusal 0 smaller larger",
    },
    Row {
        ok: UNIT,
        err: UNIT,
        told: "size 1 place 0 front 1 ok 0 err 0 tag means err free 0:254; refusal 0 smaller larger",
    },
    Row {
        ok: NON_ZERO,
        err: BYTE,
        told: "size 2 place 0 front 1 ok 0 err 0 tag means err free 0:254; refusal 0 smaller larger 0",
    },
    Row {
        ok: WORD_AND_BOOL,
        err: BYTE,
        told: "size 8 place 0 front 0 ok 0 err 0 larger 4=2 means err free 5:255 6:255 7:255",
    },
    Row {
        ok: WORD_AND_BYTE,
        err: WORD_BYTES_AND_BOOL,
        told: "size 8 place 0 front 0 ok 0 err 0 smaller 6=2 means ok free 7:255",
    },
    Row {
        ok: HOLLOW,
        err: BOOL_AND_BYTE,
        told: "size 3 place 1 front 0 ok 0 err 1 smaller 1=2 means ok free",
    },
    Row {
        ok: BOOL,
        err: UNIT,
        told: "size 1 place 0 front 0 ok 0 err 0 larger 0=2 means err free",
    },
    Row {
        ok: WORD_AND_BYTE,
        err: NON_ZERO,
        told: "size 8 place 0 front 0 ok 0 err 0 bit 5:1 means err free 5:254 6:255 7:255",
    },
    Row {
        ok: WORD_AND_BOOL,
        err: UNIT,
        told: "size 8 place 0 front 0 ok 0 err 0 bit 5:1 means err free 5:254 6:255 7:255",
    },
    Row {
        ok: TAGGED_BYTES,
        err: BYTE,
        told: "size 2 place 1 front 0 ok 0 err 1 bit 0:2 means err free 0:252",
    },
    Row {
        ok: THREE_BYTES,
        err: PAIR,
        told: "size 4 place 0 front 0 ok 0 err 0 bit 3:1 means err free 3:254",
    },
];

fn has_placement(rt: &impl Abort, alloc: Global, row: &Row) {
    let ok = row.ok.layout(rt, alloc);
    let err = row.err.layout(rt, alloc);
    let p = placement(alloc, &ok, &err).expect(rt, "memory");
    assert_eq!(rt; placed(rt, alloc, &ok, &err, &p).as_str(), row.told);
}

#[test]
fn placements_of_two_layouts(rt: HostRuntime) {
    for row in &ROWS {
        has_placement(&rt, rt.alloc(), row);
    }
}

/// Sixteen bytes that never have 9 at offset 6.
const NO_NINE_AT_6: Side = Side {
    size: 16,
    align: 1,
    free: &[],
    forbids: Forbids::Pattern(&[(6, 9)]),
};

/// Sixteen bytes that never have 9 at offset 7.
const NO_NINE_AT_7: Side = Side {
    size: 16,
    align: 1,
    free: &[],
    forbids: Forbids::Pattern(&[(7, 9)]),
};

/// Eight bytes.
const EIGHT_BYTES: Side = Side {
    size: 8,
    align: 1,
    free: &[],
    forbids: Forbids::Nothing,
};

/// What a search between the sides of the two finds.
fn searched<L: Ledger>(
    rt: &impl Abort,
    alloc: Global,
    blank: Blank,
    ok: &Layout,
    err: &Layout,
) -> Found
    requires name { blank.name ≡ L.name }
    requires parts { blank.parts ≡ L.parts }
    requires some { 0 < blank.parts }
{
    let mut steps = Steps::<L>::new(blank);
    let ok = abi_det::Side::of(alloc, ok).expect(rt, "memory");
    let err = abi_det::Side::of(alloc, err).expect(rt, "memory");
    search(alloc, &ok, &err, &mut steps).expect(rt, "memory")
}

fn told_found(alloc: Global, found: &Found) -> Result<String, AllocError> {
    let place = found.place;
    let mut out = format!(in alloc; "place {place}")?;
    push_determinant(&mut out, found.kind, &found.determinant)?;
    for refusal in found.refusals.as_slice() {
        push_refusal(&mut out, refusal)?;
    }
    Ok(out)
}

// At place k the eight bytes cover the offsets from k to k + 7. So offset 6 is free at place 7 alone, and offset 7 at
// none.
static SEARCHED: [Row; 2] = [
    Row {
        ok: NO_NINE_AT_6,
        err: EIGHT_BYTES,
        told: "place 7 larger 6=9 means err",
    },
    Row {
        ok: NO_NINE_AT_7,
        err: EIGHT_BYTES,
        told: "place 0 tag means err; refusal 0 smaller larger 7; refusal 1 smaller larger 7; refusal 2 smaller larger 7; refusal 3 smaller larger 7; refusal 4 smaller larger 7; refusal 5 smaller larger 7; refusal 6 smaller larger 7; refusal 7 smaller larger 7",
    },
];

#[test]
fn a_search_finds_the_first_place_or_a_refusal_of_each(rt: HostRuntime) {
    for row in &SEARCHED {
        let ok = row.ok.layout(&rt, rt.alloc());
        let err = row.err.layout(&rt, rt.alloc());
        let found = searched::<Brand>(&rt, rt.alloc(), Blank::new(1), &ok, &err);
        let told = told_found(rt.alloc(), &found).expect(&rt, "memory");
        assert_eq!(rt; told.as_str(), row.told);
    }
}

/// The placement of a struct of a word and a `bool` beside one without fields is told so under
/// these rules, and leaves these bits free at offset 5.
fn has_placement_by(rt: &impl Abort, alloc: Global, rules: Rules, told: &str, left: u8) {
    let ok = WORD_AND_BOOL.layout(rt, alloc);
    let err = UNIT.layout(rt, alloc);
    let p = placement_by(alloc, rules, &ok, &err).expect(rt, "memory");
    assert_eq!(rt; placed(rt, alloc, &ok, &err, &p).as_str(), told);
    assert!(rt; sum_size(&ok, &err, &p) == 8);
    let sum = sum_layout(alloc, &ok, &err, &p).expect(rt, "memory");
    assert_eq!(rt; (sum.size(), sum.unused().byte_at(5)), (8, left));
}

// The four bytes in front forbid nothing, so the larger has no head. The first pattern that it offers is 2 in the `bool`
// at offset 4; its least free bit is the lowest of the padding from offset 5 on.
#[test]
fn an_empty_variant_takes_the_head_or_the_first_pattern(rt: HostRuntime) {
    let bit = "size 8 place 0 front 0 ok 0 err 0 bit 5:1 means err free 5:254 6:255 7:255";
    has_placement_by(&rt, rt.alloc(), Rules::One, bit, 254);
    let byte = "size 8 place 0 front 0 ok 0 err 0 larger 4=2 means err free 5:255 6:255 7:255";
    has_placement_by(&rt, rt.alloc(), Rules::Two, byte, 255);
}

#[test]
fn the_layout_of_a_sum(rt: HostRuntime) {
    let byte = BYTE.layout(&rt, rt.alloc());
    let p = placement(rt.alloc(), &byte, &byte).expect(&rt, "memory");
    assert!(rt; sum_size(&byte, &byte, &p) == 2);
    let sum = sum_layout(rt.alloc(), &byte, &byte, &p).expect(&rt, "memory");
    assert_eq!(rt;
        (sum.size(), sum.align(), sum.indirections()),
        (2, 1, false)
    );
    assert_eq!(rt;
        (sum.unused().byte_at(0), sum.unused().byte_at(1)),
        (254, 0)
    );
}

/// Whether that place of a byte and a byte is refused where no byte is named.
fn is_refused(alloc: Global, byte: &Layout, place: u64) -> bool {
    let refusal = Refusal {
        place,
        smaller: Items::new(alloc),
        larger: Items::new(alloc),
    };
    check_refusal(byte, byte, &refusal)
}

#[test]
fn the_refusal_of_a_tag_holds(rt: HostRuntime) {
    let byte = BYTE.layout(&rt, rt.alloc());
    assert!(rt; is_refused(rt.alloc(), &byte, 0));
    assert!(rt; !is_refused(rt.alloc(), &byte, 1));
}

/// Whether the two are refused at place 0 by this byte of the larger.
fn is_blocked(rt: &impl Abort, alloc: Global, named: u64) -> bool {
    let refusal = Refusal {
        place: 0,
        smaller: Items::new(alloc),
        larger: Items::from_slice(alloc, &[named]).expect(rt, "memory"),
    };
    let ok = NON_ZERO_PAIR.layout(rt, alloc);
    let err = PAIR.layout(rt, alloc);
    check_refusal(&ok, &err, &refusal)
}

#[test]
fn a_refusal_may_name_any_blocking_byte(rt: HostRuntime) {
    assert!(rt; is_blocked(&rt, rt.alloc(), 0));
    assert!(rt; is_blocked(&rt, rt.alloc(), 1));
    assert!(rt; !is_blocked(&rt, rt.alloc(), 2));
}

#[test]
fn a_tag_changes_its_own_bit(rt: HostRuntime) {
    let tag = Determinant {
        not: false,
        test: Test::BitDeterminant,
    };
    let mut bytes = [6, 7];
    tag.err(&mut bytes);
    assert!(rt; !tag.is_det_ok(&bytes));
    assert_eq!(rt; bytes, [7, 7]);
    tag.ok(&mut bytes);
    assert!(rt; tag.is_det_ok(&bytes));
    assert_eq!(rt; bytes, [6, 7]);
    assert!(rt; !tag.is_niche_trick());
}

/// Has the determinant write the variant into the bytes.
fn write(determinant: &Determinant, means_ok: bool, bytes: &mut [u8])
    requires { IsCovered determinant.now.test (length bytes.old) }
    ensures { length bytes.new ≡ length bytes.old }
{
    if means_ok {
        determinant.ok(bytes);
    } else {
        determinant.err(bytes);
    }
}

/// A pattern of two bytes, whose presence means Err, or Ok where `not`.
fn writes_pattern(rt: &impl Abort, alloc: Global, not: bool) {
    let pattern = Pattern::new(alloc, &[(1, 2), (3, 9)]).expect(rt, "memory");
    let pattern = pattern.expect(rt, "no pattern");
    let determinant = Determinant {
        not,
        test: Test::ValueIsErr(pattern),
    };
    let mut bytes = [5, 6, 7, 8];
    // the variant that the absent pattern means changes nothing
    write(&determinant, !not, &mut bytes);
    assert_eq!(rt;
        (bytes, determinant.is_det_ok(&bytes)),
        ([5, 6, 7, 8], !not)
    );
    write(&determinant, not, &mut bytes);
    assert_eq!(rt; (bytes, determinant.is_det_ok(&bytes)), ([5, 2, 7, 9], not));
    write(&determinant, !not, &mut bytes);
    assert_eq!(rt; (bytes, determinant.is_det_ok(&bytes)), ([5, 2, 7, 9], not));
    // a byte of the pattern alone is no match
    bytes[3] = 8;
    assert_eq!(rt; determinant.is_det_ok(&bytes), !not);
    assert!(rt; determinant.is_niche_trick());
}

#[test]
fn a_pattern_is_written_and_never_taken_back(rt: HostRuntime) {
    writes_pattern(&rt, rt.alloc(), false);
    writes_pattern(&rt, rt.alloc(), true);
}

/// A bit whose being set means Err, or Ok where `not`, in bytes with it clear and with it set.
fn writes_bit(rt: &impl Abort, not: bool, offset: u64, mask: u8, clear: [u8; 2], set: [u8; 2]) {
    assert!(rt; offset < 2 && mask.is_power_of_two());
    let determinant = Determinant {
        not,
        test: Test::BitIsErr { offset, mask },
    };
    let mut bytes = clear;
    write(&determinant, not, &mut bytes);
    assert_eq!(rt; (bytes, determinant.is_det_ok(&bytes)), (set, not));
    write(&determinant, not, &mut bytes);
    assert_eq!(rt; bytes, set);
    write(&determinant, !not, &mut bytes);
    assert_eq!(rt; (bytes, determinant.is_det_ok(&bytes)), (clear, !not));
    assert!(rt; determinant.is_niche_trick());
}

#[test]
fn a_bit_is_set_and_cleared_alone(rt: HostRuntime) {
    for not in [false, true] {
        writes_bit(&rt, not, 0, 1, [6, 7], [7, 7]);
        writes_bit(&rt, not, 1, 4, [255, 0], [255, 4]);
        writes_bit(&rt, not, 1, 128, [0, 127], [0, 255]);
    }
}
