//! Primitives and pointers on several targets: their layouts, and the bytes of their values.

use crate::tests::{described, has_bytes, is_laid_out, is_read, is_refused_by};
use std::alloc::{AllocError, Global};
use std::process::Abort;
use std::test::Fail;

/// Primitives of one layout: size and alignment on each of `TARGETS`, and what they forbid; `None` for bytes that are
/// never all 0.
struct Primitive {
    descs: &'static [&'static str],
    sizes: [(u64, u64); 4],
    niches: &'static str,
    indirections: &'static str,
    forbidden: Option<&'static str>,
}

static TARGETS: [&str; 4] = [r#""le64""#, r#""le16""#, r#""le32o""#, r#""be32""#];

// Pointers have 8, 2, 4 and 4 bytes there, integers of 64 bits are aligned to 8, 4, 4 and 8, those of 128 bits to 16,
// 8, 16 and 8.
static PRIMITIVES: [Primitive; 18] = [
    Primitive {
        descs: &[
            r#""()""#,
            r#""PhantomData""#,
            r#""PhantomPinned""#,
            r#""c_void""#,
        ],
        sizes: [(0, 1), (0, 1), (0, 1), (0, 1)],
        niches: "0",
        indirections: "no",
        forbidden: Some(""),
    },
    Primitive {
        descs: &[r#""bool""#, r#""AtomicBool""#],
        sizes: [(1, 1), (1, 1), (1, 1), (1, 1)],
        niches: "many",
        indirections: "no",
        forbidden: Some(" 0=2-255"),
    },
    Primitive {
        descs: &[r#""Ordering""#],
        sizes: [(1, 1), (1, 1), (1, 1), (1, 1)],
        niches: "many",
        indirections: "no",
        forbidden: Some(" 0=2-254"),
    },
    Primitive {
        descs: &[r#""u8""#, r#""i8""#, r#""AtomicU8""#, r#""AtomicI8""#],
        sizes: [(1, 1), (1, 1), (1, 1), (1, 1)],
        niches: "0",
        indirections: "no",
        forbidden: Some(""),
    },
    Primitive {
        descs: &[r#""u16""#, r#""i16""#, r#""AtomicU16""#, r#""AtomicI16""#],
        sizes: [(2, 2), (2, 2), (2, 2), (2, 2)],
        niches: "0",
        indirections: "no",
        forbidden: Some(""),
    },
    Primitive {
        descs: &[r#""u32""#, r#""i32""#, r#""AtomicU32""#, r#""AtomicI32""#],
        sizes: [(4, 4), (4, 4), (4, 4), (4, 4)],
        niches: "0",
        indirections: "no",
        forbidden: Some(""),
    },
    Primitive {
        descs: &[r#""u64""#, r#""i64""#],
        sizes: [(8, 8), (8, 4), (8, 4), (8, 8)],
        niches: "0",
        indirections: "no",
        forbidden: Some(""),
    },
    Primitive {
        descs: &[r#""AtomicU64""#, r#""AtomicI64""#],
        sizes: [(8, 8), (8, 8), (8, 8), (8, 8)],
        niches: "0",
        indirections: "no",
        forbidden: Some(""),
    },
    Primitive {
        descs: &[r#""u128""#, r#""i128""#],
        sizes: [(16, 16), (16, 8), (16, 16), (16, 8)],
        niches: "0",
        indirections: "no",
        forbidden: Some(""),
    },
    Primitive {
        descs: &[
            r#""usize""#,
            r#""isize""#,
            r#""AtomicUsize""#,
            r#""AtomicIsize""#,
        ],
        sizes: [(8, 8), (2, 2), (4, 4), (4, 4)],
        niches: "0",
        indirections: "no",
        forbidden: Some(""),
    },
    Primitive {
        descs: &[
            r#""NonZeroU8""#,
            r#""NonZeroI8""#,
            r#""NonMaxU8""#,
            r#"{"non_x":["u8",1]}"#,
            r#"{"non_x":["i8",1]}"#,
        ],
        sizes: [(1, 1), (1, 1), (1, 1), (1, 1)],
        niches: "1",
        indirections: "no",
        forbidden: None,
    },
    Primitive {
        descs: &[
            r#""NonZeroU16""#,
            r#""NonZeroI16""#,
            r#""NonMaxU16""#,
            r#"{"non_x":["u16",1]}"#,
            r#"{"non_x":["i16",1]}"#,
        ],
        sizes: [(2, 2), (2, 2), (2, 2), (2, 2)],
        niches: "1",
        indirections: "no",
        forbidden: None,
    },
    Primitive {
        descs: &[
            r#""NonZeroU32""#,
            r#""NonZeroI32""#,
            r#""NonMaxU32""#,
            r#"{"non_x":["u32",1]}"#,
            r#"{"non_x":["i32",1]}"#,
        ],
        sizes: [(4, 4), (4, 4), (4, 4), (4, 4)],
        niches: "1",
        indirections: "no",
        forbidden: None,
    },
    Primitive {
        descs: &[
            r#""NonZeroU64""#,
            r#""NonZeroI64""#,
            r#""NonMaxU64""#,
            r#"{"non_x":["u64",1]}"#,
            r#"{"non_x":["i64",1]}"#,
        ],
        sizes: [(8, 8), (8, 4), (8, 4), (8, 8)],
        niches: "1",
        indirections: "no",
        forbidden: None,
    },
    Primitive {
        descs: &[
            r#""NonZeroU128""#,
            r#""NonZeroI128""#,
            r#""NonMaxU128""#,
            r#"{"non_x":["u128",1]}"#,
            r#"{"non_x":["i128",1]}"#,
        ],
        sizes: [(16, 16), (16, 8), (16, 16), (16, 8)],
        niches: "1",
        indirections: "no",
        forbidden: None,
    },
    Primitive {
        descs: &[
            r#""NonZeroUsize""#,
            r#""NonZeroIsize""#,
            r#""NonMaxUsize""#,
            r#"{"non_x":["usize",1]}"#,
            r#"{"non_x":["isize",1]}"#,
        ],
        sizes: [(8, 8), (2, 2), (4, 4), (4, 4)],
        niches: "1",
        indirections: "no",
        forbidden: None,
    },
    Primitive {
        descs: &[r#""OwnedFd""#, r#""BorrowedFd""#],
        sizes: [(4, 4), (4, 4), (4, 4), (4, 4)],
        niches: "many",
        indirections: "yes",
        forbidden: Some(""),
    },
    Primitive {
        descs: &[r#""fn""#],
        sizes: [(8, 8), (2, 2), (4, 4), (4, 4)],
        niches: "1",
        indirections: "yes",
        forbidden: None,
    },
];

// The lines of a layout. Bytes that are never all 0 forbid one pattern: each of them is 0.
fn lines_of(
    alloc: Global,
    primitive: &Primitive,
    size: u64,
    align: u64,
) -> Result<String, AllocError> {
    let niches = primitive.niches;
    let indirections = primitive.indirections;
    let mut lines = format!(in alloc; "size {size}\nalign {align}\nniches {niches}\n")?;
    lines.push_str(format!(in alloc; "indirections {indirections}\nfree\nforbidden")?.as_str())?;
    match primitive.forbidden {
        Some(forbidden) => lines.push_str(forbidden)?,
        None => lines.push_str(zeros(alloc, size)?.as_str())?,
    }
    lines.push_str("\n")?;
    Ok(lines)
}

fn zeros(alloc: Global, size: u64) -> Result<String, AllocError> {
    let mut pattern = String::new(alloc);
    for at in 0..size {
        pattern.push_str(if at == 0 { " " } else { "," })?;
        pattern.push_str(format!(in alloc; "{at}=0")?.as_str())?;
    }
    Ok(pattern)
}

fn is_on_targets(rt: &impl Abort, alloc: Global, primitive: &Primitive) -> Result<(), Fail> {
    for (target, (size, align)) in TARGETS.iter().zip(primitive.sizes.iter()) {
        let lines = lines_of(alloc, primitive, *size, *align)?;
        for desc in primitive.descs {
            is_laid_out(rt, alloc, target, desc, lines.as_str())?;
        }
    }
    Ok(())
}

#[test]
fn layouts_of_primitives(rt: HostRuntime) -> Result<(), Fail> {
    for primitive in &PRIMITIVES {
        is_on_targets(&rt, rt.alloc(), primitive)?;
    }
    Ok(())
}

// A target, a description, a value as it is written, and its bytes, worked out by hand: plain integers, truth values,
// orders.
static PLAIN: [(&str, &str, &str, &str); 29] = [
    // without bytes
    (r#""le64""#, r#""PhantomData""#, r#"null"#, ""),
    (r#""le64""#, r#""PhantomPinned""#, r#"null"#, ""),
    (r#""le64""#, r#""c_void""#, r#"null"#, ""),
    (r#""le64""#, r#""AtomicBool""#, r#"true"#, "01"),
    (r#""le64""#, r#""Ordering""#, r#""less""#, "ff"),
    (r#""le64""#, r#""Ordering""#, r#""equal""#, "00"),
    (r#""le64""#, r#""Ordering""#, r#""greater""#, "01"),
    // 258 is 1 times 256 and 2, and -2 all ones but the last digit
    (r#""le64""#, r#""AtomicU8""#, r#"255"#, "ff"),
    (r#""le64""#, r#""AtomicI8""#, r#"-2"#, "fe"),
    (r#""le64""#, r#""AtomicU16""#, r#"258"#, "0201"),
    (r#""be32""#, r#""AtomicU16""#, r#"258"#, "0102"),
    (r#""le64""#, r#""AtomicI16""#, r#"-2"#, "feff"),
    (r#""be64""#, r#""AtomicI16""#, r#"-2"#, "fffe"),
    (r#""le64""#, r#""AtomicU32""#, r#"258"#, "02010000"),
    (r#""le64""#, r#""AtomicI32""#, r#"-2"#, "feffffff"),
    (r#""be64""#, r#""AtomicU32""#, r#"258"#, "00000102"),
    (r#""le64""#, r#""AtomicU64""#, r#"258"#, "0201000000000000"),
    (r#""le64""#, r#""AtomicI64""#, r#"-2"#, "feffffffffffffff"),
    (r#""be64""#, r#""u32""#, r#"1"#, "00000001"),
    (
        r#""be64""#,
        r#""u128""#,
        r#"258"#,
        "00000000000000000000000000000102",
    ),
    (r#""be64""#, r#""i64""#, r#"-2"#, "fffffffffffffffe"),
    // as wide as a pointer
    (
        r#""le64""#,
        r#""usize""#,
        r#"18446744073709551615"#,
        "ffffffffffffffff",
    ),
    (r#""le16""#, r#""usize""#, r#"65535"#, "ffff"),
    (r#""be32""#, r#""usize""#, r#"258"#, "00000102"),
    (
        r#""le64""#,
        r#""isize""#,
        r#"-9223372036854775808"#,
        "0000000000000080",
    ),
    (r#""le16""#, r#""isize""#, r#"-32768"#, "0080"),
    (r#""le32o""#, r#""isize""#, r#"2147483647"#, "ffffff7f"),
    (r#""le16""#, r#""AtomicUsize""#, r#"258"#, "0201"),
    (r#""le16""#, r#""AtomicIsize""#, r#"-2"#, "feff"),
];

// A target, a description, a value as it is written, and its bytes, worked out by hand: integers that are never
// 0 or never the greatest.
static RESTRICTED: [(&str, &str, &str, &str); 17] = [
    // all but 0
    (r#""le64""#, r#""NonZeroI8""#, r#"-1"#, "ff"),
    (r#""le64""#, r#""NonZeroI16""#, r#"-2"#, "feff"),
    (r#""le64""#, r#""NonZeroI32""#, r#"2147483647"#, "ffffff7f"),
    (r#""le64""#, r#""NonZeroI64""#, r#"-2"#, "feffffffffffffff"),
    (
        r#""le64""#,
        r#""NonZeroI128""#,
        r#"-2"#,
        "feffffffffffffffffffffffffffffff",
    ),
    (r#""le16""#, r#""NonZeroUsize""#, r#"258"#, "0201"),
    (r#""le16""#, r#""NonZeroIsize""#, r#"-2"#, "feff"),
    // all but the greatest: each digit is turned over
    (r#""le64""#, r#""NonMaxU8""#, r#"5"#, "fa"),
    (r#""le64""#, r#""NonMaxU8""#, r#"0"#, "ff"),
    (r#""le64""#, r#""NonMaxU8""#, r#"254"#, "01"),
    (r#""le64""#, r#""NonMaxU16""#, r#"258"#, "fdfe"),
    (r#""be32""#, r#""NonMaxU16""#, r#"258"#, "fefd"),
    (r#""le64""#, r#""NonMaxU32""#, r#"258"#, "fdfeffff"),
    (
        r#""le64""#,
        r#""NonMaxU64""#,
        r#"18446744073709551614"#,
        "0100000000000000",
    ),
    (
        r#""le64""#,
        r#""NonMaxU128""#,
        r#"0"#,
        "ffffffffffffffffffffffffffffffff",
    ),
    (
        r#""le64""#,
        r#""NonMaxU128""#,
        r#""340282366920938463463374607431768211454""#,
        "01000000000000000000000000000000",
    ),
    (r#""le16""#, r#""NonMaxUsize""#, r#"65534"#, "0100"),
];

// A target, a description, a value as it is written, and its bytes, worked out by hand: integers that are never
// one number, descriptors, functions, pointers.
static OTHERS: [(&str, &str, &str, &str); 29] = [
    // all but one number: what stands is the distance above it, modulo 256 for one byte
    (r#""le64""#, r#"{"non_x":["u8",72]}"#, r#"73"#, "01"),
    (r#""le64""#, r#"{"non_x":["u8",72]}"#, r#"71"#, "ff"),
    (r#""le64""#, r#"{"non_x":["u8",72]}"#, r#"0"#, "b8"),
    (r#""le64""#, r#"{"non_x":["u8",72]}"#, r#"255"#, "b7"),
    (r#""le64""#, r#"{"non_x":["i8",-128]}"#, r#"-127"#, "01"),
    (r#""le64""#, r#"{"non_x":["i8",-128]}"#, r#"127"#, "ff"),
    (r#""le64""#, r#"{"non_x":["i8",127]}"#, r#"-128"#, "01"),
    (r#""le64""#, r#"{"non_x":["i8",127]}"#, r#"126"#, "ff"),
    (r#""le64""#, r#"{"non_x":["i8","-1"]}"#, r#"0"#, "01"),
    (r#""le64""#, r#"{"non_x":["u16",258]}"#, r#"259"#, "0100"),
    (r#""be64""#, r#"{"non_x":["u16",258]}"#, r#"259"#, "0001"),
    (r#""le64""#, r#"{"non_x":["i16",-1]}"#, r#"-2"#, "ffff"),
    (r#""le64""#, r#"{"non_x":["u32",0]}"#, r#"256"#, "00010000"),
    (r#""le64""#, r#"{"non_x":["i32",5]}"#, r#"4"#, "ffffffff"),
    (
        r#""le64""#,
        r#"{"non_x":["u64",1]}"#,
        r#"0"#,
        "ffffffffffffffff",
    ),
    (
        r#""le64""#,
        r#"{"non_x":["i64",1]}"#,
        r#"3"#,
        "0200000000000000",
    ),
    (
        r#""le64""#,
        r#"{"non_x":["u128","340282366920938463463374607431768211455"]}"#,
        r#"0"#,
        "01000000000000000000000000000000",
    ),
    (
        r#""le64""#,
        r#"{"non_x":["i128",0]}"#,
        r#"-1"#,
        "ffffffffffffffffffffffffffffffff",
    ),
    (r#""be32""#, r#"{"non_x":["usize",1]}"#, r#"2"#, "00000001"),
    (r#""le16""#, r#"{"non_x":["isize",5]}"#, r#"6"#, "0100"),
    (r#""le16""#, r#"{"non_x":["usize",65535]}"#, r#"0"#, "0100"),
    // descriptors and functions
    (r#""le64""#, r#""OwnedFd""#, r#"-1"#, "ffffffff"),
    (r#""le64""#, r#""BorrowedFd""#, r#"3"#, "03000000"),
    (r#""le64""#, r#""fn""#, r#"4096"#, "0010000000000000"),
    (r#""be32""#, r#""fn""#, r#"4096"#, "00001000"),
    (r#""le16""#, r#""fn""#, r#"65535"#, "ffff"),
    // pointers
    (r#""le16""#, r#"{"const_ptr":"u64"}"#, r#"0"#, "0000"),
    (r#""be32""#, r#"{"ref":"u64"}"#, r#"4096"#, "00001000"),
    (r#""le16""#, r#"{"non_null":"u8"}"#, r#"65535"#, "ffff"),
];

fn are_bytes_of(
    rt: &impl Abort,
    alloc: Global,
    rows: &[(&str, &str, &str, &str)],
) -> Result<(), Fail> {
    for (target, desc, value, digits) in rows {
        has_bytes(rt, alloc, target, desc, value, digits)?;
        is_read(rt, alloc, target, desc, digits, value)?;
    }
    Ok(())
}

#[test]
fn values_of_plain_primitives(rt: HostRuntime) -> Result<(), Fail> {
    are_bytes_of(&rt, rt.alloc(), &PLAIN)
}

#[test]
fn values_of_restricted_integers(rt: HostRuntime) -> Result<(), Fail> {
    are_bytes_of(&rt, rt.alloc(), &RESTRICTED)
}

#[test]
fn values_of_other_primitives(rt: HostRuntime) -> Result<(), Fail> {
    are_bytes_of(&rt, rt.alloc(), &OTHERS)
}

// A target, a description, and what is no value of it, though it is one of some other.
static OTHER_VALUES: [(&str, &str, &str); 37] = [
    (r#""le64""#, r#""PhantomData""#, r#"0"#),
    (r#""le64""#, r#""PhantomPinned""#, r#"0"#),
    (r#""le64""#, r#""c_void""#, r#"0"#),
    (r#""le64""#, r#""AtomicBool""#, r#"1"#),
    (r#""le64""#, r#""Ordering""#, r#"1"#),
    (r#""le64""#, r#""Ordering""#, r#"true"#),
    (r#""le64""#, r#""u8""#, r#""less""#),
    (r#""le64""#, r#""AtomicU8""#, r#"256"#),
    (r#""le64""#, r#""AtomicI8""#, r#"-129"#),
    (r#""le64""#, r#""usize""#, r#""18446744073709551616""#),
    (r#""le16""#, r#""usize""#, r#"65536"#),
    (r#""le16""#, r#""usize""#, r#"-1"#),
    (r#""be32""#, r#""isize""#, r#"2147483648"#),
    (r#""be32""#, r#""isize""#, r#"-2147483649"#),
    (r#""le16""#, r#""AtomicUsize""#, r#"65536"#),
    (r#""le16""#, r#""AtomicIsize""#, r#"32768"#),
    (r#""le64""#, r#""NonZeroI8""#, r#"0"#),
    (r#""le64""#, r#""NonZeroI8""#, r#"128"#),
    (r#""le64""#, r#""NonZeroI128""#, r#"0"#),
    (r#""le16""#, r#""NonZeroUsize""#, r#"0"#),
    (r#""le64""#, r#""NonMaxU8""#, r#"255"#),
    (r#""le64""#, r#""NonMaxU8""#, r#"256"#),
    (r#""le64""#, r#""NonMaxU8""#, r#"-1"#),
    (
        r#""le64""#,
        r#""NonMaxU128""#,
        r#""340282366920938463463374607431768211455""#,
    ),
    (r#""le16""#, r#""NonMaxUsize""#, r#"65535"#),
    (r#""le64""#, r#"{"non_x":["u8",72]}"#, r#"72"#),
    (r#""le64""#, r#"{"non_x":["u8",72]}"#, r#"256"#),
    (r#""le64""#, r#"{"non_x":["i8",-128]}"#, r#"-128"#),
    (r#""le64""#, r#"{"non_x":["i8",-128]}"#, r#"128"#),
    (r#""le64""#, r#"{"non_x":["i128",0]}"#, r#"0"#),
    (r#""le64""#, r#""OwnedFd""#, r#"2147483648"#),
    (r#""le64""#, r#""fn""#, r#"0"#),
    (r#""le16""#, r#""fn""#, r#"65536"#),
    (r#""le64""#, r#"{"ref":"u8"}"#, r#"0"#),
    (r#""le16""#, r#"{"ref_mut":"u8"}"#, r#"65536"#),
    (r#""le64""#, r#"{"const_ptr":"u8"}"#, r#"-1"#),
    (
        r#""le64""#,
        r#"{"mut_ptr":"u8"}"#,
        r#""18446744073709551616""#,
    ),
];

#[test]
fn what_is_no_value_of_a_primitive(rt: HostRuntime) -> Result<(), Fail> {
    let alloc = rt.alloc();
    for (target, desc, value) in &OTHER_VALUES {
        let more = format!(in alloc; ",\"value\":{value}")?;
        let document = described(alloc, target, desc, more.as_str())?;
        is_refused_by(&rt, alloc, "pack", document.as_str(), "WrongValue")?;
    }
    Ok(())
}
