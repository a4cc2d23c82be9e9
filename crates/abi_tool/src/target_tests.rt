//! Targets by name and by their four fields: alignments, the order of bytes, and what is none.

use crate::tests::{described, has_bytes, is_laid_out, is_refused_by, replies};
use std::alloc::{AllocError, Global};
use std::process::Abort;
use std::test::Fail;

/// A target, by name and by its fields.
struct Row {
    target: &'static str,
    fields: &'static str,
    little: bool,
    pointer: u64,
    u64_align: u64,
    u128_align: u64,
}

static TARGETS: [Row; 7] = [
    Row {
        target: r#""le64""#,
        fields: r#"{"little":true,"pointer":8,"u64_align":8,"u128_align":16}"#,
        little: true,
        pointer: 8,
        u64_align: 8,
        u128_align: 16,
    },
    Row {
        target: r#""le64o""#,
        fields: r#"{"little":true,"pointer":8,"u64_align":8,"u128_align":8}"#,
        little: true,
        pointer: 8,
        u64_align: 8,
        u128_align: 8,
    },
    Row {
        target: r#""be64""#,
        fields: r#"{"little":false,"pointer":8,"u64_align":8,"u128_align":16}"#,
        little: false,
        pointer: 8,
        u64_align: 8,
        u128_align: 16,
    },
    Row {
        target: r#""le32""#,
        fields: r#"{"little":true,"pointer":4,"u64_align":8,"u128_align":16}"#,
        little: true,
        pointer: 4,
        u64_align: 8,
        u128_align: 16,
    },
    Row {
        target: r#""le32o""#,
        fields: r#"{"little":true,"pointer":4,"u64_align":4,"u128_align":16}"#,
        little: true,
        pointer: 4,
        u64_align: 4,
        u128_align: 16,
    },
    Row {
        target: r#""be32""#,
        fields: r#"{"little":false,"pointer":4,"u64_align":8,"u128_align":8}"#,
        little: false,
        pointer: 4,
        u64_align: 8,
        u128_align: 8,
    },
    Row {
        target: r#""le16""#,
        fields: r#"{"little":true,"pointer":2,"u64_align":4,"u128_align":8}"#,
        little: true,
        pointer: 2,
        u64_align: 4,
        u128_align: 8,
    },
];

// A struct of a byte and an integer.
fn behind_a_byte(alloc: Global, integer: &str) -> Result<String, AllocError> {
    format!(in alloc;
        "{{\"struct\":{{\"name\":\"S\",\"module\":\"demo\",\"fields\":[[\"f0\",\"u8\"],[\"f1\",\"{integer}\"]]}}}}"
    )
}

// The integer starts at its alignment, and the bytes up to there are free. Its size is a multiple of the alignment.
fn lines_of(alloc: Global, size: u64, align: u64) -> Result<String, AllocError> {
    let whole = size.saturating_add(align);
    let mut lines = format!(in alloc;
        "size {whole}\nalign {align}\nniches many\nindirections no\nfree"
    )?;
    for at in 1..align {
        lines.push_str(format!(in alloc; " {at}:255")?.as_str())?;
    }
    lines.push_str("\nforbidden\n")?;
    Ok(lines)
}

fn are_aligned(rt: &impl Abort, alloc: Global, target: &str, row: &Row) -> Result<(), Fail> {
    for (integer, size, align) in [
        ("u32", 4, 4),
        ("u64", 8, row.u64_align),
        ("u128", 16, row.u128_align),
        ("usize", row.pointer, row.pointer),
    ] {
        let desc = behind_a_byte(alloc, integer)?;
        let lines = lines_of(alloc, size, align)?;
        is_laid_out(rt, alloc, target, desc.as_str(), lines.as_str())?;
    }
    // 258 is 1 times 256 and 2
    let digits = if row.little { "0201" } else { "0102" };
    has_bytes(rt, alloc, target, "\"u16\"", "258", digits)
}

#[test]
fn targets_by_name_and_by_their_fields(rt: HostRuntime) -> Result<(), Fail> {
    let alloc = rt.alloc();
    for row in &TARGETS {
        are_aligned(&rt, alloc, row.target, row)?;
        are_aligned(&rt, alloc, row.fields, row)?;
    }
    Ok(())
}

// Four fields that are those of no target.
static NO_ROWS: [&str; 12] = [
    r#"{"little":true,"pointer":3,"u64_align":8,"u128_align":16}"#,
    r#"{"little":true,"pointer":0,"u64_align":0,"u128_align":0}"#,
    r#"{"little":false,"pointer":8,"u64_align":8,"u128_align":8}"#,
    r#"{"little":true,"pointer":4,"u64_align":8,"u128_align":8}"#,
    r#"{"little":false,"pointer":4,"u64_align":8,"u128_align":16}"#,
    r#"{"little":false,"pointer":2,"u64_align":4,"u128_align":8}"#,
    r#"{"little":true,"pointer":2,"u64_align":4,"u128_align":16}"#,
    r#"{"little":true,"pointer":2,"u64_align":8,"u128_align":8}"#,
    r#"{"little":true,"pointer":8,"u64_align":4,"u128_align":16}"#,
    r#"{"little":true,"pointer":8,"u64_align":8,"u128_align":4}"#,
    r#"{"little":true,"pointer":16,"u64_align":8,"u128_align":16}"#,
    r#"{"little":true,"pointer":18446744073709551615,"u64_align":8,"u128_align":16}"#,
];

// The target is told before what is wrong with the description, the value or the bytes.
#[test]
fn fields_that_are_no_supported_target(rt: HostRuntime) -> Result<(), Fail> {
    let alloc = rt.alloc();
    let ill = r#"{"array":["u8",129]}"#;
    for target in &NO_ROWS {
        let document = described(alloc, target, ill, "")?;
        is_refused_by(&rt, alloc, "layout", document.as_str(), "BadTarget")?;
        let document = described(alloc, target, ill, ",\"value\":true")?;
        is_refused_by(&rt, alloc, "pack", document.as_str(), "BadTarget")?;
        let document = described(alloc, target, ill, ",\"bytes\":\"00\"")?;
        is_refused_by(&rt, alloc, "read", document.as_str(), "BadTarget")?;
    }
    Ok(())
}

// What is no target.
static NO_TARGETS: [&str; 21] = [
    r#""le65""#,
    r#""LE64""#,
    r#""""#,
    r#""be16""#,
    r#"64"#,
    r#"null"#,
    r#"["le64"]"#,
    r#"true"#,
    r#"{}"#,
    r#"{"little":1,"pointer":8,"u64_align":8,"u128_align":16}"#,
    r#"{"little":"true","pointer":8,"u64_align":8,"u128_align":16}"#,
    r#"{"little":true,"pointer":-8,"u64_align":8,"u128_align":16}"#,
    r#"{"little":true,"pointer":8.0,"u64_align":8,"u128_align":16}"#,
    r#"{"little":true,"pointer":"8","u64_align":8,"u128_align":16}"#,
    r#"{"little":true,"pointer":8,"u64_align":null,"u128_align":16}"#,
    r#"{"little":true,"pointer":8,"u64_align":8,"u128_align":18446744073709551616}"#,
    r#"{"pointer":8,"u64_align":8,"u128_align":16}"#,
    r#"{"little":true,"u64_align":8,"u128_align":16}"#,
    r#"{"little":true,"pointer":8,"u128_align":16}"#,
    r#"{"little":true,"pointer":8,"u64_align":8}"#,
    r#"{"little":true,"pointer":8,"u64_align":8,"u128_align":16,"name":"le64"}"#,
];

#[test]
fn what_is_no_target(rt: HostRuntime) -> Result<(), Fail> {
    let alloc = rt.alloc();
    for target in &NO_TARGETS {
        let document = described(alloc, target, "\"u8\"", "")?;
        replies(&rt, alloc, "layout", document.as_bytes(), 6, "not a job\n")?;
    }
    Ok(())
}

// Results and pointers on targets of other widths and other orders.
#[test]
fn sums_on_other_targets(rt: HostRuntime) -> Result<(), Fail> {
    let alloc = rt.alloc();
    for (target, desc, value, digits) in [
        // a tag, one byte of padding, and 1 times 256 and 2, the most significant byte first
        (
            r#""be32""#,
            r#"{"result":["u8","u16"]}"#,
            r#"{"err":258}"#,
            "00000102",
        ),
        (
            r#""le32""#,
            r#"{"result":["u8","u16"]}"#,
            r#"{"err":258}"#,
            "00000201",
        ),
        (
            r#""be32""#,
            r#"{"result":["u8","u16"]}"#,
            r#"{"ok":7}"#,
            "01000700",
        ),
        (
            r#""le16""#,
            r#"{"option":{"ref":"u8"}}"#,
            r#""none""#,
            "0000",
        ),
        (
            r#""be32""#,
            r#"{"option":{"ref":"u8"}}"#,
            r#"{"some":258}"#,
            "00000102",
        ),
        // four bytes for the tag, since an integer of 64 bits is aligned to 4
        (
            r#""le32o""#,
            r#"{"option":"u64"}"#,
            r#"{"some":258}"#,
            "000000000201000000000000",
        ),
        (
            r#""le32""#,
            r#"{"option":"u64"}"#,
            r#"{"some":258}"#,
            "00000000000000000201000000000000",
        ),
        (
            r#""be64""#,
            r#"{"option":"u64"}"#,
            r#""none""#,
            "01000000000000000000000000000000",
        ),
    ] {
        has_bytes(&rt, alloc, target, desc, value, digits)?;
    }
    Ok(())
}
