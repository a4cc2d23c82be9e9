//! Edits of values while they are packed, and of bytes that show one.

use crate::tests::{LE64, described, has_bytes, is_refused_by, replies};
use std::alloc::Global;
use std::test::Fail;

/// A result of two structs, where the byte at 6 tells the variants apart.
const PAIRS: &str =
    r#"{"result":[{"struct":{"name":"S","module":"demo","fields":[["f0","u32"],["f1","u8"]]}},{"struct":{"name":"S","module":"demo","fields":[["f0","u32"],["f1","u8"],["f2","u8"],["f3","bool"]]}}]}"#;

/// A struct of a number, an option, a result, an array and a reference.
const RECORD: &str =
    r#"{"struct":{"name":"S","module":"demo","fields":[["f0","u64"],["f1",{"option":"bool"}],["f2",{"result":["u16","NonZeroU8"]}],["f3",{"array":["u8",16]}],["f4",{"ref":"u8"}]]}}"#;

// A description, a value of it, edits, and the bytes of what they leave.
static PACKED: [(&str, &str, &str, &str); 14] = [
    (
        PAIRS,
        r#"{"ok":[1,2]}"#,
        r#"[{"path":["ok"],"value":[3,4]}]"#,
        "0300000004000200",
    ),
    (
        RECORD,
        r#"[7,{"some":true},{"ok":513},[0,1,2,3,4,5,6,7,8,9,10,11,12,13,14,15],4096]"#,
        r#"[{"path":[{"field":1}],"value":"none"},{"path":[{"field":2}],"value":{"err":9}}]"#,
        "0700000000000000020001000900000102030405060708090a0b0c0d0e0f00000010000000000000",
    ),
    // no edit, and each step into one byte
    (r#""u8""#, "5", "[]", "05"),
    (r#""u8""#, "5", r#"[{"path":[],"value":6}]"#, "06"),
    (
        r#"{"result":["u8","u8"]}"#,
        r#"{"ok":5}"#,
        r#"[{"path":["ok"],"value":6}]"#,
        "0006",
    ),
    (
        r#"{"result":["u8","u8"]}"#,
        r#"{"err":5}"#,
        r#"[{"path":["err"],"value":6}]"#,
        "0106",
    ),
    (
        r#"{"option":"bool"}"#,
        r#"{"some":false}"#,
        r#"[{"path":["some"],"value":true}]"#,
        "01",
    ),
    (
        r#"{"array":["u8",3]}"#,
        "[1,2,3]",
        r#"[{"path":[{"item":1}],"value":9}]"#,
        "010903",
    ),
    (
        r#"{"array":[{"option":"bool"},2]}"#,
        r#"["none",{"some":true}]"#,
        r#"[{"path":[{"item":1},"some"],"value":false}]"#,
        "0200",
    ),
    (
        r#"{"core_option":"NonZeroU8"}"#,
        r#"{"some":5}"#,
        r#"[{"path":["some"],"value":7}]"#,
        "07",
    ),
    // a wrapper takes no step of its own
    (
        r#"{"manually_drop":{"array":["u8",2]}}"#,
        "[1,2]",
        r#"[{"path":[{"item":0}],"value":7}]"#,
        "0702",
    ),
    // `none` has no bytes, and the variant is written anew
    (
        r#"{"option":"bool"}"#,
        r#"{"some":true}"#,
        r#"[{"path":[],"value":"none"}]"#,
        "02",
    ),
    // the second edit enters the variant that the first leaves
    (
        r#"{"result":["u8","u8"]}"#,
        r#"{"ok":5}"#,
        r#"[{"path":[],"value":{"err":6}},{"path":["err"],"value":7}]"#,
        "0107",
    ),
    // the last of two edits of one part counts
    (
        r#""u8""#,
        "5",
        r#"[{"path":[],"value":6},{"path":[],"value":7}]"#,
        "07",
    ),
];

#[test]
fn values_are_packed_as_edits_leave_them(rt: HostRuntime) -> Result<(), Fail> {
    let alloc = rt.alloc();
    for (desc, value, edits, digits) in &PACKED {
        let edited = format!(in alloc; "{value},\"edits\":{edits}")?;
        has_bytes(&rt, alloc, LE64, desc, &edited, digits)?;
    }
    Ok(())
}

#[test]
fn a_thousand_edits_in_turn(rt: HostRuntime) -> Result<(), Fail> {
    let alloc = rt.alloc();
    let two = r#",{"path":[],"value":"none"},{"path":[],"value":{"some":true}}"#.repeat(
        alloc, 500,
    )?;
    let edits = two.as_str().strip_prefix(',').ok_or("no comma")?;
    let edited = format!(in alloc; "{{\"some\":false}},\"edits\":[{edits}]")?;
    has_bytes(&rt, alloc, LE64, r#"{"option":"bool"}"#, &edited, "01")
}

// A description, bytes that show a value of it, edits, and the bytes that they leave.
static EDITED: [(&str, &str, &str, &str); 8] = [
    (
        PAIRS,
        "01000000020002aa",
        r#"[{"path":["ok"],"value":[3,4]}]"#,
        "0300000004000200",
    ),
    (
        PAIRS,
        "01000000020002aa",
        r#"[{"path":["ok",{"field":1}],"value":4}]"#,
        "01000000040002aa",
    ),
    (PAIRS, "01000000020002aa", "[]", "01000000020002aa"),
    ("\"()\"", "", r#"[{"path":[],"value":null}]"#, ""),
    // the tag is bit 0 of the first byte, and the other bits stay as they are unless they are replaced
    (
        r#"{"result":["u8","u8"]}"#,
        "fe05",
        r#"[{"path":["ok"],"value":6}]"#,
        "fe06",
    ),
    (
        r#"{"result":["u8","u8"]}"#,
        "fe05",
        r#"[{"path":[],"value":{"err":6}}]"#,
        "0106",
    ),
    (
        r#"{"result":["u8","u8"]}"#,
        "0005",
        r#"[{"path":[],"value":{"err":6}},{"path":["err"],"value":7}]"#,
        "0107",
    ),
    (
        r#"{"array":["u8",3]}"#,
        "0aFF0b",
        r#"[{"path":[{"item":2}],"value":12}]"#,
        "0aff0c",
    ),
];

// The document of `edit`.
fn editing(alloc: Global, desc: &str, digits: &str, edits: &str) -> Result<String, Fail> {
    let more = format!(in alloc; ",\"bytes\":\"{digits}\",\"edits\":{edits}")?;
    Ok(described(alloc, LE64, desc, &more)?)
}

#[test]
fn bytes_are_edited_in_place(rt: HostRuntime) -> Result<(), Fail> {
    let alloc = rt.alloc();
    for (desc, digits, edits, left) in &EDITED {
        let document = editing(alloc, desc, digits, edits)?;
        let space = if left.is_empty() { "" } else { " " };
        let line = format!(in alloc; "bytes{space}{left}\n")?;
        replies(&rt, alloc, "edit", document.as_bytes(), 0, &line)?;
    }
    Ok(())
}

// A description, a value of it and its bytes, edits, and the first fault.
static REFUSED: [(&str, &str, &str, &str, &str); 10] = [
    (
        r#"{"result":["u8","u8"]}"#,
        r#"{"ok":5}"#,
        "0005",
        r#"[{"path":[{"field":9}],"value":1}]"#,
        "NoSuchPath edit 0",
    ),
    (
        r#"{"result":["u8","u8"]}"#,
        r#"{"ok":5}"#,
        "0005",
        r#"[{"path":["err"],"value":1}]"#,
        "WrongVariant edit 0",
    ),
    (
        r#"{"result":["u8","u8"]}"#,
        r#"{"ok":5}"#,
        "0005",
        r#"[{"path":["ok"],"value":true}]"#,
        "WrongPart edit 0",
    ),
    (
        r#"{"result":["u8","u8"]}"#,
        r#"{"ok":5}"#,
        "0005",
        r#"[{"path":["some"],"value":1}]"#,
        "NoSuchPath edit 0",
    ),
    (
        r#"{"option":"bool"}"#,
        r#""none""#,
        "02",
        r#"[{"path":["some"],"value":true}]"#,
        "WrongVariant edit 0",
    ),
    (
        r#"{"array":["u8",3]}"#,
        "[1,2,3]",
        "010203",
        r#"[{"path":[{"item":2}],"value":1},{"path":[{"item":3}],"value":1}]"#,
        "NoSuchPath edit 1",
    ),
    (
        r#"{"array":["u8",3]}"#,
        "[1,2,3]",
        "010203",
        r#"[{"path":[{"field":0}],"value":1}]"#,
        "NoSuchPath edit 0",
    ),
    // the first step that fails counts, before what is to be put there
    (
        r#"{"result":["u8","u8"]}"#,
        r#"{"ok":5}"#,
        "0005",
        r#"[{"path":["err",{"field":0}],"value":true}]"#,
        "WrongVariant edit 0",
    ),
    // the first edit leaves the other variant
    (
        r#"{"result":["u8","u8"]}"#,
        r#"{"ok":5}"#,
        "0005",
        r#"[{"path":[],"value":{"err":6}},{"path":["ok"],"value":7}]"#,
        "WrongVariant edit 1",
    ),
    // the first edit that fails counts
    (
        r#""u8""#,
        "5",
        "05",
        r#"[{"path":[],"value":6},{"path":[],"value":256},{"path":["ok"],"value":7}]"#,
        "WrongPart edit 1",
    ),
];

#[test]
fn edits_that_have_a_fault(rt: HostRuntime) -> Result<(), Fail> {
    let alloc = rt.alloc();
    for (desc, value, digits, edits, fault) in &REFUSED {
        let more = format!(in alloc; ",\"value\":{value},\"edits\":{edits}")?;
        let packing = described(alloc, LE64, desc, &more)?;
        is_refused_by(&rt, alloc, "pack", &packing, fault)?;
        let editing = editing(alloc, desc, digits, edits)?;
        is_refused_by(&rt, alloc, "edit", &editing, fault)?;
    }
    Ok(())
}

// A description, bytes, and what is wrong before any edit is.
static NO_VALUE: [(&str, &str, &str); 5] = [
    (r#"{"result":["u8","u8"]}"#, "00", "WrongLength"),
    (r#"{"result":["u8","u8"]}"#, "000500", "WrongLength"),
    (r#"{"option":"bool"}"#, "0302", "WrongLength"),
    (r#"{"option":"bool"}"#, "03", "IllegalBytes"),
    (r#"{"array":["u8",129]}"#, "00", "ArrayLength part 1"),
];

#[test]
fn bytes_that_show_no_value_are_not_edited(rt: HostRuntime) -> Result<(), Fail> {
    let alloc = rt.alloc();
    for (desc, digits, fault) in &NO_VALUE {
        let editing = editing(alloc, desc, digits, r#"[{"path":[{"field":9}],"value":1}]"#)?;
        is_refused_by(&rt, alloc, "edit", &editing, fault)?;
    }
    Ok(())
}

#[test]
fn a_value_that_does_not_fit_is_told_before_its_edits(rt: HostRuntime) -> Result<(), Fail> {
    let alloc = rt.alloc();
    let more = r#","value":256,"edits":[{"path":["ok"],"value":1}]"#;
    let packing = described(alloc, LE64, r#""u8""#, more)?;
    is_refused_by(&rt, alloc, "pack", &packing, "WrongValue")
}
