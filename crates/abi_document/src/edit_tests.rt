//! Edits: each step once, and trees that are none.

use crate::Command;
use crate::tests::told_of;
use std::alloc::Global;
use std::test::Fail;

// The job of packing 7 and editing it, or `none`.
fn packing_told(alloc: Global, edits: &str) -> Result<String, Fail> {
    let front = "{\"target\":\"le64\",\"desc\":\"u8\",\"value\":7,\"edits\":";
    told_of(
        alloc,
        Command::Pack,
        &format!(in alloc; "{front}{edits}}}")?,
    )
}

// The job of editing a byte 7, or `none`.
fn editing_told(alloc: Global, edits: &str) -> Result<String, Fail> {
    let front = "{\"target\":\"le64\",\"desc\":\"u8\",\"bytes\":\"07\",\"edits\":";
    told_of(
        alloc,
        Command::Edit,
        &format!(in alloc; "{front}{edits}}}")?,
    )
}

// Arrays, and the edits that each tells.
static EDITS: [(&str, &str); 6] = [
    ("[]", ""),
    (r#"[{"path":[],"value":null}]"#, " then to unit"),
    (
        r#"[{"value":9,"path":["ok","err","some"]}]"#,
        " then ok err some to +9",
    ),
    (
        r#"[{"path":[{"field":0},{"item":4294967295}],"value":"none"}]"#,
        " then field 0 item 4294967295 to none",
    ),
    (
        r#"[{"path":[{"field":1}],"value":2},{"path":[{"item":3}],"value":4}]"#,
        " then field 1 to +2 then item 3 to +4",
    ),
    (
        r#"[{"path":["err"],"path":["ok"],"value":1}]"#,
        " then ok to +1",
    ),
];

#[test]
fn edits_stand_in_order(rt: HostRuntime) -> Result<(), Fail> {
    let alloc = rt.alloc();
    for (edits, text) in &EDITS {
        let packing = format!(in alloc; "U8 = +7{text}")?;
        assert_eq!(rt; packing_told(alloc, edits)?, packing, "{edits}");
        let editing = format!(in alloc; "U8 in 7{text}")?;
        assert_eq!(rt; editing_told(alloc, edits)?, editing, "{edits}");
    }
    Ok(())
}

// No arrays of edits, paths that are none, and steps that are none: a number of more than 32 bits is none of a step's.
static NO_EDITS: [&str; 19] = [
    "null",
    "{}",
    r#""""#,
    "0",
    "[null]",
    "[[]]",
    r#"[{"path":[],"value":1},0]"#,
    r#"[{"path":"ok","value":1}]"#,
    r#"[{"path":{"field":0},"value":1}]"#,
    r#"[{"path":[null],"value":1}]"#,
    r#"[{"path":[0],"value":1}]"#,
    r#"[{"path":["none"],"value":1}]"#,
    r#"[{"path":["Ok"],"value":1}]"#,
    r#"[{"path":["ok",["err"]],"value":1}]"#,
    r#"[{"path":[{"field":4294967296}],"value":1}]"#,
    r#"[{"path":[{"item":4294967296}],"value":1}]"#,
    r#"[{"path":[{"field":-1}],"value":1}]"#,
    r#"[{"path":[{"item":"0"}],"value":1}]"#,
    r#"[{"path":[{"ok":0}],"value":1}]"#,
];

#[test]
fn trees_that_are_no_edits(rt: HostRuntime) -> Result<(), Fail> {
    for edits in &NO_EDITS {
        assert_eq!(rt;
            packing_told(rt.alloc(), edits)?.as_str(),
            "none",
            "{edits}"
        );
        assert_eq!(rt;
            editing_told(rt.alloc(), edits)?.as_str(),
            "none",
            "{edits}"
        );
    }
    Ok(())
}
