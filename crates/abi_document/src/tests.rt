//! Documents of each command: their keys, targets and bytes.

use crate::told::told;
use crate::{Command, Job, job_of};
use abi_num::Target;
use serde_json::Value as Json;
use std::alloc::{AllocError, Global};
use std::test::Fail;

/// The job that a text tells, if it tells one.
pub fn job_in(alloc: Global, command: Command, text: &str) -> Result<Option<Job>, Fail> {
    let tree = Json::from_str(alloc, text)?;
    Ok(job_of(alloc, command, &tree)?)
}

/// The text of the job of a document, or `none`.
pub fn told_of(alloc: Global, command: Command, text: &str) -> Result<String, Fail> {
    match job_in(alloc, command, text)? {
        Some(job) => Ok(told(alloc, &job)?),
        None => Ok(String::from_str(alloc, "none")?),
    }
}

/// An object that must have exactly these members, and the document around it.
struct Object {
    command: Command,
    front: &'static str,
    members: &'static [(&'static str, &'static str)],
    back: &'static str,
}

static OBJECTS: [Object; 11] = [
    Object {
        command: Command::Pack,
        front: "",
        members: &[("target", r#""le64""#), ("desc", r#""u8""#), ("value", "7")],
        back: "",
    },
    Object {
        command: Command::Layout,
        front: "",
        members: &[("target", r#""le64""#), ("desc", r#""u8""#)],
        back: "",
    },
    Object {
        command: Command::Read,
        front: "",
        members: &[
            ("target", r#""le64""#),
            ("desc", r#""u8""#),
            ("bytes", r#""07""#),
        ],
        back: "",
    },
    Object {
        command: Command::Edit,
        front: "",
        members: &[
            ("target", r#""le64""#),
            ("desc", r#""u8""#),
            ("bytes", r#""07""#),
            ("edits", "[]"),
        ],
        back: "",
    },
    Object {
        command: Command::Report,
        front: "",
        members: &[("target", r#""le64""#), ("desc", r#""u8""#)],
        back: "",
    },
    Object {
        command: Command::Pack,
        front: r#"{"target":"le64","desc":"u8","value":7,"edits":["#,
        members: &[("path", "[]"), ("value", "8")],
        back: "]}",
    },
    Object {
        command: Command::Edit,
        front: r#"{"target":"le64","desc":"u8","bytes":"07","edits":[{"value":8,"path":["#,
        members: &[("field", "0")],
        back: "]}]}",
    },
    Object {
        command: Command::Layout,
        front: r#"{"desc":"u8","target":"#,
        members: &[
            ("little", "true"),
            ("pointer", "8"),
            ("u64_align", "8"),
            ("u128_align", "16"),
        ],
        back: "}",
    },
    Object {
        command: Command::Layout,
        front: r#"{"target":"le64","desc":{"struct":"#,
        members: &[
            ("name", r#""S""#),
            ("module", r#""demo""#),
            ("fields", "[]"),
        ],
        back: "}}",
    },
    Object {
        command: Command::Layout,
        front: r#"{"target":"le64","desc":{"no_niches":"#,
        members: &[
            ("size", "8"),
            ("align", "4"),
            ("niches", r#""one""#),
            ("indirections", "true"),
        ],
        back: "}}",
    },
    Object {
        command: Command::Layout,
        front: r#"{"target":"le64","desc":{"leaf":"#,
        members: &[
            ("name", r#""L""#),
            ("module", r#""demo""#),
            ("size", "3"),
            ("align", "1"),
            ("free", "[[1,255]]"),
            ("forbidden", "[]"),
            ("niches", r#""none""#),
            ("indirections", "false"),
        ],
        back: "}}",
    },
];

impl Object {
    // The document with the member of that number left out, and with more members after the others.
    fn document(&self, alloc: Global, left_out: usize, more: &str) -> Result<String, AllocError> {
        let mut inside = String::new(alloc);
        for (i, (key, content)) in self.members.iter().enumerate() {
            if i != left_out {
                inside.push_str(if inside.is_empty() { "" } else { "," })?;
                inside.push_str(&format!(in alloc; "\"{key}\":{content}")?)?;
            }
        }
        let (front, back) = (self.front, self.back);
        format!(in alloc; "{front}{{{inside}{more}}}{back}")
    }
}

#[test]
fn objects_have_exactly_their_keys(rt: HostRuntime) -> Result<(), Fail> {
    let alloc = rt.alloc();
    for object in &OBJECTS {
        let whole = object.document(alloc, usize::MAX, "")?;
        assert!(rt; job_in(alloc, object.command, &whole)?.is_some(), "{whole}");
        let longer = object.document(alloc, usize::MAX, ",\"other\":null")?;
        assert!(rt;
            job_in(alloc, object.command, &longer)?.is_none(),
            "{longer}"
        );
        for i in 0..object.members.len() {
            let shorter = object.document(alloc, i, "")?;
            assert!(rt;
                job_in(alloc, object.command, &shorter)?.is_none(),
                "{shorter}"
            );
        }
    }
    Ok(())
}

// The last of two equal keys counts, and no member may be an empty object.
#[test]
fn members_have_their_types(rt: HostRuntime) -> Result<(), Fail> {
    let alloc = rt.alloc();
    for object in &OBJECTS {
        for (key, _) in object.members {
            let again = format!(in alloc; ",\"{key}\":{{}}")?;
            let changed = object.document(alloc, usize::MAX, &again)?;
            assert!(rt;
                job_in(alloc, object.command, &changed)?.is_none(),
                "{changed}"
            );
        }
    }
    Ok(())
}

#[test]
fn targets_by_name_and_by_their_fields(rt: HostRuntime) -> Result<(), Fail> {
    let rows = [
        (r#""le64""#, true, 8, 8, 16),
        (r#""le64o""#, true, 8, 8, 8),
        (r#""be64""#, false, 8, 8, 16),
        (r#""le32""#, true, 4, 8, 16),
        (r#""le32o""#, true, 4, 4, 16),
        (r#""be32""#, false, 4, 8, 8),
        (r#""le16""#, true, 2, 4, 8),
        (
            r#"{"little":true,"pointer":3,"u64_align":0,"u128_align":18446744073709551615}"#,
            true,
            3,
            0,
            18446744073709551615,
        ),
    ];
    for (text, little, pointer, u64_align, u128_align) in rows {
        let document = format!(in rt.alloc(); "{{\"target\":{text},\"desc\":\"u8\"}}")?;
        let job = job_in(rt.alloc(), Command::Layout, &document)?;
        let expected = Target {
            little,
            pointer,
            u64_align,
            u128_align,
        };
        assert_eq!(rt; job.map(|job| job.target), Some(expected), "{text}");
    }
    Ok(())
}

// Other names, other trees, and fields of other types.
static NO_TARGETS: [&str; 12] = [
    r#""le65""#,
    r#""LE64""#,
    r#""""#,
    "64",
    "null",
    r#"["le64"]"#,
    "{}",
    r#"{"little":1,"pointer":8,"u64_align":8,"u128_align":16}"#,
    r#"{"little":true,"pointer":-8,"u64_align":8,"u128_align":16}"#,
    r#"{"little":true,"pointer":8.0,"u64_align":8,"u128_align":16}"#,
    r#"{"little":true,"pointer":8,"u64_align":"8","u128_align":16}"#,
    r#"{"little":true,"pointer":8,"u64_align":8,"u128_align":18446744073709551616}"#,
];

#[test]
fn trees_that_are_no_target(rt: HostRuntime) -> Result<(), Fail> {
    for text in &NO_TARGETS {
        let document = format!(in rt.alloc(); "{{\"target\":{text},\"desc\":\"u8\"}}")?;
        assert!(rt;
            job_in(rt.alloc(), Command::Layout, &document)?.is_none(),
            "{text}"
        );
    }
    Ok(())
}

// Trees, and the bytes that each spells.
static BYTES: [(&str, &str); 12] = [
    (r#""""#, "U8 in"),
    (r#""00""#, "U8 in 0"),
    (r#""0aFf10""#, "U8 in 10 255 16"),
    (r#""0""#, "none"),
    (r#""0g""#, "none"),
    (r#""0x00""#, "none"),
    (r#"" 0""#, "none"),
    (r#""0 00""#, "none"),
    (r#""\u00e9""#, "none"),
    ("0", "none"),
    ("null", "none"),
    ("[0]", "none"),
];

#[test]
fn bytes_are_pairs_of_digits_of_either_case(rt: HostRuntime) -> Result<(), Fail> {
    for (bytes, text) in &BYTES {
        let document = format!(in rt.alloc();
            "{{\"target\":\"le64\",\"desc\":\"u8\",\"bytes\":{bytes}}}"
        )?;
        assert_eq!(rt;
            told_of(rt.alloc(), Command::Read, &document)?.as_str(),
            *text,
            "{bytes}"
        );
    }
    Ok(())
}

// Documents of a command, and what each tells.
static DOCUMENTS: [(Command, &str, &str); 11] = [
    (
        Command::Pack,
        r#"{"value":null,"desc":"()","target":"le64"}"#,
        "Unit = unit",
    ),
    (
        Command::Layout,
        r#"{"target":"be65","desc":1,"target":"le64","desc":"()"}"#,
        "Unit",
    ),
    (Command::Pack, "{}", "none"),
    (Command::Pack, r#"["le64","()",null]"#, "none"),
    (Command::Pack, r#"{"target":"le64","desc":"()"}"#, "none"),
    (
        Command::Layout,
        r#"{"target":"le64","desc":"()","value":null}"#,
        "none",
    ),
    (
        Command::Read,
        r#"{"target":"le64","desc":"()","value":null}"#,
        "none",
    ),
    (
        Command::Pack,
        r#"{"target":"le64","desc":"()","value":null,"bytes":""}"#,
        "none",
    ),
    (
        Command::Edit,
        r#"{"target":"le64","desc":"()","value":null,"edits":[]}"#,
        "none",
    ),
    (
        Command::Read,
        r#"{"target":"le64","desc":"()","bytes":"","edits":[]}"#,
        "none",
    ),
    (
        Command::Report,
        r#"{"target":"le64","desc":"()","value":null}"#,
        "none",
    ),
];

#[test]
fn documents_are_objects_with_the_keys_of_their_command(rt: HostRuntime) -> Result<(), Fail> {
    for (command, document, text) in &DOCUMENTS {
        assert_eq!(rt;
            told_of(rt.alloc(), *command, document)?.as_str(),
            *text,
            "{document}"
        );
    }
    Ok(())
}

#[test]
fn parts_nest_as_deep_as_documents_do(rt: HostRuntime) -> Result<(), Fail> {
    let desc = format!(in rt.alloc();
        "{}\"u8\"{}",
        "{\"option\":".repeat(rt.alloc(), 126)?,
        "}".repeat(rt.alloc(), 126)?
    )?;
    let value = format!(in rt.alloc();
        "{}1{}",
        "[".repeat(rt.alloc(), 126)?,
        "]".repeat(rt.alloc(), 126)?
    )?;
    let document = format!(in rt.alloc();
        "{{\"target\":\"le64\",\"desc\":{desc},\"value\":{value}}}"
    )?;
    assert!(rt; job_in(rt.alloc(), Command::Pack, &document)?.is_some());
    Ok(())
}
