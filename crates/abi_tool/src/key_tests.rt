//! Objects of documents: each key left out, one more key, and each key with content of another type.

use crate::mem_sink::MemSink;
use crate::mem_source::MemSource;
use crate::tests::replies;
use crate::tool::tool;
use abi_num::Text;
use std::alloc::{AllocError, Global};
use std::process::Abort;
use std::test::Fail;

/// A key, what a document has under it, and what none has.
struct Member {
    key: &'static str,
    good: &'static str,
    bad: &'static [&'static str],
}

/// An object of which each key is needed, in a document of the command of that word.
struct Form {
    word: &'static str,
    before: &'static str,
    after: &'static str,
    members: &'static [Member],
}

static FORMS: [Form; 12] = [
    Form {
        word: "layout",
        before: r#""#,
        after: r#""#,
        members: &[
            Member {
                key: "target",
                good: r#""le64""#,
                bad: &[r#"64"#],
            },
            Member {
                key: "desc",
                good: r#""u8""#,
                bad: &[r#""f32""#, r#"8"#],
            },
        ],
    },
    Form {
        word: "pack",
        before: r#""#,
        after: r#""#,
        members: &[
            Member {
                key: "target",
                good: r#""le64""#,
                bad: &[r#"null"#],
            },
            Member {
                key: "desc",
                good: r#""u8""#,
                bad: &[r#"{}"#],
            },
            Member {
                key: "value",
                good: r#"5"#,
                bad: &[r#"1.5"#, r#"{}"#],
            },
        ],
    },
    Form {
        word: "read",
        before: r#""#,
        after: r#""#,
        members: &[
            Member {
                key: "target",
                good: r#""le64""#,
                bad: &[r#"null"#],
            },
            Member {
                key: "desc",
                good: r#""u8""#,
                bad: &[r#"null"#],
            },
            Member {
                key: "bytes",
                good: r#""05""#,
                bad: &[
                    r#""5""#,
                    r#""0g""#,
                    r#"" 05""#,
                    r#""0x05""#,
                    r#"5"#,
                    r#"null"#,
                    r#"["05"]"#,
                    r#"{"bytes":"05"}"#,
                ],
            },
        ],
    },
    Form {
        word: "edit",
        before: "",
        after: "",
        members: &[
            Member {
                key: "target",
                good: r#""le64""#,
                bad: &["null"],
            },
            Member {
                key: "desc",
                good: r#""u8""#,
                bad: &["null"],
            },
            Member {
                key: "bytes",
                good: r#""05""#,
                bad: &[r#""5""#, "5", r#"{"bytes":"05"}"#],
            },
            Member {
                key: "edits",
                good: "[]",
                bad: &["{}", "null", "[[]]", "[{}]", r#"{"path":[],"value":1}"#],
            },
        ],
    },
    Form {
        word: "report",
        before: "",
        after: "",
        members: &[
            Member {
                key: "target",
                good: r#""le64""#,
                bad: &["null"],
            },
            Member {
                key: "desc",
                good: r#""u8""#,
                bad: &["null"],
            },
        ],
    },
    Form {
        word: "pack",
        before: r#"{"target":"le64","desc":"u8","value":5,"edits":["#,
        after: "]}",
        members: &[
            Member {
                key: "path",
                good: "[]",
                bad: &["{}", "null", r#""ok""#, "[null]", r#"["none"]"#, "[0]"],
            },
            Member {
                key: "value",
                good: "6",
                bad: &["1.5", "{}"],
            },
        ],
    },
    Form {
        word: "pack",
        before: r#"{"target":"le64","desc":{"array":["u8",1]},"value":[5],"edits":[{"value":6,"path":["#,
        after: "]}]}",
        members: &[Member {
            key: "item",
            good: "0",
            bad: &["-1", "0.0", r#""0""#, "4294967296", "null"],
        }],
    },
    Form {
        word: "edit",
        before: r#"{"target":"le64","desc":{"struct":{"name":"S","module":"m","fields":[["f","u8"]]}},"bytes":"05","edits":[{"value":6,"path":["#,
        after: "]}]}",
        members: &[Member {
            key: "field",
            good: "0",
            bad: &["-1", "0.0", r#""0""#, "4294967296", "null"],
        }],
    },
    Form {
        word: "layout",
        before: r#"{"target":"#,
        after: r#","desc":"u8"}"#,
        members: &[
            Member {
                key: "little",
                good: r#"true"#,
                bad: &[r#"1"#, r#""yes""#],
            },
            Member {
                key: "pointer",
                good: r#"8"#,
                bad: &[r#"-8"#, r#"8.0"#, r#""8""#],
            },
            Member {
                key: "u64_align",
                good: r#"8"#,
                bad: &[r#"-8"#, r#"null"#],
            },
            Member {
                key: "u128_align",
                good: r#"16"#,
                bad: &[r#"16.0"#, r#"[16]"#],
            },
        ],
    },
    Form {
        word: "layout",
        before: r#"{"target":"le64","desc":{"struct":"#,
        after: r#"}}"#,
        members: &[
            Member {
                key: "name",
                good: r#""S""#,
                bad: &[r#"1"#, r#"null"#, r#"["L"]"#, r#""\u001f""#],
            },
            Member {
                key: "module",
                good: r#""m""#,
                bad: &[r#"1"#, r#"null"#, r#"["L"]"#, r#""\u001f""#],
            },
            Member {
                key: "fields",
                good: r#"[]"#,
                bad: &[
                    r#"{}"#,
                    r#"null"#,
                    r#"["u8"]"#,
                    r#"[["f"]]"#,
                    r#"[["f","u8",1]]"#,
                    r#"[[1,"u8"]]"#,
                    r#"[["f","f32"]]"#,
                ],
            },
        ],
    },
    Form {
        word: "layout",
        before: r#"{"target":"le64","desc":{"no_niches":"#,
        after: r#"}}"#,
        members: &[
            Member {
                key: "size",
                good: r#"2"#,
                bad: &[
                    r#"-1"#,
                    r#"1.0"#,
                    r#""1""#,
                    r#"null"#,
                    r#"18446744073709551616"#,
                ],
            },
            Member {
                key: "align",
                good: r#"1"#,
                bad: &[
                    r#"-1"#,
                    r#"1.0"#,
                    r#""1""#,
                    r#"null"#,
                    r#"18446744073709551616"#,
                ],
            },
            Member {
                key: "niches",
                good: r#""one""#,
                bad: &[r#""two""#, r#"0"#, r#"null"#, r#""One""#, r#"1"#],
            },
            Member {
                key: "indirections",
                good: r#"true"#,
                bad: &[r#"1"#, r#""true""#, r#"null"#],
            },
        ],
    },
    Form {
        word: "layout",
        before: r#"{"target":"le64","desc":{"leaf":"#,
        after: r#"}}"#,
        members: &[
            Member {
                key: "name",
                good: r#""L""#,
                bad: &[r#"1"#, r#"null"#, r#"["L"]"#, r#""\u001f""#],
            },
            Member {
                key: "module",
                good: r#""m""#,
                bad: &[r#"1"#, r#"null"#, r#"["L"]"#, r#""\u001f""#],
            },
            Member {
                key: "size",
                good: r#"2"#,
                bad: &[
                    r#"-1"#,
                    r#"1.0"#,
                    r#""1""#,
                    r#"null"#,
                    r#"18446744073709551616"#,
                ],
            },
            Member {
                key: "align",
                good: r#"1"#,
                bad: &[
                    r#"-1"#,
                    r#"1.0"#,
                    r#""1""#,
                    r#"null"#,
                    r#"18446744073709551616"#,
                ],
            },
            Member {
                key: "free",
                good: r#"[[1,255]]"#,
                bad: &[
                    r#"{}"#,
                    r#"[1]"#,
                    r#"[[1]]"#,
                    r#"[[1,2,3]]"#,
                    r#"[[-1,1]]"#,
                    r#"[[1,256]]"#,
                    r#"[[1,-1]]"#,
                    r#"[["1",1]]"#,
                    r#"[[1,1.0]]"#,
                ],
            },
            Member {
                key: "forbidden",
                good: r#"[{"pattern":[[0,255]]},{"range":[0,0,255]}]"#,
                bad: &[
                    r#"{}"#,
                    r#"["pattern"]"#,
                    r#"[{"pattern":{}}]"#,
                    r#"[{"pattern":[0]}]"#,
                    r#"[{"pattern":[[0]]}]"#,
                    r#"[{"pattern":[[0,256]]}]"#,
                    r#"[{"pattern":[[0,1,2]]}]"#,
                    r#"[{"range":[0,1]}]"#,
                    r#"[{"range":[0,1,2,3]}]"#,
                    r#"[{"range":[0,1,256]}]"#,
                    r#"[{"range":[0,-1,2]}]"#,
                    r#"[{"range":{}}]"#,
                    r#"[{"Range":[0,1,2]}]"#,
                    r#"[{"pattern":[[0,1]],"range":[0,1,2]}]"#,
                    r#"[{}]"#,
                ],
            },
            Member {
                key: "niches",
                good: r#""many""#,
                bad: &[r#""two""#, r#"0"#, r#"null"#, r#""One""#, r#"1"#],
            },
            Member {
                key: "indirections",
                good: r#"false"#,
                bad: &[r#"1"#, r#""true""#, r#"null"#],
            },
        ],
    },
];

// The document with something else, or nothing, in the place of the member of that number.
fn document(
    alloc: Global,
    form: &Form,
    number: usize,
    instead: Option<&str>,
    more: &str,
) -> Result<String, AllocError> {
    let mut members = String::new(alloc);
    for (at, member) in form.members.iter().enumerate() {
        let value = if at == number {
            instead
        } else {
            Some(member.good)
        };
        if let Some(value) = value {
            members.push_str(if members.is_empty() { "" } else { "," })?;
            let key = member.key;
            members.push_str(format!(in alloc; "\"{key}\":{value}")?.as_str())?;
        }
    }
    let before = form.before;
    let after = form.after;
    format!(in alloc; "{before}{{{members}{more}}}{after}")
}

fn is_no_job(rt: &impl Abort, alloc: Global, form: &Form, document: &str) -> Result<(), Fail> {
    replies(rt, alloc, form.word, document.as_bytes(), 6, "not a job\n")
}

// What comes of the document is text.
fn is_done(rt: &impl Abort, alloc: Global, form: &Form, document: &str) -> Result<(), Fail> {
    let words = [Text::new(alloc, form.word)?];
    let mut source = MemSource::new(document.as_bytes(), &[]);
    let mut sink = MemSink::new(alloc, 4096, &[])?;
    let ended = tool(alloc, &words, &mut source, &mut sink);
    assert_eq!(rt; ended, 0, "{document}");
    Ok(())
}

fn is_of_one_type(
    rt: &impl Abort,
    alloc: Global,
    form: &Form,
    number: usize,
    member: &Member,
) -> Result<(), Fail> {
    for bad in member.bad {
        let other = document(alloc, form, number, Some(*bad), "")?;
        is_no_job(rt, alloc, form, other.as_str())?;
    }
    Ok(())
}

fn needs_each_key(rt: &impl Abort, alloc: Global, form: &Form) -> Result<(), Fail> {
    for (number, member) in form.members.iter().enumerate() {
        let without = document(alloc, form, number, None, "")?;
        is_no_job(rt, alloc, form, without.as_str())?;
        is_of_one_type(rt, alloc, form, number, member)?;
    }
    Ok(())
}

#[test]
fn keys_left_out_added_and_of_another_type(rt: HostRuntime) -> Result<(), Fail> {
    let alloc = rt.alloc();
    for form in &FORMS {
        let all = form.members.len();
        is_done(
            &rt,
            alloc,
            form,
            document(alloc, form, all, None, "")?.as_str(),
        )?;
        let more = document(alloc, form, all, None, ",\"more\":1")?;
        is_no_job(&rt, alloc, form, more.as_str())?;
        needs_each_key(&rt, alloc, form)?;
    }
    Ok(())
}
