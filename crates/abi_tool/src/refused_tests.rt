//! Documents that have no job, jobs that have a fault, and each limit at its last value and one past it.

use crate::tests::answers;
use crate::written_tests::document;
use std::alloc::{AllocError, Global};
use std::process::Abort;
use std::test::Fail;

#[test]
fn bytes_that_are_no_json(rt: HostRuntime) -> Result<(), Fail> {
    let documents: [&[u8]; 11] = [
        b"",
        b" \n",
        b"{\"target\"",
        b"{\"target\":\"le64\"",
        b"{\"a\":1}x",
        b"{\"a\":1}{\"a\":1}",
        b"\"\xff\"",
        b"\xef\xbb\xbf{}",
        b"01",
        b"{\"a\":1e999,\"a\":1}",
        b"'a'",
    ];
    for document in documents {
        answers(&rt, rt.alloc(), document, 5, "not JSON\n")?;
    }
    Ok(())
}

// Keys that no document has, a target that there is not, no object.
static NO_DOCUMENTS: [&str; 16] = [
    r#"{}"#,
    r#"null"#,
    r#"[]"#,
    r#"1.5"#,
    r#"1e3"#,
    r#"-0"#,
    r#""pack""#,
    r#"{"a":1,"a":2}"#,
    r#"["le64","bool",true]"#,
    r#"{"target":"le64","desc":"bool","value":true,"edit":[]}"#,
    r#"{"target":"le64","desc":"bool","value":true,"version":1}"#,
    r#"{"target":"le64","desc":"bool","value":true,"Value":true}"#,
    r#"{"target":"le64","desc":"bool","value":true,"bytes":"00"}"#,
    r#"{"target":"le64","desc":"bool","bytes":"00"}"#,
    r#"{"target":"le64","target":"le65","desc":"bool","value":true}"#,
    r#"{"target":"le64","desc":"bool","value":1.5,"value":1e3}"#,
];

// What is no description, whole or in a part.
static NO_DESCRIPTIONS: [&str; 92] = [
    r#"null"#,
    r#"true"#,
    r#"8"#,
    r#"[]"#,
    r#"["u8","u8"]"#,
    r#"{}"#,
    r#""""#,
    r#""U8""#,
    r#""Bool""#,
    r#""f32""#,
    r#""f64""#,
    r#""usize ""#,
    r#""u8 ""#,
    r#""unit""#,
    r#""NonZeroBool""#,
    r#""NonZeroF32""#,
    r#""NonMaxI8""#,
    r#""NonXU8""#,
    r#""AtomicU128""#,
    r#""AtomicPtr""#,
    r#""Fn""#,
    r#""FnPtr""#,
    r#""CVoid""#,
    r#"{"u8":null}"#,
    r#"{"Option":"u8"}"#,
    r#"{"option":null}"#,
    r#"{"option":["u8"]}"#,
    r#"{"option":"f32"}"#,
    r#"{"option":"u8","some":1}"#,
    r#"{"option":"u8","result":["u8","u8"]}"#,
    r#"{"result":"u8"}"#,
    r#"{"result":{"ok":"u8","err":"u8"}}"#,
    r#"{"result":[]}"#,
    r#"{"result":["u8"]}"#,
    r#"{"result":["u8","u8","u8"]}"#,
    r#"{"result":["f32","u8"]}"#,
    r#"{"result":["u8","f32"]}"#,
    r#"{"union":"u8"}"#,
    r#"{"union":["u8"]}"#,
    r#"{"union":["u8","u8","u8"]}"#,
    r#"{"core_option":["u8"]}"#,
    r#"{"core_result":["u8"]}"#,
    r#"{"core_result":"u8"}"#,
    r#"{"stable_if":["u8"]}"#,
    r#"{"stable_if":["u8","f32"]}"#,
    r#"{"array":"u8"}"#,
    r#"{"array":["u8"]}"#,
    r#"{"array":["u8",2,2]}"#,
    r#"{"array":[2,"u8"]}"#,
    r#"{"array":["f32",2]}"#,
    r#"{"array":["u8","2"]}"#,
    r#"{"array":["u8",2.0]}"#,
    r#"{"array":["u8",-1]}"#,
    r#"{"array":["u8",null]}"#,
    r#"{"array":["u8",18446744073709551616]}"#,
    r#"{"manually_drop":["u8"]}"#,
    r#"{"maybe_uninit":null}"#,
    r#"{"unsafe_cell":"f32"}"#,
    r#"{"pin":{}}"#,
    r#"{"not_pod":8}"#,
    r#"{"or_infallible":["u8","u8"]}"#,
    r#"{"or_infallible":"f32"}"#,
    r#"{"const_ptr":["u8"]}"#,
    r#"{"mut_ptr":null}"#,
    r#"{"atomic_ptr":"f32"}"#,
    r#"{"non_null":[]}"#,
    r#"{"ref":1}"#,
    r#"{"ref_mut":"&u8"}"#,
    r#"{"fn":"u8"}"#,
    r#"{"non_x":"u8"}"#,
    r#"{"non_x":["u8"]}"#,
    r#"{"non_x":["u8",72,0]}"#,
    r#"{"non_x":[72,"u8"]}"#,
    r#"{"non_x":["U8",72]}"#,
    r#"{"non_x":["bool",1]}"#,
    r#"{"non_x":["NonZeroU8",1]}"#,
    r#"{"non_x":["u8",1.5]}"#,
    r#"{"non_x":["u8",null]}"#,
    r#"{"non_x":["u8","072"]}"#,
    r#"{"non_x":["u8","-0"]}"#,
    r#"{"non_x":["u128","340282366920938463463374607431768211456"]}"#,
    r#"{"no_niches":[]}"#,
    r#"{"leaf":"L"}"#,
    r#"{"struct":[]}"#,
    r#"{"struct":{"name":"A","module":"m","fields":[["a","u8"],["b","f32"]]}}"#,
    r#"{"struct":{"name":"A","module":"m","fields":[],"version":null}}"#,
    r#"{"struct":{"name":"A","module":"m","fields":[],"version":"1"}}"#,
    r#"{"struct":{"name":"A","module":"m","fields":[],"version":-1}}"#,
    r#"{"struct":{"name":"A","module":"m","fields":[],"version":1.0}}"#,
    r#"{"struct":{"name":"A","module":"m","fields":[],"align":"8"}}"#,
    r#"{"struct":{"name":"A","module":"m","fields":[],"align":-8}}"#,
    r#"{"struct":{"name":"A","module":"m","fields":[],"align":8.0}}"#,
];

// What is no value of any form, whole or in a part.
static NO_VALUES: [&str; 36] = [
    "1.5",
    "1e3",
    "1.0",
    "-0",
    r#""""#,
    r#""00""#,
    r#""05""#,
    r#""-""#,
    r#""-0""#,
    r#""--1""#,
    r#""+5""#,
    r#""1.0""#,
    r#""1e3""#,
    r#""0x10""#,
    r#"" 1""#,
    r#""1 ""#,
    r#""None""#,
    r#""Less""#,
    r#""true""#,
    r#""null""#,
    "{}",
    r#"{"none":null}"#,
    r#"{"Ok":1}"#,
    r#"{"bytes":"0"}"#,
    r#"{"bytes":"0g"}"#,
    r#"{"bytes":0}"#,
    r#"{"bytes":[0]}"#,
    r#"{"Bytes":"00"}"#,
    r#"{"ok":1,"err":1}"#,
    r#"{"some":true,"none":1}"#,
    r#"{"ok":1.5}"#,
    r#"{"err":"x"}"#,
    r#"{"some":{}}"#,
    r#"[1.5]"#,
    r#"[1,"x"]"#,
    r#"[[],[{}]]"#,
];

#[test]
fn trees_that_are_no_document(rt: HostRuntime) -> Result<(), Fail> {
    for text in &NO_DOCUMENTS {
        is_no_job(&rt, rt.alloc(), text)?;
    }
    Ok(())
}

#[test]
fn trees_that_are_no_description(rt: HostRuntime) -> Result<(), Fail> {
    let alloc = rt.alloc();
    for desc in &NO_DESCRIPTIONS {
        is_no_job(&rt, alloc, document(alloc, desc, "true")?.as_str())?;
    }
    Ok(())
}

#[test]
fn trees_that_are_no_value(rt: HostRuntime) -> Result<(), Fail> {
    let alloc = rt.alloc();
    for value in &NO_VALUES {
        is_no_job(&rt, alloc, document(alloc, r#""u8""#, value)?.as_str())?;
    }
    Ok(())
}

fn is_no_job(rt: &impl Abort, alloc: Global, document: &str) -> Result<(), Fail> {
    answers(rt, alloc, document.as_bytes(), 6, "not a job\n")
}

// A struct of a u32 and what stands in the next byte.
const PAIR: &str =
    r#"{"struct":{"name":"S","module":"demo","fields":[["f0","u32"],["f1","bool"]]}}"#;

// Parts are numbered from 0, fields before their struct and sides before their sum.
static FAULTS: [(&str, &str, &str); 62] = [
    (r#""()""#, "0", "WrongValue"),
    (r#""()""#, r#""none""#, "WrongValue"),
    (r#""bool""#, "1", "WrongValue"),
    (r#""bool""#, "null", "WrongValue"),
    (r#""u8""#, "true", "WrongValue"),
    (r#""u8""#, "null", "WrongValue"),
    (r#""u8""#, "[1]", "WrongValue"),
    (r#""u8""#, r#"{"ok":1}"#, "WrongValue"),
    (r#"{"option":"u8"}"#, "5", "WrongValue"),
    (r#"{"option":"u8"}"#, "null", "WrongValue"),
    (r#"{"option":"u8"}"#, r#"{"ok":5}"#, "WrongValue"),
    (r#"{"option":"u8"}"#, r#"{"some":256}"#, "WrongValue"),
    (r#"{"option":"u32"}"#, r#"{"some":-1}"#, "WrongValue"),
    (r#"{"option":"NonZeroU32"}"#, r#"{"some":0}"#, "WrongValue"),
    (r#"{"result":["u8","bool"]}"#, r#""none""#, "WrongValue"),
    (r#"{"result":["u8","bool"]}"#, r#"{"some":5}"#, "WrongValue"),
    (r#"{"result":["u8","bool"]}"#, r#"{"err":5}"#, "WrongValue"),
    (
        r#"{"result":["u8","bool"]}"#,
        r#"{"ok":true}"#,
        "WrongValue",
    ),
    (r#"{"array":["u8",2]}"#, r#"[1]"#, "WrongValue"),
    (r#"{"array":["u8",2]}"#, r#"[1,2,3]"#, "WrongValue"),
    (r#"{"array":["u8",2]}"#, r#"[1,256]"#, "WrongValue"),
    (r#"{"array":["u8",2]}"#, r#"{"bytes":"0102"}"#, "WrongValue"),
    (r#"{"array":["u8",0]}"#, r#"[1]"#, "WrongValue"),
    (r#"{"array":["u8",0]}"#, r#"null"#, "WrongValue"),
    (r#"{"union":["u8","u16"]}"#, r#"5"#, "WrongValue"),
    (
        r#"{"union":["u8","u16"]}"#,
        r#"{"bytes":"01"}"#,
        "WrongValue",
    ),
    (
        r#"{"union":["u8","u16"]}"#,
        r#"{"bytes":"010203"}"#,
        "WrongValue",
    ),
    (
        r#"{"no_niches":{"size":2,"align":1,"niches":"none","indirections":false}}"#,
        r#"{"bytes":"00"}"#,
        "WrongValue",
    ),
    (
        r#"{"no_niches":{"size":2,"align":1,"niches":"none","indirections":false}}"#,
        r#"258"#,
        "WrongValue",
    ),
    (
        r#"{"core_option":"NonZeroU8"}"#,
        r#"{"some":0}"#,
        "WrongValue",
    ),
    (r#"{"core_option":"NonZeroU8"}"#, r#"9"#, "WrongValue"),
    (
        r#"{"core_option":"NonZeroU8"}"#,
        r#"{"ok":9}"#,
        "WrongValue",
    ),
    (
        r#"{"core_option":"NonZeroU8"}"#,
        r#"{"err":null}"#,
        "WrongValue",
    ),
    (
        r#"{"core_result":["NonZeroU8","()"]}"#,
        r#""none""#,
        "WrongValue",
    ),
    (
        r#"{"core_result":["NonZeroU8","()"]}"#,
        r#"{"err":0}"#,
        "WrongValue",
    ),
    (
        r#"{"core_result":["NonZeroU8","()"]}"#,
        r#"{"ok":0}"#,
        "WrongValue",
    ),
    (
        r#"{"core_result":["NonZeroU8","()"]}"#,
        r#"{"some":9}"#,
        "WrongValue",
    ),
    (r#"{"maybe_uninit":"bool"}"#, r#"2"#, "WrongValue"),
    (
        r#"{"maybe_uninit":"bool"}"#,
        r#"{"bytes":"02"}"#,
        "WrongValue",
    ),
    (r#"{"or_infallible":"u8"}"#, r#"{"ok":5}"#, "WrongValue"),
    (r#"{"stable_if":["bool","u8"]}"#, r#"5"#, "WrongValue"),
    (r#"{"ref":"u8"}"#, r#"null"#, "WrongValue"),
    (r#""u8""#, r#"{"bytes":"05"}"#, "WrongValue"),
    (
        r#"{"leaf":{"name":"L","module":"m","size":3,"align":1,"free":[[1,255]],"forbidden":[],"niches":"none","indirections":false}}"#,
        r#"{"bytes":"aa01bb"}"#,
        "WrongValue",
    ),
    (
        r#"{"leaf":{"name":"L","module":"m","size":3,"align":1,"free":[[1,255]],"forbidden":[],"niches":"none","indirections":false}}"#,
        r#"{"bytes":"aa00"}"#,
        "WrongValue",
    ),
    (
        r#"{"leaf":{"name":"L","module":"m","size":3,"align":1,"free":[[1,255]],"forbidden":[],"niches":"none","indirections":false}}"#,
        r#"[170,0,187]"#,
        "WrongValue",
    ),
    (
        r#"{"leaf":{"name":"L","module":"m","size":3,"align":1,"free":[[1,240]],"forbidden":[{"pattern":[[0,1],[2,2]]},{"range":[2,250,255]}],"niches":"none","indirections":false}}"#,
        r#"{"bytes":"001000"}"#,
        "WrongValue",
    ),
    (
        r#"{"leaf":{"name":"L","module":"m","size":3,"align":1,"free":[[1,240]],"forbidden":[{"pattern":[[0,1],[2,2]]},{"range":[2,250,255]}],"niches":"none","indirections":false}}"#,
        r#"{"bytes":"010002"}"#,
        "WrongValue",
    ),
    (
        r#"{"leaf":{"name":"L","module":"m","size":3,"align":1,"free":[[1,240]],"forbidden":[{"pattern":[[0,1],[2,2]]},{"range":[2,250,255]}],"niches":"none","indirections":false}}"#,
        r#"{"bytes":"0000fa"}"#,
        "WrongValue",
    ),
    (
        r#"{"leaf":{"name":"L","module":"m","size":3,"align":1,"free":[[1,240]],"forbidden":[{"pattern":[[0,1],[2,2]]},{"range":[2,250,255]}],"niches":"none","indirections":false}}"#,
        r#"{"bytes":"0000ff"}"#,
        "WrongValue",
    ),
    (PAIR, "[1]", "WrongValue"),
    (PAIR, "[1,true,2]", "WrongValue"),
    (PAIR, "[true,1]", "WrongValue"),
    (PAIR, r#"{"some":[1,true]}"#, "WrongValue"),
    // no power of two, or too large a one
    (
        r#"{"struct":{"name":"S","module":"m","fields":[],"align":0}}"#,
        "[]",
        "IllFormed part 0",
    ),
    (
        r#"{"struct":{"name":"S","module":"m","fields":[["a","u8"]],"align":3}}"#,
        "[1]",
        "IllFormed part 1",
    ),
    (
        r#"{"struct":{"name":"S","module":"m","fields":[["a","u8"]],"align":65537}}"#,
        "[1]",
        "IllFormed part 1",
    ),
    (
        r#"{"struct":{"name":"S","module":"m","fields":[["a","u8"]],"align":131072}}"#,
        "[1]",
        "IllFormed part 1",
    ),
    (
        r#"{"struct":{"name":"S","module":"m","fields":[["a","u8"]],"align":18446744073709551615}}"#,
        "[1]",
        "IllFormed part 1",
    ),
    // the first side is part 0, and the field of the second part 1; the value has a fault too, which comes later
    (
        r#"{"result":["u8",{"struct":{"name":"S","module":"m","fields":[["f0","u8"]],"align":3}}]}"#,
        r#"{"ok":256}"#,
        "IllFormed part 2",
    ),
    // of two parts with a fault the first is told
    (
        r#"{"result":[{"struct":{"name":"S","module":"m","fields":[],"align":5}},
            {"struct":{"name":"S","module":"m","fields":[],"align":3}}]}"#,
        r#"{"ok":[]}"#,
        "IllFormed part 0",
    ),
    (
        r#"{"option":{"struct":{"name":"S","module":"m","fields":[["a","bool"],["b",
            {"option":{"struct":{"name":"S","module":"m","fields":[],"align":6}}}]],"align":7}}}"#,
        r#""none""#,
        "IllFormed part 1",
    ),
];

#[test]
fn jobs_that_have_a_fault(rt: HostRuntime) -> Result<(), Fail> {
    let alloc = rt.alloc();
    for (desc, value, fault) in &FAULTS {
        is_refused(&rt, alloc, desc, value, fault)?;
    }
    Ok(())
}

fn is_refused(
    rt: &impl Abort,
    alloc: Global,
    desc: &str,
    value: &str,
    fault: &str,
) -> Result<(), Fail> {
    let document = document(alloc, desc, value)?;
    let text = format!(in alloc; "refused: {fault}\n")?;
    answers(rt, alloc, document.as_bytes(), 7, text.as_str())
}

#[test]
fn documents_of_4194304_bytes_and_of_one_more(rt: HostRuntime) -> Result<(), Fail> {
    let spaces = vec![in rt.alloc(); b' '; 4194305]?;
    answers(&rt, rt.alloc(), &spaces, 4, "")?;
    let (_, fewer) = spaces.split_first().ok_or("empty")?;
    answers(&rt, rt.alloc(), fewer, 5, "not JSON\n")
}

// The text so many times, one after the other between commas.
fn listed(alloc: Global, text: &str, count: usize) -> Result<String, AllocError> {
    let mut list = String::new(alloc);
    list.push_str("[")?;
    for at in 0..count {
        list.push_str(if at == 0 { "" } else { "," })?;
        list.push_str(text)?;
    }
    list.push_str("]")?;
    Ok(list)
}

// A struct with so many fields of one description.
fn struct_of(alloc: Global, desc: &str, count: usize, more: &str) -> Result<String, AllocError> {
    let field = format!(in alloc; "[\"f\",{desc}]")?;
    let fields = listed(alloc, field.as_str(), count)?;
    format!(in alloc;
        "{{\"struct\":{{\"name\":\"S\",\"module\":\"m\",\"fields\":{fields}{more}}}}}"
    )
}

// The text so many times.
fn times(alloc: Global, text: &str, count: usize) -> Result<String, AllocError> {
    text.repeat(alloc, count)
}

#[test]
fn descriptions_of_4096_parts_and_of_one_more(rt: HostRuntime) -> Result<(), Fail> {
    let alloc = rt.alloc();
    // the struct is a part too
    let most = struct_of(alloc, r#""u8""#, 4095, "")?;
    let zeros = listed(alloc, "0", 4095)?;
    let document = document(alloc, most.as_str(), zeros.as_str())?;
    let digits = times(alloc, "00", 4095)?;
    let text = format!(in alloc;
        "size 4095\nalign 1\nniches 0\nindirections no\nfree\nforbidden\nbytes {digits}\n"
    )?;
    answers(&rt, alloc, document.as_bytes(), 0, text.as_str())?;
    // the number of parts is told before what is wrong in a part
    let more = struct_of(alloc, r#""u8""#, 4096, ",\"align\":3")?;
    is_refused(&rt, alloc, more.as_str(), "[]", "TooManyParts")
}

// One byte, aligned to 65,536.
const WIDE: &str = r#"{"struct":{"name":"A","module":"","fields":[["b","u8"]],"align":65536}}"#;

#[test]
fn alignments_of_65536_bytes(rt: HostRuntime) -> Result<(), Fail> {
    let alloc = rt.alloc();
    let document = document(alloc, WIDE, "[1]")?;
    // bytes 1 to 65,535 are added for the alignment, and not free
    let zeros = times(alloc, "00", 65535)?;
    let text = format!(in alloc;
        "size 65536\nalign 65536\nniches many\nindirections no\nfree\nforbidden\nbytes 01{zeros}\n"
    )?;
    answers(&rt, alloc, document.as_bytes(), 0, text.as_str())
}

#[test]
fn parts_of_1048576_bytes_and_larger_ones(rt: HostRuntime) -> Result<(), Fail> {
    let alloc = rt.alloc();
    // 16 times 65,536
    let most = struct_of(alloc, WIDE, 16, "")?;
    let ones = listed(alloc, "[1]", 16)?;
    let largest = document(alloc, most.as_str(), ones.as_str())?;
    let field = format!(in alloc; "01{}", times(alloc, "00", 65535)?)?;
    let digits = times(alloc, field.as_str(), 16)?;
    let text = format!(in alloc;
        "size 1048576\nalign 65536\nniches many\nindirections no\nfree\nforbidden\nbytes {digits}\n"
    )?;
    answers(&rt, alloc, largest.as_bytes(), 0, text.as_str())?;
    // 17 fields of two parts each come before their struct
    let more = struct_of(alloc, WIDE, 17, "")?;
    is_refused(&rt, alloc, more.as_str(), "[]", "TooLarge part 34")?;
    // of one part the form is told before the size
    let ill = struct_of(alloc, WIDE, 17, ",\"align\":3")?;
    is_refused(&rt, alloc, ill.as_str(), "[]", "IllFormed part 34")?;
    // the size of an earlier part is told before the form of a later one
    let result = format!(in alloc; "{{\"result\":[{more},{ill}]}}")?;
    is_refused(&rt, alloc, result.as_str(), "[]", "TooLarge part 34")?;
    // nothing is free in the 33 parts of the largest struct, so an option takes a tag, which is too much
    let option = format!(in alloc; "{{\"option\":{most}}}")?;
    is_refused(&rt, alloc, option.as_str(), r#""none""#, "TooLarge part 33")
}

#[test]
fn names_of_256_bytes_and_of_one_more(rt: HostRuntime) -> Result<(), Fail> {
    let alloc = rt.alloc();
    let longest = times(alloc, "~", 256)?;
    let longer = times(alloc, "~", 257)?;
    let rows = [
        (" ", true),
        (longest.as_str(), true),
        (longer.as_str(), false),
        ("\\u001f", false),
        ("\\u007f", false),
        ("\\u00e9", false),
    ];
    for (text, is_name) in rows {
        for (name, module, field) in [(text, "", ""), ("", text, ""), ("", "", text)] {
            let desc = format!(in alloc;
                "{{\"struct\":{{\"name\":\"{name}\",\"module\":\"{module}\",\"fields\":[[\"{field}\",\"()\"]]}}}}"
            )?;
            let document = document(alloc, desc.as_str(), "[null]")?;
            if is_name {
                let text = "size 0\nalign 1\nniches 0\nindirections no\nfree\nforbidden\nbytes\n";
                answers(&rt, alloc, document.as_bytes(), 0, text)?;
            } else {
                is_no_job(&rt, alloc, document.as_str())?;
            }
        }
    }
    Ok(())
}

#[test]
fn numbers_at_the_ends_of_their_range(rt: HostRuntime) -> Result<(), Fail> {
    let alloc = rt.alloc();
    // as JSON holds them: a version of 32 bits, an alignment of 64, and values from -2^63 to 2^64 - 1
    let version = r#"{"struct":{"name":"S","module":"m","fields":[],"version":4294967296}}"#;
    let align = r#"{"struct":{"name":"S","module":"m","fields":[],"align":18446744073709551616}}"#;
    for (desc, value) in [
        (version, "[]"),
        (align, "[]"),
        (r#""i128""#, "-9223372036854775809"),
        (r#""u128""#, "18446744073709551616"),
        (r#""u128""#, r#""340282366920938463463374607431768211456""#),
        (r#""i128""#, r#""-340282366920938463463374607431768211456""#),
    ] {
        is_no_job(&rt, alloc, document(alloc, desc, value)?.as_str())?;
    }
    for (desc, value, bytes) in [
        ("i64", "-9223372036854775808", "0000000000000080"),
        ("u64", "18446744073709551615", "ffffffffffffffff"),
    ] {
        let text = format!(in alloc;
            "size 8\nalign 8\nniches 0\nindirections no\nfree\nforbidden\nbytes {bytes}\n"
        )?;
        let document = format!(in alloc;
            "{{\"target\":\"le64\",\"desc\":\"{desc}\",\"value\":{value}}}"
        )?;
        answers(&rt, alloc, document.as_bytes(), 0, text.as_str())?;
    }
    Ok(())
}

#[test]
fn documents_that_nest_127_deep_and_one_deeper(rt: HostRuntime) -> Result<(), Fail> {
    let alloc = rt.alloc();
    // arrays alone, and then a description and a value one level below the top
    for (levels, status, text) in [(127, 6, "not a job\n"), (128, 5, "not JSON\n")] {
        let nested = nested(alloc, "[", "", "]", levels)?;
        answers(&rt, alloc, nested.as_bytes(), status, text)?;
    }
    for (levels, status, text) in [(126, 7, "refused: WrongValue\n"), (127, 5, "not JSON\n")] {
        let desc = nested(alloc, "{\"option\":", "\"u8\"", "}", levels)?;
        let deep = document(alloc, desc.as_str(), "5")?;
        answers(&rt, alloc, deep.as_bytes(), status, text)?;
        let value = nested(alloc, "[", "5", "]", levels)?;
        let deep = document(alloc, r#""u8""#, value.as_str())?;
        answers(&rt, alloc, deep.as_bytes(), status, text)?;
    }
    Ok(())
}

fn nested(
    alloc: Global,
    open: &str,
    inside: &str,
    close: &str,
    levels: usize,
) -> Result<String, AllocError> {
    let opened = times(alloc, open, levels)?;
    let closed = times(alloc, close, levels)?;
    format!(in alloc; "{opened}{inside}{closed}")
}

#[test]
fn a_repeated_key_keeps_its_last_value(rt: HostRuntime) -> Result<(), Fail> {
    let document =
        r#"{"value":7,"target":"be64","desc":8,"target":"le64","desc":"u8","value":{"some":9},"value":5}"#;
    let text = "size 1\nalign 1\nniches 0\nindirections no\nfree\nforbidden\nbytes 05\n";
    answers(&rt, rt.alloc(), document.as_bytes(), 0, text)
}
