//! Documents of the command `read`: each form of a value as it is written, and bytes that show none.

use crate::tests::{LE64, described, is_read, is_refused_by, replies};
use std::test::Fail;

// A description, bytes, and the value that they show.
static VALUES: [(&str, &str, &str); 34] = [
    // each form of a value
    (r#""()""#, "", r#"null"#),
    (r#""bool""#, "01", r#"true"#),
    (r#""bool""#, "00", r#"false"#),
    (r#""Ordering""#, "ff", r#""less""#),
    (r#""Ordering""#, "00", r#""equal""#),
    (r#""Ordering""#, "01", r#""greater""#),
    (r#""u8""#, "ff", r#"255"#),
    (r#""i8""#, "80", r#"-128"#),
    (r#""i8""#, "00", r#"0"#),
    // digits of either case are read, and small ones written
    (r#"{"union":["u8","u16"]}"#, "0A0b", r#"{"bytes":"0a0b"}"#),
    (r#"{"union":["()","()"]}"#, "", r#"{"bytes":""}"#),
    (
        r#"{"struct":{"name":"S","module":"demo","fields":[]}}"#,
        "",
        r#"[]"#,
    ),
    (r#"{"array":["u8",2]}"#, "0102", r#"[1,2]"#),
    (
        r#"{"array":[{"array":["u8",1]},2]}"#,
        "0102",
        r#"[[1],[2]]"#,
    ),
    (r#"{"result":["u8","u8"]}"#, "0005", r#"{"ok":5}"#),
    (r#"{"result":["u8","u8"]}"#, "ff00", r#"{"err":0}"#),
    (r#"{"option":"u8"}"#, "0005", r#"{"some":5}"#),
    (r#"{"option":"u8"}"#, "0100", r#""none""#),
    (
        r#"{"core_result":["NonZeroU8","()"]}"#,
        "00",
        r#"{"err":null}"#,
    ),
    (r#"{"core_option":"NonZeroU8"}"#, "00", r#""none""#),
    // numbers from -2^63 to 2^64 - 1, and texts beyond
    (r#""u64""#, "ffffffffffffffff", r#"18446744073709551615"#),
    (
        r#""u128""#,
        "ffffffffffffffff0000000000000000",
        r#"18446744073709551615"#,
    ),
    (
        r#""u128""#,
        "00000000000000000100000000000000",
        r#""18446744073709551616""#,
    ),
    (
        r#""u128""#,
        "ffffffffffffffffffffffffffffffff",
        r#""340282366920938463463374607431768211455""#,
    ),
    (r#""i64""#, "0000000000000080", r#"-9223372036854775808"#),
    (
        r#""i128""#,
        "0000000000000080ffffffffffffffff",
        r#"-9223372036854775808"#,
    ),
    (
        r#""i128""#,
        "ffffffffffffff7fffffffffffffffff",
        r#""-9223372036854775809""#,
    ),
    (
        r#""i128""#,
        "00000000000000000000000000000080",
        r#""-170141183460469231731687303715884105728""#,
    ),
    (r#""i128""#, "ffffffffffffffffffffffffffffffff", r#"-1"#),
    // what nothing fixes may hold anything
    (
        r#"{"struct":{"name":"S","module":"demo","fields":[["f0","u32"],["f1","bool"]]}}"#,
        "0100000001aabbcc",
        r#"[1,true]"#,
    ),
    (r#"{"option":"u32"}"#, "ffffffff05000000", r#""none""#),
    (r#"{"option":"u32"}"#, "feffffff05000000", r#"{"some":5}"#),
    (
        r#"{"core_option":{"struct":{"name":"S","module":"demo","fields":[["f0","u8"],["f1","NonZeroU8"]]}}}"#,
        "0700",
        r#""none""#,
    ),
    (
        r#"{"leaf":{"name":"L","module":"m","size":3,"align":1,"free":[[1,240]],"forbidden":[{"pattern":[[0,1],[2,2]]},{"range":[2,250,255]}],"niches":"many","indirections":true}}"#,
        "01ff03",
        r#"{"bytes":"010f03"}"#,
    ),
];

// A description, bytes that show no value of it, and the fault.
static FAULTS: [(&str, &str, &str); 25] = [
    // the length is told before what the bytes show
    (r#""u16""#, "07", "WrongLength"),
    (r#""bool""#, "", "WrongLength"),
    (r#""bool""#, "0707", "WrongLength"),
    (r#""()""#, "00", "WrongLength"),
    // and a fault of the description before both
    (r#"{"array":["bool",129]}"#, "", "ArrayLength part 1"),
    (r#"{"core_option":"bool"}"#, "0202", "NotStable part 1"),
    // no value has these bytes
    (r#""bool""#, "07", "IllegalBytes"),
    (r#""AtomicBool""#, "02", "IllegalBytes"),
    (r#""Ordering""#, "02", "IllegalBytes"),
    (r#""Ordering""#, "fe", "IllegalBytes"),
    (r#""NonZeroU32""#, "00000000", "IllegalBytes"),
    (r#""NonMaxU8""#, "00", "IllegalBytes"),
    (r#"{"non_x":["u8",72]}"#, "00", "IllegalBytes"),
    (r#""fn""#, "0000000000000000", "IllegalBytes"),
    (r#"{"ref":"u8"}"#, "0000000000000000", "IllegalBytes"),
    // by a pattern, by the least value of a range and by its greatest
    (
        r#"{"leaf":{"name":"L","module":"m","size":3,"align":1,"free":[[1,240]],"forbidden":[{"pattern":[[0,1],[2,2]]},{"range":[2,250,255]}],"niches":"many","indirections":true}}"#,
        "01ff02",
        "IllegalBytes",
    ),
    (
        r#"{"leaf":{"name":"L","module":"m","size":3,"align":1,"free":[[1,240]],"forbidden":[{"pattern":[[0,1],[2,2]]},{"range":[2,250,255]}],"niches":"many","indirections":true}}"#,
        "0000fa",
        "IllegalBytes",
    ),
    (
        r#"{"leaf":{"name":"L","module":"m","size":3,"align":1,"free":[[1,240]],"forbidden":[{"pattern":[[0,1],[2,2]]},{"range":[2,250,255]}],"niches":"many","indirections":true}}"#,
        "0000ff",
        "IllegalBytes",
    ),
    // in a field, an item, a payload, a wrapper
    (
        r#"{"struct":{"name":"S","module":"demo","fields":[["f0","u8"],["f1","bool"]]}}"#,
        "0702",
        "IllegalBytes",
    ),
    (r#"{"array":["bool",2]}"#, "0002", "IllegalBytes"),
    (r#"{"result":["u8","bool"]}"#, "0102", "IllegalBytes"),
    (r#"{"option":"bool"}"#, "03", "IllegalBytes"),
    (
        r#"{"core_option":{"struct":{"name":"S","module":"demo","fields":[["f0","NonZeroU8"],["f1",{"option":"bool"}]]}}}"#,
        "0103",
        "IllegalBytes",
    ),
    (r#"{"maybe_uninit":"bool"}"#, "02", "IllegalBytes"),
    (r#"{"stable_if":["bool","u8"]}"#, "02", "IllegalBytes"),
];

#[test]
fn values_as_they_are_written(rt: HostRuntime) -> Result<(), Fail> {
    for (desc, digits, value) in &VALUES {
        is_read(&rt, rt.alloc(), LE64, desc, digits, value)?;
    }
    Ok(())
}

#[test]
fn bytes_that_show_no_value(rt: HostRuntime) -> Result<(), Fail> {
    let alloc = rt.alloc();
    for (desc, digits, fault) in &FAULTS {
        let bytes = format!(in alloc; ",\"bytes\":\"{digits}\"")?;
        let document = described(alloc, LE64, desc, bytes.as_str())?;
        is_refused_by(&rt, alloc, "read", document.as_str(), fault)?;
    }
    Ok(())
}

// 128 arrays of 128 arrays of 128 arrays of 128 units are no bytes, and more values than there is room for.
#[test]
fn more_values_than_memory_holds(rt: HostRuntime) -> Result<(), Fail> {
    let desc = r#"{"array":[{"array":[{"array":[{"array":["()",128]},128]},128]},128]}"#;
    let document = described(rt.alloc(), LE64, desc, ",\"bytes\":\"\"")?;
    replies(&rt, rt.alloc(), "read", document.as_bytes(), 8, "")
}
