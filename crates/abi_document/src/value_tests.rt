//! Values: each form once, and trees that are none.

use crate::Command;
use crate::tests::told_of;
use std::alloc::Global;
use std::test::Fail;

// The job of packing a value of `()`, or `none`.
fn value_told(alloc: Global, value: &str) -> Result<String, Fail> {
    let document = format!(in alloc; "{{\"target\":\"le64\",\"desc\":\"()\",\"value\":{value}}}")?;
    told_of(alloc, Command::Pack, &document)
}

// Trees, and the value that each tells: integers with their signs.
static VALUES: [(&str, &str); 24] = [
    (r#"null"#, "unit"),
    (r#"true"#, "true"),
    (r#"false"#, "false"),
    (r#"0"#, "+0"),
    (r#"7"#, "+7"),
    (r#"-1"#, "-1"),
    (r#"-9223372036854775808"#, "-9223372036854775808"),
    (r#"18446744073709551615"#, "+18446744073709551615"),
    (r#""0""#, "+0"),
    (r#""-10""#, "-10"),
    (r#""18446744073709551616""#, "+18446744073709551616"),
    (
        r#""-170141183460469231731687303715884105728""#,
        "-170141183460469231731687303715884105728",
    ),
    (
        r#""-340282366920938463463374607431768211455""#,
        "-340282366920938463463374607431768211455",
    ),
    (
        r#""340282366920938463463374607431768211455""#,
        "+340282366920938463463374607431768211455",
    ),
    (r#""less""#, "Less"),
    (r#""equal""#, "Equal"),
    (r#""greater""#, "Greater"),
    (r#"{"bytes":""}"#, "bytes"),
    (r#"{"bytes":"00aBFF"}"#, "bytes 0 171 255"),
    (r#"[]"#, "[]"),
    (
        r#"[1,2,[null,"-3"],{"ok":[]}]"#,
        "[+1,+2,[unit,-3,],ok [],]",
    ),
    (r#"{"ok":{"err":null}}"#, "ok err unit"),
    (r#"{"some":"none"}"#, "some none"),
    (r#"{"ok":3,"ok":4}"#, "ok +4"),
];

#[test]
fn values_of_each_form(rt: HostRuntime) -> Result<(), Fail> {
    for (value, text) in &VALUES {
        let expected = format!(in rt.alloc(); "Unit = {text}")?;
        assert_eq!(rt; value_told(rt.alloc(), value)?, expected);
    }
    Ok(())
}

// Floats, texts that spell no integer or no word, bytes that are no pairs of digits, and other keys.
static NO_VALUES: [&str; 30] = [
    r#"1.5"#,
    r#"1e3"#,
    r#"-0"#,
    r#"18446744073709551616"#,
    r#"-9223372036854775809"#,
    r#""""#,
    r#""00""#,
    r#""01""#,
    r#""-0""#,
    r#""-""#,
    r#""--1""#,
    r#""+1""#,
    r#""1.0""#,
    r#"" 1""#,
    r#""340282366920938463463374607431768211456""#,
    r#""-340282366920938463463374607431768211456""#,
    r#""None""#,
    r#""Less""#,
    r#""true""#,
    r#""0x1""#,
    r#"{}"#,
    r#"{"bytes":"0"}"#,
    r#"{"bytes":"0g"}"#,
    r#"{"bytes":[0]}"#,
    r#"{"bytes":null}"#,
    r#"{"ok":1.5}"#,
    r#"{"ok":1,"err":1}"#,
    r#"{"none":null}"#,
    r#"{"Ok":1}"#,
    r#"[1,"x"]"#,
];

#[test]
fn trees_that_are_no_value(rt: HostRuntime) -> Result<(), Fail> {
    for value in &NO_VALUES {
        assert_eq!(rt; value_told(rt.alloc(), value)?.as_str(), "none", "{value}");
    }
    Ok(())
}
