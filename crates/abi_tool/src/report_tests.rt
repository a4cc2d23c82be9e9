//! Reports and identifiers of descriptions.

use crate::tests::{LE64, described, is_refused_by, replies};
use std::test::Fail;

// A target, a description, its identifier and its report. The identifiers are from Python's hashlib, the hashed bytes
// and the target's written out:
//     d = sha256(b"stabby_abi::stable_impls" b"u8\0").digest()
//     arch = b"\x00\x08\x08\x08\x08\x10\x00\x00"
//     int.from_bytes(d[:8], "little") ^ int.from_bytes(arch, "little")
// The target's bytes of `be32` are b"\x00\x04\x04\x04\x04\x08\x01\x00". The hashed bytes of the last two are
// b"demo" b"N146\0", and b"demo" b"Pair\0" b"left" b"stabby_abi::stable_impls" b"u32\0" b"right"
// b"stabby_abi::stable_impls" b"bool\0".
static REPORTS: [(&str, &str, &str, &str); 4] = [
    (
        LE64,
        r#""u8""#,
        "fd1d5dfcbb7fbaab",
        "Struct stabby_abi::stable_impls :: u8 (version0) {}",
    ),
    (
        r#""be32""#,
        r#""u8""#,
        "fd1c45f0b773b6ab",
        "Struct stabby_abi::stable_impls :: u8 (version0) {}",
    ),
    (
        LE64,
        r#"{"struct":{"name":"N146","module":"demo","version":4294967295,"fields":[]}}"#,
        "0002ab46b952b8a8",
        "Struct demo :: N146 (version4294967295) {}",
    ),
    (
        LE64,
        r#"{"struct":{"name":"Pair","module":"demo","fields":[["left","u32"],["right","bool"]]}}"#,
        "79a75c6d43a13c30",
        "Struct demo :: Pair (version0) {left: Struct stabby_abi::stable_impls :: u32 (version0) {}, right: Struct stabby_abi::stable_impls :: bool (version0) {}, }",
    ),
];

#[test]
fn reports_with_their_identifiers(rt: HostRuntime) -> Result<(), Fail> {
    let alloc = rt.alloc();
    for (target, desc, id, report) in &REPORTS {
        let document = described(alloc, target, desc, "")?;
        let lines = format!(in alloc; "id {id}\nreport {report}\n")?;
        replies(&rt, alloc, "report", document.as_bytes(), 0, &lines)?;
    }
    Ok(())
}

// A target, a description and its first fault.
static REFUSED: [(&str, &str, &str); 4] = [
    (
        r#"{"little":true,"pointer":3,"u64_align":8,"u128_align":16}"#,
        r#""u8""#,
        "BadTarget",
    ),
    (LE64, r#"{"array":["u8",129]}"#, "ArrayLength part 1"),
    (LE64, r#"{"core_option":"u8"}"#, "NotStable part 1"),
    (
        LE64,
        r#"{"no_niches":{"size":1048577,"align":1,"niches":"none","indirections":false}}"#,
        "TooLarge part 0",
    ),
];

#[test]
fn descriptions_that_have_a_fault(rt: HostRuntime) -> Result<(), Fail> {
    let alloc = rt.alloc();
    for (target, desc, fault) in &REFUSED {
        let document = described(alloc, target, desc, "")?;
        is_refused_by(&rt, alloc, "report", &document, fault)?;
    }
    Ok(())
}
