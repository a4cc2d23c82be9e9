//! Faults of descriptions, part by part: form, stability, size.

use crate::tests::{LE64, described, is_refused_by, replies};
use std::alloc::{AllocError, Global};
use std::process::Abort;
use std::test::Fail;

// A target, a description and its first fault; parts are numbered from 0 in post-order: arrays that are too long, and
// parts that are too large.
static SIZES: [(&str, &str, &str); 10] = [
    // more than 128 items
    (r#""le64""#, r#"{"array":["u8",129]}"#, "ArrayLength part 1"),
    (
        r#""le64""#,
        r#"{"array":["u8",18446744073709551615]}"#,
        "ArrayLength part 1",
    ),
    (r#""le64""#, r#"{"array":["()",129]}"#, "ArrayLength part 1"),
    // more than 1,048,576 bytes
    (
        r#""le64""#,
        r#"{"array":[{"array":[{"array":["u8",128]},128]},128]}"#,
        "TooLarge part 3",
    ),
    (
        r#""le64""#,
        r#"{"array":[{"no_niches":{"size":1048576,"align":1,"niches":"none","indirections":false}},2]}"#,
        "TooLarge part 1",
    ),
    (
        r#""le64""#,
        r#"{"no_niches":{"size":1048577,"align":1,"niches":"none","indirections":false}}"#,
        "TooLarge part 0",
    ),
    (
        r#""le64""#,
        r#"{"no_niches":{"size":18446744073709551615,"align":1,"niches":"none","indirections":false}}"#,
        "TooLarge part 0",
    ),
    (
        r#""le64""#,
        r#"{"leaf":{"name":"L","module":"m","size":1048577,"align":1,"free":[],"forbidden":[],"niches":"none","indirections":false}}"#,
        "TooLarge part 0",
    ),
    (
        r#""le64""#,
        r#"{"union":["u8",{"no_niches":{"size":1048577,"align":1,"niches":"none","indirections":false}}]}"#,
        "TooLarge part 1",
    ),
    // a tag is too much
    (
        r#""le64""#,
        r#"{"option":{"no_niches":{"size":1048576,"align":1,"niches":"none","indirections":false}}}"#,
        "TooLarge part 1",
    ),
];

// A target, a description and its first fault; parts are numbered from 0 in post-order: sums that the compiler does not
// lay out in the same way everywhere.
static CORE_SUMS: [(&str, &str, &str); 17] = [
    // the payload has one niche, which is a pattern
    (r#""le64""#, r#"{"core_option":"u8"}"#, "NotStable part 1"),
    (r#""le64""#, r#"{"core_option":"bool"}"#, "NotStable part 1"),
    (
        r#""le64""#,
        r#"{"core_option":{"no_niches":{"size":1,"align":1,"niches":"one","indirections":false}}}"#,
        "NotStable part 1",
    ),
    (
        r#""le64""#,
        r#"{"core_option":{"struct":{"name":"S","module":"demo","fields":[["f0","NonZeroU8"],["f1",{"maybe_uninit":"NonZeroU8"}]]}}}"#,
        "NotStable part 4",
    ),
    (
        r#""le64""#,
        r#"{"core_option":{"struct":{"name":"S","module":"demo","fields":[["f0","u8"],["f1","NonZeroU16"]]}}}"#,
        "NotStable part 3",
    ),
    (
        r#""le64""#,
        r#"{"core_option":{"unsafe_cell":"NonZeroU8"}}"#,
        "NotStable part 2",
    ),
    (
        r#""le64""#,
        r#"{"core_option":{"core_option":"NonZeroU8"}}"#,
        "NotStable part 2",
    ),
    (
        r#""le64""#,
        r#"{"core_option":{"option":"NonZeroU8"}}"#,
        "NotStable part 2",
    ),
    (
        r#""le64""#,
        r#"{"core_option":"OwnedFd"}"#,
        "NotStable part 1",
    ),
    (
        r#""le64""#,
        r#"{"core_option":{"leaf":{"name":"L","module":"m","size":1,"align":1,"free":[],"forbidden":[{"range":[0,2,255]}],"niches":"one","indirections":false}}}"#,
        "NotStable part 1",
    ),
    (
        r#""le64""#,
        r#"{"core_option":{"leaf":{"name":"L","module":"m","size":1,"align":1,"free":[],"forbidden":[{"pattern":[[0,2]]},{"pattern":[[0,3]]}],"niches":"one","indirections":false}}}"#,
        "NotStable part 1",
    ),
    (
        r#""le64""#,
        r#"{"core_option":{"leaf":{"name":"L","module":"m","size":1,"align":1,"free":[],"forbidden":[{"pattern":[[0,2]]}],"niches":"many","indirections":false}}}"#,
        "NotStable part 1",
    ),
    // the other side has no bytes, and is aligned to 1
    (
        r#""le64""#,
        r#"{"core_result":["NonZeroU8","u8"]}"#,
        "NotStable part 2",
    ),
    (
        r#""le64""#,
        r#"{"core_result":["NonZeroU8","NonZeroU8"]}"#,
        "NotStable part 2",
    ),
    (
        r#""le64""#,
        r#"{"core_result":["()","()"]}"#,
        "NotStable part 2",
    ),
    (
        r#""le64""#,
        r#"{"core_result":["NonZeroU8",{"array":["u64",0]}]}"#,
        "NotStable part 3",
    ),
    (
        r#""le64""#,
        r#"{"core_result":[{"array":["u16",0]},"NonZeroU8"]}"#,
        "NotStable part 3",
    ),
];

// A target, a description and its first fault; parts are numbered from 0 in post-order: alignments, sizes and numbers.
static FORMS: [(&str, &str, &str); 18] = [
    // no power of two up to 65,536, or no divisor of the size
    (
        r#""le64""#,
        r#"{"no_niches":{"size":0,"align":0,"niches":"none","indirections":false}}"#,
        "IllFormed part 0",
    ),
    (
        r#""le64""#,
        r#"{"no_niches":{"size":0,"align":3,"niches":"none","indirections":false}}"#,
        "IllFormed part 0",
    ),
    (
        r#""le64""#,
        r#"{"no_niches":{"size":0,"align":131072,"niches":"none","indirections":false}}"#,
        "IllFormed part 0",
    ),
    (
        r#""le64""#,
        r#"{"no_niches":{"size":3,"align":2,"niches":"none","indirections":false}}"#,
        "IllFormed part 0",
    ),
    (
        r#""le64""#,
        r#"{"no_niches":{"size":1048577,"align":2,"niches":"none","indirections":false}}"#,
        "IllFormed part 0",
    ),
    // no number of the kind
    (r#""le64""#, r#"{"non_x":["u8",256]}"#, "IllFormed part 0"),
    (r#""le64""#, r#"{"non_x":["u8",-1]}"#, "IllFormed part 0"),
    (r#""le64""#, r#"{"non_x":["i8",128]}"#, "IllFormed part 0"),
    (r#""le64""#, r#"{"non_x":["i8",-129]}"#, "IllFormed part 0"),
    (
        r#""le64""#,
        r#"{"non_x":["u64","18446744073709551616"]}"#,
        "IllFormed part 0",
    ),
    (
        r#""le64""#,
        r#"{"non_x":["i64",9223372036854775808]}"#,
        "IllFormed part 0",
    ),
    (r#""le64""#, r#"{"non_x":["u128",-1]}"#, "IllFormed part 0"),
    (
        r#""le64""#,
        r#"{"non_x":["i128","170141183460469231731687303715884105728"]}"#,
        "IllFormed part 0",
    ),
    (
        r#""le64""#,
        r#"{"non_x":["i128","-170141183460469231731687303715884105729"]}"#,
        "IllFormed part 0",
    ),
    (
        r#""le16""#,
        r#"{"non_x":["usize",65536]}"#,
        "IllFormed part 0",
    ),
    (
        r#""le16""#,
        r#"{"non_x":["isize",32768]}"#,
        "IllFormed part 0",
    ),
    (
        r#""be32""#,
        r#"{"non_x":["usize",4294967296]}"#,
        "IllFormed part 0",
    ),
    (
        r#""be32""#,
        r#"{"non_x":["isize",-2147483649]}"#,
        "IllFormed part 0",
    ),
];

// A target, a description and its first fault; parts are numbered from 0 in post-order: which part is told.
static ORDER: [(&str, &str, &str); 9] = [
    // pointees and conditions are parts
    (
        r#""le64""#,
        r#"{"ref":{"array":["u8",129]}}"#,
        "ArrayLength part 1",
    ),
    (
        r#""le64""#,
        r#"{"stable_if":["u8",{"array":["u8",129]}]}"#,
        "ArrayLength part 2",
    ),
    (
        r#""le64""#,
        r#"{"const_ptr":{"core_option":"u8"}}"#,
        "NotStable part 1",
    ),
    (
        r#""le64""#,
        r#"{"stable_if":[{"no_niches":{"size":0,"align":3,"niches":"none","indirections":false}},{"no_niches":{"size":0,"align":5,"niches":"none","indirections":false}}]}"#,
        "IllFormed part 0",
    ),
    (
        r#""le64""#,
        r#"{"pin":{"no_niches":{"size":0,"align":3,"niches":"none","indirections":false}}}"#,
        "IllFormed part 0",
    ),
    // of one part the form is told before the size, and of two parts the first
    (
        r#""le64""#,
        r#"{"array":[{"no_niches":{"size":1048576,"align":1,"niches":"none","indirections":false}},129]}"#,
        "ArrayLength part 1",
    ),
    (
        r#""le64""#,
        r#"{"result":[{"array":["u8",129]},{"core_option":"u8"}]}"#,
        "ArrayLength part 1",
    ),
    (
        r#""le64""#,
        r#"{"result":[{"core_option":"u8"},{"array":["u8",129]}]}"#,
        "NotStable part 1",
    ),
    (
        r#""le64""#,
        r#"{"union":["u8",{"array":[{"no_niches":{"size":0,"align":3,"niches":"none","indirections":false}},129]}]}"#,
        "IllFormed part 1",
    ),
];

fn are_refused(rt: &impl Abort, alloc: Global, rows: &[(&str, &str, &str)]) -> Result<(), Fail> {
    for (target, desc, fault) in rows {
        let document = described(alloc, target, desc, "")?;
        is_refused_by(rt, alloc, "layout", document.as_str(), fault)?;
    }
    Ok(())
}

#[test]
fn arrays_and_parts_of_too_great_a_size(rt: HostRuntime) -> Result<(), Fail> {
    are_refused(&rt, rt.alloc(), &SIZES)
}

#[test]
fn sums_that_are_not_stable(rt: HostRuntime) -> Result<(), Fail> {
    are_refused(&rt, rt.alloc(), &CORE_SUMS)
}

#[test]
fn parts_that_are_ill_formed(rt: HostRuntime) -> Result<(), Fail> {
    are_refused(&rt, rt.alloc(), &FORMS)
}

#[test]
fn the_first_fault_of_several(rt: HostRuntime) -> Result<(), Fail> {
    are_refused(&rt, rt.alloc(), &ORDER)
}

// Leaves, and whether each is well-formed.
static LEAVES: [(&str, bool); 27] = [
    // size and alignment
    (
        r#"{"leaf":{"name":"L","module":"m","size":2,"align":2,"free":[],"forbidden":[],"niches":"none","indirections":false}}"#,
        true,
    ),
    (
        r#"{"leaf":{"name":"L","module":"m","size":0,"align":1,"free":[],"forbidden":[],"niches":"none","indirections":false}}"#,
        true,
    ),
    (
        r#"{"leaf":{"name":"L","module":"m","size":65536,"align":65536,"free":[],"forbidden":[],"niches":"none","indirections":false}}"#,
        true,
    ),
    (
        r#"{"leaf":{"name":"L","module":"m","size":0,"align":0,"free":[],"forbidden":[],"niches":"none","indirections":false}}"#,
        false,
    ),
    (
        r#"{"leaf":{"name":"L","module":"m","size":6,"align":3,"free":[],"forbidden":[],"niches":"none","indirections":false}}"#,
        false,
    ),
    (
        r#"{"leaf":{"name":"L","module":"m","size":3,"align":2,"free":[],"forbidden":[],"niches":"none","indirections":false}}"#,
        false,
    ),
    (
        r#"{"leaf":{"name":"L","module":"m","size":131072,"align":131072,"free":[],"forbidden":[],"niches":"none","indirections":false}}"#,
        false,
    ),
    // free entries rise, have bits and lie below the size
    (
        r#"{"leaf":{"name":"L","module":"m","size":2,"align":1,"free":[[0,1],[1,255]],"forbidden":[],"niches":"none","indirections":false}}"#,
        true,
    ),
    (
        r#"{"leaf":{"name":"L","module":"m","size":2,"align":1,"free":[[1,1],[0,1]],"forbidden":[],"niches":"none","indirections":false}}"#,
        false,
    ),
    (
        r#"{"leaf":{"name":"L","module":"m","size":2,"align":1,"free":[[0,1],[0,2]],"forbidden":[],"niches":"none","indirections":false}}"#,
        false,
    ),
    (
        r#"{"leaf":{"name":"L","module":"m","size":2,"align":1,"free":[[0,0]],"forbidden":[],"niches":"none","indirections":false}}"#,
        false,
    ),
    (
        r#"{"leaf":{"name":"L","module":"m","size":2,"align":1,"free":[[2,1]],"forbidden":[],"niches":"none","indirections":false}}"#,
        false,
    ),
    (
        r#"{"leaf":{"name":"L","module":"m","size":2,"align":1,"free":[[18446744073709551615,1]],"forbidden":[],"niches":"none","indirections":false}}"#,
        false,
    ),
    // so do the bytes of a pattern, of which there is one at least
    (
        r#"{"leaf":{"name":"L","module":"m","size":2,"align":1,"free":[],"forbidden":[{"pattern":[[0,0],[1,0]]}],"niches":"none","indirections":false}}"#,
        true,
    ),
    (
        r#"{"leaf":{"name":"L","module":"m","size":2,"align":1,"free":[],"forbidden":[{"pattern":[]}],"niches":"none","indirections":false}}"#,
        false,
    ),
    (
        r#"{"leaf":{"name":"L","module":"m","size":2,"align":1,"free":[],"forbidden":[{"pattern":[[1,0],[0,0]]}],"niches":"none","indirections":false}}"#,
        false,
    ),
    (
        r#"{"leaf":{"name":"L","module":"m","size":2,"align":1,"free":[],"forbidden":[{"pattern":[[0,0],[0,1]]}],"niches":"none","indirections":false}}"#,
        false,
    ),
    (
        r#"{"leaf":{"name":"L","module":"m","size":2,"align":1,"free":[],"forbidden":[{"pattern":[[2,0]]}],"niches":"none","indirections":false}}"#,
        false,
    ),
    // a range has two values at least
    (
        r#"{"leaf":{"name":"L","module":"m","size":2,"align":1,"free":[],"forbidden":[{"range":[1,254,255]}],"niches":"none","indirections":false}}"#,
        true,
    ),
    (
        r#"{"leaf":{"name":"L","module":"m","size":2,"align":1,"free":[],"forbidden":[{"range":[0,5,5]}],"niches":"none","indirections":false}}"#,
        false,
    ),
    (
        r#"{"leaf":{"name":"L","module":"m","size":2,"align":1,"free":[],"forbidden":[{"range":[0,6,5]}],"niches":"none","indirections":false}}"#,
        false,
    ),
    (
        r#"{"leaf":{"name":"L","module":"m","size":2,"align":1,"free":[],"forbidden":[{"range":[2,0,255]}],"niches":"none","indirections":false}}"#,
        false,
    ),
    // no forbidden byte has a free bit
    (
        r#"{"leaf":{"name":"L","module":"m","size":2,"align":1,"free":[[1,1]],"forbidden":[{"pattern":[[0,5]]}],"niches":"none","indirections":false}}"#,
        true,
    ),
    (
        r#"{"leaf":{"name":"L","module":"m","size":2,"align":1,"free":[[0,1]],"forbidden":[{"pattern":[[0,5]]}],"niches":"none","indirections":false}}"#,
        false,
    ),
    (
        r#"{"leaf":{"name":"L","module":"m","size":2,"align":1,"free":[[0,128]],"forbidden":[{"range":[0,0,1]}],"niches":"none","indirections":false}}"#,
        false,
    ),
    (
        r#"{"leaf":{"name":"L","module":"m","size":2,"align":1,"free":[[1,2]],"forbidden":[{"pattern":[[0,5],[1,5]]}],"niches":"none","indirections":false}}"#,
        false,
    ),
    (
        r#"{"leaf":{"name":"L","module":"m","size":2,"align":1,"free":[[0,1]],"forbidden":[{"pattern":[[1,5]]},{"pattern":[[0,5]]}],"niches":"none","indirections":false}}"#,
        false,
    ),
];

#[test]
fn leaves_that_are_well_formed_and_others(rt: HostRuntime) -> Result<(), Fail> {
    for (desc, is_formed) in &LEAVES {
        is_formed_or_not(&rt, rt.alloc(), desc, *is_formed)?;
    }
    Ok(())
}

// Of a pointee nothing is told but its fault, so the text is the same for every leaf.
fn is_formed_or_not(
    rt: &impl Abort,
    alloc: Global,
    leaf: &str,
    is_formed: bool,
) -> Result<(), Fail> {
    let pointer = format!(in alloc; "{{\"const_ptr\":{leaf}}}")?;
    let document = described(alloc, LE64, pointer.as_str(), "")?;
    if is_formed {
        let text = "size 8\nalign 8\nniches 0\nindirections yes\nfree\nforbidden\n";
        replies(rt, alloc, "layout", document.as_bytes(), 0, text)
    } else {
        is_refused_by(rt, alloc, "layout", document.as_str(), "IllFormed part 0")
    }
}

// A leaf of one byte with so many forbidden items.
fn forbids(alloc: Global, count: usize) -> Result<String, AllocError> {
    let mut items = String::new(alloc);
    for at in 0..count {
        items.push_str(if at == 0 { "" } else { "," })?;
        items.push_str("{\"pattern\":[[0,5]]}")?;
    }
    format!(in alloc;
        "{{\"leaf\":{{\"name\":\"L\",\"module\":\"m\",\"size\":1,\"align\":1,\"free\":[],\"forbidden\":[{items}],\"niches\":\"none\",\"indirections\":false}}}}"
    )
}

#[test]
fn leaves_with_256_forbidden_items_and_with_one_more(rt: HostRuntime) -> Result<(), Fail> {
    let alloc = rt.alloc();
    is_formed_or_not(&rt, alloc, forbids(alloc, 256)?.as_str(), true)?;
    is_formed_or_not(&rt, alloc, forbids(alloc, 257)?.as_str(), false)
}

// 4,093 numbers, an array with its item and the struct are 4,096 parts; a pointer or a condition is one more.
#[test]
fn pointees_and_conditions_are_counted(rt: HostRuntime) -> Result<(), Fail> {
    let alloc = rt.alloc();
    for (last, fault) in [
        ("{\"array\":[\"u8\",129]}", "ArrayLength part 4094"),
        ("{\"ref\":{\"array\":[\"u8\",129]}}", "TooManyParts"),
        (
            "{\"stable_if\":[{\"array\":[\"u8\",129]},\"u8\"]}",
            "TooManyParts",
        ),
    ] {
        let numbers = "[\"f\",\"u8\"],".repeat(alloc, 4093)?;
        let desc = format!(in alloc;
            "{{\"struct\":{{\"name\":\"S\",\"module\":\"m\",\"fields\":[{numbers}[\"f\",{last}]]}}}}"
        )?;
        let document = described(alloc, LE64, desc.as_str(), "")?;
        is_refused_by(&rt, alloc, "layout", document.as_str(), fault)?;
    }
    Ok(())
}
