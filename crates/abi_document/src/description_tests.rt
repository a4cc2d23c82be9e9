//! Descriptions of types: each form once, and trees that are none.

use crate::Command;
use crate::tests::told_of;
use std::alloc::Global;
use std::test::Fail;

// The description of a document, or `none`.
fn desc_told(alloc: Global, desc: &str) -> Result<String, Fail> {
    let document = format!(in alloc; "{{\"target\":\"le64\",\"desc\":{desc}}}")?;
    told_of(alloc, Command::Layout, &document)
}

// Each primitive that has a name of its own.
static PRIMITIVES: [(&str, &str); 50] = [
    (r#""()""#, "Unit"),
    (r#""PhantomData""#, "PhantomData"),
    (r#""PhantomPinned""#, "PhantomPinned"),
    (r#""c_void""#, "CVoid"),
    (r#""bool""#, "Bool"),
    (r#""Ordering""#, "Ordering"),
    (r#""u8""#, "U8"),
    (r#""u16""#, "U16"),
    (r#""u32""#, "U32"),
    (r#""u64""#, "U64"),
    (r#""u128""#, "U128"),
    (r#""usize""#, "Usize"),
    (r#""i8""#, "I8"),
    (r#""i16""#, "I16"),
    (r#""i32""#, "I32"),
    (r#""i64""#, "I64"),
    (r#""i128""#, "I128"),
    (r#""isize""#, "Isize"),
    (r#""AtomicBool""#, "AtomicBool"),
    (r#""AtomicU8""#, "AtomicU8"),
    (r#""AtomicU16""#, "AtomicU16"),
    (r#""AtomicU32""#, "AtomicU32"),
    (r#""AtomicU64""#, "AtomicU64"),
    (r#""AtomicUsize""#, "AtomicUsize"),
    (r#""AtomicI8""#, "AtomicI8"),
    (r#""AtomicI16""#, "AtomicI16"),
    (r#""AtomicI32""#, "AtomicI32"),
    (r#""AtomicI64""#, "AtomicI64"),
    (r#""AtomicIsize""#, "AtomicIsize"),
    (r#""NonZeroU8""#, "NonZeroU8"),
    (r#""NonZeroU16""#, "NonZeroU16"),
    (r#""NonZeroU32""#, "NonZeroU32"),
    (r#""NonZeroU64""#, "NonZeroU64"),
    (r#""NonZeroU128""#, "NonZeroU128"),
    (r#""NonZeroUsize""#, "NonZeroUsize"),
    (r#""NonZeroI8""#, "NonZeroI8"),
    (r#""NonZeroI16""#, "NonZeroI16"),
    (r#""NonZeroI32""#, "NonZeroI32"),
    (r#""NonZeroI64""#, "NonZeroI64"),
    (r#""NonZeroI128""#, "NonZeroI128"),
    (r#""NonZeroIsize""#, "NonZeroIsize"),
    (r#""NonMaxU8""#, "NonMaxU8"),
    (r#""NonMaxU16""#, "NonMaxU16"),
    (r#""NonMaxU32""#, "NonMaxU32"),
    (r#""NonMaxU64""#, "NonMaxU64"),
    (r#""NonMaxU128""#, "NonMaxU128"),
    (r#""NonMaxUsize""#, "NonMaxUsize"),
    (r#""OwnedFd""#, "OwnedFd"),
    (r#""BorrowedFd""#, "BorrowedFd"),
    (r#""fn""#, "FnPtr"),
];

#[test]
fn primitives_by_name(rt: HostRuntime) -> Result<(), Fail> {
    for (desc, text) in &PRIMITIVES {
        assert_eq!(rt; desc_told(rt.alloc(), desc)?.as_str(), *text);
    }
    Ok(())
}

// Each description by the key of its form, and what it tells.
static FORMS: [(&str, &str); 39] = [
    (
        r#"{"struct":{"name":"A","module":"m","fields":[]}}"#,
        "m.A 0 None []",
    ),
    (
        r#"{"struct":{"fields":[["a","bool"],["",{"option":"u8"}]],"name":"A","module":"m::n","version":4294967295}}"#,
        "m::n.A 4294967295 None [a: Bool,: option of U8,]",
    ),
    (
        r#"{"struct":{"align":16,"version":2,"name":"","module":"","fields":[]}}"#,
        ". 2 Some(16) []",
    ),
    (r#"{"array":["u8",0]}"#, "0 times U8"),
    (
        r#"{"array":[{"array":["bool",18446744073709551615]},3]}"#,
        "3 times 18446744073709551615 times Bool",
    ),
    (r#"{"union":["u8","bool"]}"#, "union of U8 and of Bool"),
    (
        r#"{"result":[{"option":"bool"},{"result":["()","u8"]}]}"#,
        "result of option of Bool and of result of Unit and of U8",
    ),
    (
        r#"{"core_result":["NonZeroU8","()"]}"#,
        "core result of NonZeroU8 and of Unit",
    ),
    (
        r#"{"stable_if":["u16","u8"]}"#,
        "stable if of U16 and of U8",
    ),
    (r#"{"option":{"option":"u8"}}"#, "option of option of U8"),
    (r#"{"core_option":"NonZeroU8"}"#, "core option of NonZeroU8"),
    (r#"{"manually_drop":"u8"}"#, "ManuallyDrop of U8"),
    (r#"{"maybe_uninit":"u8"}"#, "MaybeUninit of U8"),
    (r#"{"unsafe_cell":"u8"}"#, "UnsafeCell of U8"),
    (r#"{"pin":"u8"}"#, "Pin of U8"),
    (r#"{"not_pod":"u8"}"#, "NotPod of U8"),
    (r#"{"or_infallible":"u8"}"#, "OrInfallible of U8"),
    (r#"{"const_ptr":"u8"}"#, "ConstPtr of U8"),
    (r#"{"mut_ptr":"u8"}"#, "MutPtr of U8"),
    (r#"{"atomic_ptr":"u8"}"#, "AtomicPtr of U8"),
    (r#"{"non_null":"u8"}"#, "NonNull of U8"),
    (r#"{"ref":"u8"}"#, "Ref of U8"),
    (r#"{"ref_mut":"u8"}"#, "RefMut of U8"),
    (
        r#"{"non_x":["u8",0]}"#,
        "NonX { kind: U8, magnitude: 0, negative: false }",
    ),
    (
        r#"{"non_x":["u16",300]}"#,
        "NonX { kind: U16, magnitude: 300, negative: false }",
    ),
    (
        r#"{"non_x":["u32","7"]}"#,
        "NonX { kind: U32, magnitude: 7, negative: false }",
    ),
    (
        r#"{"non_x":["u64",18446744073709551615]}"#,
        "NonX { kind: U64, magnitude: 18446744073709551615, negative: false }",
    ),
    (
        r#"{"non_x":["u128","340282366920938463463374607431768211455"]}"#,
        "NonX { kind: U128, magnitude: 340282366920938463463374607431768211455, negative: false }",
    ),
    (
        r#"{"non_x":["usize",-1]}"#,
        "NonX { kind: Usize, magnitude: 1, negative: true }",
    ),
    (
        r#"{"non_x":["i8",-128]}"#,
        "NonX { kind: I8, magnitude: 128, negative: true }",
    ),
    (
        r#"{"non_x":["i16","-5"]}"#,
        "NonX { kind: I16, magnitude: 5, negative: true }",
    ),
    (
        r#"{"non_x":["i32",1]}"#,
        "NonX { kind: I32, magnitude: 1, negative: false }",
    ),
    (
        r#"{"non_x":["i64",-9223372036854775808]}"#,
        "NonX { kind: I64, magnitude: 9223372036854775808, negative: true }",
    ),
    (
        r#"{"non_x":["i128",0]}"#,
        "NonX { kind: I128, magnitude: 0, negative: false }",
    ),
    (
        r#"{"non_x":["isize",2]}"#,
        "NonX { kind: Isize, magnitude: 2, negative: false }",
    ),
    (
        r#"{"no_niches":{"size":8,"align":4,"niches":"none","indirections":false}}"#,
        "no niches 8 4 B0 false",
    ),
    (
        r#"{"no_niches":{"size":18446744073709551615,"align":0,"niches":"many","indirections":true}}"#,
        "no niches 18446744073709551615 0 Saturator true",
    ),
    (
        r#"{"leaf":{"name":"L","module":"m","size":3,"align":1,"free":[],"forbidden":[],"niches":"one","indirections":true}}"#,
        "leaf m.L 3 1 B1 true free",
    ),
    (
        r#"{"leaf":{"name":"L","module":"m","size":3,"align":1,"free":[[1,255],[0,0]],"forbidden":[{"pattern":[[0,255],[2,0]]},{"range":[18446744073709551615,0,255]},{"pattern":[]}],"niches":"none","indirections":false}}"#,
        "leaf m.L 3 1 B0 false free 1:255 0:0 pattern 0:255 2:0 range 18446744073709551615:0-255 pattern",
    ),
];

#[test]
fn descriptions_of_each_form(rt: HostRuntime) -> Result<(), Fail> {
    for (desc, text) in &FORMS {
        assert_eq!(rt; desc_told(rt.alloc(), desc)?.as_str(), *text);
    }
    Ok(())
}

static NO_DESCRIPTIONS: [&str; 59] = [
    r#""f32""#,
    r#""f64""#,
    r#""U8""#,
    r#""unit""#,
    r#""NonX""#,
    r#""NonXU8""#,
    r#""NonMaxI8""#,
    r#""AtomicU128""#,
    r#""""#,
    r#"null"#,
    r#"8"#,
    r#"["u8","u8"]"#,
    r#"{}"#,
    r#"{"tuple":["u8","u8"]}"#,
    r#"{"option":"f32"}"#,
    r#"{"option":["u8"]}"#,
    r#"{"ref":null}"#,
    r#"{"option":"u8","result":["u8","u8"]}"#,
    r#"{"result":["u8"]}"#,
    r#"{"result":["u8","u8","u8"]}"#,
    r#"{"union":"u8"}"#,
    r#"{"stable_if":["u8",1]}"#,
    r#"{"core_result":[1,"u8"]}"#,
    r#"{"array":["u8"]}"#,
    r#"{"array":["u8",-1]}"#,
    r#"{"array":["u8",1.0]}"#,
    r#"{"array":["u8","1"]}"#,
    r#"{"array":["u8",18446744073709551616]}"#,
    r#"{"array":[3,"u8"]}"#,
    r#"{"array":["u8",1,1]}"#,
    r#"{"non_x":["u8"]}"#,
    r#"{"non_x":"u8"}"#,
    r#"{"non_x":["U8",1]}"#,
    r#"{"non_x":["bool",1]}"#,
    r#"{"non_x":[8,1]}"#,
    r#"{"non_x":["u8",1.0]}"#,
    r#"{"non_x":["u8","01"]}"#,
    r#"{"non_x":["u8","-0"]}"#,
    r#"{"non_x":["u8","none"]}"#,
    r#"{"non_x":["u8",null]}"#,
    r#"{"non_x":["u8",1,1]}"#,
    r#"{"non_x":["u8","340282366920938463463374607431768211456"]}"#,
    r#"{"struct":[]}"#,
    r#"{"struct":{"name":"A","module":"m","fields":["u8"]}}"#,
    r#"{"struct":{"name":"A","module":"m","fields":[["a","u8","u8"]]}}"#,
    r#"{"struct":{"name":"A","module":"m","fields":[[1,"u8"]]}}"#,
    r#"{"struct":{"name":"A","module":"m","fields":[],"size":1}}"#,
    r#"{"struct":{"name":"A","module":"m","fields":[],"version":4294967296}}"#,
    r#"{"struct":{"name":"A","module":"m","fields":[],"version":null}}"#,
    r#"{"struct":{"name":"A","module":"m","fields":[],"align":-1}}"#,
    r#"{"struct":{"name":"A","module":"m","fields":[],"align":"8"}}"#,
    r#"{"struct":{"name":"A\n","module":"m","fields":[]}}"#,
    r#"{"struct":{"name":"A\u007f","module":"m","fields":[]}}"#,
    r#"{"struct":{"name":"A","module":"\u00e9","fields":[]}}"#,
    r#"{"no_niches":[]}"#,
    r#"{"no_niches":{"size":8,"align":4,"niches":"B0","indirections":false}}"#,
    r#"{"no_niches":{"size":8,"align":4,"niches":1,"indirections":false}}"#,
    r#"{"no_niches":{"size":8,"align":4,"niches":"one","indirections":0}}"#,
    r#"{"no_niches":{"size":8.0,"align":4,"niches":"one","indirections":false}}"#,
];

#[test]
fn trees_that_are_no_description(rt: HostRuntime) -> Result<(), Fail> {
    for desc in &NO_DESCRIPTIONS {
        assert_eq!(rt; desc_told(rt.alloc(), desc)?.as_str(), "none", "{desc}");
    }
    Ok(())
}

// What stands under a key of a leaf, and is no list of masks or of what is forbidden.
static NO_ITEMS: [(&str, &str); 19] = [
    ("free", r#"[[0,256]]"#),
    ("free", r#"[[0,-1]]"#),
    ("free", r#"[[0]]"#),
    ("free", r#"[[0,1,1]]"#),
    ("free", r#"[0,1]"#),
    ("free", r#"[[18446744073709551616,1]]"#),
    ("forbidden", r#"[{"pattern":[[0,256]]}]"#),
    ("forbidden", r#"[{"pattern":[0,1]}]"#),
    ("forbidden", r#"[{"pattern":0}]"#),
    ("forbidden", r#"[{"range":[0,1]}]"#),
    ("forbidden", r#"[{"range":[0,1,2,3]}]"#),
    ("forbidden", r#"[{"range":[0,1,256]}]"#),
    ("forbidden", r#"[{"range":[0,-1,1]}]"#),
    ("forbidden", r#"[{"range":[-1,0,1]}]"#),
    ("forbidden", r#"[{"range":{}}]"#),
    ("forbidden", r#"[{"pattern":[],"range":[0,1,2]}]"#),
    ("forbidden", r#"[{"value":[]}]"#),
    ("forbidden", r#"[[0,1]]"#),
    ("forbidden", r#"[{}]"#),
];

#[test]
fn items_that_a_leaf_cannot_have(rt: HostRuntime) -> Result<(), Fail> {
    for (key, content) in &NO_ITEMS {
        let desc = format!(in rt.alloc();
            "{{\"leaf\":{{\"name\":\"L\",\"module\":\"m\",\"size\":3,\"align\":1,\"free\":[],\"forbidden\":[],\
             \"niches\":\"none\",\"indirections\":false,\"{key}\":{content}}}}}"
        )?;
        assert_eq!(rt;
            desc_told(rt.alloc(), &desc)?.as_str(),
            "none",
            "{key} {content}"
        );
    }
    Ok(())
}

#[test]
fn names_of_256_bytes_and_of_257(rt: HostRuntime) -> Result<(), Fail> {
    for (count, is_name) in [(256, true), (257, false)] {
        let name = "~".repeat(rt.alloc(), count)?;
        for (name, module) in [(name.as_str(), " "), (" ", name.as_str())] {
            let desc = format!(in rt.alloc();
                "{{\"struct\":{{\"name\":\"{name}\",\"module\":\"{module}\",\"fields\":[]}}}}"
            )?;
            assert_eq!(rt; desc_told(rt.alloc(), &desc)?.as_str() != "none", is_name);
        }
    }
    Ok(())
}
