//! Documents whose job is done: arrays, unions, sums of the compiler's, wrappers, pointers, leaves.

use crate::written_tests::{Row, is_packed};
use std::test::Fail;

// Arrays: items one after another, their alignment, and their free bits, niches and forbidden values where there is one
// alone.
static ARRAYS: [Row; 11] = [
    // one item passes on what it has
    Row {
        desc: r#"{"array":["bool",1]}"#,
        lines: "size 1\nalign 1\nniches many\nindirections no\nfree\nforbidden 0=2-255\n",
        values: &[(r#"[true]"#, "01")],
    },
    Row {
        desc: r#"{"array":["NonZeroU16",1]}"#,
        lines: "size 2\nalign 2\nniches 1\nindirections no\nfree\nforbidden 0=0,1=0\n",
        values: &[(r#"[258]"#, "0201")],
    },
    Row {
        desc: r#"{"array":[{"option":"u8"},1]}"#,
        lines: "size 2\nalign 1\nniches 0\nindirections no\nfree 0:254\nforbidden\n\
            sum 1 place 0 front 1 ok 0 err 0 tag means err\n",
        values: &[(r#"["none"]"#, "0100")],
    },
    // more pass on nothing, and neither do none
    Row {
        desc: r#"{"array":["bool",2]}"#,
        lines: "size 2\nalign 1\nniches many\nindirections no\nfree\nforbidden\n",
        values: &[(r#"[true,false]"#, "0100")],
    },
    Row {
        desc: r#"{"array":["()",3]}"#,
        lines: "size 0\nalign 1\nniches many\nindirections no\nfree\nforbidden\n",
        values: &[(r#"[null,null,null]"#, "")],
    },
    Row {
        desc: r#"{"array":["bool",0]}"#,
        lines: "size 0\nalign 1\nniches 0\nindirections no\nfree\nforbidden\n",
        values: &[(r#"[]"#, "")],
    },
    Row {
        desc: r#"{"array":["u32",0]}"#,
        lines: "size 0\nalign 4\nniches 0\nindirections no\nfree\nforbidden\n",
        values: &[(r#"[]"#, "")],
    },
    Row {
        desc: r#"{"array":[{"array":["u16",2]},2]}"#,
        lines: "size 8\nalign 2\nniches many\nindirections no\nfree\nforbidden\n",
        values: &[(r#"[[1,2],[3,4]]"#, "0100020003000400")],
    },
    Row {
        desc: r#"{"array":[{"ref":"u8"},2]}"#,
        lines: "size 16\nalign 8\nniches many\nindirections yes\nfree\nforbidden\n",
        values: &[(r#"[1,256]"#, "01000000000000000001000000000000")],
    },
    // the sum of the items is told once, whatever their number
    Row {
        desc: r#"{"array":[{"option":"u8"},2]}"#,
        lines: "size 4\nalign 1\nniches many\nindirections no\nfree\nforbidden\n\
            sum 1 place 0 front 1 ok 0 err 0 tag means err\n",
        values: &[(r#"[{"some":5},"none"]"#, "00050100")],
    },
    Row {
        desc: r#"{"array":[{"option":"u8"},0]}"#,
        lines: "size 0\nalign 1\nniches 0\nindirections no\nfree\nforbidden\n\
            sum 1 place 0 front 1 ok 0 err 0 tag means err\n",
        values: &[(r#"[]"#, "")],
    },
];

// Unions: the larger of two in the same bytes.
static UNIONS: [Row; 6] = [
    Row {
        desc: r#"{"union":["u32","u8"]}"#,
        lines: "size 4\nalign 4\nniches 0\nindirections no\nfree\nforbidden\n",
        values: &[(r#"{"bytes":"0102030a"}"#, "0102030a")],
    },
    // nothing of the two is forbidden, free or counted
    Row {
        desc: r#"{"union":["NonZeroU8",{"array":["u8",3]}]}"#,
        lines: "size 3\nalign 1\nniches 0\nindirections no\nfree\nforbidden\n",
        values: &[(r#"{"bytes":"00ff0a"}"#, "00ff0a")],
    },
    // three bytes, rounded up to the alignment of the other
    Row {
        desc: r#"{"union":[{"array":["u8",3]},"u16"]}"#,
        lines: "size 4\nalign 2\nniches 0\nindirections no\nfree\nforbidden\n",
        values: &[(r#"{"bytes":"00010203"}"#, "00010203")],
    },
    Row {
        desc: r#"{"union":["()","()"]}"#,
        lines: "size 0\nalign 1\nniches 0\nindirections no\nfree\nforbidden\n",
        values: &[(r#"{"bytes":""}"#, "")],
    },
    Row {
        desc: r#"{"union":["u8",{"not_pod":"u8"}]}"#,
        lines: "size 1\nalign 1\nniches 0\nindirections yes\nfree\nforbidden\n",
        values: &[(r#"{"bytes":"00"}"#, "00")],
    },
    Row {
        desc: r#"{"union":[{"option":"bool"},"u8"]}"#,
        lines: "size 1\nalign 1\nniches 0\nindirections no\nfree\nforbidden\n\
            sum 1 place 0 front 0 ok 0 err 0 larger 0=2 means err\n",
        values: &[(r#"{"bytes":"ff"}"#, "ff")],
    },
];

// Sums as the compiler lays them out: as large as the payload, whose one pattern means the empty side.
static CORE_SUMS: [Row; 10] = [
    Row {
        desc: r#"{"core_option":"NonZeroU8"}"#,
        lines: "size 1\nalign 1\nniches 0\nindirections no\nfree\nforbidden\n",
        values: &[(r#""none""#, "00"), (r#"{"some":9}"#, "09")],
    },
    Row {
        desc: r#"{"core_option":"NonZeroU32"}"#,
        lines: "size 4\nalign 4\nniches 0\nindirections no\nfree\nforbidden\n",
        values: &[(r#""none""#, "00000000"), (r#"{"some":256}"#, "00010000")],
    },
    Row {
        desc: r#"{"core_option":{"ref":"u8"}}"#,
        lines: "size 8\nalign 8\nniches 0\nindirections yes\nfree\nforbidden\n",
        values: &[
            (r#""none""#, "0000000000000000"),
            (r#"{"some":4096}"#, "0010000000000000"),
        ],
    },
    Row {
        desc: r#"{"core_result":["NonZeroU16","()"]}"#,
        lines: "size 2\nalign 2\nniches 0\nindirections no\nfree\nforbidden\n",
        values: &[(r#"{"ok":258}"#, "0201"), (r#"{"err":null}"#, "0000")],
    },
    Row {
        desc: r#"{"core_result":["()","NonZeroU16"]}"#,
        lines: "size 2\nalign 2\nniches 0\nindirections no\nfree\nforbidden\n",
        values: &[(r#"{"ok":null}"#, "0000"), (r#"{"err":258}"#, "0201")],
    },
    Row {
        desc: r#"{"core_result":["NonZeroU8",{"array":["u8",0]}]}"#,
        lines: "size 1\nalign 1\nniches 0\nindirections no\nfree\nforbidden\n",
        values: &[(r#"{"ok":1}"#, "01"), (r#"{"err":[]}"#, "00")],
    },
    Row {
        desc: r#"{"core_result":["NonZeroU8",{"not_pod":"()"}]}"#,
        lines: "size 1\nalign 1\nniches 0\nindirections yes\nfree\nforbidden\n",
        values: &[(r#"{"ok":1}"#, "01"), (r#"{"err":null}"#, "00")],
    },
    // the pattern is byte 1 being 0
    Row {
        desc: r#"{"core_option":{"struct":{"name":"S","module":"demo","fields":[["f0","u8"],["f1","NonZeroU8"]]}}}"#,
        lines: "size 2\nalign 1\nniches 0\nindirections no\nfree\nforbidden\n",
        values: &[(r#""none""#, "0000"), (r#"{"some":[7,8]}"#, "0708")],
    },
    // the free bits of the payload are none of the sum
    Row {
        desc: r#"{"core_option":{"struct":{"name":"S","module":"demo","fields":[["f0","NonZeroU8"],["f1",{"option":"u8"}]]}}}"#,
        lines: "size 3\nalign 1\nniches 0\nindirections no\nfree\nforbidden\n\
            sum 2 place 0 front 1 ok 0 err 0 tag means err\n",
        values: &[
            (r#""none""#, "000000"),
            (r#"{"some":[7,"none"]}"#, "070100"),
            (r#"{"some":[7,{"some":5}]}"#, "070005"),
        ],
    },
    // nothing is left for a sum around it
    Row {
        desc: r#"{"option":{"core_option":"NonZeroU8"}}"#,
        lines: "size 2\nalign 1\nniches 0\nindirections no\nfree 0:254\nforbidden\n\
            sum 2 place 0 front 1 ok 0 err 0 tag means err\n",
        values: &[
            (r#""none""#, "0100"),
            (r#"{"some":"none"}"#, "0000"),
            (r#"{"some":{"some":9}}"#, "0009"),
        ],
    },
];

// Wrappers, and types that are stable where another is.
static WRAPPERS: [Row; 11] = [
    Row {
        desc: r#"{"manually_drop":"bool"}"#,
        lines: "size 1\nalign 1\nniches many\nindirections no\nfree\nforbidden 0=2-255\n",
        values: &[(r#"true"#, "01")],
    },
    Row {
        desc: r#"{"pin":"NonZeroU8"}"#,
        lines: "size 1\nalign 1\nniches 1\nindirections no\nfree\nforbidden 0=0\n",
        values: &[(r#"9"#, "09")],
    },
    Row {
        desc: r#"{"or_infallible":"NonZeroU8"}"#,
        lines: "size 1\nalign 1\nniches 1\nindirections no\nfree\nforbidden 0=0\n",
        values: &[(r#"9"#, "09")],
    },
    Row {
        desc: r#"{"not_pod":"NonZeroU8"}"#,
        lines: "size 1\nalign 1\nniches 1\nindirections yes\nfree\nforbidden 0=0\n",
        values: &[(r#"9"#, "09")],
    },
    // these two count no niche, and forbid what their contents do
    Row {
        desc: r#"{"maybe_uninit":"bool"}"#,
        lines: "size 1\nalign 1\nniches 0\nindirections no\nfree\nforbidden 0=2-255\n",
        values: &[(r#"true"#, "01")],
    },
    Row {
        desc: r#"{"unsafe_cell":"NonZeroU8"}"#,
        lines: "size 1\nalign 1\nniches 0\nindirections no\nfree\nforbidden 0=0\n",
        values: &[(r#"9"#, "09")],
    },
    Row {
        desc: r#"{"option":{"maybe_uninit":"bool"}}"#,
        lines: "size 1\nalign 1\nniches 0\nindirections no\nfree\nforbidden\n\
            sum 2 place 0 front 0 ok 0 err 0 larger 0=2 means err\n",
        values: &[(r#""none""#, "02"), (r#"{"some":true}"#, "01")],
    },
    Row {
        desc: r#"{"pin":{"option":"u8"}}"#,
        lines: "size 2\nalign 1\nniches 0\nindirections no\nfree 0:254\nforbidden\n\
            sum 1 place 0 front 1 ok 0 err 0 tag means err\n",
        values: &[(r#"{"some":5}"#, "0005")],
    },
    // a condition is numbered, and has no line
    Row {
        desc: r#"{"stable_if":["u8",{"option":"u8"}]}"#,
        lines: "size 1\nalign 1\nniches 0\nindirections no\nfree\nforbidden\n",
        values: &[(r#"5"#, "05")],
    },
    Row {
        desc: r#"{"stable_if":[{"option":"bool"},"u16"]}"#,
        lines: "size 1\nalign 1\nniches 0\nindirections no\nfree\nforbidden\n\
            sum 1 place 0 front 0 ok 0 err 0 larger 0=2 means err\n",
        values: &[(r#""none""#, "02")],
    },
    Row {
        desc: r#"{"option":{"stable_if":["bool",{"option":"u8"}]}}"#,
        lines: "size 1\nalign 1\nniches 0\nindirections no\nfree\nforbidden\n\
            sum 4 place 0 front 0 ok 0 err 0 larger 0=2 means err\n",
        values: &[(r#""none""#, "02")],
    },
];

// Pointers: 8 bytes, of which some are never all 0.
static POINTERS: [Row; 7] = [
    Row {
        desc: r#"{"const_ptr":"u8"}"#,
        lines: "size 8\nalign 8\nniches 0\nindirections yes\nfree\nforbidden\n",
        values: &[(r#"0"#, "0000000000000000"), (r#"258"#, "0201000000000000")],
    },
    Row {
        desc: r#"{"mut_ptr":"u8"}"#,
        lines: "size 8\nalign 8\nniches 0\nindirections yes\nfree\nforbidden\n",
        values: &[(r#"0"#, "0000000000000000"), (r#"258"#, "0201000000000000")],
    },
    Row {
        desc: r#"{"atomic_ptr":"u8"}"#,
        lines: "size 8\nalign 8\nniches 0\nindirections yes\nfree\nforbidden\n",
        values: &[(r#"0"#, "0000000000000000"), (r#"258"#, "0201000000000000")],
    },
    Row {
        desc: r#"{"non_null":"u8"}"#,
        lines: "size 8\nalign 8\nniches 1\nindirections yes\nfree\nforbidden 0=0,1=0,2=0,3=0,4=0,5=0,6=0,7=0\n",
        values: &[(r#"4096"#, "0010000000000000")],
    },
    Row {
        desc: r#"{"ref":"u8"}"#,
        lines: "size 8\nalign 8\nniches 1\nindirections yes\nfree\nforbidden 0=0,1=0,2=0,3=0,4=0,5=0,6=0,7=0\n",
        values: &[(r#"4096"#, "0010000000000000")],
    },
    Row {
        desc: r#"{"ref_mut":"u8"}"#,
        lines: "size 8\nalign 8\nniches 1\nindirections yes\nfree\nforbidden 0=0,1=0,2=0,3=0,4=0,5=0,6=0,7=0\n",
        values: &[(r#"4096"#, "0010000000000000")],
    },
    // a pointee is numbered, and has no line
    Row {
        desc: r#"{"option":{"ref":{"option":"u8"}}}"#,
        lines: "size 8\nalign 8\nniches 0\nindirections yes\nfree\nforbidden\n\
            sum 3 place 0 front 0 ok 0 err 0 larger 0=0,1=0,2=0,3=0,4=0,5=0,6=0,7=0 means err\n",
        values: &[
            (r#""none""#, "0000000000000000"),
            (r#"{"some":1}"#, "0100000000000000"),
        ],
    },
];

// Bytes of which nothing is known, and leaves.
static RAW: [Row; 8] = [
    Row {
        desc: r#"{"no_niches":{"size":4,"align":2,"niches":"one","indirections":true}}"#,
        lines: "size 4\nalign 2\nniches 1\nindirections yes\nfree\nforbidden\n",
        values: &[(r#"{"bytes":"0000ff0a"}"#, "0000ff0a")],
    },
    Row {
        desc: r#"{"no_niches":{"size":0,"align":1,"niches":"none","indirections":false}}"#,
        lines: "size 0\nalign 1\nniches 0\nindirections no\nfree\nforbidden\n",
        values: &[(r#"{"bytes":""}"#, "")],
    },
    // whatever the count, no niche is known
    Row {
        desc: r#"{"option":{"no_niches":{"size":1,"align":1,"niches":"many","indirections":false}}}"#,
        lines: "size 2\nalign 1\nniches 0\nindirections no\nfree 0:254\nforbidden\n\
            sum 1 place 0 front 1 ok 0 err 0 tag means err\n",
        values: &[
            (r#"{"some":{"bytes":"02"}}"#, "0002"),
            (r#""none""#, "0100"),
        ],
    },
    Row {
        desc: r#"{"leaf":{"name":"L","module":"m","size":2,"align":2,"free":[],"forbidden":[],"niches":"none","indirections":false}}"#,
        lines: "size 2\nalign 2\nniches 0\nindirections no\nfree\nforbidden\n",
        values: &[(r#"{"bytes":"0102"}"#, "0102")],
    },
    // of 255, 240 is free and 15 is held
    Row {
        desc: r#"{"leaf":{"name":"L","module":"m","size":3,"align":1,"free":[[1,240]],"forbidden":[{"pattern":[[0,1],[2,2]]},{"range":[2,250,255]}],"niches":"many","indirections":true}}"#,
        lines: "size 3\nalign 1\nniches many\nindirections yes\nfree 1:240\nforbidden 0=1,2=2 2=250-255\n",
        values: &[
            (r#"{"bytes":"010f03"}"#, "010f03"),
            (r#"{"bytes":"0000f9"}"#, "0000f9"),
        ],
    },
    // the first item is the niche
    Row {
        desc: r#"{"option":{"leaf":{"name":"L","module":"m","size":3,"align":1,"free":[[1,240]],"forbidden":[{"pattern":[[0,1],[2,2]]},{"range":[2,250,255]}],"niches":"many","indirections":true}}}"#,
        lines: "size 3\nalign 1\nniches 0\nindirections yes\nfree 1:240\nforbidden\n\
            sum 1 place 0 front 0 ok 0 err 0 larger 0=1,2=2 means err\n",
        values: &[
            (r#""none""#, "010002"),
            (r#"{"some":{"bytes":"010f03"}}"#, "010f03"),
        ],
    },
    // a range offers its least value
    Row {
        desc: r#"{"option":{"leaf":{"name":"L","module":"m","size":1,"align":1,"free":[],"forbidden":[{"range":[0,250,255]}],"niches":"none","indirections":false}}}"#,
        lines: "size 1\nalign 1\nniches 0\nindirections no\nfree\nforbidden\n\
            sum 1 place 0 front 0 ok 0 err 0 larger 0=250 means err\n",
        values: &[(r#""none""#, "fa"), (r#"{"some":{"bytes":"f9"}}"#, "f9")],
    },
    // byte 1 of the larger is free, and at place 1 the bool stands there
    Row {
        desc: r#"{"result":[{"leaf":{"name":"L","module":"m","size":3,"align":1,"free":[[1,255]],"forbidden":[],"niches":"none","indirections":false}},{"struct":{"name":"S","module":"demo","fields":[["f0","bool"],["f1","u8"]]}}]}"#,
        lines: "size 3\nalign 1\nniches 0\nindirections no\nfree\nforbidden\n\
            sum 4 place 1 front 0 ok 0 err 1 smaller 1=2 means ok\n",
        values: &[
            (r#"{"ok":{"bytes":"aa00bb"}}"#, "aa02bb"),
            (r#"{"err":[true,7]}"#, "000107"),
        ],
    },
];

// Descriptions of several forms.
static NESTED: [Row; 3] = [
    // the empty variant is aligned to 8, and of the padding that this adds no bit is taken
    Row {
        desc: r#"{"result":["u8",{"array":["u64",0]}]}"#,
        lines: "size 16\nalign 8\nniches 0\nindirections no\nfree 0:254 1:255 2:255 3:255 4:255 5:255 6:255 7:255\nforbidden\n\
            sum 3 place 0 front 8 ok 0 err 0 tag means err\n",
        values: &[
            (r#"{"ok":5}"#, "00000000000000000500000000000000"),
            (r#"{"err":[]}"#, "01000000000000000000000000000000"),
        ],
    },
    // three bytes, rounded up to the alignment of the other: of byte 3 a bit is taken
    Row {
        desc: r#"{"result":[{"array":["u8",3]},"u16"]}"#,
        lines: "size 4\nalign 2\nniches 0\nindirections no\nfree 3:254\nforbidden\n\
            sum 3 place 0 front 0 ok 0 err 0 bit 3:1 means err\n",
        values: &[
            (r#"{"ok":[1,2,3]}"#, "01020300"),
            (r#"{"err":258}"#, "02010001"),
        ],
    },
    // the result takes a tag, and two bytes of it, from byte 10 on; bytes 9, 30 and 31 are padding
    Row {
        desc: r#"{"struct":{"name":"S","module":"demo","fields":[["f0","u64"],["f1",{"option":"bool"}],["f2",{"result":["u16","NonZeroU8"]}],["f3",{"array":["u8",16]}],["f4",{"ref":"u8"}]]}}"#,
        lines: "size 40\nalign 8\nniches many\nindirections yes\nfree 9:255 10:254 11:255 30:255 31:255\nforbidden 32=0,33=0,34=0,35=0,36=0,37=0,38=0,39=0\n\
            sum 2 place 0 front 0 ok 0 err 0 larger 0=2 means err\n\
            sum 5 place 0 front 2 ok 0 err 0 tag means err\n",
        values: &[
            (
                r#"[7,{"some":true},{"ok":513},[0,1,2,3,4,5,6,7,8,9,10,11,12,13,14,15],4096]"#,
                "0700000000000000010000000102000102030405060708090a0b0c0d0e0f00000010000000000000",
            ),
            (
                r#"[7,"none",{"err":9},[0,1,2,3,4,5,6,7,8,9,10,11,12,13,14,15],4096]"#,
                "0700000000000000020001000900000102030405060708090a0b0c0d0e0f00000010000000000000",
            ),
        ],
    },
];

#[test]
fn each_form_of_a_description(rt: HostRuntime) -> Result<(), Fail> {
    let tables = [
        &ARRAYS[..],
        &UNIONS[..],
        &CORE_SUMS[..],
        &WRAPPERS[..],
        &POINTERS[..],
        &RAW[..],
        &NESTED[..],
    ];
    for rows in tables {
        for row in rows {
            is_packed(&rt, rt.alloc(), row)?;
        }
    }
    Ok(())
}
