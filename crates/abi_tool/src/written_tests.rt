//! Documents whose job is done: each word of each line, each form of a description, and each form of a value.

use crate::tests::{LE64, answers, described, is_read};
use std::alloc::{AllocError, Global};
use std::process::Abort;
use std::test::Fail;

/// The document of a description and a value on a target of 64 bits whose least byte comes first.
pub fn document(alloc: Global, desc: &str, value: &str) -> Result<String, AllocError> {
    let more = format!(in alloc; ",\"value\":{value}")?;
    described(alloc, LE64, desc, more.as_str())
}

/// A description, the lines of its layout and its sums, and values as they are written, with their bytes.
pub struct Row {
    pub desc: &'static str,
    pub lines: &'static str,
    pub values: &'static [(&'static str, &'static str)],
}

// Sizes, alignments, counts, free bits and forbidden values, worked out by hand for a 64-bit target.
static LAYOUTS: [Row; 12] = [
    Row {
        desc: r#""bool""#,
        lines: "size 1\nalign 1\nniches many\nindirections no\nfree\nforbidden 0=2-255\n",
        values: &[("false", "00"), ("true", "01")],
    },
    Row {
        desc: r#""()""#,
        lines: "size 0\nalign 1\nniches 0\nindirections no\nfree\nforbidden\n",
        values: &[("null", "")],
    },
    Row {
        desc: r#"{"struct":{"name":"S","module":"demo","fields":[]}}"#,
        lines: "size 0\nalign 1\nniches 0\nindirections no\nfree\nforbidden\n",
        values: &[("[]", "")],
    },
    // the truth value stands at byte 1
    Row {
        desc: r#"{"struct":{"name":"S","module":"demo","fields":[["f0","u8"],["f1","bool"]]}}"#,
        lines: "size 2\nalign 1\nniches many\nindirections no\nfree\nforbidden 1=2-255\n",
        values: &[("[7,true]", "0701")],
    },
    // one niche and none, and no byte is added
    Row {
        desc: r#"{"struct":{"name":"S","module":"demo","fields":[["f0","u8"],["f1","NonZeroU8"]]}}"#,
        lines: "size 2\nalign 1\nniches 1\nindirections no\nfree\nforbidden 1=0\n",
        values: &[("[7,8]", "0708")],
    },
    // 258 is 1 times 256 and 2
    Row {
        desc: r#"{"struct":{"name":"S","module":"demo",
            "fields":[["f0","NonZeroU8"],["f1","bool"],["f2","u16"]]}}"#,
        lines: "size 4\nalign 2\nniches many\nindirections no\nfree\nforbidden 0=0 1=2-255\n",
        values: &[("[7,true,258]", "07010201")],
    },
    // byte 1 is added before the second field, which makes the count many
    Row {
        desc: r#"{"struct":{"name":"S","module":"demo","fields":[["f0","u8"],["f1","NonZeroU16"]]}}"#,
        lines: "size 4\nalign 2\nniches many\nindirections no\nfree 1:255\nforbidden 2=0,3=0\n",
        values: &[("[7,258]", "07000201")],
    },
    // three bytes are added at the end
    Row {
        desc: r#"{"struct":{"name":"S","module":"demo","fields":[["f0","u32"],["f1","bool"]]}}"#,
        lines: "size 8\nalign 4\nniches many\nindirections no\nfree 5:255 6:255 7:255\nforbidden 4=2-255\n",
        values: &[("[1,true]", "0100000001000000")],
    },
    // the requested alignment adds bytes 8 to 15, which are not free
    Row {
        desc: r#"{"struct":{"name":"S","module":"demo","fields":[["f0","u32"],["f1","u8"]],"align":16}}"#,
        lines: "size 16\nalign 16\nniches many\nindirections no\nfree 5:255 6:255 7:255\nforbidden\n",
        values: &[("[1,2]", "01000000020000000000000000000000")],
    },
    // an alignment below that of the fields changes nothing
    Row {
        desc: r#"{"struct":{"name":"","module":"","version":4294967295,"align":1,"fields":[["","u16"]]}}"#,
        lines: "size 2\nalign 2\nniches 0\nindirections no\nfree\nforbidden\n",
        values: &[("[1]", "0100")],
    },
    // the keys in another order; fields of structs
    Row {
        desc: r#"{"struct":{"align":2,"fields":[
            ["a",{"struct":{"module":"demo","fields":[["b","u8"],["c","bool"]],"name":"T"}}],["d","u16"]],
            "version":1,"module":"demo","name":"S"}}"#,
        lines: "size 4\nalign 2\nniches many\nindirections no\nfree\nforbidden 1=2-255\n",
        values: &[("[[7,false],258]", "07000201")],
    },
    // the option leaves nothing free, the result seven bits of its tag at byte 1; parts count from the first field on
    Row {
        desc: r#"{"struct":{"name":"S","module":"demo",
            "fields":[["f0",{"option":"bool"}],["f1",{"result":["u8","u8"]}]]}}"#,
        lines: "size 3\nalign 1\nniches 0\nindirections no\nfree 1:254\nforbidden\n\
            sum 1 place 0 front 0 ok 0 err 0 larger 0=2 means err\n\
            sum 4 place 0 front 1 ok 0 err 0 tag means err\n",
        values: &[
            (r#"["none",{"err":5}]"#, "020105"),
            (r#"[{"some":true},{"ok":5}]"#, "010005"),
        ],
    },
];

// The placements of sums.
static SUMS: [Row; 20] = [
    // 2 is the least number that is no truth value
    Row {
        desc: r#"{"option":"bool"}"#,
        lines: "size 1\nalign 1\nniches 0\nindirections no\nfree\nforbidden\n\
            sum 1 place 0 front 0 ok 0 err 0 larger 0=2 means err\n",
        values: &[
            (r#""none""#, "02"),
            (r#"{"some":true}"#, "01"),
            (r#"{"some":false}"#, "00"),
        ],
    },
    // no niche: a tag, and four bytes of it for the sake of the alignment
    Row {
        desc: r#"{"option":"u32"}"#,
        lines: "size 8\nalign 4\nniches 0\nindirections no\nfree 0:254 1:255 2:255 3:255\nforbidden\n\
            sum 1 place 0 front 4 ok 0 err 0 tag means err\n",
        values: &[
            (r#"{"some":5}"#, "0000000005000000"),
            (r#""none""#, "0100000000000000"),
        ],
    },
    Row {
        desc: r#"{"option":"NonZeroU32"}"#,
        lines: "size 4\nalign 4\nniches 0\nindirections no\nfree\nforbidden\n\
            sum 1 place 0 front 0 ok 0 err 0 larger 0=0,1=0,2=0,3=0 means err\n",
        values: &[(r#""none""#, "00000000"), (r#"{"some":256}"#, "00010000")],
    },
    Row {
        desc: r#"{"option":"u128"}"#,
        lines: "size 32\nalign 16\nniches 0\nindirections no\n\
            free 0:254 1:255 2:255 3:255 4:255 5:255 6:255 7:255 \
            8:255 9:255 10:255 11:255 12:255 13:255 14:255 15:255\nforbidden\n\
            sum 1 place 0 front 16 ok 0 err 0 tag means err\n",
        values: &[
            (
                r#"{"some":1}"#,
                "0000000000000000000000000000000001000000000000000000000000000000",
            ),
            (
                r#""none""#,
                "0100000000000000000000000000000000000000000000000000000000000000",
            ),
        ],
    },
    Row {
        desc: r#"{"option":"()"}"#,
        lines: "size 1\nalign 1\nniches 0\nindirections no\nfree 0:254\nforbidden\n\
            sum 1 place 0 front 1 ok 0 err 0 tag means err\n",
        values: &[(r#"{"some":null}"#, "00"), (r#""none""#, "01")],
    },
    Row {
        desc: r#"{"result":["()","()"]}"#,
        lines: "size 1\nalign 1\nniches 0\nindirections no\nfree 0:254\nforbidden\n\
            sum 2 place 0 front 1 ok 0 err 0 tag means err\n",
        values: &[(r#"{"ok":null}"#, "00"), (r#"{"err":null}"#, "01")],
    },
    Row {
        desc: r#"{"result":["u8","u8"]}"#,
        lines: "size 2\nalign 1\nniches 0\nindirections no\nfree 0:254\nforbidden\n\
            sum 2 place 0 front 1 ok 0 err 0 tag means err\n",
        values: &[(r#"{"ok":5}"#, "0005"), (r#"{"err":5}"#, "0105")],
    },
    // the second variant is the larger, and a tag means the smaller
    Row {
        desc: r#"{"result":["u8","u16"]}"#,
        lines: "size 4\nalign 2\nniches 0\nindirections no\nfree 0:254 1:255\nforbidden\n\
            sum 2 place 0 front 2 ok 0 err 0 tag means ok\n",
        values: &[(r#"{"ok":7}"#, "01000700"), (r#"{"err":258}"#, "00000201")],
    },
    // at place 0 the number covers the byte of the inner tag, at place 1 it leaves bits 1 to 7 of it free
    Row {
        desc: r#"{"result":[{"result":["u8","u8"]},"u8"]}"#,
        lines: "size 2\nalign 1\nniches 0\nindirections no\nfree 0:252\nforbidden\n\
            sum 4 place 1 front 0 ok 0 err 1 bit 0:2 means err\n\
            sum 2 place 0 front 1 ok 0 err 0 tag means err\n",
        values: &[(r#"{"err":7}"#, "0207"), (r#"{"ok":{"err":5}}"#, "0105")],
    },
    // the same with the sides exchanged: the bit means the smaller variant, `ok`
    Row {
        desc: r#"{"result":["u8",{"result":["u8","u8"]}]}"#,
        lines: "size 2\nalign 1\nniches 0\nindirections no\nfree 0:252\nforbidden\n\
            sum 4 place 1 front 0 ok 1 err 0 bit 0:2 means ok\n\
            sum 3 place 0 front 1 ok 0 err 0 tag means err\n",
        values: &[(r#"{"ok":7}"#, "0207"), (r#"{"err":{"err":5}}"#, "0105")],
    },
    // both sides have a tag at byte 0, of which bit 0 alone is taken
    Row {
        desc: r#"{"result":[{"result":["u8","u8"]},{"result":["u8","u8"]}]}"#,
        lines: "size 2\nalign 1\nniches 0\nindirections no\nfree 0:252\nforbidden\n\
            sum 6 place 0 front 0 ok 0 err 0 bit 0:2 means err\n\
            sum 2 place 0 front 1 ok 0 err 0 tag means err\n\
            sum 5 place 0 front 1 ok 0 err 0 tag means err\n",
        values: &[
            (r#"{"err":{"ok":5}}"#, "0205"),
            (r#"{"ok":{"err":5}}"#, "0105"),
        ],
    },
    // a niche, then a tag, then a bit of that tag
    Row {
        desc: r#"{"option":{"option":{"option":"bool"}}}"#,
        lines: "size 2\nalign 1\nniches 0\nindirections no\nfree 0:252\nforbidden\n\
            sum 3 place 0 front 0 ok 0 err 0 bit 0:2 means err\n\
            sum 2 place 0 front 1 ok 0 err 0 tag means err\n\
            sum 1 place 0 front 0 ok 0 err 0 larger 0=2 means err\n",
        values: &[
            (r#""none""#, "0200"),
            (r#"{"some":"none"}"#, "0100"),
            (r#"{"some":{"some":"none"}}"#, "0002"),
            (r#"{"some":{"some":{"some":true}}}"#, "0001"),
        ],
    },
    // an empty variant takes a pattern of the first field alone, which has none, so it takes a bit
    Row {
        desc: r#"{"option":{"struct":{"name":"S","module":"demo","fields":[["f0","u32"],["f1","bool"]]}}}"#,
        lines: "size 8\nalign 4\nniches 0\nindirections no\nfree 5:254 6:255 7:255\nforbidden\n\
            sum 3 place 0 front 0 ok 0 err 0 bit 5:1 means err\n",
        values: &[
            (r#""none""#, "0000000000010000"),
            (r#"{"some":[1,true]}"#, "0100000001000000"),
        ],
    },
    // the bool stands at byte 4, beside the number in byte 0
    Row {
        desc: r#"{"result":[{"struct":{"name":"S","module":"demo","fields":[["f0","u32"],["f1","bool"]]}},"u8"]}"#,
        lines: "size 8\nalign 4\nniches 0\nindirections no\nfree 5:255 6:255 7:255\nforbidden\n\
            sum 4 place 0 front 0 ok 0 err 0 larger 4=2 means err\n",
        values: &[
            (r#"{"ok":[1,true]}"#, "0100000001000000"),
            (r#"{"err":9}"#, "0900000002000000"),
        ],
    },
    Row {
        desc: r#"{"result":["u8",{"struct":{"name":"S","module":"demo","fields":[["f0","u32"],["f1","bool"]]}}]}"#,
        lines: "size 8\nalign 4\nniches 0\nindirections no\nfree 5:255 6:255 7:255\nforbidden\n\
            sum 4 place 0 front 0 ok 0 err 0 larger 4=2 means ok\n",
        values: &[
            (r#"{"ok":9}"#, "0900000002000000"),
            (r#"{"err":[1,true]}"#, "0100000001000000"),
        ],
    },
    // a free bit at place 0 comes before the pattern of the smaller variant at a later place
    Row {
        desc: r#"{"result":[{"struct":{"name":"S","module":"demo","fields":[["f0","u32"],["f1","u8"]]}},"NonZeroU8"]}"#,
        lines: "size 8\nalign 4\nniches 0\nindirections no\nfree 5:254 6:255 7:255\nforbidden\n\
            sum 4 place 0 front 0 ok 0 err 0 bit 5:1 means err\n",
        values: &[
            (r#"{"ok":[1,2]}"#, "0100000002000000"),
            (r#"{"err":9}"#, "0900000000010000"),
        ],
    },
    // both have 8 bytes, so `ok` counts as the larger; the bool of the smaller stands in its free byte 6
    Row {
        desc: r#"{"result":[{"struct":{"name":"S","module":"demo","fields":[["f0","u32"],["f1","u8"]]}},
            {"struct":{"name":"S","module":"demo","fields":[["f0","u32"],["f1","u8"],["f2","u8"],["f3","bool"]]}}]}"#,
        lines: "size 8\nalign 4\nniches 0\nindirections no\nfree 7:255\nforbidden\n\
            sum 8 place 0 front 0 ok 0 err 0 smaller 6=2 means ok\n",
        values: &[
            (r#"{"ok":[1,2]}"#, "0100000002000200"),
            (r#"{"err":[1,2,3,true]}"#, "0100000002030100"),
        ],
    },
    // the larger leaves byte 1 free; the smaller's number covers it at place 0, and its bool stands there at place 1
    Row {
        desc: r#"{"result":[{"struct":{"name":"S","module":"demo","fields":[["f0","u8"],["f1","u16"]]}},
            {"struct":{"name":"S","module":"demo","fields":[["f0","bool"],["f1","u8"]]}}]}"#,
        lines: "size 4\nalign 2\nniches 0\nindirections no\nfree\nforbidden\n\
            sum 6 place 1 front 0 ok 0 err 1 smaller 1=2 means ok\n",
        values: &[
            (r#"{"ok":[7,258]}"#, "07020201"),
            (r#"{"err":[true,9]}"#, "00010900"),
        ],
    },
    // the same with the sides exchanged: the niche means the larger variant, `err`
    Row {
        desc: r#"{"result":[{"struct":{"name":"S","module":"demo","fields":[["f0","bool"],["f1","u8"]]}},
            {"struct":{"name":"S","module":"demo","fields":[["f0","u8"],["f1","u16"]]}}]}"#,
        lines: "size 4\nalign 2\nniches 0\nindirections no\nfree\nforbidden\n\
            sum 6 place 1 front 0 ok 1 err 0 smaller 1=2 means err\n",
        values: &[
            (r#"{"ok":[true,9]}"#, "00010900"),
            (r#"{"err":[7,258]}"#, "07020201"),
        ],
    },
    // bytes 2 and 3 of the larger are free; place 1 is 2 bytes on, since the smaller is aligned to 2
    Row {
        desc: r#"{"result":[{"struct":{"name":"S","module":"demo","fields":[["f0","u16"],["f1","u32"]]}},
            {"struct":{"name":"S","module":"demo","fields":[["f0","NonZeroU16"],["f1","u16"]]}}]}"#,
        lines: "size 8\nalign 4\nniches 0\nindirections no\nfree\nforbidden\n\
            sum 6 place 1 front 0 ok 0 err 2 smaller 2=0,3=0 means ok\n",
        values: &[
            (r#"{"ok":[258,1]}"#, "0201000001000000"),
            (r#"{"err":[5,6]}"#, "0000050006000000"),
        ],
    },
];

/// Each value of the row is packed into its bytes, and read back from them.
pub fn is_packed(rt: &impl Abort, alloc: Global, row: &Row) -> Result<(), Fail> {
    let lines = row.lines;
    for (value, digits) in row.values {
        let space = if digits.is_empty() { "" } else { " " };
        let text = format!(in alloc; "{lines}bytes{space}{digits}\n")?;
        let document = document(alloc, row.desc, value)?;
        answers(rt, alloc, document.as_bytes(), 0, text.as_str())?;
        is_read(rt, alloc, LE64, row.desc, digits, value)?;
    }
    Ok(())
}

#[test]
fn each_word_of_each_line(rt: HostRuntime) -> Result<(), Fail> {
    for rows in [&LAYOUTS[..], &SUMS[..]] {
        for row in rows {
            is_packed(&rt, rt.alloc(), row)?;
        }
    }
    Ok(())
}

/// An integer type: its size in bytes, its least and its greatest number with their bytes, and the numbers beside
/// these.
struct Integer {
    name: &'static str,
    size: u64,
    least: (&'static str, &'static str),
    greatest: (&'static str, &'static str),
    beside: &'static [&'static str],
}

static INTEGERS: [Integer; 15] = [
    Integer {
        name: "u8",
        size: 1,
        least: ("0", "00"),
        greatest: ("255", "ff"),
        beside: &["-1", "256"],
    },
    Integer {
        name: "u16",
        size: 2,
        least: ("0", "0000"),
        greatest: ("65535", "ffff"),
        beside: &["-1", "65536"],
    },
    Integer {
        name: "u32",
        size: 4,
        least: ("0", "00000000"),
        greatest: ("4294967295", "ffffffff"),
        beside: &["-1", "4294967296"],
    },
    Integer {
        name: "u64",
        size: 8,
        least: ("0", "0000000000000000"),
        greatest: ("18446744073709551615", "ffffffffffffffff"),
        beside: &["-1", "18446744073709551616"],
    },
    Integer {
        name: "u128",
        size: 16,
        least: ("0", "00000000000000000000000000000000"),
        greatest: (
            "340282366920938463463374607431768211455",
            "ffffffffffffffffffffffffffffffff",
        ),
        beside: &["-1"],
    },
    Integer {
        name: "i8",
        size: 1,
        least: ("-128", "80"),
        greatest: ("127", "7f"),
        beside: &["-129", "128"],
    },
    Integer {
        name: "i16",
        size: 2,
        least: ("-32768", "0080"),
        greatest: ("32767", "ff7f"),
        beside: &["-32769", "32768"],
    },
    Integer {
        name: "i32",
        size: 4,
        least: ("-2147483648", "00000080"),
        greatest: ("2147483647", "ffffff7f"),
        beside: &["-2147483649", "2147483648"],
    },
    Integer {
        name: "i64",
        size: 8,
        least: ("-9223372036854775808", "0000000000000080"),
        greatest: ("9223372036854775807", "ffffffffffffff7f"),
        beside: &["-9223372036854775809", "9223372036854775808"],
    },
    Integer {
        name: "i128",
        size: 16,
        least: (
            "-170141183460469231731687303715884105728",
            "00000000000000000000000000000080",
        ),
        greatest: (
            "170141183460469231731687303715884105727",
            "ffffffffffffffffffffffffffffff7f",
        ),
        beside: &[
            "-170141183460469231731687303715884105729",
            "170141183460469231731687303715884105728",
            "-340282366920938463463374607431768211455",
        ],
    },
    Integer {
        name: "NonZeroU8",
        size: 1,
        least: ("1", "01"),
        greatest: ("255", "ff"),
        beside: &["0", "256"],
    },
    Integer {
        name: "NonZeroU16",
        size: 2,
        least: ("1", "0100"),
        greatest: ("65535", "ffff"),
        beside: &["0", "65536"],
    },
    Integer {
        name: "NonZeroU32",
        size: 4,
        least: ("1", "01000000"),
        greatest: ("4294967295", "ffffffff"),
        beside: &["0", "4294967296"],
    },
    Integer {
        name: "NonZeroU64",
        size: 8,
        least: ("1", "0100000000000000"),
        greatest: ("18446744073709551615", "ffffffffffffffff"),
        beside: &["0", "18446744073709551616"],
    },
    Integer {
        name: "NonZeroU128",
        size: 16,
        least: ("1", "01000000000000000000000000000000"),
        greatest: (
            "340282366920938463463374607431768211455",
            "ffffffffffffffffffffffffffffffff",
        ),
        beside: &["0"],
    },
];

// A restricted integer forbids one pattern: each of its bytes is 0.
fn integer_lines(alloc: Global, integer: &Integer) -> Result<String, AllocError> {
    let size = integer.size;
    let mut lines = format!(in alloc; "size {size}\nalign {size}\nniches ")?;
    let is_restricted = integer.name.starts_with("NonZero");
    lines.push_str(if is_restricted { "1" } else { "0" })?;
    lines.push_str("\nindirections no\nfree\nforbidden")?;
    if is_restricted {
        lines.push_str(" 0=0")?;
        for at in 1..size {
            lines.push_str(format!(in alloc; ",{at}=0")?.as_str())?;
        }
    }
    lines.push_str("\n")?;
    Ok(lines)
}

#[test]
fn integers_from_their_least_to_their_greatest(rt: HostRuntime) -> Result<(), Fail> {
    let alloc = rt.alloc();
    for integer in &INTEGERS {
        let name = integer.name;
        let lines = integer_lines(alloc, integer)?;
        for (number, bytes) in [integer.least, integer.greatest] {
            let text = format!(in alloc; "{lines}bytes {bytes}\n")?;
            let document = format!(in alloc;
                "{{\"target\":\"le64\",\"desc\":\"{name}\",\"value\":\"{number}\"}}"
            )?;
            answers(&rt, alloc, document.as_bytes(), 0, text.as_str())?;
        }
        for number in integer.beside {
            let document = format!(in alloc;
                "{{\"target\":\"le64\",\"desc\":\"{name}\",\"value\":\"{number}\"}}"
            )?;
            answers(&rt, alloc, document.as_bytes(), 7, "refused: WrongValue\n")?;
        }
    }
    Ok(())
}
