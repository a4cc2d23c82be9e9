//! Made jobs against documents that are written out.

use crate::tests::told_of;
use crate::told::told;
use crate::{Command, made_count, made_job};
use std::alloc::{AllocError, Global};
use std::test::Fail;

// The types of six fields, of which the first has the number `i`.
fn push_types(alloc: Global, out: &mut Vec<String>, i: u32) -> Result<(), AllocError> {
    for (more, ty) in [
        (0, r#""u8""#),
        (1, r#""u32""#),
        (2, r#"{"option":"bool"}"#),
        (3, r#"{"result":["u16","NonZeroU8"]}"#),
        (
            4,
            r#"{"option":{"struct":{"name":"S","module":"demo","fields":[["f0","u32"],["f1","bool"]]}}}"#,
        ),
        (5, r#"{"array":["u8",3]}"#),
    ] {
        out.push(format!(in alloc; "[\"f{}\",{ty}]", i.wrapping_add(more))?)?;
    }
    Ok(())
}

// Rounds 0 to 4. 7 times 7, 13, 19 and 25 are 49, 91, 133 and 175; 1 more than 9 and 21 are 10 and 22.
const VALUES: &str = r#"[
    0,7,"none",{"ok":3},{"some":[4,true]},[5,0,7],
    6,49,{"some":false},{"err":10},"none",[11,1,7],
    12,91,{"some":true},{"ok":15},{"some":[16,false]},[17,2,7],
    18,133,"none",{"err":22},"none",[23,3,7],
    24,175,{"some":false},{"ok":27},{"some":[28,true]},[29,4,7]]"#;

#[test]
fn a_made_job_is_that_of_a_document(rt: HostRuntime) -> Result<(), Fail> {
    let alloc = rt.alloc();
    let mut fields = Vec::new(alloc);
    for round in 0..5 {
        push_types(alloc, &mut fields, 6 * round)?;
    }
    let fields = fields.join(alloc, ",")?;
    let desc = format!(in alloc;
        "{{\"struct\":{{\"name\":\"Made\",\"module\":\"demo\",\"fields\":[{fields}]}}}}"
    )?;
    let document = format!(in alloc; "{{\"target\":\"le64\",\"desc\":{desc},\"value\":{VALUES}}}")?;
    let want = told_of(alloc, Command::Pack, document.as_str())?;
    let job = made_job(alloc, 30)?;
    let made = told(alloc, &job)?;
    assert_eq!(rt; made.as_str(), want.as_str());
    let target = job.target;
    assert_eq!(rt;
        (
            target.little,
            target.pointer,
            target.u64_align,
            target.u128_align
        ),
        (true, 8, 8, 16)
    );
    Ok(())
}

#[test]
fn the_last_fields_of_the_greatest_made_job(rt: HostRuntime) -> Result<(), Fail> {
    // Fields 1,494 to 1,499, in round 249 = 3 * 83 = 4 * 62 + 1. 1494 = 5 * 256 + 214, 1499 = 5 * 256 + 219, and
    // 1497 = 5 * 255 + 222.
    let alloc = rt.alloc();
    let job = made_job(alloc, 1500)?;
    let made = told(alloc, &job)?;
    let last = ",+214,+10465,none,err +223,none,[+219,+249,+7,],]";
    assert!(rt; made.as_str().ends_with(last), "{made}");
    Ok(())
}

#[test]
fn counts_of_made_jobs(rt: HostRuntime) {
    for (word, count) in [
        ("1", Some(1)),
        ("9", Some(9)),
        ("1500", Some(1500)),
        ("1501", None),
        ("0", None),
        ("00", None),
        ("01", None),
        ("+1", None),
        ("1.0", None),
        ("", None),
        ("4294967297", None),
    ] {
        assert_eq!(rt; made_count(word), count, "{word}");
    }
}
