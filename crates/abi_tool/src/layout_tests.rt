//! Documents of the command `layout`: what refuses a niche, place by place.

use crate::tests::{LE64, is_laid_out};
use std::test::Fail;

// A description and its text, worked out by hand for a 64-bit target.
static LAYOUTS: [(&str, &str); 22] = [
    // no sum, and none that has bytes
    (
        r#""bool""#,
        "size 1\nalign 1\nniches many\nindirections no\nfree\nforbidden 0=2-255\n",
    ),
    (
        r#"{"const_ptr":{"result":["u8","u8"]}}"#,
        "size 8\nalign 8\nniches 0\nindirections yes\nfree\nforbidden\n",
    ),
    (
        r#"{"stable_if":["u8",{"result":["u8","u8"]}]}"#,
        "size 1\nalign 1\nniches 0\nindirections no\nfree\nforbidden\n",
    ),
    (
        r#"{"core_option":"NonZeroU8"}"#,
        "size 1\nalign 1\nniches 0\nindirections no\nfree\nforbidden\n",
    ),
    // a niche has no refusals
    (
        r#"{"option":"bool"}"#,
        "size 1\nalign 1\nniches 0\nindirections no\nfree\nforbidden\n\
            sum 1 place 0 front 0 ok 0 err 0 larger 0=2 means err\n",
    ),
    // nothing is offered
    (
        r#"{"result":["u8","u8"]}"#,
        "size 2\nalign 1\nniches 0\nindirections no\nfree 0:254\nforbidden\n\
            sum 2 place 0 front 1 ok 0 err 0 tag means err\n\
            refusal 0 smaller larger\n",
    ),
    (
        r#"{"result":["u8","u16"]}"#,
        "size 4\nalign 2\nniches 0\nindirections no\nfree 0:254 1:255\nforbidden\n\
            sum 2 place 0 front 2 ok 0 err 0 tag means ok\n\
            refusal 0 smaller larger\n\
            refusal 1 smaller larger\n",
    ),
    // an empty variant has one place
    (
        r#"{"option":"u8"}"#,
        "size 2\nalign 1\nniches 0\nindirections no\nfree 0:254\nforbidden\n\
            sum 1 place 0 front 1 ok 0 err 0 tag means err\n\
            refusal 0 smaller larger\n",
    ),
    (
        r#"{"result":["()","()"]}"#,
        "size 1\nalign 1\nniches 0\nindirections no\nfree 0:254\nforbidden\n\
            sum 2 place 0 front 1 ok 0 err 0 tag means err\n\
            refusal 0 smaller larger\n",
    ),
    // beside an empty variant the pattern of the first field alone is taken, and this has none
    (
        r#"{"option":{"struct":{"name":"S","module":"demo","fields":[["f0","u8"],["f1","bool"]]}}}"#,
        "size 3\nalign 1\nniches 0\nindirections no\nfree 0:254\nforbidden\n\
            sum 3 place 0 front 1 ok 0 err 0 tag means err\n\
            refusal 0 smaller larger\n",
    ),
    // byte 0 of a pattern is not free in the other variant
    (
        r#"{"result":["NonZeroU8","u8"]}"#,
        "size 2\nalign 1\nniches 0\nindirections no\nfree 0:254\nforbidden\n\
            sum 2 place 0 front 1 ok 0 err 0 tag means err\n\
            refusal 0 smaller larger 0\n",
    ),
    (
        r#"{"result":["u8","NonZeroU8"]}"#,
        "size 2\nalign 1\nniches 0\nindirections no\nfree 0:254\nforbidden\n\
            sum 2 place 0 front 1 ok 0 err 0 tag means err\n\
            refusal 0 smaller 0 larger\n",
    ),
    // byte 0 is free, byte 1 is not
    (
        r#"{"result":[{"leaf":{"name":"L","module":"m","size":2,"align":2,"free":[[0,255]],"forbidden":[],"niches":"none","indirections":false}},"NonZeroU16"]}"#,
        "size 4\nalign 2\nniches 0\nindirections no\nfree 0:254 1:255\nforbidden\n\
            sum 2 place 0 front 2 ok 0 err 0 tag means err\n\
            refusal 0 smaller 1 larger\n",
    ),
    // two patterns each, the second at byte 2
    (
        r#"{"result":[{"struct":{"name":"S","module":"demo","fields":[["f0","NonZeroU16"],["f1","NonZeroU16"]]}},{"struct":{"name":"S","module":"demo","fields":[["f0","NonZeroU8"],["f1","u8"],["f2","NonZeroU16"]]}}]}"#,
        "size 6\nalign 2\nniches 0\nindirections no\nfree 0:254 1:255\nforbidden\n\
            sum 7 place 0 front 2 ok 0 err 0 tag means err\n\
            refusal 0 smaller 0 2 larger 0 2\n",
    ),
    // places are two bytes apart, and the pattern moves with the variant
    (
        r#"{"result":[{"array":["u16",4]},"NonZeroU16"]}"#,
        "size 10\nalign 2\nniches 0\nindirections no\nfree 0:254 1:255\nforbidden\n\
            sum 3 place 0 front 2 ok 0 err 0 tag means err\n\
            refusal 0 smaller 0 larger\n\
            refusal 1 smaller 2 larger\n\
            refusal 2 smaller 4 larger\n\
            refusal 3 smaller 6 larger\n",
    ),
    // there are eight places at most
    (
        r#"{"result":[{"array":["u8",16]},"u8"]}"#,
        "size 17\nalign 1\nniches 0\nindirections no\nfree 0:254\nforbidden\n\
            sum 3 place 0 front 1 ok 0 err 0 tag means err\n\
            refusal 0 smaller larger\n\
            refusal 1 smaller larger\n\
            refusal 2 smaller larger\n\
            refusal 3 smaller larger\n\
            refusal 4 smaller larger\n\
            refusal 5 smaller larger\n\
            refusal 6 smaller larger\n\
            refusal 7 smaller larger\n",
    ),
    // refusals follow their own sum
    (
        r#"{"struct":{"name":"S","module":"demo","fields":[["f0",{"option":"u8"}],["f1",{"option":"bool"}]]}}"#,
        "size 3\nalign 1\nniches 0\nindirections no\nfree 0:254\nforbidden\n\
            sum 1 place 0 front 1 ok 0 err 0 tag means err\n\
            refusal 0 smaller larger\n\
            sum 3 place 0 front 0 ok 0 err 0 larger 0=2 means err\n",
    ),
    (
        r#"{"result":[{"array":[{"result":["u8","u8"]},2]},"u8"]}"#,
        "size 5\nalign 1\nniches 0\nindirections no\nfree 0:254\nforbidden\n\
            sum 5 place 0 front 1 ok 0 err 0 tag means err\n\
            refusal 0 smaller larger\n\
            refusal 1 smaller larger\n\
            refusal 2 smaller larger\n\
            refusal 3 smaller larger\n\
            sum 2 place 0 front 1 ok 0 err 0 tag means err\n\
            refusal 0 smaller larger\n",
    ),
    // limits
    (
        r#"{"array":["u8",128]}"#,
        "size 128\nalign 1\nniches many\nindirections no\nfree\nforbidden\n",
    ),
    (
        r#"{"array":[{"array":[{"array":["u8",128]},128]},64]}"#,
        "size 1048576\nalign 1\nniches many\nindirections no\nfree\nforbidden\n",
    ),
    (
        r#"{"no_niches":{"size":1048576,"align":1,"niches":"none","indirections":false}}"#,
        "size 1048576\nalign 1\nniches 0\nindirections no\nfree\nforbidden\n",
    ),
    (
        r#"{"no_niches":{"size":65536,"align":65536,"niches":"none","indirections":false}}"#,
        "size 65536\nalign 65536\nniches 0\nindirections no\nfree\nforbidden\n",
    ),
];

#[test]
fn layouts_with_what_refuses_a_niche(rt: HostRuntime) -> Result<(), Fail> {
    for (desc, text) in &LAYOUTS {
        is_laid_out(&rt, rt.alloc(), LE64, desc, text)?;
    }
    Ok(())
}
