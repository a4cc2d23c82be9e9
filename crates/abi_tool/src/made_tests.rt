//! Made jobs, by the command and by calls. No line of theirs comes from the program.

use crate::mem_sink::MemSink;
use crate::mem_source::MemSource;
use crate::tests::run;
use crate::value_text::value_line;
use abi_det::Layout;
use abi_document::{Work, made_job};
use abi_pack::Plan;
use std::str;
use std::test::Fail;

// Of six fields: a `u8` at 0, a `u32` at 4, an option of a `bool` at 8, a result at 10 whose tag is byte 10 and whose
// `Ok` stands at 12, an option of a `u32` and a `bool` at 16, which takes the least of the 24 bits that these leave
// free, and three bytes at 24; 27 bytes, and 28 by the alignment. Free are bytes 1 to 3, byte 9, 7 bits of byte 10,
// byte 11, bytes 14 and 15, 23 of the 24 bits and byte 27. The bytes that are not 0: 7, 2 for none, 3, 4, true, 5, 7.
//
// Six more fields begin at 27 and end 24 bytes later, with 62 free bits. So 250 times six have 4 + 250 * 24 bytes, and
// 24 + 250 * 62 + 8 free bits. The sum of the bytes is from a program in another language.
static SUMMARIES: [(&str, &str); 5] = [
    ("1", "made 1\nsize 1\nfree 0\nsums 0\ntotal 0\nback yes\n"),
    ("2", "made 2\nsize 8\nfree 24\nsums 0\ntotal 7\nback yes\n"),
    (
        "6",
        "made 6\nsize 28\nfree 94\nsums 3\ntotal 29\nback yes\n",
    ),
    (
        "12",
        "made 12\nsize 52\nfree 156\nsums 6\ntotal 115\nback yes\n",
    ),
    (
        "1500",
        "made 1500\nsize 6004\nfree 15532\nsums 750\ntotal 180474\nback yes\n",
    ),
];

// Each count is run three times, over other sources, and writes the same bytes each time.
#[test]
fn the_summary_is_written_whatever_the_source(rt: HostRuntime) -> Result<(), Fail> {
    for (count, lines) in &SUMMARIES {
        for (bytes, fails) in [("", [9]), ("{}", [9]), ("{}", [0])] {
            let mut source = MemSource::new(bytes.as_bytes(), &fails);
            let mut sink = MemSink::new(rt.alloc(), 256, &[])?;
            let ended = run(rt.alloc(), &["made", count], &mut source, &mut sink)?;
            let written = str::from_utf8(sink.got()).ok().ok_or("no UTF-8")?;
            assert_eq!(rt; (ended, written), (0, *lines), "{bytes}");
        }
    }
    Ok(())
}

#[test]
fn a_sink_that_fails_has_a_beginning_of_the_summary(rt: HostRuntime) -> Result<(), Fail> {
    // The lines of six fields have 7, 8, 8, 7, 9 and 9 bytes.
    for (room, fails, status, text) in [
        (256, [0], 3, ""),
        (
            47,
            [9],
            3,
            "made 6\nsize 28\nfree 94\nsums 3\ntotal 29\nback yes",
        ),
        (6, [9], 3, "made 6"),
    ] {
        let mut source = MemSource::new(b"", &[]);
        let mut sink = MemSink::new(rt.alloc(), room, &fails)?;
        let ended = run(rt.alloc(), &["made", "6"], &mut source, &mut sink)?;
        let written = str::from_utf8(sink.got()).ok().ok_or("no UTF-8")?;
        assert_eq!(rt; (ended, written), (status, text));
    }
    Ok(())
}

#[test]
fn counts_that_no_made_job_has(rt: HostRuntime) -> Result<(), Fail> {
    let lists: [&[&str]; 14] = [
        &["made"],
        &["made", ""],
        &["made", "0"],
        &["made", "1501"],
        &["made", "06"],
        &["made", "+6"],
        &["made", "-6"],
        &["made", " 6"],
        &["made", "6 "],
        &["made", "0x6"],
        &["made", "4294967302"],
        &["made", "340282366920938463463374607431768211462"],
        &["made", "6", "7"],
        &["Made", "6"],
    ];
    for words in lists {
        let mut source = MemSource::new(b"{}", &[0]);
        let mut sink = MemSink::new(rt.alloc(), 256, &[0])?;
        let ended = run(rt.alloc(), words, &mut source, &mut sink)?;
        assert_eq!(rt; (ended, sink.got().len()), (1, 0), "{words:?}");
    }
    Ok(())
}

// The number of bits that a layout leaves free.
fn free_bits(layout: &Layout) -> u32 {
    let mut free = 0u32;
    for at in 0..layout.size() {
        free = free.wrapping_add(layout.unused().byte_at(at).count_ones());
    }
    free
}

#[test]
fn the_greatest_made_job_is_packed_and_read(rt: HostRuntime) -> Result<(), Fail> {
    let alloc = rt.alloc();
    let job = made_job(alloc, 1500)?;
    let Work::Pack { desc, value, edits } = &job.work else {
        return Err(Fail::from("no job of pack"));
    };
    let image = abi_pack::run(alloc, &job.target, desc, value, edits.as_slice())?;
    let sums = image.placed.as_slice().len();
    let free = free_bits(&image.layout);
    assert_eq!(rt; (image.layout.size(), free, sums), (6004, 15532, 750));
    let plan = Plan::of(alloc, &job.target, desc)?;
    let read = plan.read(alloc, image.bytes.as_slice())?;
    let line = value_line(alloc, &read)?;
    assert_eq!(rt; line.as_str(), value_line(alloc, value)?.as_str());
    assert!(rt;
        line.as_str().starts_with(
            "value [0,7,\"none\",{\"ok\":3},{\"some\":[4,true]},[5,0,7],6,49,"
        )
    );
    Ok(())
}
