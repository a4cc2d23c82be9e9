use crate::mem_sink::MemSink;
use crate::mem_source::MemSource;
use crate::tool::tool;
use abi_num::{OutOfMemory, Text};
use std::alloc::{AllocError, Global};
use std::process::Abort;
use std::str;
use std::test::Fail;

/// A target of 64 bits whose least byte comes first.
pub const LE64: &str = r#""le64""#;

// A document whose job can be done.
const NONE_OF_BOOL: &str = r#"{"target":"le64","desc":{"option":"bool"},"value":"none"}"#;

/// The status of the program with these words.
pub fn run(
    alloc: Global,
    words: &[&str],
    source: &mut MemSource<'_>,
    sink: &mut MemSink<'_>,
) -> Result<u8, OutOfMemory> {
    let mut texts = Vec::new(alloc);
    for word in words {
        texts.push(Text::new(alloc, word)?)?;
    }
    Ok(tool(alloc, &texts, source, sink))
}

/// The command of that word answers this document with this status and this text.
pub fn replies(
    rt: &impl Abort,
    alloc: Global,
    word: &str,
    document: &[u8],
    status: u8,
    text: &str,
) -> Result<(), Fail> {
    let mut source = MemSource::new(document, &[]);
    let mut sink = MemSink::new(alloc, text.len().saturating_add(256), &[])?;
    let ended = run(alloc, &[word], &mut source, &mut sink)?;
    is_written(rt, &sink, ended, status, text, document)
}

/// `pack` answers this document with this status and this text.
pub fn answers(
    rt: &impl Abort,
    alloc: Global,
    document: &[u8],
    status: u8,
    text: &str,
) -> Result<(), Fail> {
    replies(rt, alloc, "pack", document, status, text)
}

/// A document of a target and a description, both in JSON, and of further members, each behind a comma.
pub fn described(
    alloc: Global,
    target: &str,
    desc: &str,
    more: &str,
) -> Result<String, AllocError> {
    format!(in alloc; "{{\"target\":{target},\"desc\":{desc}{more}}}")
}

/// `layout` answers the description with these lines.
pub fn is_laid_out(
    rt: &impl Abort,
    alloc: Global,
    target: &str,
    desc: &str,
    lines: &str,
) -> Result<(), Fail> {
    let document = described(alloc, target, desc, "")?;
    replies(rt, alloc, "layout", document.as_bytes(), 0, lines)
}

/// `read` answers the bytes, as hexadecimal digits, with the line of this value.
pub fn is_read(
    rt: &impl Abort,
    alloc: Global,
    target: &str,
    desc: &str,
    digits: &str,
    value: &str,
) -> Result<(), Fail> {
    let bytes = format!(in alloc; ",\"bytes\":\"{digits}\"")?;
    let document = described(alloc, target, desc, bytes.as_str())?;
    let line = format!(in alloc; "value {value}\n")?;
    replies(rt, alloc, "read", document.as_bytes(), 0, line.as_str())
}

/// `pack` answers the value with a text of which the last line has these digits.
pub fn has_bytes(
    rt: &impl Abort,
    alloc: Global,
    target: &str,
    desc: &str,
    value: &str,
    digits: &str,
) -> Result<(), Fail> {
    let more = format!(in alloc; ",\"value\":{value}")?;
    let document = described(alloc, target, desc, more.as_str())?;
    let space = if digits.is_empty() { "" } else { " " };
    let line = format!(in alloc; "\nbytes{space}{digits}\n")?;
    let mut source = MemSource::new(document.as_bytes(), &[]);
    let mut sink = MemSink::new(alloc, 4096, &[])?;
    let ended = run(alloc, &["pack"], &mut source, &mut sink)?;
    ends_with(rt, &sink, ended, line.as_str(), document.as_str())
}

// The status is 0, and what the sink got ends with this line.
fn ends_with(
    rt: &impl Abort,
    sink: &MemSink<'_>,
    ended: u8,
    line: &str,
    document: &str,
) -> Result<(), Fail> {
    let written = str::from_utf8(sink.got()).ok().ok_or("no UTF-8")?;
    assert_eq!(rt; ended, 0, "{document}");
    assert!(rt; written.ends_with(line), "{document}: {written}");
    Ok(())
}

/// The command of that word refuses this document with this fault.
pub fn is_refused_by(
    rt: &impl Abort,
    alloc: Global,
    word: &str,
    document: &str,
    fault: &str,
) -> Result<(), Fail> {
    let text = format!(in alloc; "refused: {fault}\n")?;
    replies(rt, alloc, word, document.as_bytes(), 7, text.as_str())
}

// The status and what the sink got are these.
fn is_written(
    rt: &impl Abort,
    sink: &MemSink<'_>,
    ended: u8,
    status: u8,
    text: &str,
    document: &[u8],
) -> Result<(), Fail> {
    let written = str::from_utf8(sink.got()).ok().ok_or("no UTF-8")?;
    assert_eq!(rt; (ended, written), (status, text), "{}", shown(document));
    Ok(())
}

// The document in the message of a failure.
fn shown(document: &[u8]) -> &str {
    str::from_utf8(document).unwrap_or("(no UTF-8)")
}

#[test]
fn unlisted_words_do_nothing(rt: HostRuntime) -> Result<(), Fail> {
    let lists: [&[&str]; 10] = [
        &[],
        &[""],
        &["pak"],
        &["Pack"],
        &["pack "],
        &["pack", "pack"],
        &["edit", "report"],
        &["read", ""],
        &["Layout"],
        &["edits"],
    ];
    for words in lists {
        let mut source = MemSource::new(b"{}", &[0]);
        let mut sink = MemSink::new(rt.alloc(), 256, &[0])?;
        let ended = run(rt.alloc(), words, &mut source, &mut sink)?;
        assert_eq!(rt; (ended, sink.got().len()), (1, 0), "{words:?}");
    }
    Ok(())
}

#[test]
fn a_source_that_fails_is_told_first(rt: HostRuntime) -> Result<(), Fail> {
    // The first read gets all of `{}`, and the second finds the end.
    for (document, fails, status, text) in [
        (NONE_OF_BOOL, [0], 2, ""),
        ("{}", [0], 2, ""),
        ("{}", [1], 2, ""),
        ("{}", [2], 6, "not a job\n"),
    ] {
        let mut source = MemSource::new(document.as_bytes(), &fails);
        let mut sink = MemSink::new(rt.alloc(), 256, &[])?;
        let ended = run(rt.alloc(), &["pack"], &mut source, &mut sink)?;
        is_written(&rt, &sink, ended, status, text, document.as_bytes())?;
    }
    Ok(())
}

#[test]
fn a_sink_that_fails_has_a_beginning_of_the_text(rt: HostRuntime) -> Result<(), Fail> {
    // The line that answers `{}` has 10 bytes. A text goes in one write where it fits.
    for (document, room, fails, status, text) in [
        (NONE_OF_BOOL, 256, [0], 3, ""),
        (NONE_OF_BOOL, 6, [9], 3, "size 1"),
        ("{}", 256, [0], 3, ""),
        ("{}", 256, [1], 6, "not a job\n"),
        ("{}", 0, [9], 3, ""),
        ("{}", 4, [9], 3, "not "),
        ("{}", 10, [9], 6, "not a job\n"),
    ] {
        let mut source = MemSource::new(document.as_bytes(), &[]);
        let mut sink = MemSink::new(rt.alloc(), room, &fails)?;
        let ended = run(rt.alloc(), &["pack"], &mut source, &mut sink)?;
        is_written(&rt, &sink, ended, status, text, document.as_bytes())?;
    }
    Ok(())
}
