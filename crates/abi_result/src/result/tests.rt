use super::*;
use crate::hash_of::hash_of;
use std::mem::replace;
use std::test::Fail;

type Port = Result<u8, u16>;

fn open() -> Port {
    Result::Ok(80)
}

fn refused() -> Port {
    Result::Err(404)
}

#[test]
fn each_variant_has_its_contents(rt: HostRuntime) {
    assert!(rt; open().is_ok() && !open().is_err());
    assert!(rt; refused().is_err() && !refused().is_ok());
    assert_eq!(rt; (open().ok(), open().err()), (Some(80), None));
    assert_eq!(rt; (refused().ok(), refused().err()), (None, Some(404)));
    assert_eq!(rt; Port::Ok(80).unwrap(), 80);
    assert_eq!(rt; Port::Ok(81).unwrap_unchecked(), 81);
    assert_eq!(rt; Port::Err(404).unwrap_err(), 404);
    assert_eq!(rt; Port::Err(405).unwrap_err_unchecked(), 405);
}

#[test]
fn contents_are_lent(rt: HostRuntime) {
    let (open, refused) = (open(), refused());
    assert_eq!(rt; open.as_ref(), Ok(&80));
    assert_eq!(rt; refused.as_ref(), Err(&404));
    assert_eq!(rt; (open.ok_ref(), open.err_ref()), (Some(&80), None));
    assert_eq!(rt; (refused.ok_ref(), refused.err_ref()), (None, Some(&404)));
}

#[test]
fn what_is_written_through_a_reference_stays(rt: HostRuntime) {
    let (mut open, mut refused) = (open(), refused());
    if let Some(port) = open.ok_mut() {
        *port = 81;
    }
    if let Some(code) = refused.err_mut() {
        *code = 405;
    }
    assert!(rt; open.err_mut().is_none() && refused.ok_mut().is_none());
    assert_eq!(rt; (open, refused), (Result::Ok(81), Result::Err(405)));
}

fn contents(it: &Port) -> u32 {
    it.match_ref(|port| u32::from(*port), |code| u32::from(*code))
}

fn contents_past(it: &Port, by: u32) -> (u32, u32) {
    it.match_ref_ctx(
        by,
        |by, port| (by, u32::from(*port)),
        |by, code| (u32::from(*code), by),
    )
}

fn owned_past(it: Port, by: u32) -> (u32, u32) {
    it.match_owned_ctx(
        by,
        |by, port| (by, u32::from(port)),
        |by, code| (u32::from(code), by),
    )
}

#[test]
fn a_match_calls_the_closure_of_its_variant(rt: HostRuntime) {
    assert_eq!(rt; (contents(&open()), contents(&refused())), (80, 404));
    assert_eq!(rt; open().match_owned(u32::from, u32::from), 80);
    assert_eq!(rt; refused().match_owned(u32::from, u32::from), 404);
    assert_eq!(rt; contents_past(&open(), 8), (8, 80));
    assert_eq!(rt; contents_past(&refused(), 8), (404, 8));
    assert_eq!(rt; owned_past(open(), 8), (8, 80));
    assert_eq!(rt; owned_past(refused(), 8), (404, 8));
}

fn replaced(it: &mut Port) -> u32 {
    it.match_mut(
        |port| u32::from(replace(port, 21)),
        |code| u32::from(replace(code, 500)),
    )
}

fn replaced_by(it: &mut Port, by: u8) -> u32 {
    it.match_mut_ctx(
        by,
        |by, port| u32::from(replace(port, by)),
        |by, code| u32::from(replace(code, u16::from(by))),
    )
}

#[test]
fn a_match_keeps_what_its_closure_leaves(rt: HostRuntime) {
    let (mut open, mut refused) = (open(), refused());
    assert_eq!(rt; (replaced(&mut open), replaced(&mut refused)), (80, 404));
    assert_eq!(rt; replaced_by(&mut open, 9), 21);
    assert_eq!(rt; replaced_by(&mut refused, 10), 500);
    assert_eq!(rt; (open, refused), (Result::Ok(9), Result::Err(10)));
}

/// The port, if it is an even one.
fn even(port: u8) -> Port {
    if port % 2 == 0 {
        Result::Ok(port)
    } else {
        Result::Err(u16::from(port))
    }
}

/// A quarter of the port, if it is an even one.
fn even_quarter(it: Port) -> Port {
    it.map(|port| port / 4).and_then(even)
}

#[test]
fn chains_read_as_those_of_std(rt: HostRuntime) {
    assert_eq!(rt; even_quarter(open()), Result::Ok(20));
    assert_eq!(rt; even_quarter(Result::Ok(20)), Result::Err(5));
    assert_eq!(rt; even_quarter(refused()), Result::Err(404));
    assert_eq!(rt; open().unwrap_or_else(|_| 0), 80);
    assert_eq!(rt; refused().unwrap_or_else(|code| u8::from(code == 404)), 1);
    assert_eq!(rt; open().unwrap_err_or_else(u16::from), 80);
    assert_eq!(rt; refused().unwrap_err_or_else(u16::from), 404);
}

/// The sum of two ports, or the first code.
fn both(a: Port, b: Port) -> CoreResult<u16, u16> {
    let a = CoreResult::<u8, u16>::from(a)?;
    let b = CoreResult::<u8, u16>::from(b)?;
    Ok(u16::from(a) + u16::from(b))
}

#[test]
fn a_conversion_keeps_the_variant(rt: HostRuntime) {
    assert_eq!(rt; both(open(), Port::from(Ok(7))), Ok(87));
    assert_eq!(rt; both(Port::from(Err(403)), refused()), Err(403));
}

#[test]
fn equality_hash_and_text(rt: HostRuntime) -> CoreResult<(), Fail> {
    let one: Result<u8, u8> = Result::Ok(1);
    assert!(rt; one == Result::Ok(1) && one != Result::Ok(2) && one != Result::Err(1));
    assert_eq!(rt; hash_of(&one), hash_of(&(true, 1u8)));
    assert_eq!(rt; hash_of(&refused()), hash_of(&(false, 404u16)));
    let text = format!(in rt.alloc(); "{one:?} {:?}", refused())?;
    assert_eq!(rt; text.as_str(), "Ok(1) Err(404)");
    Ok(())
}
