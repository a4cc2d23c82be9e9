use super::*;
use crate::hash_of::hash_of;
use std::mem::replace;
use std::test::Fail;

type Port = Option<u8>;

fn some() -> Port {
    Option::Some(80)
}

fn none() -> Port {
    Option::None
}

#[test]
fn the_contents_are_there_or_not(rt: HostRuntime) {
    assert!(rt; some().is_some() && !some().is_none());
    assert!(rt; none().is_none() && !none().is_some());
    assert_eq!(rt; (some().as_ref(), none().as_ref()), (Some(&80), None));
    assert_eq!(rt; Port::Some(80).unwrap(), 80);
    assert_eq!(rt; Port::Some(81).unwrap_unchecked(), 81);
    assert_eq!(rt; some().unwrap_or_else(|| 7), 80);
    assert_eq!(rt; none().unwrap_or_else(|| 7), 7);
    assert_eq!(rt; Port::default(), none());
}

#[test]
fn what_is_written_through_a_reference_stays(rt: HostRuntime) {
    let (mut some, mut none) = (some(), none());
    if let Some(port) = some.as_mut() {
        *port = 81;
    }
    assert!(rt; none.as_mut().is_none());
    assert_eq!(rt; (some, none), (Option::Some(81), Option::None));
}

fn contents(it: &Port) -> u32 {
    it.match_ref(|port| u32::from(*port), || 404)
}

fn contents_past(it: &Port, by: u32) -> (u32, u32) {
    it.match_ref_ctx(by, |by, port| (by, u32::from(*port)), |by| (404, by))
}

fn owned_past(it: Port, by: u32) -> (u32, u32) {
    it.match_owned_ctx(by, |by, port| (by, u32::from(port)), |by| (404, by))
}

#[test]
fn a_match_calls_the_closure_of_its_variant(rt: HostRuntime) {
    assert_eq!(rt; (contents(&some()), contents(&none())), (80, 404));
    assert_eq!(rt; some().match_owned(u32::from, || 404), 80);
    assert_eq!(rt; none().match_owned(u32::from, || 404), 404);
    assert_eq!(rt; contents_past(&some(), 8), (8, 80));
    assert_eq!(rt; contents_past(&none(), 8), (404, 8));
    assert_eq!(rt; owned_past(some(), 8), (8, 80));
    assert_eq!(rt; owned_past(none(), 8), (404, 8));
}

fn replaced(it: &mut Port) -> u32 {
    it.match_mut(|port| u32::from(replace(port, 21)), || 404)
}

fn replaced_by(it: &mut Port, by: u8) -> u8 {
    it.match_mut_ctx(by, |by, port| replace(port, by), |by| by)
}

#[test]
fn a_match_keeps_what_its_closure_leaves(rt: HostRuntime) {
    let (mut some, mut none) = (some(), none());
    assert_eq!(rt; (replaced(&mut some), replaced(&mut none)), (80, 404));
    assert_eq!(rt; replaced_by(&mut some, 9), 21);
    assert_eq!(rt; replaced_by(&mut none, 10), 10);
    assert_eq!(rt; (some, none), (Option::Some(9), Option::None));
}

/// The sum, where both are there.
fn both(a: Port, b: Port) -> CoreOption<u16> {
    let a = CoreOption::<u8>::from(a)?;
    let b = CoreOption::<u8>::from(b)?;
    Some(u16::from(a) + u16::from(b))
}

#[test]
fn a_conversion_keeps_the_variant(rt: HostRuntime) {
    assert_eq!(rt; both(some(), Port::from(Some(7))), Some(87));
    assert_eq!(rt; both(some(), Port::from(None)), None);
}

#[test]
fn equality_hash_and_text(rt: HostRuntime) -> Result<(), Fail> {
    assert!(rt; some() == Option::Some(80) && some() != Option::Some(81) && some() != none());
    assert_eq!(rt; hash_of(&some()), hash_of(&(true, 80u8)));
    assert_eq!(rt; hash_of(&none()), hash_of(&false));
    let text = format!(in rt.alloc(); "{:?} {:?}", some(), none())?;
    assert_eq!(rt; text.as_str(), "Some(80) None");
    Ok(())
}
