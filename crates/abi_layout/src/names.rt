//! Names of primitives.

ghost use Rattle.std.specs.Prelude.{◌≡◌, ◌++◌, IfOk};
ghost use Rattle.abi_layout.specs.Names.{bits_text, letter, capital, capital_name, own_words, form_words, kind_part, note, report_name, report_module};
ghost use Rattle.abi_layout.specs.Prims.{is_signed};

use crate::prim::{Form, IntKind, Primitive};
use abi_num::{OutOfMemory, Target, Text};
use std::alloc::Global;

/// The module that reports name for most types.
pub(crate) const STABLE_IMPLS: &str = "stabby_abi::stable_impls";

/// The path to the name of a primitive, and the name before the kind of integers.
#[derive(Clone, Copy)]
struct Words {
    path: &'static str,
    name: &'static str,
}

/// A kind of integers as it stands in a name.
#[derive(Clone, Copy)]
struct KindWords {
    letter: &'static str,
    bits: &'static str,
}

const NO_KIND: KindWords = KindWords {
    letter: "",
    bits: "",
};

/// The name by which reports name a primitive on a target.
#[tactic(auto, unfolding(crate::specs::Names::noted_name))]
pub(crate) fn report_name(
    alloc: Global,
    target: &Target,
    prim: Primitive,
) -> Result<Text, OutOfMemory>
    ensures { IfOk result (λ text. text ≡ report_name target.now prim) }
{
    let form = prim.form();
    let words = form_words(own_words(prim), form);
    let kind = kind_part(form);
    let note = note(target.u128_align == 8, form);
    let text = joined(alloc, words, kind, note)?;
    Ok(text)
}

/// The module that reports say a primitive is of.
pub(crate) fn report_module(prim: Primitive) -> &'static str
    ensures { result.now ≡ report_module prim }
{
    match prim.form() {
        Form::NonMax(_) => "stabby_abi::num",
        Form::NonX { .. } => "stabby_abi::num",
        _ => STABLE_IMPLS,
    }
}

fn joined(alloc: Global, words: Words, kind: KindWords, note: &str) -> Result<Text, OutOfMemory>
    ensures { IfOk result (λ text. text
        ≡ words.path.now ++ (words.name.now ++ (kind.letter.now ++ kind.bits.now)) ++ note.now) }
{
    let mut text = String::new(alloc);
    text.push_str(words.path)?;
    text.push_str(words.name)?;
    text.push_str(kind.letter)?;
    text.push_str(kind.bits)?;
    text.push_str(note)?;
    Ok(Text::from(text))
}

/// Those of a primitive whose form does not tell its name.
fn own_words(prim: Primitive) -> Words
    ensures path { result.path.now ≡ (own_words prim).0 }
    ensures name { result.name.now ≡ (own_words prim).1 }
{
    let (path, name) = match prim {
        Primitive::Unit => ("", "()"),
        Primitive::PhantomData => ("core::marker::", "PhantomData"),
        Primitive::PhantomPinned => ("core::marker::", "PhantomPinned"),
        Primitive::CVoid => ("core::ffi::", "c_void"),
        Primitive::Bool => ("", "bool"),
        Primitive::Ordering => ("core::cmp::", "Ordering"),
        Primitive::AtomicBool => ("core::sync::atomic::", "AtomicBool"),
        Primitive::OwnedFd => ("std::os::fd::", "OwnedFd"),
        Primitive::BorrowedFd => ("std::os::fd::", "BorrowedFd"),
        Primitive::FnPtr => ("extern \"C\" ", "fn"),
        _ => ("", ""),
    };
    Words { path, name }
}

/// Those of a primitive of a form, which itself tells the words `own`.
fn form_words(own: Words, form: Form) -> Words
    ensures path { result.path.now ≡ (form_words (own.path.now, own.name.now) form).0 }
    ensures name { result.name.now ≡ (form_words (own.path.now, own.name.now) form).1 }
{
    let (path, name) = match form {
        Form::Integer(_) => ("", ""),
        Form::Atomic(_) => ("core::sync::atomic::", "Atomic"),
        Form::NonZero(_) => ("core::num::", "NonZero"),
        Form::NonMax(_) => ("", "NonMax"),
        Form::NonX { .. } => ("", "NonX"),
        _ => return own,
    };
    Words { path, name }
}

/// The kind as it stands in the name of a primitive of this form.
fn kind_part(form: Form) -> KindWords
    ensures { result.letter.now ++ result.bits.now ≡ kind_part form }
{
    match form {
        Form::Integer(kind) => KindWords {
            letter: letter(kind),
            bits: bits_text(kind),
        },
        Form::Atomic(kind) => in_capitals(kind),
        Form::NonZero(kind) => in_capitals(kind),
        Form::NonMax(kind) => in_capitals(kind),
        Form::NonX { kind, .. } => in_capitals(kind),
        _ => NO_KIND,
    }
}

fn in_capitals(kind: IntKind) -> KindWords
    ensures { result.letter.now ++ result.bits.now ≡ capital_name kind }
{
    KindWords {
        letter: capital(kind),
        bits: bits_text(kind),
    }
}

fn letter(kind: IntKind) -> &'static str
    ensures { result.now ≡ letter kind }
{
    if kind.is_signed() { "i" } else { "u" }
}

fn capital(kind: IntKind) -> &'static str
    ensures { result.now ≡ capital kind }
{
    if kind.is_signed() { "I" } else { "U" }
}

/// The number of bits, or `size` for that of a pointer.
fn bits_text(kind: IntKind) -> &'static str
    ensures { result.now ≡ bits_text kind }
{
    match kind {
        IntKind::U8 => "8",
        IntKind::U16 => "16",
        IntKind::U32 => "32",
        IntKind::U64 => "64",
        IntKind::U128 => "128",
        IntKind::Usize => "size",
        IntKind::I8 => "8",
        IntKind::I16 => "16",
        IntKind::I32 => "32",
        IntKind::I64 => "64",
        IntKind::I128 => "128",
        IntKind::Isize => "size",
    }
}

/// What tells the alignment of a `u128`: whether it is 8.
fn note(is_8: bool, form: Form) -> &'static str
    ensures { result.now ≡ note is_8 form }
{
    match form {
        Form::Integer(IntKind::U128) => { if is_8 { "(8)" } else { "(16)" } }
        _ => "",
    }
}
