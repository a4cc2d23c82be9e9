ghost use Rattle.std.specs.Prelude.{◌≡◌, IfOk};

use crate::option::Option;
use crate::result::Result;
use crate::storage::StorageError;
use abi_det::Test;
use abi_layout::{Desc, IntKind, Prim};
use abi_nonx::NonXU32;
use abi_num::Target;
use abi_pack::{Plan, Value};
use abi_typed::IStable;
use std::alloc::Global;
use std::result::Result as CoreResult;
use std::test::Fail;

/// On le64 the inner option is a byte, 2 for `None`. The result takes a tag, since neither side has a niche: bit 0 of
/// two bytes in front, which are aligned as the `u16` is; 1 means the smaller side, `Ok`. The outer option uses the
/// least free bit, bit 1 of byte 0, for `None`.
type Nested = Option<Result<Option<bool>, u16>>;

/// The value's bytes are these, which read as the value.
fn is_stored(alloc: Global, target: &Target, value: &Nested, wanted: &[u8]) -> bool {
    let CoreResult::Ok(bytes) = value.storage(alloc, target) else {
        return false;
    };
    let CoreResult::Ok(back) = Nested::from_storage(alloc, target, wanted) else {
        return false;
    };
    bytes.as_slice() == wanted && back == *value
}

#[test]
fn each_variant_is_stored_and_read(rt: HostRuntime) -> CoreResult<(), Fail> {
    let alloc = rt.alloc();
    let target = Target::named("le64").ok_or("no such target")?;
    let none: Nested = Option::None;
    assert!(rt; is_stored(alloc, &target, &none, &[2, 0, 0, 0]));
    let err: Nested = Option::Some(Result::Err(258));
    assert!(rt; is_stored(alloc, &target, &err, &[0, 0, 2, 1]));
    let nothing: Nested = Option::Some(Result::Ok(Option::None));
    assert!(rt; is_stored(alloc, &target, &nothing, &[1, 0, 2, 0]));
    let truth: Nested = Option::Some(Result::Ok(Option::Some(true)));
    assert!(rt; is_stored(alloc, &target, &truth, &[1, 0, 1, 0]));
    let falsehood: Nested = Option::Some(Result::Ok(Option::Some(false)));
    assert!(rt; is_stored(alloc, &target, &falsehood, &[1, 0, 0, 0]));
    assert!(rt; truth.clone(alloc) == CoreResult::Ok(Option::Some(Result::Ok(Option::Some(true)))));
    Ok(())
}

/// What a caller knows of a value that it stored and read.
fn there_and_back<T: IStable>(
    value: &Option<T>,
    alloc: Global,
    target: &Target,
) -> CoreResult<Option<T>, StorageError>
    ensures { IfOk result (λ back. back ≡ value.now) }
{
    let CoreResult::Ok(bytes) = value.storage(alloc, target) else {
        return CoreResult::Err(StorageError::OutOfMemory);
    };
    let back = Option::<T>::from_storage(alloc, target, bytes.as_slice())?;
    CoreResult::Ok(back)
}

/// Four bytes, which never are the number 0: those mean `None`.
type Number = Option<NonXU32<0>>;

fn number(number: u32) -> CoreResult<Number, Fail> {
    let number = NonXU32::new(number).ok_or("the forbidden number")?;
    Ok(Option::Some(number))
}

#[test]
fn an_option_is_described_and_laid_out(rt: HostRuntime) -> CoreResult<(), Fail> {
    let alloc = rt.alloc();
    let target = Target::named("le64").ok_or("no such target")?;
    let Desc::Option { some } = Number::describe(alloc)? else {
        return Err("no option".into());
    };
    let is_described = matches!(
        *some,
        Desc::Prim(Prim::NonX {
            kind: IntKind::U32,
            magnitude: 0,
            negative: false,
        })
    );
    assert!(rt; is_described);
    let layout = Number::layout(alloc, &target)?;
    assert_eq!(rt; (layout.size(), layout.align()), (4, 4));
    let none: Number = Option::None;
    assert!(rt; matches!(none.to_value(alloc)?, Value::None));
    Ok(())
}

// The identifier is from Python's hashlib: the first 8 bytes of the SHA-256 of "stabby_abi::optionOption\0inner"
// "stabby_abi::resultResultstabby" "Okstabby_abi::numNonXU32\0" "Errstabby_abi::stable_impls()\0", least byte first,
// exclusive or with those of the target, b"\x00\x08\x08\x08\x08\x10\x00\x00".
#[test]
fn an_option_is_reported_and_identified(rt: HostRuntime) -> CoreResult<(), Fail> {
    let alloc = rt.alloc();
    let target = Target::named("le64").ok_or("no such target")?;
    let report = Number::report(alloc, &target)?;
    let text = format!(in alloc; "{report}")?;
    let inner = "Enum(stabby) stabby_abi::result :: Result (version1) \
        {Ok: Struct stabby_abi::num :: NonXU32 (version0) {}, \
        Err: Struct stabby_abi::stable_impls :: () (version0) {}, }";
    let wanted = format!(in alloc;
        "Struct stabby_abi::option :: Option (version0) {{inner: {inner}, }}"
    )?;
    assert_eq!(rt; text.as_str(), wanted.as_str());
    assert_eq!(rt; Number::id(alloc, &target)?, 0xc909_253f_a062_87d5);
    Ok(())
}

#[test]
fn an_option_comes_back(rt: HostRuntime) -> CoreResult<(), Fail> {
    let alloc = rt.alloc();
    let target = Target::named("be32").ok_or("no such target")?;
    let seven = number(7)?;
    assert!(rt; there_and_back(&seven, alloc, &target) == CoreResult::Ok(number(7)?));
    assert!(rt; seven.clone(alloc)? == seven);
    let none: Number = Option::None;
    assert!(rt; there_and_back(&none, alloc, &target) == CoreResult::Ok(Option::None));
    Ok(())
}

#[test]
fn the_forbidden_number_means_none(rt: HostRuntime) -> CoreResult<(), Fail> {
    let alloc = rt.alloc();
    let target = Target::named("le64").ok_or("no such target")?;
    let none: Number = Option::None;
    let CoreResult::Ok(bytes) = none.storage(alloc, &target) else {
        return Err("no bytes".into());
    };
    assert!(rt; bytes.as_slice() == [0, 0, 0, 0].as_slice());
    let read = Number::from_storage(alloc, &target, &[0, 1, 0, 0]);
    assert!(rt; read == CoreResult::Ok(number(256)?));
    let short = Number::from_storage(alloc, &target, &[0, 1, 0]);
    assert!(rt; short == CoreResult::Err(StorageError::WrongLength));
    Ok(())
}

// A byte of each side's may be anything but a truth value's 2 to 255, which the other side's bytes may be: neither side
// has a free byte, so a tag stands in front.
#[test]
fn bytes_that_show_nothing_are_illegal(rt: HostRuntime) -> CoreResult<(), Fail> {
    let alloc = rt.alloc();
    let target = Target::named("le64").ok_or("no such target")?;
    let read = Result::<bool, u8>::from_storage(alloc, &target, &[0, 2]);
    assert!(rt; read == CoreResult::Err(StorageError::IllegalBytes));
    let plan = Plan::of(alloc, &target, &Result::<bool, u8>::describe(alloc)?)?;
    assert_eq!(rt; plan.layout().size(), 2);
    let sum = plan.placed().as_slice().first().ok_or("no sum")?;
    assert_eq!(rt; sum.front, 1);
    assert!(rt; matches!(sum.determinant.test, Test::BitDeterminant));
    Ok(())
}

/// The example of docs/LIBRARY.md.
#[test]
fn a_typed_value_is_packed_and_read_back(rt: HostRuntime) -> CoreResult<(), Fail> {
    let alloc = rt.alloc();
    let target = Target::named("le64").ok_or("no such target")?;
    let value: Option<Result<bool, u16>> = Option::Some(Result::Err(258));
    let bytes = value.storage(alloc, &target)?;
    assert_eq!(rt; bytes.as_slice(), [0, 0, 2, 1].as_slice());
    let back = Option::<Result<bool, u16>>::from_storage(alloc, &target, bytes.as_slice())?;
    assert!(rt; back == value);
    assert!(rt; matches!(back, Option::Some(Result::Err(258))));
    Ok(())
}
