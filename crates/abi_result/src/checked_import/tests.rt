ghost use Rattle.std.specs.Prelude.{◌≡◌, ◌≢◌};
ghost use Rattle.abi_result.specs.declared.checked_import.Outcome.TheVariants.{Unasked};

use super::*;
use crate::mem_loader::MemLoader;
use abi_num::{Items, OutOfMemory, Text};
use abi_report::TyTy;
use std::alloc::Global;
use std::test::Fail;

// A caller learns of a later use that it changes nothing.
fn use_again<F: Drop, L: Loader<F>>(import: &mut CheckedImport<F, L>)
    requires { import.old.outcome ≢ Unasked }
    ensures { import.new ≡ import.old }
{
    let _ = import.as_ref();
}

fn report(alloc: Global, name: &str) -> Result<TypeReport, OutOfMemory> {
    Ok(TypeReport {
        name: Text::new(alloc, name)?,
        module: Text::new(alloc, "demo")?,
        fields: Items::new(alloc),
        tyty: TyTy::Struct,
        version: 0,
    })
}

fn import(alloc: Global, accepts: bool) -> Result<CheckedImport<u32, MemLoader>, OutOfMemory> {
    let loader = MemLoader {
        report: report(alloc, "Theirs")?,
        value: 7,
        accepts,
        askings: 0,
        refusals: 0,
    };
    Ok(CheckedImport::new(loader, report(alloc, "Ours")?))
}

#[test]
fn a_loader_that_refuses_is_asked_once_over_two_uses(rt: HostRuntime) -> Result<(), Fail> {
    let alloc = rt.alloc();
    let mut import = import(alloc, false)?;
    assert_eq!(rt; import.loader.askings, 0);
    for _ in 0..2 {
        let text = match import.as_ref() {
            Ok(_) => Text::new(alloc, "accepted")?,
            Err(mismatch) => Text::from(format!(in alloc; "{mismatch}")?),
        };
        assert_eq!(rt;
            text.as_str(),
            "Struct demo :: Ours (version0) {} is not Struct demo :: Theirs (version0) {}"
        );
        assert_eq!(rt; (import.loader.askings, import.loader.refusals), (1, 1));
    }
    Ok(())
}

#[test]
fn a_loader_that_accepts_is_asked_once_over_two_uses(rt: HostRuntime) -> Result<(), Fail> {
    let mut import = import(rt.alloc(), true)?;
    assert_eq!(rt; import.as_ref().ok().copied(), Some(7));
    use_again(&mut import);
    assert_eq!(rt; (import.loader.askings, import.loader.refusals), (1, 0));
    Ok(())
}
