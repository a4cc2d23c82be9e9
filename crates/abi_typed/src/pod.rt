ghost use Rattle.std.specs.Prelude.{◌≡◌, false, None, IfOk, IfErr};
ghost use Rattle.abi_det.specs.Offers.{One};
ghost use Rattle.abi_report.specs.Identifier.{identifier};
ghost use Rattle.abi_layout.specs.Faults.{IsFault, desc_fault};
ghost use Rattle.abi_layout.specs.ReportsOf.{report_tree};

use crate::stable::IStable;
use abi_layout::DescError;
use abi_num::Target;
use std::alloc::Global;
use std::marker::PhantomData;

/// A type whose values may be copied byte by byte: it is `Copy`, and where it holds no pointer it has an identifier.
pub trait IPod: IStable + Copy {
    /// The identifier of a type without pointers. Refused as `layout_of` is.
    final fn identifier(alloc: Global, target: &Target) -> Result<u64, DescError>
        requires { Self.indirections ≡ false }
        ensures faultless { IfOk result (λ _. desc_fault One target.now Self.description ≡ None) }
        ensures id { IfOk result (λ id.
            id ≡ identifier target.now (report_tree One target.now Self.description)) }
        ensures err { IfErr result (IsFault (desc_fault One target.now Self.description)) }
    {
        let id = Self::id(alloc, target)?;
        Ok(id)
    }
}

impl<T: IStable + Copy> IPod for T {}

/// Compiles exactly where the type is stable; does nothing.
pub fn assert_stable<T: IStable>() {}

/// A value that there is exactly where the type is stable.
#[derive(Clone, Copy)]
pub struct AssertStable<T: IStable>(pub PhantomData<T>);

impl<T: IStable> AssertStable<T> {
    /// The value.
    pub fn assert() -> Self {
        AssertStable(PhantomData)
    }
}
