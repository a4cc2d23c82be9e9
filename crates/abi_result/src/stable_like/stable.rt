ghost use Rattle.std.specs.Prelude.{◌≡◌, ◌↔◌, None, IfOk, IfErr, IsTrue};
ghost use Rattle.abi_det.specs.Offers.{One, or_else};
ghost use Rattle.abi_layout.specs.Faults.{IsFault, desc_fault};
ghost use Rattle.abi_layout.specs.Frames.{written_frame};
ghost use Rattle.abi_layout.specs.ReportsOf.{report_tree};
ghost use Rattle.abi_report.specs.Identifier.{identifier};
ghost use Rattle.abi_report.specs.Reports.{tree as reported};
ghost use Rattle.abi_result.specs.Wrappers.{AlikeIn, value_of};

use crate::stable_like::StableLike;
use abi_det::Layout;
use abi_layout::DescError;
use abi_num::Target;
use abi_report::TypeReport;
use abi_typed::IStable;
use std::alloc::Global;

impl<T: IStable, As> StableLike<T, As> {
    /// The value held.
    pub fn as_ref(&self) -> &T
        ensures { result.now ≡ value_of self.now }
    {
        self.as_ref_unchecked()
    }

    /// The value held.
    pub fn into_inner(self) -> T
        ensures { result ≡ value_of self }
    {
        self.into_inner_unchecked()
    }
}

impl<T, As: IStable> StableLike<T, As> {
    /// The layout of an `As` on a target. Refused as that is.
    pub fn layout(alloc: Global, target: &Target) -> Result<Layout, DescError>
        ensures faultless { IfOk result (λ _. desc_fault One target.now As.description ≡ None) }
        ensures layout { IfOk result (λ l. l ≡ written_frame One target.now As.description) }
        ensures err { IfErr result (IsFault (desc_fault One target.now As.description)) }
    {
        let layout = As::layout(alloc, target)?;
        Ok(layout)
    }

    /// The report of `As` on a target. Refused as that is.
    pub fn report(alloc: Global, target: &Target) -> Result<TypeReport, DescError>
        ensures faultless { IfOk result (λ _. desc_fault One target.now As.description ≡ None) }
        ensures report { IfOk result (λ r. reported r ≡ report_tree One target.now As.description) }
        ensures err { IfErr result (IsFault (desc_fault One target.now As.description)) }
    {
        let report = As::report(alloc, target)?;
        Ok(report)
    }

    /// The identifier of `As` on a target. Refused as that is.
    pub fn id(alloc: Global, target: &Target) -> Result<u64, DescError>
        ensures faultless { IfOk result (λ _. desc_fault One target.now As.description ≡ None) }
        ensures id { IfOk result (λ id.
            id ≡ identifier target.now (report_tree One target.now As.description)) }
        ensures err { IfErr result (IsFault (desc_fault One target.now As.description)) }
    {
        let id = As::id(alloc, target)?;
        Ok(id)
    }
}

impl<T: IStable, As: IStable> StableLike<T, As> {
    /// Whether a `T` and an `As` have the same size and the same alignment on a target. Refused by the fault of `T`, or
    /// where it has none, by that of `As`.
    pub fn check(alloc: Global, target: &Target) -> Result<bool, DescError>
        ensures alike { IfOk result (λ alike.
            IsTrue alike ↔ AlikeIn target.now T.description As.description) }
        ensures own { IfOk result (λ _. desc_fault One target.now T.description ≡ None) }
        ensures other { IfOk result (λ _. desc_fault One target.now As.description ≡ None) }
        ensures err { IfErr result (IsFault (or_else
            (desc_fault One target.now T.description)
            (desc_fault One target.now As.description))) }
    {
        let own = T::layout(alloc, target)?;
        let other = As::layout(alloc, target)?;
        Ok(own.size() == other.size() && own.align() == other.align())
    }
}
