ghost use Rattle.std.specs.Prelude.{◌≡◌, Bool, None, Some, IfOk, IfErr, IfSome};
ghost use Rattle.abi_det.specs.Offers.{Rules, One};
ghost use Rattle.abi_report.specs.Identifier.{identifier};
ghost use Rattle.abi_report.specs.Reports.{tree as reported};
ghost use Rattle.abi_layout.specs.Faults.{IsFault, desc_fault};
ghost use Rattle.abi_layout.specs.Frames.{written_frame};
ghost use Rattle.abi_layout.specs.ReportsOf.{report_tree};
ghost use Rattle.abi_layout.specs.Trees.{Tree, tree};
ghost use Rattle.abi_pack.specs.Plain.{Plain};
ghost use Rattle.abi_pack.specs.View.{plain};
ghost use Rattle.abi_typed.specs.Stable.{Fits, FitsWhereSome, IsFixed, Indirections};

use abi_det::Layout;
use abi_layout::{Desc, DescError, id_of, layout_of, report_of};
use abi_num::{OutOfMemory, Target};
use abi_pack::Value;
use abi_report::TypeReport;
use std::alloc::Global;

/// A type with a fixed description, each of whose values is a value of the description on every target.
pub trait IStable: Sized + Drop {
    ghost is_value: { Self → Type 0 };

    ghost description: { Tree };

    ghost value_of: { Self → Plain };

    ghost indirections: { Bool };

    /// The description of the type.
    fn describe(alloc: Global) -> Result<Desc, OutOfMemory>
        ensures { IfOk result (λ desc. tree desc ≡ description) };

    /// The value of the description that this one stands for.
    fn to_value(&self, alloc: Global) -> Result<Value, OutOfMemory>
        ensures told { is_value self.now }
        ensures value { IfOk result (λ value. plain value ≡ value_of self.now) };

    /// What stands for the value; `None` exactly where the value is none of the description's. Takes no memory.
    fn from_value(value: &Value) -> Option<Self>
        ensures some { FitsWhereSome description (plain value.now) result }
        ensures told { IfSome result is_value }
        ensures value { IfSome result (λ x. value_of x ≡ plain value.now) }
        ensures back { (x : Self) → is_value x → value_of x ≡ plain value.now → result ≡ Some x };

    /// Whether a value of the type holds a pointer, as the layout of its description tells.
    fn indirections() -> bool
        ensures { result ≡ indirections };

    /// The layout of the description on a target. Refused as `layout_of` is.
    final fn layout(alloc: Global, target: &Target) -> Result<Layout, DescError>
        ensures faultless { IfOk result (λ _. desc_fault One target.now description ≡ None) }
        ensures layout { IfOk result (λ l. l ≡ written_frame One target.now description) }
        ensures err { IfErr result (IsFault (desc_fault One target.now description)) }
    {
        let desc = Self::describe(alloc)?;
        let layout = layout_of(alloc, target, &desc)?;
        Ok(layout)
    }

    /// The report of the description on a target. Refused as `layout_of` is.
    final fn report(alloc: Global, target: &Target) -> Result<TypeReport, DescError>
        ensures faultless { IfOk result (λ _. desc_fault One target.now description ≡ None) }
        ensures report { IfOk result (λ r. reported r ≡ report_tree One target.now description) }
        ensures err { IfErr result (IsFault (desc_fault One target.now description)) }
    {
        let desc = Self::describe(alloc)?;
        let report = report_of(alloc, target, &desc)?;
        Ok(report)
    }

    /// The identifier of the description on a target. Refused as `layout_of` is.
    final fn id(alloc: Global, target: &Target) -> Result<u64, DescError>
        ensures faultless { IfOk result (λ _. desc_fault One target.now description ≡ None) }
        ensures id { IfOk result (λ id.
            id ≡ identifier target.now (report_tree One target.now description)) }
        ensures err { IfErr result (IsFault (desc_fault One target.now description)) }
    {
        let desc = Self::describe(alloc)?;
        let id = id_of(alloc, target, &desc)?;
        Ok(id)
    }

    ghost fixed: { IsFixed description };

    ghost fitting: { (x : Self) → is_value x → Fits description (value_of x) };

    ghost indirect: { Indirections description indirections };
}
