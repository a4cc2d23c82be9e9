ghost use Rattle.std.specs.Prelude.{◌≡◌, false, IfNone, IfSome};
ghost use Rattle.abi_pack.specs.Plain.{unit as no_bytes, integer, boolean, order, bytes, list, is_unit, is_integer, is_boolean, is_order, is_bytes, is_list, is_variant};
ghost use Rattle.abi_pack.specs.View.{IsVariant, plain, plains};

use crate::value::Value;
use abi_layout::Sort;
use std::cmp::Ordering;

/// A value of a sum: what its variants are called, whether it is the first of them, and its payload.
#[derive(Clone, Copy)]
pub(crate) struct Variant<'a> {
    pub(crate) names: Sort,
    pub(crate) first: bool,
    pub(crate) payload: &'a Value,
}

impl Value {
    /// Whether it is the value of a type without bytes.
    pub(crate) fn is_unit(&self) -> bool
        ensures { result ≡ is_unit (plain self.now) }
    {
        matches!(self, Value::Unit)
    }

    /// The integer: its distance from 0, and whether it lies below 0.
    pub(crate) fn as_integer(&self) -> Option<(u128, bool)>
        ensures none { IfNone result (is_integer (plain self.now) ≡ false) }
        ensures some { IfSome result (λ r. plain self.now ≡ integer r.0 r.1) }
    {
        match self {
            Value::Int {
                magnitude,
                negative,
            } => Some((*magnitude, *negative)),
            _ => None,
        }
    }

    /// The truth value.
    pub(crate) fn as_bool(&self) -> Option<bool>
        ensures none { IfNone result (is_boolean (plain self.now) ≡ false) }
        ensures some { IfSome result (λ b. plain self.now ≡ boolean b) }
    {
        match self {
            Value::Bool(truth) => Some(*truth),
            _ => None,
        }
    }

    /// The order.
    pub(crate) fn as_order(&self) -> Option<Ordering>
        ensures none { IfNone result (is_order (plain self.now) ≡ false) }
        ensures some { IfSome result (λ o. plain self.now ≡ order o) }
    {
        match self {
            Value::Order(order) => Some(*order),
            _ => None,
        }
    }

    /// The bytes.
    pub(crate) fn as_bytes(&self) -> Option<&[u8]>
        ensures none { IfNone result (is_bytes (plain self.now) ≡ false) }
        ensures some { IfSome result (λ xs. plain self.now ≡ bytes xs.now) }
    {
        match self {
            Value::Bytes(bytes) => Some(bytes.as_slice()),
            _ => None,
        }
    }

    /// The values of a list.
    #[tactic(auto, using(crate::proofs::Views::plain_list))]
    pub(crate) fn as_list(&self) -> Option<&[Value]>
        ensures none { IfNone result (is_list (plain self.now) ≡ false) }
        ensures some { IfSome result (λ vs. plain self.now ≡ list (plains vs.now)) }
    {
        match self {
            Value::List(values) => Some(values.as_slice()),
            _ => None,
        }
    }

    /// The variant; `None` has the payload `unit`, which is `Value::Unit`.
    pub(crate) fn as_variant<'a>(&'a self, unit: &'a Value) -> Option<Variant<'a>>
        requires { plain unit.now ≡ no_bytes }
        ensures none { IfNone result (is_variant (plain self.now) ≡ false) }
        ensures some { IfSome result (IsVariant (plain self.now)) }
    {
        match self {
            Value::Ok(payload) => Some(Variant {
                names: Sort::OfResult,
                first: true,
                payload,
            }),
            Value::Err(payload) => Some(Variant {
                names: Sort::OfResult,
                first: false,
                payload,
            }),
            Value::Some(payload) => Some(Variant {
                names: Sort::OfOption,
                first: true,
                payload,
            }),
            Value::None => Some(Variant {
                names: Sort::OfOption,
                first: false,
                payload: unit,
            }),
            _ => None,
        }
    }
}
