ghost use Rattle.std.specs.Prelude.{◌≡◌, [], ◌∷◌, ◌++◌, IfOk, OnOk, OnErr};
ghost use Rattle.abi_num.specs.Lists.{IsTaken};
ghost use Rattle.std.specs.Cmp.Lexicographic.{pointwise, lists_per, lists_equiv};

use crate::out_of_memory::OutOfMemory;
use std::alloc::Global;
use std::marker::Model;

/// A growing list. A type may hold itself through it.
#[derive(Debug, Drop)]
pub struct Items<T> {
    items: Vec<T>,
}

impl<T> Model for Items<T> {
    ghost use Rattle.std.specs.Prelude.{List};
    ghost use Rattle.std.specs.Coded.{coded_list};

    ghost Value = { List T };

    ghost coded = { coded_list T.code };

    ghost view = { λ it. it.items.items };
}

impl<T> Items<T> {
    /// The empty list. Takes no memory.
    pub fn new(alloc: Global) -> Self
        ensures { result ≡ [] }
    {
        Items {
            items: Vec::new(alloc),
        }
    }

    /// Takes the last item; `None` exactly where the list is empty.
    pub fn pop(&mut self) -> Option<T>
        ensures { IsTaken result self.old self.new }
    {
        self.items.pop()
    }

    /// The items in order.
    pub fn as_slice(&self) -> &[T]
        ensures { result.now ≡ self.now }
    {
        self.items.as_slice()
    }
}

impl<T: Drop> Items<T> {
    /// Adds an item at the end. Refused for want of memory, it leaves the list as it was and drops the item.
    pub fn push(&mut self, item: T) -> Result<(), OutOfMemory>
        ensures ok { OnOk result (self.new ≡ self.old ++ item ∷ []) }
        ensures err { OnErr result (self.new ≡ self.old) }
    {
        match self.items.push(item) {
            Ok(()) => Ok(()),
            Err(_) => Err(OutOfMemory),
        }
    }
}

impl<T: Copy> Items<T> {
    /// A list of these items.
    pub fn from_slice(alloc: Global, items: &[T]) -> Result<Self, OutOfMemory>
        ensures { IfOk result (λ list. list ≡ items.now) }
    {
        let items = Vec::from_slice(alloc, items)?;
        Ok(Items { items })
    }
}

impl<T> From<Vec<T>> for Items<T> {
    ghost from_gives = { λ vec list. list ≡ vec.items };

    fn from(items: Vec<T>) -> Self {
        Items { items }
    }
}

impl<T: PartialEq> PartialEq for Items<T> {
    ghost eq = { pointwise T.eq };

    ghost laws = { lists_per T.PartialEq.laws };

    fn eq(&self, other: &Self) -> bool {
        self.as_slice() == other.as_slice()
    }
}

impl<T: Eq> Eq for Items<T> {
    ghost laws = { lists_equiv T.Eq.laws };
}

#[cfg(test)]
mod tests {
    use super::*;
    use std::test::Fail;

    #[test]
    fn the_last_item_is_taken_first(rt: HostRuntime) -> Result<(), Fail> {
        let mut items = Items::new(rt.alloc());
        assert_eq!(rt; items.pop(), None);
        items.push(7)?;
        items.push(8)?;
        assert_eq!(rt; items.as_slice(), [7, 8].as_slice());
        assert_eq!(rt;
            (items.pop(), items.pop(), items.pop()),
            (Some(8), Some(7), None)
        );
        items.push(9)?;
        assert!(rt; items == Items::from_slice(rt.alloc(), &[9])?);
        assert!(rt; items != Items::from_slice(rt.alloc(), &[9, 9])?);
        Ok(())
    }
}
