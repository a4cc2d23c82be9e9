//! The calls of a typed `Option` that call a closure.
ghost use Rattle.std.specs.Prelude.{◌≡◌, None, IsSomeAnd, MatchOption};
ghost use Rattle.std.specs.Option.{ForSome, ForNone};
ghost use Rattle.std.specs.Fn.{FnOnceTakesAt, FnOnceReturnsAt};
ghost use Rattle.std.specs.Fn.{FnOnceTakesAtMut, FnOnceReturnsAtMut};
ghost use Rattle.abi_result.specs.Calls.{TakesWith, ReturnsWith, TakesWithMut, ReturnsWithMut};
ghost use Rattle.abi_result.specs.Sums.{core_option};

use crate::option::Option;
use abi_typed::IStable;

impl<T: IStable> Option<T> {
    /// What `some` answers at a reference to the contents, or what `none` answers.
    pub fn match_ref<'a, U, F: FnOnce(&'a T) -> U, G: FnOnce() -> U>(
        &'a self,
        some: F,
        none: G,
    ) -> U
        requires some_callable { ForSome (core_option self.now) (FnOnceTakesAt F.FnOnce some) }
        requires none_callable { ForNone (core_option self.now) (G.pre none) }
        ensures { MatchOption (core_option self.now)
            (G.post none result)
            (λ x. FnOnceReturnsAt F.FnOnce some x result) }
    {
        match self {
            Option::Some(x) => some(x),
            Option::None => none(),
        }
    }

    /// What `some` answers for the contents, or what `none` answers.
    pub fn match_owned<U, F: FnOnce(T) -> U, G: FnOnce() -> U>(self, some: F, none: G) -> U
        requires some_callable { ForSome (core_option self) (F.pre some) }
        requires none_callable { ForNone (core_option self) (G.pre none) }
        ensures { MatchOption (core_option self)
            (G.post none result)
            (λ x. F.post some x result) }
    {
        match self {
            Option::Some(x) => some(x),
            Option::None => none(),
        }
    }

    /// What `some` answers at a reference to the contents, or what `none` answers. The variant stays, and its contents
    /// are what `some` leaves.
    pub fn match_mut<U, F: FnOnce(&mut T) -> U, G: FnOnce() -> U>(&mut self, some: F, none: G) -> U
        requires some_callable { ForSome (core_option self.old) (FnOnceTakesAtMut F.FnOnce some) }
        requires none_callable { ForNone (core_option self.old) (G.pre none) }
        ensures { MatchOption (core_option self.old)
            (G.post none result × (core_option self.new ≡ None))
            (λ x. IsSomeAnd (core_option self.new) (FnOnceReturnsAtMut F.FnOnce some x result)) }
    {
        match self {
            Option::Some(contents) => some(contents),
            Option::None => none(),
        }
    }

    /// As `match_ref`; the closure gets `ctx` first.
    pub fn match_ref_ctx<'a, I, U, F: FnOnce(I, &'a T) -> U, G: FnOnce(I) -> U>(
        &'a self,
        ctx: I,
        some: F,
        none: G,
    ) -> U
        requires some_callable { ForSome (core_option self.now) (TakesWith F.FnOnce some ctx) }
        requires none_callable { ForNone (core_option self.now) (G.pre none ctx) }
        ensures { MatchOption (core_option self.now)
            (G.post none ctx result)
            (λ x. ReturnsWith F.FnOnce some ctx x result) }
    {
        match self {
            Option::Some(x) => some(ctx, x),
            Option::None => none(ctx),
        }
    }

    /// As `match_owned`; the closure gets `ctx` first.
    pub fn match_owned_ctx<I, U, F: FnOnce(I, T) -> U, G: FnOnce(I) -> U>(
        self,
        ctx: I,
        some: F,
        none: G,
    ) -> U
        requires some_callable { ForSome (core_option self) (F.pre some ctx) }
        requires none_callable { ForNone (core_option self) (G.pre none ctx) }
        ensures { MatchOption (core_option self)
            (G.post none ctx result)
            (λ x. F.post some ctx x result) }
    {
        match self {
            Option::Some(x) => some(ctx, x),
            Option::None => none(ctx),
        }
    }

    /// As `match_mut`; the closure gets `ctx` first.
    pub fn match_mut_ctx<I, U, F: FnOnce(I, &mut T) -> U, G: FnOnce(I) -> U>(
        &mut self,
        ctx: I,
        some: F,
        none: G,
    ) -> U
        requires some_callable { ForSome (core_option self.old) (TakesWithMut F.FnOnce some ctx) }
        requires none_callable { ForNone (core_option self.old) (G.pre none ctx) }
        ensures { MatchOption (core_option self.old)
            (G.post none ctx result × (core_option self.new ≡ None))
            (λ x. IsSomeAnd (core_option self.new) (ReturnsWithMut F.FnOnce some ctx x result)) }
    {
        match self {
            Option::Some(x) => some(ctx, x),
            Option::None => none(ctx),
        }
    }

    /// The contents, or what `f` answers where there are none.
    pub fn unwrap_or_else<F: FnOnce() -> T>(self, f: F) -> T
        requires { ForNone (core_option self) (F.pre f) }
        ensures { MatchOption (core_option self) (F.post f result) (λ x. result ≡ x) }
    {
        match self {
            Option::Some(x) => x,
            Option::None => f(),
        }
    }
}
