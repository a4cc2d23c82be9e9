//! The calls of a typed `Result` that call a closure.
ghost use Rattle.std.specs.Prelude.{◌≡◌, Ok, Err, IsOkAnd, IsErrAnd, MatchResult};
ghost use Rattle.std.specs.Result.{ForOk, ForErr};
ghost use Rattle.std.specs.Fn.{FnOnceTakesAt, FnOnceReturnsAt};
ghost use Rattle.std.specs.Fn.{FnOnceTakesAtMut, FnOnceReturnsAtMut};
ghost use Rattle.abi_result.specs.Calls.{TakesWith, ReturnsWith, TakesWithMut, ReturnsWithMut};
ghost use Rattle.abi_result.specs.Sums.{core_result};

use crate::result::Result;
use abi_typed::IStable;

impl<T: IStable, E: IStable> Result<T, E> {
    /// What the closure of its variant answers at a reference to the contents.
    pub fn match_ref<'a, U, F: FnOnce(&'a T) -> U, G: FnOnce(&'a E) -> U>(
        &'a self,
        ok: F,
        err: G,
    ) -> U
        requires ok_callable { ForOk (core_result self.now) (FnOnceTakesAt F.FnOnce ok) }
        requires err_callable { ForErr (core_result self.now) (FnOnceTakesAt G.FnOnce err) }
        ensures { MatchResult (core_result self.now)
            (λ x. FnOnceReturnsAt F.FnOnce ok x result)
            (λ e. FnOnceReturnsAt G.FnOnce err e result) }
    {
        match self {
            Result::Ok(x) => ok(x),
            Result::Err(e) => err(e),
        }
    }

    /// What the closure of its variant answers for the contents.
    pub fn match_owned<U, F: FnOnce(T) -> U, G: FnOnce(E) -> U>(self, ok: F, err: G) -> U
        requires ok_callable { ForOk (core_result self) (F.pre ok) }
        requires err_callable { ForErr (core_result self) (G.pre err) }
        ensures { MatchResult (core_result self)
            (λ x. F.post ok x result)
            (λ e. G.post err e result) }
    {
        match self {
            Result::Ok(x) => ok(x),
            Result::Err(e) => err(e),
        }
    }

    /// What the closure of its variant answers at a reference to the contents. The variant stays, and its contents are
    /// what that closure leaves.
    pub fn match_mut<U, F: FnOnce(&mut T) -> U, G: FnOnce(&mut E) -> U>(
        &mut self,
        ok: F,
        err: G,
    ) -> U
        requires ok_callable { ForOk (core_result self.old) (FnOnceTakesAtMut F.FnOnce ok) }
        requires err_callable { ForErr (core_result self.old) (FnOnceTakesAtMut G.FnOnce err) }
        ensures { MatchResult (core_result self.old)
            (λ x. IsOkAnd (core_result self.new) (FnOnceReturnsAtMut F.FnOnce ok x result))
            (λ e. IsErrAnd (core_result self.new) (FnOnceReturnsAtMut G.FnOnce err e result)) }
    {
        match self {
            Result::Ok(x) => ok(x),
            Result::Err(e) => err(e),
        }
    }

    /// As `match_ref`; the closure gets `ctx` first.
    pub fn match_ref_ctx<'a, I, U, F: FnOnce(I, &'a T) -> U, G: FnOnce(I, &'a E) -> U>(
        &'a self,
        ctx: I,
        ok: F,
        err: G,
    ) -> U
        requires ok_callable { ForOk (core_result self.now) (TakesWith F.FnOnce ok ctx) }
        requires err_callable { ForErr (core_result self.now) (TakesWith G.FnOnce err ctx) }
        ensures { MatchResult (core_result self.now)
            (λ x. ReturnsWith F.FnOnce ok ctx x result)
            (λ e. ReturnsWith G.FnOnce err ctx e result) }
    {
        match self {
            Result::Ok(x) => ok(ctx, x),
            Result::Err(e) => err(ctx, e),
        }
    }

    /// As `match_owned`; the closure gets `ctx` first.
    pub fn match_owned_ctx<I, U, F: FnOnce(I, T) -> U, G: FnOnce(I, E) -> U>(
        self,
        ctx: I,
        ok: F,
        err: G,
    ) -> U
        requires ok_callable { ForOk (core_result self) (F.pre ok ctx) }
        requires err_callable { ForErr (core_result self) (G.pre err ctx) }
        ensures { MatchResult (core_result self)
            (λ x. F.post ok ctx x result)
            (λ e. G.post err ctx e result) }
    {
        match self {
            Result::Ok(x) => ok(ctx, x),
            Result::Err(e) => err(ctx, e),
        }
    }

    /// As `match_mut`; the closure gets `ctx` first.
    pub fn match_mut_ctx<I, U, F: FnOnce(I, &mut T) -> U, G: FnOnce(I, &mut E) -> U>(
        &mut self,
        ctx: I,
        ok: F,
        err: G,
    ) -> U
        requires ok_callable { ForOk (core_result self.old) (TakesWithMut F.FnOnce ok ctx) }
        requires err_callable { ForErr (core_result self.old) (TakesWithMut G.FnOnce err ctx) }
        ensures { MatchResult (core_result self.old)
            (λ x. IsOkAnd (core_result self.new) (ReturnsWithMut F.FnOnce ok ctx x result))
            (λ e. IsErrAnd (core_result self.new) (ReturnsWithMut G.FnOnce err ctx e result)) }
    {
        match self {
            Result::Ok(x) => ok(ctx, x),
            Result::Err(e) => err(ctx, e),
        }
    }

    /// `Ok` of what `f` answers for the contents of `Ok`; an `Err` as it is.
    pub fn map<U: IStable, F: FnOnce(T) -> U>(self, f: F) -> Result<U, E>
        requires { ForOk (core_result self) (F.pre f) }
        ensures { MatchResult (core_result self)
            (λ x. IsOkAnd (core_result result) (F.post f x))
            (λ e. core_result result ≡ Err e) }
    {
        match self {
            Result::Ok(x) => Result::Ok(f(x)),
            Result::Err(e) => Result::Err(e),
        }
    }

    /// What `f` answers for the contents of `Ok`; an `Err` as it is.
    pub fn and_then<U: IStable, F: FnOnce(T) -> Result<U, E>>(self, f: F) -> Result<U, E>
        requires { ForOk (core_result self) (F.pre f) }
        ensures { MatchResult (core_result self)
            (λ x. F.post f x result)
            (λ e. core_result result ≡ Err e) }
    {
        match self {
            Result::Ok(x) => f(x),
            Result::Err(e) => Result::Err(e),
        }
    }

    /// The contents of `Ok`, or what `f` answers for those of `Err`.
    pub fn unwrap_or_else<F: FnOnce(E) -> T>(self, f: F) -> T
        requires { ForErr (core_result self) (F.pre f) }
        ensures { MatchResult (core_result self) (λ x. result ≡ x) (λ e. F.post f e result) }
    {
        match self {
            Result::Ok(x) => x,
            Result::Err(e) => f(e),
        }
    }

    /// The contents of `Err`, or what `f` answers for those of `Ok`.
    pub fn unwrap_err_or_else<F: FnOnce(T) -> E>(self, f: F) -> E
        requires { ForOk (core_result self) (F.pre f) }
        ensures { MatchResult (core_result self) (λ x. F.post f x result) (λ e. result ≡ e) }
    {
        match self {
            Result::Ok(x) => f(x),
            Result::Err(e) => e,
        }
    }
}
