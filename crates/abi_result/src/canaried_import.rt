use crate::canary::Canary;

#[cfg(test)]
mod tests;

/// An import whose canary is called once, when it is first used.
#[derive(Drop)]
pub struct CanariedImport<F, C> {
    source: F,
    canary: C,
    is_called: bool,
}

impl<F, C: Canary> CanariedImport<F, C> {
    ghost use Rattle.std.specs.Prelude.{◌≡◌, false};
    ghost use Rattle.std.specs.Borrow.{sem};
    ghost use Rattle.abi_result.specs.contracts.canaried_import.CanariedImport.{the_row};
    ghost use Rattle.abi_result.specs.Imports.{Called, Leaves};

    /// An import of this source, whose canary was not called yet.
    pub fn new(source: F, canary: C) -> CanariedImport<F, C>
        ensures { result ≡ record { source = source; canary = canary; is_called = false } }
    {
        CanariedImport {
            source,
            canary,
            is_called: false,
        }
    }

    /// The source. The first call calls the canary, and no later one.
    pub fn get(&mut self) -> &F
        ensures* after { sem 𝓛 (Leaves (the_row F.row C.row) self.entry (Called C.calls self.old)) }
        ensures source { result.now ≡ self.old.source }
    {
        self.call();
        &self.source
    }

    fn call(&mut self)
        ensures { Called C.calls self.old self.new }
    {
        if !self.is_called {
            self.canary.call();
            self.is_called = true;
        }
    }
}
