ghost use Rattle.std.specs.Prelude.{◌≤◌, ℕ};
ghost use Rattle.abi_result.specs.Counts.{Rose};

/// What is called once before an import is used.
pub trait Canary {
    /// How often it was called; it never falls.
    ghost calls: { Self → ℕ };

    /// Calls it.
    fn call(&mut self)
        ensures later { calls self.old ≤ calls self.new }
        ensures called { Rose (calls self.old) (calls self.new) };
}
