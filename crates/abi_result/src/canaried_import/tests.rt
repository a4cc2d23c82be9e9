use super::*;

/// A canary in memory, which counts its calls.
#[derive(Drop)]
struct MemCanary {
    calls: u64,
}

impl Canary for MemCanary {
    ghost calls = { λ c. c.calls };

    fn call(&mut self) {
        self.calls = self.calls.saturating_add(1);
    }
}

#[test]
fn a_canary_is_called_once_over_three_uses(rt: HostRuntime) {
    let mut import = CanariedImport::new(7u32, MemCanary { calls: 0 });
    assert_eq!(rt; import.canary.calls, 0);
    for _ in 0..3 {
        assert_eq!(rt; *import.get(), 7);
        assert_eq!(rt; import.canary.calls, 1);
    }
}
