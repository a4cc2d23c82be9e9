use std::hash::{DefaultHasher, Hash, Hasher};

/// What a hasher makes of the value alone.
pub(crate) fn hash_of<T: Hash>(value: &T) -> u64 {
    let mut state = DefaultHasher::new();
    value.hash(&mut state);
    state.finish()
}
