/// A read or a write failed. The count of faults of the source or the sink rose, or stands at its last value.
#[derive(Debug, Clone, Copy, PartialEq, Eq)]
pub struct Failed;
