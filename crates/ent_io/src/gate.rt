//! Points that threads pass, so that a test can hold them there.

/// Receives each point that a thread reaches, and may hold the thread there. No result depends on it.
///
/// The worker `w` reaches point `w`, from 0 to 63, before it first draws in a phase. A background builder reaches
/// 100 before it builds, and the main thread 101 before a phase. The worker that drew item `k` of a phase reaches
/// 1,000 + `k` before the item's first row.
pub trait Gate: Sync {
    fn reach(&self, point: u64);
}

/// Holds no thread.
#[derive(Clone, Copy, Debug, Default)]
pub struct NoGate;

impl Gate for NoGate {
    fn reach(&self, _point: u64) {}
}
