// What a pool tells of its workers.

/// A moment of a worker.
#[derive(Clone, Copy, PartialEq, Eq, Debug)]
pub enum GateEvent {
    /// A turn is about to begin.
    Turn,
    /// A record was opened.
    Opened,
    /// A child was claimed.
    Claimed,
}

/// Hears of each worker's moments as they come, from the worker's own thread, which waits
/// meanwhile.
/// It means nothing to the run.
pub trait Gate {
    /// A moment of the worker with this number.
    fn at(&self, worker: u32, event: GateEvent);
}

/// A gate that hears nothing.
pub struct NoGate;

impl Gate for NoGate {
    fn at(&self, worker: u32, event: GateEvent) {
        let _ = worker;
        let _ = event;
    }
}
