//! Progress while traces are read.

use crate::sum::Sum;

/// An observer of progress while traces are read.
pub trait Watch {
    /// Called before a trace is read, with the number of its octets if that is known.
    fn begin(&mut self, octets: Option<u64>);

    /// Called when this many octets of a trace were read.
    fn read(&mut self, octets: usize);

    /// Called when some octets were read or a dialogue was judged, with the sum so far and the number of dialogues of
    /// the trace that are not judged yet.
    fn look(&mut self, sum: &Sum, waiting: usize);
}

/// An observer that ignores all progress.
#[derive(Drop)]
pub struct NoWatch;

impl Watch for NoWatch {
    fn begin(&mut self, _octets: Option<u64>) {}

    fn read(&mut self, _octets: usize) {}

    fn look(&mut self, _sum: &Sum, _waiting: usize) {}
}
