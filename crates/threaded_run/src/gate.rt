//! What is called behind each put of a run.
//! A test can hold a run there, to look at what the writer does meanwhile.

/// What is called behind each put of a run. It changes nothing that a run makes.
pub trait Gate {
    /// Called behind a put, with the number of puts of the run so far, this one among them.
    fn passed(&self, puts: u64);
}

/// Does nothing behind a put.
#[derive(Drop)]
pub struct NoGate;

impl Gate for NoGate {
    fn passed(&self, _puts: u64) {}
}
