//! What a guest's thread calls around its sends and verdicts.

/// Called in the threads of [`run`](crate::run), which share it. It returns nothing and allocates no memory.
///
/// A gate may hold a thread up, so that a test can make the guests meet or know how much is to come. No contract says
/// what a gate does.
pub trait Gate {
    /// Called before the first thread is started, on the calling thread, with the number of requests that will be served,
    /// closes included.
    fn starting(&self, _requests: u64) {}

    /// Called before the guest's send number `nth`, counted from 0, its close included. It is called once for each send,
    /// however often the send is tried.
    fn before(&self, guest: u8, nth: u32);

    /// Called after the guest received its verdict number `nth`, counted from 0.
    fn after(&self, guest: u8, nth: u32);
}

/// The gate that returns at once.
#[derive(Clone, Copy, Debug, PartialEq, Eq)]
pub struct OpenGate;

impl Gate for OpenGate {
    fn before(&self, _guest: u8, _nth: u32) {}

    fn after(&self, _guest: u8, _nth: u32) {}
}
