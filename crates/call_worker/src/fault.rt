//! Why an office doesn't start, or doesn't give an input to a worker.
use rsl_messages::RslFault;
use thiserror::Error;

/// Why an office doesn't start. All workers that were started have ended.
#[derive(Clone, Copy, Debug, PartialEq, Eq, Error)]
pub enum StartFault {
    /// The system has no thread for a worker.
    #[error("no thread can be started")]
    Thread,
    /// Memory was refused.
    #[error("memory was refused")]
    NoMemory,
}

/// Why an input isn't given to a worker. No worker was sent anything.
#[derive(Clone, Copy, Debug, PartialEq, Eq, Error)]
pub enum GiveFault {
    /// The octets are no message on Abis. Nothing was asked of the desk.
    #[error("the message on Abis can't be read: {0}")]
    Undecoded(RslFault),
    /// Memory was refused. What the office asked of the desk for this input stands.
    #[error("memory was refused")]
    NoMemory,
    /// The inbox of this worker (counted from 0) handed the input back: the worker has ended. What the office asked of the
    /// desk for this input stands.
    #[error("worker {0} has ended")]
    Ended(usize),
}
