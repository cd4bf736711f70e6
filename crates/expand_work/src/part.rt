//! One worker's part of a wave, which it has when it ends.

use crate::WorkerMemory;
use lane_queue::Port;

/// What a worker has at its end: its port, and the memory that it has filled, in which requests are in the order of
/// their admission and noted places in the order in which the requests were taken.
#[derive(Drop)]
pub struct Part {
    pub port: Port,
    pub space: WorkerMemory,
}
