//! Why a checkpoint wasn't made.
use thiserror::Error;

/// Why a checkpoint wasn't made.
#[derive(Clone, Copy, Debug, PartialEq, Eq, Error)]
pub enum CheckpointStop {
    /// 1: a disk failed.
    #[error("disk fault")]
    DiskFault,
    /// 2: want of memory. No device was called.
    #[error("want of memory")]
    Memory,
}
