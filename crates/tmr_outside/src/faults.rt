//! Why a call on the outside fails.

use thiserror::Error;

/// Why a load gives no bytes.
#[derive(Clone, Copy, Debug, PartialEq, Eq, Error)]
pub enum LoadFault {
    /// The file is not there, or could not be read.
    #[error("the file could not be loaded")]
    Failed,
    /// The file has more bytes than the limit.
    #[error("the file is too long")]
    TooLong,
    /// There was no room.
    #[error("out of memory")]
    Memory,
}

/// Why a save did not go through.
#[derive(Clone, Copy, Debug, PartialEq, Eq, Error)]
pub enum SaveFault {
    /// The file could not be written. What it holds now is open.
    #[error("the file could not be saved")]
    Failed,
    /// There was no room. All files are as before.
    #[error("out of memory")]
    Memory,
}

/// Why a text did not go out.
#[derive(Clone, Copy, Debug, PartialEq, Eq, Error)]
pub enum PutFault {
    /// The text could not be written. A prefix of it may have gone out.
    #[error("the text could not be written")]
    Failed,
    /// There was no room. Nothing went out.
    #[error("out of memory")]
    Memory,
}
