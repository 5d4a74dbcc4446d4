//! Why a recording is not written.
pub mod write;
