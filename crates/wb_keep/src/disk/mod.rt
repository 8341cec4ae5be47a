//! A file that a log is kept in: what its calls do, and what a crash may leave between them.

mod device;
mod disk_file;
mod memory_file;
mod record;
mod replacing;

pub use device::{Device, DeviceFault};
pub use disk_file::{DiskFile, OpenDiskErr, open_file};
pub use memory_file::MemoryFile;
pub use replacing::{ReplaceErr, Replaces};
