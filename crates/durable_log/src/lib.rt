//! A store of files on a disk that may stop at any moment.
#![tactic(auto)]

mod adding;
pub mod disk;
mod disk_calls;
pub mod durable_store;
pub mod file_disk;
mod loading;
pub mod mem_disk;
mod mem_disk_calls;
mod put_down;
mod record_log;
mod scan;
mod settling;

pub use disk::Disk;
pub use durable_store::DurableStore;
pub use file_disk::FileDisk;
pub use mem_disk::MemDisk;
