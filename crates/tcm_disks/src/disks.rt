//! Runs over disks, each over objects in memory, and the disk in a file of the operating system.

mod rows;
mod running;
mod stops;
mod system;
