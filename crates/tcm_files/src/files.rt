//! Runs over files, each over objects in memory.

mod bad_images;
mod bad_lines;
mod faults;
mod generated;
mod moving;
mod replays;
mod snapshots;
mod stops;
mod words;
