//! The metadata of a cluster: the image, and the movements in flight, each as a value of its phase.
#![tactic(auto)]

mod admit_fault;
mod applying;
mod changes;
mod image_fault;
mod image_numbers;
mod metadata;
mod metadata_parts;
mod movements;
mod on_heap;
mod permit;

pub use admit_fault::AdmitFault;
pub use changes::next_image::{advance, empty_image};
pub use image_fault::ImageFault;
pub use metadata::Metadata;
pub use on_heap::OnHeap;
pub use permit::Permit;
