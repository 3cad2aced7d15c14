//! The token ring, the owner of each token, and lists of token ranges.
#![tactic(auto)]

mod bounds;
mod chosen_ranges;
mod common;
pub mod range_book;
pub mod range_list;
pub mod ring;

pub use cluster_terms::TokenRange;
pub use range_book::{LockRow, LockRows, RangeBook, RangeRow};
pub use range_list::RangeList;
pub use ring::Ring;
