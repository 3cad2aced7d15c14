//! Tokens, nodes, names, replications, and the definition of where a ring places replicas.
#![tactic(auto)]

pub mod ascending;
pub mod factors;
pub mod few;
pub mod list;
pub mod memory;
pub mod name;
pub mod node;
pub mod replication;
pub mod replication_text;
pub mod rf;
pub mod ring_row;
pub mod room;
pub mod row;
pub mod steps;
pub mod token;
pub mod validity;

pub use ascending::{Ordered, merged, position_of, put_in_order};
pub use factors::Factors;
pub use few::Few;
pub use list::{ByteText, PairList, SmallList, TokenList, TryCopy};
pub use memory::Memory;
pub use name::Name;
pub use node::{NodeId, NodeRow, NodeRows};
pub use replication::Replication;
pub use rf::Rf;
pub use ring_row::{RingRow, row_index, row_index_by_hint};
pub use room::Room;
pub use row::{Rows, TokenRange, rows_between};
pub use steps::Steps;
pub use token::{Pair, RightEnd, Token};
