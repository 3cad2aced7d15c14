//! Input, output and persistent files: sources of bytes, sinks for bytes, and stores of files.
#![tactic(auto)]

pub mod calls;
pub mod fault;
pub mod file_store;
pub mod input_source;
pub mod mem_sink;
pub mod mem_source;
pub mod mem_store;
pub mod output_sink;
pub mod sink;
pub mod source;
pub mod store;
pub mod store_fail;
mod stored_file;
pub mod sure_sink;
pub mod sure_source;
pub mod sure_store;
mod text;

pub use calls::CallList;
pub use fault::{Failed, LoadFault, WriteFault};
pub use file_store::FileStore;
pub use input_source::InputSource;
pub use mem_sink::MemSink;
pub use mem_source::MemSource;
pub use mem_store::MemStore;
pub use output_sink::OutputSink;
pub use sink::{Sink, write_all};
pub use source::Source;
pub use store::{Loaded, Store};
pub use store_fail::{StoreFail, StoreFailList};
pub use sure_sink::SureSink;
pub use sure_source::SureSource;
pub use sure_store::SureStore;
