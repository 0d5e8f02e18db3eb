//! Where bytes come from and where they go: a source that is read by name, and a sink.
//!
//! Both count their failures, so that a caller can say in a contract that it reports a fault only
//! where there was one. And both keep a record of what they answered, `Reading` and `Writing`, which
//! only contracts and proofs read. So a contract can speak of the bytes that were handed out or
//! taken, whoever the source or the sink is, though nothing tells what a file of the system holds.
//!
//! `read_all` and `write_all` read and write the whole. `MemSource` and `MemSink` are kept in memory
//! and fail at chosen calls; `FileSource` and `StdSink` are the system's files and standard streams.
#![tactic(auto)]

mod errors;
mod host;
mod mem_sink;
mod mem_source;
mod record;
mod sink;
mod source;
mod whole;

pub use errors::{Failed, OutOfMemory, ReadAll, WriteFault};
pub use host::{FileSource, StdSink};
pub use mem_sink::MemSink;
pub use mem_source::MemSource;
pub use record::{Reading, Writing};
pub use sink::Sink;
pub use source::Source;
pub use whole::{read_all, write_all};
