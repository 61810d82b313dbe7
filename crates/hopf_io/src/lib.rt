//! Bytes in and bytes out: sources and sinks, each with a count of its faults.
//!
//! A source or a sink tells what contracts may know of it: the bytes that are left or were taken,
//! and whether it is steady. The memory forms tell all of it, the standard streams nothing. A call
//! answers [`Failed`] only where the count of faults rose, so a fault of the program's own making
//! can't pass for one of the outside.
#![tactic(auto)]

mod bytes;
mod calls;
mod memory_sink;
mod memory_source;
mod sink;
mod source;
mod standard;

pub use bytes::Bytes;
pub use calls::Calls;
pub use memory_sink::MemorySink;
pub use memory_source::MemorySource;
pub use sink::{Sink, send_all};
pub use source::{Failed, Source};
pub use standard::{StdSink, StdSource};
