//! Bytes in and out: a source and a sink that count their faults, reading all and writing all.
//!
//! A trait's contract is one record over the state before and after a call. What a source has left and what a
//! sink was given is told by those over memory and not by those over streams, so each is an `Option`.
//!
//! `MemSource` and `MemSink` fail exactly at the calls that they are given. `StdSource` and `StdSink` are the
//! trusted edge: what a terminal, a pipe or a file gave or got is not known.
#![tactic(auto)]

mod mem_sink;
mod mem_source;
mod reading;
mod sink;
mod source;
mod std_sink;
mod std_source;
mod writing;

pub use mem_sink::MemSink;
pub use mem_source::MemSource;
pub use reading::{MOST_BYTES, ReadRefusal, read_all};
pub use sink::{Sink, WriteFault};
pub use source::{ReadFault, Source};
pub use std_sink::StdSink;
pub use std_source::StdSource;
pub use writing::write_all;
