//! The ground of `vf`: texts, places, refusal rules, C's integer types, and the outside world.
//!
//! Contracts see a [`Text`] as the list of its bytes and a [`Sequence`] as the list of its items.
//! The traits [`Files`] and [`Sink`] say what may be known of files and of what is written.
//!
//! Each call of the files in memory gives what the map has, and fails on the calls that were named; `write_all` gives
//! a sink all bytes or a front. On the host the contracts see counts of failures alone.
#![tactic(auto)]

mod decimal;
mod file_table;
mod files;
mod host;
mod int_type;
mod memory;
mod memory_files;
mod memory_sink;
mod place;
mod refusal;
mod rule;
mod sequence;
mod sink;
mod sure;
mod text;

pub use decimal::{decimal_front, one_decimal_front};
pub use files::{FileFault, Files, PutFault};
pub use host::{HostFiles, HostSink};
pub use int_type::IntType;
pub use memory::Memory;
pub use memory_files::MemoryFiles;
pub use memory_sink::MemorySink;
pub use place::Place;
pub use refusal::{Refusal, RuleFault, Shown};
pub use rule::Rule;
pub use sequence::{NumberList, Sequence};
pub use sink::{Sink, SinkFault, write_all};
pub use sure::{SureFiles, SureSink};
pub use text::Text;
