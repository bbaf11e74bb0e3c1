//! The outside of the program: files to read, streams to read and to write, clocks, and wires to another
//! program.
//!
//! A trait says what the program relies on. An object of the outside keeps a count of its faults, which
//! never falls, and answers a fault only where that count rose in the call, or stands at the last value of a
//! `u64`. What it holds is told by the forms in memory, and not by the files and streams of the system.
#![tactic(auto)]

mod clock;
mod failures;
mod files;
mod firm;
mod mem_wire;
mod pieces;
pub mod sharing;
mod sink;
mod source;
mod std_files;
mod std_sink;
mod std_source;
mod system_clock;
mod tcp_wire;
mod wire;

pub use clock::{Clock, ListClock};
pub use failures::Failures;
pub use files::{FileFault, Files, MemFile, MemFiles};
pub use firm::{FirmSink, FirmSource, FirmWire};
pub use mem_wire::{MemWire, WireDial};
pub use pieces::Cut;
pub use sink::{MemSink, Sink, WriteFault, write_whole};
pub use source::{MemSource, ReadFault, Source};
pub use std_files::StdFiles;
pub use std_sink::StdSink;
pub use std_source::StdSource;
pub use system_clock::SystemClock;
pub use tcp_wire::{TRANSFER_SECONDS, TcpWire};
pub use wire::{DialFault, Wire, WireFault};
