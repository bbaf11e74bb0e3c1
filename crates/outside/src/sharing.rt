//! What threads may hand each other and share.

use crate::{
    Failures, FirmSink, FirmSource, FirmWire, ListClock, MemFiles, MemSink, MemSource, MemWire,
    StdSink, StdSource,
};
use std::io::{Read, Write};

/// The forms in memory may be shared by threads.
pub fn forms_are_shared() {
    is_shared::<Failures>();
    is_shared::<MemFiles>();
    is_shared::<MemSink>();
    is_shared::<MemSource>();
    is_shared::<MemWire>();
    is_shared::<ListClock>();
    is_shared::<FirmSource>();
    is_shared::<FirmSink>();
    is_shared::<FirmWire>();
}

/// A source over a reader may be shared by threads where the reader may be.
pub fn sources_are_shared<R: Read + Drop + Send + Sync>() {
    is_shared::<StdSource<R>>();
}

/// A sink over a writer may be shared by threads where the writer may be.
pub fn sinks_are_shared<W: Write + Drop + Send + Sync>() {
    is_shared::<StdSink<W>>();
}

fn is_shared<T: Send + Sync>() {}
