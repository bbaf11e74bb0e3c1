//! What threads may hand each other and share.

use crate::{Conn, GateSink, GateWire, MemDoor, MemDoors, StartWords, TcpDoor, TcpDoors, Twins};
use outside::{ListClock, MemSink, MemSource, MemWire};
use std::net::{Net, TcpListener, TcpStream};
use std::rt;

/// Doors in memory, their connections, and the forms that wait for each other may be shared by threads.
pub fn forms_are_shared() {
    is_shared::<Conn<MemSource, MemSink, MemWire, ListClock>>();
    is_shared::<Twins<MemSource, MemSink, MemWire, ListClock>>();
    is_shared::<MemDoor<MemSource, MemSink, MemWire, ListClock>>();
    is_shared::<MemDoors<MemSource, MemSink, MemWire, ListClock>>();
    is_shared::<StartWords>();
    is_shared::<GateWire>();
    is_shared::<GateSink>();
}

/// Doors over TCP may be shared by threads where what reaches the network may be.
pub fn tcp_doors_are_shared<
    R: Net<Listener = TcpListener, Stream = TcpStream>
        + rt::Clock
        + rt::Files
        + Clone
        + Drop
        + Send
        + Sync,
>() {
    is_shared::<TcpDoor<R>>();
    is_shared::<TcpDoors<R>>();
}

fn is_shared<T: Send + Sync>() {}
