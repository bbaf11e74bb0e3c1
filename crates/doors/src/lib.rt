//! Doors: what gives the workers of a server their connections, one after the other, and takes them back.
//!
//! A trait says what the server relies on. A door keeps a count of its faults, and it rises only in an `accept` that
//! answers a fault. Which visits a door had, with what the objects of each connection told at its two ends, is told by
//! the doors in memory, and not by those over TCP.
#![tactic(auto)]

mod client;
mod conn;
mod door;
mod ending;
mod entrance;
mod gate_sink;
mod gate_wire;
mod hall;
mod listening;
mod looking;
mod mem_door;
mod mem_doors;
mod room;
pub mod sharing;
mod starting;
mod tcp_door;
mod tcp_doors;

pub use client::{CLIENT_SECONDS, ClientReader, ClientWriter, LINGER_BYTES, LINGER_SECONDS};
pub use conn::{Conn, Tells};
pub use door::{Door, DoorFault};
pub use gate_sink::GateSink;
pub use gate_wire::{GateWire, NONE_WAITS, ONE_WAITS, OTHER_ANSWERED};
pub use hall::{BEGUN_SECONDS, IDLE_SECONDS};
pub use listening::SHORTAGE_MILLISECONDS;
pub use looking::LOOK_BYTES;
pub use mem_door::{MemDoor, MemVisit, Twins};
pub use mem_doors::MemDoors;
pub use starting::{Doors, StartFault, StartWords, StoppedDoor};
pub use tcp_door::{TcpConn, TcpDoor};
pub use tcp_doors::TcpDoors;
