//! How connections end.

ghost use Rattle.std.specs.Prelude.{◌≡◌, ◌≢◌, ◌+◌, ◌<◌, ◌||◌, ◌==◌, ℕ, None};
ghost use Rattle.gateway_connections.specs.declared.ending.ConnectionEnd.TheVariants as ending;
ghost use Rattle.gateway_connections.specs.Connections.{EndsAfter, EndIs, at_fault};

use http_front::FrontFault;

/// Why a connection is served no further. Where several hold, it is the first of `WriteFault`, `Memory`, `Limit` and `Closed`.
#[derive(Clone, Copy, Debug, PartialEq, Eq)]
pub enum ConnectionEnd {
    /// The source ended between two requests, or the last reply carried `close`.
    Closed,
    /// The source failed before a whole request.
    ReadFault,
    /// The sink failed before the last reply was written.
    WriteFault,
    /// A thousand requests were replied to.
    Limit,
    /// Memory was wanting.
    Memory,
    /// The accounts were lost, and the last request has no reply. No connection over the gate's own cells ends so.
    Lost,
}

impl ConnectionEnd {
    ghost use Rattle.gateway_connections.specs.Connections.{end_number};

    /// The number under which it is told.
    pub fn number(self) -> u8
        ensures { result ≡ end_number self }
    {
        match self {
            ConnectionEnd::Closed => 1,
            ConnectionEnd::ReadFault => 2,
            ConnectionEnd::WriteFault => 3,
            ConnectionEnd::Limit => 4,
            ConnectionEnd::Memory => 5,
            ConnectionEnd::Lost => 6,
        }
    }
}

/// What came of a connection.
#[derive(Clone, Copy, Debug, PartialEq, Eq)]
pub struct Served {
    pub end: ConnectionEnd,
    /// How many replies were written whole.
    pub replies: u32,
}

/// How many requests a connection has at most.
pub const EXCHANGE_LIMIT: u32 = 1000;

/// Whether the reply behind so many carries `close`: where the request asks for that, where it is the thousandth, and where
/// memory was wanting.
pub(crate) fn carries_close(close: bool, number: u32, status: u16) -> bool
    requires { number < 1000 }
    ensures { result ≡ (close || ((number + 1 == 1000) || (status == 500))) }
{
    close || number + 1 == EXCHANGE_LIMIT || status == 500
}

/// The end after the last reply, behind so many.
pub(crate) fn end_after(status: u16, number: u32) -> ConnectionEnd
    requires { number < 1000 }
    ensures { EndsAfter number status result }
{
    if status == 500 {
        ConnectionEnd::Memory
    } else if number + 1 == EXCHANGE_LIMIT {
        ConnectionEnd::Limit
    } else {
        ConnectionEnd::Closed
    }
}

/// The end where the next request has a fault that isn't replied to.
pub(crate) fn end_of_silence(fault: FrontFault) -> ConnectionEnd
    ensures end { (number : ℕ) → EndIs number (at_fault fault None) result }
    ensures written { result ≢ ending.WriteFault }
{
    match fault {
        FrontFault::ReadFault => ConnectionEnd::ReadFault,
        _ => ConnectionEnd::Closed,
    }
}
