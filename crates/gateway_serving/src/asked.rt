//! What is asked of serving.

/// Where doors listen, where their wires lead to, and how much is served.
#[derive(Clone, Copy, Debug)]
pub struct Serving<'a> {
    /// The address at which clients call, `HOST:PORT`.
    pub listen: &'a str,
    /// The address of the upstream, `HOST:PORT`.
    pub upstream: &'a str,
    /// How many doors there are, each with a worker of its own.
    pub workers: u32,
    /// How many connections each door gives.
    pub connections: u32,
}
