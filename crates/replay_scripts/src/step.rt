//! Steps of a replay.

/// The greatest length of the id of a request, in characters.
pub const ID_LIMIT: usize = 16;

/// How many lines a script may have.
pub const LINE_LIMIT: usize = 10_000;

/// What the upstream made of a request.
#[derive(Debug, Clone, Copy)]
pub enum Returned<'a> {
    /// It replied with status 200 and this body.
    Reply(&'a str),
    /// Nobody answered the dial.
    Down,
    /// The transfer failed.
    Failed,
}

/// A step of a replay. Its texts stand in the text of the script.
#[derive(Debug, Clone, Copy)]
pub enum Step<'a> {
    /// A client's request comes in.
    Begin {
        /// What later steps name the request by.
        id: &'a str,
        /// The client's key.
        key: &'a str,
        /// The second at which it comes.
        moment: u64,
        /// The body of the request.
        body: &'a str,
    },
    /// A request that began before is over.
    End {
        /// What the request was named by.
        id: &'a str,
        /// What the upstream made of it.
        returned: Returned<'a>,
    },
}

/// What a script says.
#[derive(Debug, Drop)]
pub struct Script<'a> {
    /// The steps, one for each line.
    pub steps: Vec<Step<'a>>,
}
