//! The commands.

use cost_num::Cost;
use gql_base::Text;
use response_model::Part;
use std::alloc::AllocError;
use thiserror::Error;

/// The size of lists that declare none, where no other is given.
pub const UNDECLARED: u32 = 10;
/// The greatest size that may be given for such lists.
pub const GREATEST_UNSIZED: u32 = 1_000_000;
/// How many requests an exercise may have.
pub const GREATEST_EXERCISE: u32 = 5_000;
/// The target of requests to the upstream, where no other is given.
pub const TARGET: &str = "/graphql";
/// How many workers serve side by side, where no other number is given.
pub const WORKERS: u32 = 4;
/// How many workers may serve side by side.
pub const GREATEST_WORKERS: u32 = 16;
/// How many connections a worker may serve, and how many it serves where no other number is given.
pub const GREATEST_CONNECTIONS: u32 = 1_000_000;
/// How many connections a worker serves where there is to be no end.
pub const ENDLESS_CONNECTIONS: u32 = 4_294_967_295;
/// How many clients may wait for their next turn.
pub const GREATEST_WAITING: u32 = 1_000_000;
/// How many bytes may be given as the most that an answer about the schema has.
pub const GREATEST_ANSWER: u32 = 1_000_000_000;
/// How few steps may be given as the most that an operation may take.
pub const LEAST_WORK: u32 = 1_000;
/// How many steps may be given as the most that an operation may take.
pub const GREATEST_WORK: u32 = 1_000_000_000;
/// How many names of fields to pass on may be given.
pub const GREATEST_PASSED: usize = 16;

/// An operation, by the names of its files and by how it is asked for.
#[derive(Drop)]
pub struct Asked {
    pub schema: Text,
    pub document: Text,
    /// The file of the values that are given for its variables.
    pub variables: Option<Text>,
    /// The name of the operation in its document.
    pub operation: Option<Text>,
    /// The size of lists that declare none.
    pub undeclared: u32,
    /// How many steps an operation may take, where that is said.
    pub most_work: Option<u32>,
}

/// An audit of documents, by the names of their files.
#[derive(Drop)]
pub struct AskedAudit {
    pub schema: Text,
    /// The files of the documents, in the order in which they are told.
    pub documents: Vec<Text>,
    /// What an operation may cost at most in each part, where that is said.
    pub most: Option<Cost>,
    /// The size of lists that declare none.
    pub undeclared: u32,
    /// How many steps an operation may take, where that is said.
    pub most_work: Option<u32>,
}

/// A list of trusted documents, by the name of its file.
#[derive(Drop)]
pub struct AskedList {
    pub file: Text,
    /// Whether only its documents may be asked.
    pub only: bool,
}

/// A replay, by the names of its files.
#[derive(Drop)]
pub struct AskedReplay {
    pub schema: Text,
    pub clients: Text,
    /// The file of the requests, and of what becomes of them.
    pub script: Text,
    /// The list of trusted documents, if there is one.
    pub list: Option<AskedList>,
    /// The size of lists that declare none.
    pub undeclared: u32,
    /// How many steps an operation may take, where that is said.
    pub most_work: Option<u32>,
}

/// How a gateway is served.
#[derive(Drop)]
pub struct AskedServe {
    pub schema: Text,
    pub clients: Text,
    /// The address that clients call at, `HOST:PORT`.
    pub listen: Text,
    /// The address of the upstream, `HOST:PORT`.
    pub upstream: Text,
    /// The target of requests to the upstream.
    pub target: Text,
    /// The file of the journal of the clients' accounts, if they are to outlive the program.
    pub journal: Option<Text>,
    /// How many workers serve side by side: one over a journal.
    pub workers: u32,
    /// How many connections each worker serves.
    pub connections: u32,
    /// How many clients may wait for their next turn, where they take turns.
    pub waiting: Option<u32>,
    /// The file whose being there asks for the end.
    pub stop: Option<Text>,
    /// The list of trusted documents, if there is one.
    pub list: Option<AskedList>,
    /// The names of the fields of clients' requests that are passed on.
    pub passed: Vec<Text>,
    /// Whether a client whose account is short is told when it may try again.
    pub hints: bool,
    /// How many bytes an answer about the schema has at most, where that is said.
    pub most_answer: Option<u32>,
    /// The size of lists that declare none.
    pub undeclared: u32,
    /// How many steps an operation may take, where that is said.
    pub most_work: Option<u32>,
}

/// A command, with the names of its files.
#[derive(Drop)]
pub enum Command {
    /// Says how the program is used.
    Help,
    /// Says which version it is.
    Version,
    /// Says how many types and fields a schema has, or which test it doesn't pass.
    Check { schema: Text },
    /// Says what an operation costs at most.
    Price { asked: Asked },
    /// Says node by node why an operation costs what it costs at most, or why it is refused, and where.
    Explain { asked: Asked },
    /// Says what surprises in a schema where lists that declare no size have this one, or why it is refused, and where.
    ExplainSchema { schema: Text, undeclared: u32 },
    /// Says of each operation of documents what it costs at most, or why it is refused.
    Audit { asked: AskedAudit },
    /// Answers an operation from the schema itself, and says what that costs.
    Introspect { asked: Asked },
    /// Writes a response that costs as much as any in this part of the cost.
    Worst { asked: Asked, part: Part },
    /// Writes the request that is sent on for an operation.
    Forward { asked: Asked },
    /// Says what a reply to an operation cost, and what its client is answered.
    Meter { asked: Asked, reply: Text },
    /// Replays a script of requests, and says what becomes of each and of the clients' accounts.
    Replay { asked: AskedReplay },
    /// Serves the clients of a client file over HTTP, in front of an upstream.
    Serve { asked: AskedServe },
    /// Replays a script of its own with so many requests, and sums up what becomes of them.
    Exercise { requests: u32 },
    /// Writes a client file in the newest version of its format.
    Migrate { clients: Text },
}

/// Why words were not read into a command.
#[derive(Clone, Copy, Debug, Drop, PartialEq, Eq, Error)]
pub enum WordsFault {
    /// They are those of no command.
    #[error("the words ask for no command")]
    Usage,
    /// There was no memory.
    #[error("there was no memory for the words")]
    Memory,
}

impl From<AllocError> for WordsFault {
    ghost use Rattle.std.specs.Prelude.{◌≡◌};
    ghost use Rattle.command_words.specs.declared.command.WordsFault.TheVariants.{Memory};

    ghost from_gives = { λ _ fault. fault ≡ Memory };

    fn from(_error: AllocError) -> WordsFault {
        WordsFault::Memory
    }
}
