//! Texts to exercise the accounts with: a schema, a client file and a script of as many requests as
//! one asks for.
#![tactic(auto)]

ghost use Rattle.std.specs.Prelude.{◌≡◌, IfOk, string_bytes};
ghost use Rattle.cost_vectors.specs.Texts.{schema_text, clients_text};
ghost use Rattle.cost_vectors.specs.Script.{script_text};

mod lines;
mod script;
mod texts;

use script::script;
use std::alloc::{AllocError, Global};
pub use texts::Generated;

const SCHEMA: &str =
    "type Query { top(first: Int = 2): [T] @listSize(slicingArguments: [\"first\"]) } type T { id: ID! next: T }";

const CLIENTS: &str = "clients 1\nwindow 60\nc 20.000 20.000\n";

/// The texts of a replay of so many requests, all of one client.
///
/// The requests are numbered from 0 and begun in their order, each at the second that is its number. They ask for 0 to 6
/// things in turn, and the replies have 0 to 2 things in turn, but no more than were asked for. Behind each odd request the one
/// before it and itself are ended, so that two are open at a time. If the last request is even, its end stands last.
///
/// Each line ends with a line feed. With no requests the script is empty. It fails for want of memory alone.
pub fn generated(alloc: Global, requests: u32) -> Result<Generated, AllocError>
    ensures schema { IfOk result (λ texts. string_bytes texts.schema ≡ schema_text) }
    ensures clients { IfOk result (λ texts. string_bytes texts.clients ≡ clients_text) }
    ensures script { IfOk result (λ texts. string_bytes texts.script ≡ script_text requests) }
{
    Ok(Generated {
        schema: String::from_str(alloc, SCHEMA)?,
        clients: String::from_str(alloc, CLIENTS)?,
        script: script(alloc, requests)?,
    })
}
