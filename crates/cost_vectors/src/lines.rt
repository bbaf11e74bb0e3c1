//! The lines of a script.

ghost use Rattle.std.specs.Prelude.{◌≡◌, ◌++◌, OnOk, string_bytes};
ghost use Rattle.cost_vectors.specs.Script.{size_of, length_of, request_body, begin_line, things, reply_body, end_line};

use std::alloc::AllocError;

/// How many sizes requests ask for in turn, from 0 on.
const SIZES: u32 = 7;

/// How many lengths replies have in turn, from 0 on.
const LENGTHS: u32 = 3;

/// One thing of a reply.
const THING: &str = "{\"id\":\"x\",\"next\":null}";

/// The size that a request asks for.
fn size_of(number: u32) -> u32
    ensures { result ≡ size_of number }
{
    number % SIZES
}

/// How many things the reply to a request has.
fn length_of(number: u32) -> u32
    ensures { result ≡ length_of number }
{
    size_of(number).min(number % LENGTHS)
}

/// The body of a request.
#[tactic(auto, unfolding(crate::specs::Script::request_body))]
fn write_request(number: u32, into: &mut String) -> Result<(), AllocError>
    ensures { OnOk result (string_bytes into.new ≡ string_bytes into.old ++ request_body number) }
{
    let size = size_of(number);
    write!(
        into,
        r#"{{"query":"{{ top(first: {size}) {{ id next {{ id }} }} }}"}}"#
    )
}

/// The line that begins a request.
#[tactic(auto, unfolding(crate::specs::Script::begin_line))]
pub fn write_begin(number: u32, into: &mut String) -> Result<(), AllocError>
    ensures { OnOk result (string_bytes into.new ≡ string_bytes into.old ++ begin_line number) }
{
    write!(into, "begin i{number} c {number} ")?;
    write_request(number, into)?;
    into.push_str("\n")
}

/// So many things, with commas between them.
fn write_things(count: u32, into: &mut String) -> Result<(), AllocError>
    ensures { OnOk result (string_bytes into.new ≡ string_bytes into.old ++ things count) }
{
    if count == 0 {
        return Ok(());
    }
    into.push_str(THING)?;
    'things: for _thing in 1..count {
        into.push_str(",")?;
        into.push_str(THING)?;
    }
    Ok(())
}

/// The body of the reply to a request.
#[tactic(auto, unfolding(crate::specs::Script::reply_body))]
fn write_reply(number: u32, into: &mut String) -> Result<(), AllocError>
    ensures { OnOk result (string_bytes into.new ≡ string_bytes into.old ++ reply_body number) }
{
    into.push_str(r#"{"data":{"top":["#)?;
    write_things(length_of(number), into)?;
    into.push_str("]}}")
}

/// The line that ends a request.
#[tactic(auto, unfolding(crate::specs::Script::end_line))]
pub fn write_end(number: u32, into: &mut String) -> Result<(), AllocError>
    ensures { OnOk result (string_bytes into.new ≡ string_bytes into.old ++ end_line number) }
{
    write!(into, "end i{number} ")?;
    write_reply(number, into)?;
    into.push_str("\n")
}
