//! A script: requests in their order, and the replies to them.

ghost use Rattle.std.specs.Prelude.{◌≡◌, ◌++◌, IfOk, OnOk, string_bytes};
ghost use Rattle.cost_vectors.specs.Script.{ends_behind, last_end, script_text};

use crate::lines::{write_begin, write_end};
use std::alloc::{AllocError, Global};

/// The ends that stand behind a request.
fn write_ends_behind(number: u32, into: &mut String) -> Result<(), AllocError>
    ensures { OnOk result (string_bytes into.new ≡ string_bytes into.old ++ ends_behind number) }
{
    if number % 2 == 1 {
        write_end(number - 1, into)?;
        write_end(number, into)?;
    }
    Ok(())
}

/// The end of the last request, where it is still open.
fn write_last_end(requests: u32, into: &mut String) -> Result<(), AllocError>
    ensures { OnOk result (string_bytes into.new ≡ string_bytes into.old ++ last_end requests) }
{
    if requests % 2 == 1 {
        write_end(requests - 1, into)?;
    }
    Ok(())
}

/// The script of so many requests.
pub fn script(alloc: Global, requests: u32) -> Result<String, AllocError>
    ensures { IfOk result (λ text. string_bytes text ≡ script_text requests) }
{
    let mut text = String::new(alloc);
    'requests: for number in 0..requests {
        write_begin(number, &mut text)?;
        write_ends_behind(number, &mut text)?;
    }
    write_last_end(requests, &mut text)?;
    Ok(text)
}
