//! The texts of what is wrong with a reply.

ghost use Rattle.std.specs.Prelude.{◌≡◌, ◌++◌, ◌∷◌, IfOk, codes, string_bytes};
ghost use Rattle.std.specs.Fmt.{decimal};
ghost use Rattle.response_meter.specs.Faults.{why_name};
ghost use Rattle.operation_commands.specs.ReplyTexts.{meter_text};
ghost use Rattle.command_outcomes.specs.Texts.{too_large_text};
ghost use Rattle.command_outcomes.specs.Outcomes.{IsRefusedAs, IsFaultyAs};

use command_outcomes::{NOT_RESPONSE, Outcome, SIZE_BROKEN, refused_naming};
use gql_base::Text;
use response_meter::{MeterFault, Why, why_name};
use std::alloc::{AllocError, Global};

// The text of a reply that is no response.
fn not_response_text(alloc: Global, path: &Text, why: Why) -> Result<String, AllocError>
    ensures { IfOk result (λ text. string_bytes text ≡ codes "meter 1 NotResponse " ++ path.now ++ (32 ∷ why_name why)) }
{
    let path = path.as_str();
    let name = why_name(why);
    format!(in alloc; "meter 1 NotResponse {path} {name}")
}

// A declared size and the length of a list.
fn size_and_length(alloc: Global, size: u64, length: u64) -> Result<String, AllocError>
    ensures { IfOk result (λ text. string_bytes text ≡ decimal size ++ (32 ∷ decimal length)) }
{
    format!(in alloc; "{size} {length}")
}

// The text of a reply with a list that is longer than its declared size.
fn size_broken_text(
    alloc: Global,
    path: &Text,
    size: u64,
    length: u64,
) -> Result<String, AllocError>
    ensures { IfOk result (λ text. string_bytes text ≡ codes "meter 2 SizeBroken " ++ path.now ++ (32 ∷ (decimal size ++ (32 ∷ decimal length)))) }
{
    let path = path.as_str();
    let numbers = size_and_length(alloc, size, length)?;
    let numbers = numbers.as_str();
    format!(in alloc; "meter 2 SizeBroken {path} {numbers}")
}

/// The outcome of a reply that is no response.
pub fn no_response(alloc: Global, path: Text, why: Why) -> Outcome
    ensures { IsFaultyAs NOT_RESPONSE (meter_text (MeterFault.NotResponse path why)) result }
{
    match not_response_text(alloc, &path, why) {
        Ok(text) => Outcome::Faulty {
            status: NOT_RESPONSE,
            text: Text::from(text),
        },
        Err(_) => Outcome::Memory,
    }
}

/// The outcome of a list that is longer than its declared size.
pub fn size_broken(alloc: Global, path: Text, size: u64, length: u64) -> Outcome
    ensures { IsFaultyAs SIZE_BROKEN (meter_text (MeterFault.SizeBroken path size length)) result }
{
    match size_broken_text(alloc, &path, size, length) {
        Ok(text) => Outcome::Faulty {
            status: SIZE_BROKEN,
            text: Text::from(text),
        },
        Err(_) => Outcome::Memory,
    }
}

/// The outcome of a reply file that is longer than its limit.
pub fn too_large(alloc: Global, name: &Text) -> Outcome
    ensures { IsRefusedAs (too_large_text name.now) result }
{
    refused_naming(alloc, "input 1 TooLarge", name)
}
