//! A line that is a step.

ghost use Rattle.std.specs.Prelude.{◌≡◌, IfSome, IfNone, codes};
ghost use Rattle.std.specs.Char.{is_ascii_alphanumeric};
ghost use Rattle.std.specs.List.{list_all};
ghost use Rattle.replay_scripts.specs.Steps.{StepData, step_data, returned_word, returned_data, is_id, IsStepLine};
ghost use Rattle.replay_scripts.specs.Words.{IsBodiless, IsSpelled};

use crate::line::first_word;
use crate::moment::moment_in;
use crate::step::{ID_LIMIT, Returned, Step};
use client_files::is_key;

/// The step that a line spells.
pub fn step_in(line: &str) -> Option<Step<'_>>
    ensures some { IfSome result (λ step. IsStepLine line.now (step_data step)) }
    ensures none { IfNone result ((step : StepData) → ¬ (IsStepLine line.now step)) }
{
    let Some((word, rest)) = first_word(line) else {
        return None;
    };
    match word {
        "begin" => begin_in(rest),
        "end" => end_in(rest),
        "down" => lone_end(rest, Returned::Down),
        "fail" => lone_end(rest, Returned::Failed),
        _ => None,
    }
}

/// The step that begins a request with the id, the key, the moment and the body of this text.
fn begin_in(text: &str) -> Option<Step<'_>>
    ensures some { IfSome result (λ step. IsSpelled (codes "begin") text.now (step_data step)) }
    ensures none { IfNone result ((step : StepData) → ¬ (IsSpelled (codes "begin") text.now step)) }
{
    let Some((id, behind_id)) = first_word(text) else {
        return None;
    };
    let Some((key, behind_key)) = first_word(behind_id) else {
        return None;
    };
    let Some((digits, body)) = first_word(behind_key) else {
        return None;
    };
    let Some(moment) = moment_in(digits) else {
        return None;
    };
    if !is_id(id) {
        return None;
    }
    if !is_key(key) {
        return None;
    }
    Some(Step::Begin {
        id,
        key,
        moment,
        body,
    })
}

/// The step that ends a request with the id and the reply of this text.
fn end_in(text: &str) -> Option<Step<'_>>
    ensures some { IfSome result (λ step. IsSpelled (codes "end") text.now (step_data step)) }
    ensures none { IfNone result ((step : StepData) → ¬ (IsSpelled (codes "end") text.now step)) }
{
    let Some((id, body)) = first_word(text) else {
        return None;
    };
    if is_id(id) {
        Some(Step::End {
            id,
            returned: Returned::Reply(body),
        })
    } else {
        None
    }
}

/// The step that ends the request of this id with neither a reply nor its body.
fn lone_end<'a>(id: &'a str, returned: Returned<'a>) -> Option<Step<'a>>
    requires { IsBodiless (returned_data returned) }
    ensures some { IfSome result (λ step. IsSpelled (returned_word (returned_data returned.entry)) id.now (step_data step)) }
    ensures none { IfNone result ((step : StepData) → ¬ (IsSpelled (returned_word (returned_data returned.entry)) id.now step)) }
{
    if is_id(id) {
        Some(Step::End { id, returned })
    } else {
        None
    }
}

/// Whether a text has the form of an id.
fn is_id(text: &str) -> bool
    ensures { result ≡ is_id text.now }
{
    !text.is_empty() && text.len() <= ID_LIMIT && are_alphanumeric(text.as_bytes())
}

/// Whether each byte is an ASCII letter or digit.
fn are_alphanumeric(bytes: &[u8]) -> bool
    ensures { result ≡ list_all is_ascii_alphanumeric bytes.now }
{
    bytes.iter().all(|byte| byte.is_ascii_alphanumeric())
}
