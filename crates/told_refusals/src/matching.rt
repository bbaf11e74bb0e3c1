//! Which sentences are said of a refusal, and what is put into them.

use crate::advice::{Advice, STAGES, advice_of};

/// What a refusal tells behind its fault.
#[derive(Clone, Copy)]
pub struct Fields<'a> {
    /// The first of its fields, up to a space.
    pub first: &'a str,
    /// What stands behind it, and behind the fault that follows it, where there is one.
    pub others: &'a str,
    /// All of it.
    pub all: &'a str,
}

/// What stands behind some words at the front of a text.
fn behind<'a>(text: &'a str, front: &str) -> Option<&'a str> {
    let rest = text.strip_prefix(front)?;
    if rest.is_empty() {
        Some(rest)
    } else {
        rest.strip_prefix(' ')
    }
}

/// The fields of what stands behind a stage, where its fault is this one.
fn fields_of<'a>(advice: &Advice, rest: &'a str) -> Option<Fields<'a>> {
    let all = behind(rest, advice.fault)?;
    let (first, others) = all.split_once(' ').unwrap_or((all, ""));
    let others = if advice.inner.is_empty() {
        others
    } else {
        behind(others, advice.inner)?
    };
    Some(Fields { first, others, all })
}

/// What a stage says of what stands behind it in a refusal, with what is put in.
fn advice_in<'a>(stage: &str, rest: &'a str) -> Option<(&'static Advice, Fields<'a>)> {
    for advice in advice_of(stage) {
        if let Some(fields) = fields_of(advice, rest) {
            return Some((advice, fields));
        }
    }
    None
}

/// What is said of a refusal, with what is put in.
pub(crate) fn advice_on(refusal: &str) -> Option<(&'static Advice, Fields<'_>)> {
    for (front, stage) in STAGES {
        if let Some(rest) = behind(refusal, front) {
            if let Some(said) = advice_in(stage, rest) {
                return Some(said);
            }
        }
    }
    None
}
