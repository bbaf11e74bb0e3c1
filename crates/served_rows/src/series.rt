//! Rows that are served again and again, with each number in turn.

use crate::case::{Form, Numbers, Planned};
use crate::fault::RowFault;
use crate::gates::Rules;
use crate::in_turn::{Run, run_once};
use crate::kept::run_kept;
use std::alloc::Global;
use std::sync::Wait;

/// Numbers that follow each other, and what all of them came to.
#[derive(Drop)]
struct Group {
    first: u64,
    last: u64,
    text: String,
}

// Adds what a number came to, to the last group if it came to the same.
fn add(groups: &mut Vec<Group>, number: u64, text: String) -> Result<(), RowFault> {
    if let Some(group) = groups.last_mut() {
        if group.text == text {
            group.last = number;
            return Ok(());
        }
    }
    groups.push(Group {
        first: number,
        last: number,
        text,
    })?;
    Ok(())
}

fn push_groups(into: &mut String, groups: &[Group]) -> Result<(), RowFault> {
    for group in groups {
        let first = group.first;
        let last = group.last;
        let text = group.text.as_str();
        write!(into, "each {first} to {last}\n{text}")?;
    }
    Ok(())
}

// Serves the connections of a row once, where each stands for this number.
fn once<R: Wait>(
    alloc: Global,
    rt: &R,
    form: Form,
    rules: Rules<'_>,
    plans: &[Planned<'_>],
    each: u64,
) -> Result<Run, RowFault> {
    match form {
        Form::Kept => run_kept(alloc, rt, rules, plans, each),
        _ => run_once(alloc, rt, rules, plans, each),
    }
}

fn run_series<R: Wait>(
    alloc: Global,
    rt: &R,
    form: Form,
    rules: Rules<'_>,
    plans: &[Planned<'_>],
    numbers: Numbers,
) -> Result<String, RowFault> {
    let mut groups = Vec::new(alloc);
    for number in numbers.first..=numbers.last {
        let Run { text, has_failed } = once(alloc, rt, form, rules, plans, number)?;
        add(&mut groups, number, text)?;
        if numbers.ends_without_fault && !has_failed {
            break;
        }
    }
    let mut text = String::new(alloc);
    push_groups(&mut text, &groups)?;
    Ok(text)
}

// The numbers of the first connection on which each stands.
fn numbers_in(plans: &[Planned<'_>]) -> Option<Numbers> {
    for plan in plans {
        if let Some(numbers) = plan.numbers() {
            return Some(numbers);
        }
    }
    None
}

/// Serves the connections of a row one after the other, once or with each number in turn.
pub(crate) fn run_in_turn<R: Wait>(
    alloc: Global,
    rt: &R,
    form: Form,
    rules: Rules<'_>,
    plans: &[Planned<'_>],
) -> Result<String, RowFault> {
    match numbers_in(plans) {
        Some(numbers) => run_series(alloc, rt, form, rules, plans, numbers),
        None => Ok(once(alloc, rt, form, rules, plans, 0)?.text),
    }
}
