//! What numbers came to, those together that came to the same.

use std::alloc::{AllocError, Global};

/// Numbers that follow each other, and what each of them came to.
#[derive(Drop)]
struct Group {
    first: usize,
    last: usize,
    text: String,
}

/// Groups, in order.
#[derive(Drop)]
pub(crate) struct Groups {
    groups: Vec<Group>,
}

impl Groups {
    pub(crate) fn new(alloc: Global) -> Groups {
        Groups {
            groups: Vec::new(alloc),
        }
    }

    /// Adds what the next number came to.
    pub(crate) fn add(&mut self, number: usize, text: String) -> Result<(), AllocError> {
        if let Some(group) = self.groups.last_mut() {
            if group.text == text {
                group.last = number;
                return Ok(());
            }
        }
        let group = Group {
            first: number,
            last: number,
            text,
        };
        match self.groups.push(group) {
            Ok(()) => Ok(()),
            Err(_) => Err(AllocError),
        }
    }

    /// Writes the groups on one line, with the numbers of each.
    pub(crate) fn write_in_line(&self, into: &mut String) -> Result<(), AllocError> {
        let mut begins = true;
        for group in &self.groups {
            if !begins {
                into.push_str(", ")?;
            }
            begins = false;
            let first = group.first;
            let last = group.last;
            let text = group.text.as_str();
            if first == last {
                write!(into, "{text} by {first}")?;
            } else {
                write!(into, "{text} by {first} to {last}")?;
            }
        }
        Ok(())
    }

    /// Writes a line for each group.
    pub(crate) fn write(&self, into: &mut String, what: &str) -> Result<(), AllocError> {
        for group in &self.groups {
            let first = group.first;
            let last = group.last;
            let text = group.text.as_str();
            if first == last {
                write!(into, "{what} {first}: {text}\n")?;
            } else {
                write!(into, "{what} {first} to {last}: {text}\n")?;
            }
        }
        Ok(())
    }
}
