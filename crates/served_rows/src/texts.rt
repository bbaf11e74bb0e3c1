//! Texts that rows name.

use crate::fault::RowFault;
use std::alloc::{AllocError, Global};

/// A text with its name.
#[derive(Drop)]
struct NamedText {
    name: String,
    text: String,
}

/// The texts of a list so far.
#[derive(Drop)]
pub(crate) struct Texts {
    texts: Vec<NamedText>,
}

/// Whether a line is a note.
pub(crate) fn is_note(line: &str) -> bool {
    line.is_empty() || line.starts_with('#')
}

// What a letter behind a `\` stands for.
fn escaped(letter: char) -> Option<char> {
    match letter {
        'r' => Some('\r'),
        'n' => Some('\n'),
        '0' => Some('\0'),
        '\\' => Some('\\'),
        _ => None,
    }
}

// Adds a written text without names.
fn push_plain(into: &mut String, written: &str) -> Result<(), RowFault> {
    let mut is_marked = false;
    for letter in written.chars() {
        if is_marked {
            let letter = escaped(letter).ok_or(RowFault::Wrong(
                "a letter behind \\ is none of r, n, 0 and \\",
            ))?;
            into.push(letter)?;
            is_marked = false;
        } else if letter == '\\' {
            is_marked = true;
        } else {
            into.push(letter)?;
        }
    }
    Ok(())
}

impl Texts {
    /// No text so far.
    pub(crate) fn new(alloc: Global) -> Texts {
        Texts {
            texts: Vec::new(alloc),
        }
    }

    /// The text of this name.
    pub(crate) fn find(&self, name: &str) -> Result<&str, RowFault> {
        for text in &self.texts {
            if text.name.as_str() == name {
                return Ok(text.text.as_str());
            }
        }
        Err(RowFault::Wrong("no text has this name"))
    }

    // Adds the text of a name, or of NAME*COUNT so many copies of it.
    fn push_named(&self, into: &mut String, name: &str) -> Result<(), RowFault> {
        let (name, count) = match name.split_once('*') {
            Some((name, count)) => (name, count.parse::<u32>().ok()),
            None => (name, Some(1)),
        };
        let count = count.ok_or(RowFault::Wrong("the number of copies is none"))?;
        let text = self.find(name)?;
        for _ in 0..count {
            into.push_str(text)?;
        }
        Ok(())
    }

    // The text that is written so.
    fn expanded(&self, alloc: Global, written: &str) -> Result<String, RowFault> {
        let mut text = String::new(alloc);
        let mut parts = written.split('<');
        push_plain(&mut text, parts.next().unwrap_or(""))?;
        for part in parts {
            let (name, rest) = part.split_once('>').ok_or(RowFault::Wrong("a < has no >"))?;
            self.push_named(&mut text, name)?;
            push_plain(&mut text, rest)?;
        }
        Ok(text)
    }

    // Names the text of a line.
    fn add(&mut self, alloc: Global, line: &str) -> Result<(), RowFault> {
        let (name, written) = line
            .split_once(": ")
            .ok_or(RowFault::Wrong("the line is no text and no note"))?;
        if self.find(name).is_ok() {
            return Err(RowFault::Wrong("a text has this name already"));
        }
        let text = self.expanded(alloc, written)?;
        let name = name.to_string(alloc)?;
        self.texts.push(NamedText { name, text })?;
        Ok(())
    }

    /// Names the texts of a list, and tells the lines of it that are wrong.
    pub(crate) fn read(&mut self, alloc: Global, list: &str) -> Result<String, AllocError> {
        let mut told = String::new(alloc);
        for line in list.lines() {
            if is_note(line) {
                continue;
            }
            if let Err(fault) = self.add(alloc, line) {
                write!(told, "! {line}: {fault}\n")?;
            }
        }
        Ok(told)
    }
}
