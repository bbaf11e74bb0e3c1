//! The value of block strings (GraphQL October 2021, 2.9.4, BlockStringValue).

ghost use Rattle.std.specs.Prelude.{◌≡◌, ◌+◌, ◌-◌, ◌<◌, ◌≤◌, [], ◌∷◌, ◌==◌, ◌||◌, not, length, take, drop, map, min, reverse, IfOk, IfSome, string_bytes};
ghost use Rattle.std.specs.List.{prefix_len, filter, reduce, join_with_byte};
ghost use Rattle.std.specs.Option.{option_map};
ghost use Rattle.gql_base.specs.lexical.Characters.{is_line_end};
ghost use Rattle.gql_base.specs.lexical.Blocks.{unescaped, lines_of, lines_left, line_end_length, is_white_space, indent, is_blank_line, holds_text, common_indent, unindented, without_indent, without_blank_front, without_blank_end, block_text};

use crate::lexical::characters::is_line_end;
use crate::lexical::literals::plain_end;
use crate::lexical::strings::{after, escapes_marks};
use crate::lexical::text::Text;
use std::alloc::{AllocError, Global};

/// What stands between the marks, without each `\` that stands before three marks.
fn unescaped(alloc: Global, raw: &str) -> Result<String, AllocError>
    ensures { IfOk result (λ text. string_bytes text ≡ unescaped raw.now) }
{
    let mut text = String::new(alloc);
    let mut at = 0;
    while at < raw.len() {
        if escapes_marks(raw.as_bytes(), at) {
            text.push_str("\"\"\"")?;
            at += 4;
        } else {
            let end = plain_end(raw.as_bytes(), at + 1);
            text.push_str(&raw[at..end])?;
            at = end;
        }
    }
    Ok(text)
}

/// The number of bytes before the first line end.
fn line_length(bytes: &[u8]) -> usize
    ensures longest { result ≡ prefix_len (λ c. not (is_line_end c)) bytes.now }
    ensures within { result ≤ length bytes.now }
{
    bytes.iter().take_while(|byte| !is_line_end(**byte)).count()
}

/// How many bytes the line end at the front has, 0 where none is there.
fn line_end_length(bytes: &[u8]) -> usize
    ensures size { result ≡ line_end_length bytes.now }
    ensures within { result ≤ length bytes.now }
{
    match bytes {
        [b'\r', b'\n', ..] => 2,
        [b'\r' | b'\n', ..] => 1,
        _ => 0,
    }
}

/// The first line, and what follows its end, where it has one.
fn first_line(text: &str) -> (&str, Option<&str>)
    ensures lines { lines_of text.now ≡ result.0.now ∷ lines_left (option_map (λ rest. rest.now) result.1) }
    ensures shorter { IfSome result.1 (λ rest. length rest.now < length text.now) }
{
    let end = line_length(text.as_bytes());
    let size = line_end_length(after(text.as_bytes(), end));
    if size == 0 {
        (text, None)
    } else {
        (&text[..end], Some(&text[end + size..]))
    }
}

/// The lines of what is left of a text, none where nothing is.
fn lines_of<'a>(alloc: Global, mut left: Option<&'a str>) -> Result<Vec<&'a str>, AllocError>
    ensures { IfOk result (λ lines. map (λ line. line.now) lines.items ≡ lines_left (option_map (λ text. text.now) left.entry)) }
{
    let mut lines = Vec::new(alloc);
    while let Some(text) = left {
        let (line, rest) = first_line(text);
        lines.push(line)?;
        left = rest;
    }
    Ok(lines)
}

/// Whether a byte is a space or a tab.
fn is_white_space(byte: u8) -> bool
    ensures { result ≡ is_white_space byte }
{
    byte == b' ' || byte == b'\t'
}

/// How many spaces and tabs a line begins with.
fn indent(line: &str) -> usize
    ensures value { result ≡ indent line.now }
    ensures within { result ≤ length line.now }
{
    line.as_bytes()
        .iter()
        .take_while(|byte| is_white_space(**byte))
        .count()
}

/// Whether a line has spaces and tabs alone.
fn is_blank_line(line: &str) -> bool
    ensures { result ≡ is_blank_line line.now }
{
    indent(line) == line.len()
}

/// The least indent of the lines that hold another character, if one does.
fn least_indent(lines: &[&str]) -> Option<usize>
    ensures { result ≡ reduce min (map (λ line. indent line.now) (filter (λ line. holds_text line.now) lines.now)) }
{
    lines
        .iter()
        .filter(|line| !is_blank_line(**line))
        .map(|line| indent(*line))
        .min()
}

/// The least indent of the lines that hold another character, or 0 where none does.
fn common_indent(lines: &[&str]) -> usize
    ensures { result ≡ common_indent (map (λ line. line.now) lines.now) }
{
    least_indent(lines).unwrap_or(0)
}

/// A line without so many of the spaces and tabs that it begins with.
fn unindented(line: &str, count: usize) -> &str
    ensures { result.now ≡ unindented count line.now }
{
    &line[count.min(indent(line))..]
}

/// The first line as it is, and the others without their common indent.
fn without_indent<'a>(
    alloc: Global,
    first: &'a str,
    others: &[&'a str],
) -> Result<Vec<&'a str>, AllocError>
    ensures { IfOk result (λ lines. map (λ line. line.now) lines.items ≡ without_indent (first.now ∷ map (λ line. line.now) others.now)) }
{
    let common = common_indent(others);
    let mut lines = Vec::new(alloc);
    lines.push(first)?;
    for line in others {
        lines.push(unindented(*line, common))?;
    }
    Ok(lines)
}

/// How many blank lines stand in front.
fn blank_front(lines: &[&str]) -> usize
    ensures count { result ≡ prefix_len (λ line. is_blank_line line.now) lines.now }
    ensures within { result ≤ length lines.now }
{
    lines
        .iter()
        .take_while(|line| is_blank_line(**line))
        .count()
}

/// How many blank lines stand at the end.
fn blank_end(lines: &[&str]) -> usize
    ensures count { result ≡ prefix_len (λ line. is_blank_line line.now) (reverse lines.now) }
    ensures within { result ≤ length lines.now }
{
    lines
        .iter()
        .rev()
        .take_while(|line| is_blank_line(**line))
        .count()
}

/// The lines joined by line feeds, without the blank ones at both ends.
fn joined(alloc: Global, lines: &[&str]) -> Result<String, AllocError>
    ensures { IfOk result (λ text. string_bytes text ≡ join_with_byte 10 (without_blank_end (without_blank_front (map (λ line. line.now) lines.now)))) }
{
    let lines = &lines[blank_front(lines)..];
    let lines = &lines[..lines.len() - blank_end(lines)];
    lines.join(alloc, "\n")
}

/// The value of a block string, of which `raw` stands between the marks as it is written: three marks for `\"""`,
/// the lines without their common indent and without the blank lines at both ends, joined by line feeds (GraphQL
/// October 2021, 2.9.4). It fails for want of memory alone.
pub fn block_value(alloc: Global, raw: &str) -> Result<Text, AllocError>
    ensures { IfOk result (λ value. value ≡ block_text raw.now) }
{
    let text = unescaped(alloc, raw)?;
    let (first, rest) = first_line(text.as_str());
    let others = lines_of(alloc, rest)?;
    let lines = without_indent(alloc, first, &others)?;
    Ok(Text::from(joined(alloc, &lines)?))
}
