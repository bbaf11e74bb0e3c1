//! What the words behind a command's name give, by clap.

ghost use Rattle.std.specs.Prelude.{◌≡◌, ◌↔◌, IfOk, Err, IsTrue, map, true, [], option_map};
ghost use Rattle.clap.specs.Simple.{app_of, matches_of};
ghost use Rattle.clap.specs.Walk.{rows_of, first_of, all_of};
ghost use Rattle.clap.specs.Matches.{found_of};
ghost use Rattle.clap.specs.Faults.{fault_of, is_simple_and_free};
ghost use Rattle.command_words.specs.Words.{Stands};

use crate::command::WordsFault;
use clap::error::ErrorKind;
use clap::{ArgMatches, Command};
use gql_base::Text;
use std::alloc::{AllocError, Global};

/// What words give.
pub fn matches_of<'a>(
    command: Command<'a>,
    words: &'a [&'a str],
) -> Result<ArgMatches<'a>, WordsFault>
    requires simple { is_simple_and_free (app_of command) ≡ true }
    ensures faultless { IfOk result (λ m. fault_of (app_of command.entry) (map (λ s. s.now) words.entry.now) ≡ []) }
    ensures rows { IfOk result (λ m. rows_of (found_of m) ≡ matches_of (app_of command.entry) (map (λ s. s.now) words.entry.now)) }
    ensures usage { result ≡ Err WordsFault.Usage → ¬ (fault_of (app_of command.entry) (map (λ s. s.now) words.entry.now) ≡ []) }
{
    match command.try_get_matches_from(words) {
        Ok(matches) => Ok(matches),
        Err(error) => {
            if error.kind() == ErrorKind::OutOfMemory {
                Err(WordsFault::Memory)
            } else {
                Err(WordsFault::Usage)
            }
        }
    }
}

/// The word at a place, or of an option.
pub fn word_of<'a>(matches: &ArgMatches<'a>, id: &str) -> Option<&'a str>
    ensures { option_map (λ s. s.now) result ≡ first_of id.now (rows_of (found_of matches.now)) }
{
    matches.get_str(id)
}

/// The words of all uses of an option, or at a place of several; nothing, where there are none.
pub fn words_of<'m, 'a>(matches: &'m ArgMatches<'a>, id: &str) -> Option<&'m [&'a str]>
    ensures { option_map (λ s. map (λ v. v.now) s.now) result ≡ all_of id.now (rows_of (found_of matches.now)) }
{
    matches.get_strs(id)
}

/// Copies of words.
pub fn copies_of(alloc: Global, words: &[&str]) -> Result<Vec<Text>, AllocError>
    ensures { IfOk result (λ texts. texts.items ≡ map (λ s. s.now) words.now) }
{
    let mut texts = Vec::new(alloc);
    'words: for word in words {
        texts.push(Text::copy_of(alloc, word)?)?;
    }
    Ok(texts)
}

/// Whether a flag stands.
pub fn stands(matches: &ArgMatches, id: &str) -> bool
    ensures { IsTrue result ↔ Stands (first_of id.now (rows_of (found_of matches.now))) }
{
    match word_of(matches, id) {
        Some(word) => word == "true",
        None => false,
    }
}
