//! The operation or the replay that words ask for.

ghost use Rattle.std.specs.Prelude.{◌≡◌, IfOk, Err, Some, None, Option, option_map, codes, ℕ};
ghost use Rattle.clap.specs.Walk.{rows_of, first_of};
ghost use Rattle.clap.specs.Matches.{found_of};
ghost use Rattle.command_words.specs.declared.command.Asked.{Asked as AskedType};
ghost use Rattle.command_words.specs.declared.command.AskedReplay.{AskedReplay as AskedReplayType};
ghost use Rattle.command_words.specs.declared.command.AskedList.{AskedList as AskedListType};
ghost use Rattle.command_words.specs.Words.{IsUndeclared, IsMaybe, IsMostWork, IsList, GivesOperation, GivesAsked, GivesAskedReplay};

use crate::command::{
    Asked, AskedList, AskedReplay, GREATEST_UNSIZED, GREATEST_WORK, LEAST_WORK, UNDECLARED,
    WordsFault,
};
use crate::number::number_of;
use crate::words::matches::{stands, word_of};
use clap::ArgMatches;
use gql_base::Text;
use std::alloc::{AllocError, Global};

/// The word at a place, or of an option that must stand.
pub fn place_word<'a>(matches: &ArgMatches<'a>, id: &str) -> Result<&'a str, WordsFault>
    ensures found { IfOk result (λ word. first_of id.now (rows_of (found_of matches.now)) ≡ Some word.now) }
    ensures usage { result ≡ Err WordsFault.Usage → first_of id.now (rows_of (found_of matches.now)) ≡ None }
{
    match word_of(matches, id) {
        Some(word) => Ok(word),
        None => Err(WordsFault::Usage),
    }
}

/// A copy of such a word.
pub fn place_text(alloc: Global, matches: &ArgMatches, id: &str) -> Result<Text, WordsFault>
    ensures found { IfOk result (λ word. first_of id.now (rows_of (found_of matches.now)) ≡ Some word) }
    ensures usage { result ≡ Err WordsFault.Usage → first_of id.now (rows_of (found_of matches.now)) ≡ None }
{
    let word = match place_word(matches, id) {
        Ok(word) => word,
        Err(fault) => return Err(fault),
    };
    match Text::copy_of(alloc, word) {
        Ok(word) => Ok(word),
        Err(_) => Err(WordsFault::Memory),
    }
}

/// A copy of the word of an option.
pub fn option_text(
    alloc: Global,
    matches: &ArgMatches,
    id: &str,
) -> Result<Option<Text>, AllocError>
    ensures { IfOk result (λ word. first_of id.now (rows_of (found_of matches.now)) ≡ word) }
{
    match word_of(matches, id) {
        Some(word) => Ok(Some(Text::copy_of(alloc, word)?)),
        None => Ok(None),
    }
}

/// The size of lists that declare none.
pub fn undeclared_of(matches: &ArgMatches) -> Result<u32, WordsFault>
    ensures found { IfOk result (λ n. IsUndeclared (first_of (codes "unsized") (rows_of (found_of matches.now))) n) }
    ensures usage { result ≡ Err WordsFault.Usage → (n : ℕ) → IsUndeclared (first_of (codes "unsized") (rows_of (found_of matches.now))) n → ⊥ }
{
    match word_of(matches, "unsized") {
        Some(word) => match number_of(word, GREATEST_UNSIZED) {
            Some(number) => Ok(number),
            None => Err(WordsFault::Usage),
        },
        None => Ok(UNDECLARED),
    }
}

/// The number of an option, from the least to the greatest one; none where the option is absent.
pub fn maybe_count_of(
    matches: &ArgMatches,
    id: &str,
    least: u32,
    greatest: u32,
) -> Result<Option<u32>, WordsFault>
    ensures found { IfOk result (IsMaybe least greatest (first_of id.now (rows_of (found_of matches.now)))) }
    ensures usage { result ≡ Err WordsFault.Usage → (n : Option ℕ) → IsMaybe least greatest (first_of id.now (rows_of (found_of matches.now))) n → ⊥ }
{
    match word_of(matches, id) {
        Some(word) => match number_of(word, greatest) {
            Some(number) if number >= least => Ok(Some(number)),
            _ => Err(WordsFault::Usage),
        },
        None => Ok(None),
    }
}

/// How many steps an operation may take, where that is said.
pub fn most_work_of(matches: &ArgMatches) -> Result<Option<u32>, WordsFault>
    ensures found { IfOk result (IsMostWork (first_of (codes "most-work") (rows_of (found_of matches.now)))) }
    ensures usage { result ≡ Err WordsFault.Usage → (n : Option ℕ) → IsMostWork (first_of (codes "most-work") (rows_of (found_of matches.now))) n → ⊥ }
{
    maybe_count_of(matches, "most-work", LEAST_WORK, GREATEST_WORK)
}

/// The operation that words ask for, where they may give no size of lists that declare none.
pub fn operation_of(alloc: Global, matches: &ArgMatches) -> Result<Asked, WordsFault>
    ensures found { IfOk result (λ asked. GivesOperation (rows_of (found_of matches.now)) asked × (asked.undeclared ≡ UNDECLARED)) }
    ensures usage { result ≡ Err WordsFault.Usage → (asked : AskedType) → GivesOperation (rows_of (found_of matches.now)) asked → ⊥ }
{
    let most_work = match most_work_of(matches) {
        Ok(most_work) => most_work,
        Err(fault) => return Err(fault),
    };
    let schema = match place_text(alloc, matches, "schema") {
        Ok(schema) => schema,
        Err(fault) => return Err(fault),
    };
    let document = match place_text(alloc, matches, "document") {
        Ok(document) => document,
        Err(fault) => return Err(fault),
    };
    let Ok(variables) = option_text(alloc, matches, "variables") else {
        return Err(WordsFault::Memory);
    };
    let Ok(operation) = option_text(alloc, matches, "operation") else {
        return Err(WordsFault::Memory);
    };
    Ok(Asked {
        schema,
        document,
        variables,
        operation,
        undeclared: UNDECLARED,
        most_work,
    })
}

/// The operation that words ask for.
pub fn asked_of(alloc: Global, matches: &ArgMatches) -> Result<Asked, WordsFault>
    ensures found { IfOk result (λ asked. GivesAsked (rows_of (found_of matches.now)) asked) }
    ensures usage { result ≡ Err WordsFault.Usage → (asked : AskedType) → GivesAsked (rows_of (found_of matches.now)) asked → ⊥ }
{
    let undeclared = match undeclared_of(matches) {
        Ok(undeclared) => undeclared,
        Err(fault) => return Err(fault),
    };
    match operation_of(alloc, matches) {
        Ok(asked) => Ok(Asked {
            undeclared,
            ..asked
        }),
        Err(fault) => Err(fault),
    }
}

/// The list of trusted documents that words name.
pub fn list_of(alloc: Global, matches: &ArgMatches) -> Result<Option<AskedList>, WordsFault>
    ensures found { IfOk result (IsList (rows_of (found_of matches.now))) }
    ensures usage { result ≡ Err WordsFault.Usage → (list : Option AskedListType) → IsList (rows_of (found_of matches.now)) list → ⊥ }
{
    let only = stands(matches, "trusted-only");
    match option_text(alloc, matches, "trusted") {
        Ok(Some(file)) => Ok(Some(AskedList { file, only })),
        Ok(None) if only => Err(WordsFault::Usage),
        Ok(None) => Ok(None),
        Err(_) => Err(WordsFault::Memory),
    }
}

/// The replay that words ask for.
pub fn asked_replay_of(alloc: Global, matches: &ArgMatches) -> Result<AskedReplay, WordsFault>
    ensures found { IfOk result (λ asked. GivesAskedReplay (rows_of (found_of matches.now)) asked) }
    ensures usage { result ≡ Err WordsFault.Usage → (asked : AskedReplayType) → GivesAskedReplay (rows_of (found_of matches.now)) asked → ⊥ }
{
    let schema = match place_text(alloc, matches, "schema") {
        Ok(schema) => schema,
        Err(fault) => return Err(fault),
    };
    let clients = match place_text(alloc, matches, "clients") {
        Ok(clients) => clients,
        Err(fault) => return Err(fault),
    };
    let script = match place_text(alloc, matches, "script") {
        Ok(script) => script,
        Err(fault) => return Err(fault),
    };
    let list = match list_of(alloc, matches) {
        Ok(list) => list,
        Err(fault) => return Err(fault),
    };
    let most_work = match most_work_of(matches) {
        Ok(most_work) => most_work,
        Err(fault) => return Err(fault),
    };
    match undeclared_of(matches) {
        Ok(undeclared) => Ok(AskedReplay {
            schema,
            clients,
            script,
            list,
            undeclared,
            most_work,
        }),
        Err(fault) => Err(fault),
    }
}
