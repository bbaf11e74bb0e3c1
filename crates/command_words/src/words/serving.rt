//! The serving of a gateway that words ask for.

ghost use Rattle.std.specs.Prelude.{◌≡◌, ◌↔◌, IfOk, Err, None, List, [], map, unwrap_or, codes, ℕ, Option, IsTrue};
ghost use Rattle.std.specs.List.{list_all};
ghost use Rattle.command_words.specs.Defaults.{endless_connections};
ghost use Rattle.clap.specs.Walk.{rows_of, first_of, all_of};
ghost use Rattle.clap.specs.Matches.{found_of};
ghost use Rattle.http_front.specs.Passed.{may_be_passed};
ghost use Rattle.command_words.specs.declared.command.AskedServe.{AskedServe as AskedServeType};
ghost use Rattle.command_words.specs.Words.{IsTarget, IsWithin, IsWorkers, IsConnections, ArePassed, GivesAskedServe};

use crate::command::{
    AskedServe, ENDLESS_CONNECTIONS, GREATEST_ANSWER, GREATEST_CONNECTIONS, GREATEST_PASSED,
    GREATEST_WAITING, GREATEST_WORKERS, TARGET, WORKERS, WordsFault,
};
use crate::number::number_of;
use crate::words::asked::{
    list_of, maybe_count_of, most_work_of, option_text, place_text, undeclared_of,
};
use crate::words::matches::{copies_of, stands, word_of};
use clap::ArgMatches;
use gql_base::Text;
use http_front::may_be_passed;
use std::alloc::{AllocError, Global};

// The target of requests to the upstream.
fn target_of(alloc: Global, matches: &ArgMatches) -> Result<Text, AllocError>
    ensures { IfOk result (IsTarget (first_of (codes "target") (rows_of (found_of matches.now)))) }
{
    match word_of(matches, "target") {
        Some(word) => Text::copy_of(alloc, word),
        None => Text::copy_of(alloc, TARGET),
    }
}

// The number of an option, from 1 to the greatest one; the usual one where the option is absent.
fn count_of(matches: &ArgMatches, id: &str, greatest: u32, usual: u32) -> Result<u32, WordsFault>
    ensures found { IfOk result (IsWithin 1 greatest usual (first_of id.now (rows_of (found_of matches.now)))) }
    ensures usage { result ≡ Err WordsFault.Usage → (n : ℕ) → IsWithin 1 greatest usual (first_of id.now (rows_of (found_of matches.now))) n → ⊥ }
{
    match word_of(matches, id) {
        Some(word) => match number_of(word, greatest) {
            Some(0) => Err(WordsFault::Usage),
            Some(number) => Ok(number),
            None => Err(WordsFault::Usage),
        },
        None => Ok(usual),
    }
}

// Over a journal one worker serves, and no number is given.
fn only_worker(matches: &ArgMatches) -> Result<u32, WordsFault>
    ensures found { IfOk result (λ n. (first_of (codes "workers") (rows_of (found_of matches.now)) ≡ None) × (n ≡ 1)) }
    ensures usage { result ≡ Err WordsFault.Usage → first_of (codes "workers") (rows_of (found_of matches.now)) ≡ None → ⊥ }
{
    match word_of(matches, "workers") {
        Some(_) => Err(WordsFault::Usage),
        None => Ok(1),
    }
}

// How many workers serve.
fn workers_of(matches: &ArgMatches) -> Result<u32, WordsFault>
    ensures found { IfOk result (IsWorkers (first_of (codes "journal") (rows_of (found_of matches.now))) (first_of (codes "workers") (rows_of (found_of matches.now)))) }
    ensures usage { result ≡ Err WordsFault.Usage → (n : ℕ) → IsWorkers (first_of (codes "journal") (rows_of (found_of matches.now))) (first_of (codes "workers") (rows_of (found_of matches.now))) n → ⊥ }
{
    match word_of(matches, "journal") {
        Some(_) => only_worker(matches),
        None => count_of(matches, "workers", GREATEST_WORKERS, WORKERS),
    }
}

// Without an end no number is given.
fn without_end(matches: &ArgMatches) -> Result<u32, WordsFault>
    ensures found { IfOk result (λ n. (first_of (codes "connections") (rows_of (found_of matches.now)) ≡ None) × (n ≡ endless_connections)) }
    ensures usage { result ≡ Err WordsFault.Usage → first_of (codes "connections") (rows_of (found_of matches.now)) ≡ None → ⊥ }
{
    match word_of(matches, "connections") {
        Some(_) => Err(WordsFault::Usage),
        None => Ok(ENDLESS_CONNECTIONS),
    }
}

// How many connections each worker serves.
fn connections_of(matches: &ArgMatches) -> Result<u32, WordsFault>
    ensures found { IfOk result (IsConnections (rows_of (found_of matches.now))) }
    ensures usage { result ≡ Err WordsFault.Usage → (n : ℕ) → IsConnections (rows_of (found_of matches.now)) n → ⊥ }
{
    if stands(matches, "endless") {
        return without_end(matches);
    }
    let most = GREATEST_CONNECTIONS;
    count_of(matches, "connections", most, most)
}

// Whether fields of each of these names may be passed on.
fn may_all_be_passed(names: &[&str]) -> bool
    ensures { result ≡ list_all may_be_passed (map (λ s. s.now) names.now) }
{
    'names: for name in names {
        if !may_be_passed(name) {
            return false;
        }
    }
    true
}

// The names of the fields that are passed on, by the words that give them.
fn names_of(alloc: Global, words: &[&str]) -> Result<Vec<Text>, WordsFault>
    ensures found { IfOk result (λ names. ArePassed (map (λ s. s.now) words.now) names.items) }
    ensures usage { result ≡ Err WordsFault.Usage → (names : List (List ℕ)) → ArePassed (map (λ s. s.now) words.now) names → ⊥ }
{
    if words.len() > GREATEST_PASSED || !may_all_be_passed(words) {
        return Err(WordsFault::Usage);
    }
    match copies_of(alloc, words) {
        Ok(names) => Ok(names),
        Err(_) => Err(WordsFault::Memory),
    }
}

// The names of the fields that are passed on.
fn passed_of(alloc: Global, matches: &ArgMatches) -> Result<Vec<Text>, WordsFault>
    ensures found { IfOk result (λ names. ArePassed (unwrap_or (all_of (codes "pass") (rows_of (found_of matches.now))) []) names.items) }
    ensures usage { result ≡ Err WordsFault.Usage → (names : List (List ℕ)) → ArePassed (unwrap_or (all_of (codes "pass") (rows_of (found_of matches.now))) []) names → ⊥ }
{
    match matches.get_strs("pass") {
        Some(words) => names_of(alloc, words),
        None => Ok(Vec::new(alloc)),
    }
}

/// The serving that words ask for.
pub fn asked_serve_of(alloc: Global, matches: &ArgMatches) -> Result<AskedServe, WordsFault>
    ensures found { IfOk result (λ asked. GivesAskedServe (rows_of (found_of matches.now)) asked) }
    ensures usage { result ≡ Err WordsFault.Usage → (asked : AskedServeType) → GivesAskedServe (rows_of (found_of matches.now)) asked → ⊥ }
{
    let schema = place_text(alloc, matches, "schema")?;
    let clients = place_text(alloc, matches, "clients")?;
    let listen = place_text(alloc, matches, "listen")?;
    let upstream = place_text(alloc, matches, "upstream")?;
    let workers = workers_of(matches)?;
    let connections = connections_of(matches)?;
    let waiting = maybe_count_of(matches, "idle", 1, GREATEST_WAITING)?;
    let most_answer = maybe_count_of(matches, "most-answer", 1, GREATEST_ANSWER)?;
    let most_work = most_work_of(matches)?;
    let list = list_of(alloc, matches)?;
    let passed = passed_of(alloc, matches)?;
    let undeclared = undeclared_of(matches)?;
    let target = target_of(alloc, matches)?;
    let stop = option_text(alloc, matches, "stop")?;
    let journal = option_text(alloc, matches, "journal")?;
    Ok(AskedServe {
        schema,
        clients,
        listen,
        upstream,
        target,
        journal,
        workers,
        connections,
        waiting,
        stop,
        list,
        passed,
        hints: stands(matches, "hints"),
        most_answer,
        undeclared,
        most_work,
    })
}
