//! The commands, each by the words behind its name.

ghost use Rattle.std.specs.Prelude.{◌≡◌, IfOk, Err, None, Some, codes, map, ℕ, List};
ghost use Rattle.clap.specs.Walk.{rows_of, first_of};
ghost use Rattle.clap.specs.Matches.{found_of};
ghost use Rattle.response_model.specs.declared.part.Part.{Part as PartType};
ghost use Rattle.command_words.specs.declared.command.Command.{Command as CommandType};
ghost use Rattle.command_words.specs.Words.{GivesPart, GivesCheck, GivesPrice, GivesExplain, GivesAudit, GivesIntrospect, GivesWorst, GivesForward, GivesMeter, GivesReplay, GivesServe, IsRequests, GivesExercise, GivesMigrate, AsksCheck, AsksPrice, AsksExplain, AsksAudit, AsksIntrospect, AsksWorst, AsksForward, AsksMeter, AsksReplay, AsksServe, AsksExercise, AsksMigrate};

use crate::builder::{
    audit_command, check_command, exercise_command, explain_command, forward_command,
    introspect_command, meter_command, migrate_command, price_command, replay_command,
    serve_command, worst_command,
};
use crate::command::{Command, GREATEST_EXERCISE, WordsFault};
use crate::number::number_of;
use crate::words::asked::{
    asked_of, asked_replay_of, operation_of, place_text, place_word, undeclared_of,
};
use crate::words::audits::asked_audit_of;
use crate::words::matches::{matches_of, word_of};
use crate::words::serving::asked_serve_of;
use clap::ArgMatches;
use response_model::Part;
use std::alloc::Global;

// The check that words ask for.
fn check_of(alloc: Global, matches: &ArgMatches) -> Result<Command, WordsFault>
    ensures found { IfOk result (GivesCheck (rows_of (found_of matches.now))) }
    ensures usage { result ≡ Err WordsFault.Usage → (command : CommandType) → GivesCheck (rows_of (found_of matches.now)) command → ⊥ }
{
    match place_text(alloc, matches, "schema") {
        Ok(schema) => Ok(Command::Check { schema }),
        Err(fault) => Err(fault),
    }
}

/// `check SCHEMA`
pub fn check<'a>(alloc: Global, words: &'a [&'a str]) -> Result<Command, WordsFault>
    ensures found { IfOk result (AsksCheck (map (λ s. s.now) words.entry.now)) }
    ensures usage { result ≡ Err WordsFault.Usage → (command : CommandType) → AsksCheck (map (λ s. s.now) words.entry.now) command → ⊥ }
{
    let Ok(command) = check_command(alloc) else {
        return Err(WordsFault::Memory);
    };
    match matches_of(command, words) {
        Ok(matches) => check_of(alloc, &matches),
        Err(fault) => Err(fault),
    }
}

// The price that words ask for.
fn price_of(alloc: Global, matches: &ArgMatches) -> Result<Command, WordsFault>
    ensures found { IfOk result (GivesPrice (rows_of (found_of matches.now))) }
    ensures usage { result ≡ Err WordsFault.Usage → (command : CommandType) → GivesPrice (rows_of (found_of matches.now)) command → ⊥ }
{
    match asked_of(alloc, matches) {
        Ok(asked) => Ok(Command::Price { asked }),
        Err(fault) => Err(fault),
    }
}

/// `price SCHEMA DOCUMENT`
pub fn price<'a>(alloc: Global, words: &'a [&'a str]) -> Result<Command, WordsFault>
    ensures found { IfOk result (AsksPrice (map (λ s. s.now) words.entry.now)) }
    ensures usage { result ≡ Err WordsFault.Usage → (command : CommandType) → AsksPrice (map (λ s. s.now) words.entry.now) command → ⊥ }
{
    let Ok(command) = price_command(alloc) else {
        return Err(WordsFault::Memory);
    };
    match matches_of(command, words) {
        Ok(matches) => price_of(alloc, &matches),
        Err(fault) => Err(fault),
    }
}

// The explanation of a schema that words ask for, which give no document.
fn explain_schema_of(alloc: Global, matches: &ArgMatches) -> Result<Command, WordsFault>
    requires alone { first_of (codes "document") (rows_of (found_of matches.now)) ≡ None }
    ensures found { IfOk result (GivesExplain (rows_of (found_of matches.now))) }
    ensures usage { result ≡ Err WordsFault.Usage → (command : CommandType) → GivesExplain (rows_of (found_of matches.now)) command → ⊥ }
{
    if word_of(matches, "variables").is_some() || word_of(matches, "operation").is_some() {
        return Err(WordsFault::Usage);
    }
    if word_of(matches, "most-work").is_some() {
        return Err(WordsFault::Usage);
    }
    let undeclared = match undeclared_of(matches) {
        Ok(undeclared) => undeclared,
        Err(fault) => return Err(fault),
    };
    match place_text(alloc, matches, "schema") {
        Ok(schema) => Ok(Command::ExplainSchema { schema, undeclared }),
        Err(fault) => Err(fault),
    }
}

// The explanation that words ask for.
fn explain_of(alloc: Global, matches: &ArgMatches) -> Result<Command, WordsFault>
    ensures found { IfOk result (GivesExplain (rows_of (found_of matches.now))) }
    ensures usage { result ≡ Err WordsFault.Usage → (command : CommandType) → GivesExplain (rows_of (found_of matches.now)) command → ⊥ }
{
    if word_of(matches, "document").is_none() {
        return explain_schema_of(alloc, matches);
    }
    match asked_of(alloc, matches) {
        Ok(asked) => Ok(Command::Explain { asked }),
        Err(fault) => Err(fault),
    }
}

/// `explain SCHEMA`, and perhaps DOCUMENT
pub fn explain<'a>(alloc: Global, words: &'a [&'a str]) -> Result<Command, WordsFault>
    ensures found { IfOk result (AsksExplain (map (λ s. s.now) words.entry.now)) }
    ensures usage { result ≡ Err WordsFault.Usage → (command : CommandType) → AsksExplain (map (λ s. s.now) words.entry.now) command → ⊥ }
{
    let Ok(command) = explain_command(alloc) else {
        return Err(WordsFault::Memory);
    };
    match matches_of(command, words) {
        Ok(matches) => explain_of(alloc, &matches),
        Err(fault) => Err(fault),
    }
}

// The audit that words ask for.
fn audit_of(alloc: Global, matches: &ArgMatches) -> Result<Command, WordsFault>
    ensures found { IfOk result (GivesAudit (rows_of (found_of matches.now))) }
    ensures usage { result ≡ Err WordsFault.Usage → (command : CommandType) → GivesAudit (rows_of (found_of matches.now)) command → ⊥ }
{
    match asked_audit_of(alloc, matches) {
        Ok(asked) => Ok(Command::Audit { asked }),
        Err(fault) => Err(fault),
    }
}

/// `audit SCHEMA DOCUMENT..`
pub fn audit<'a>(alloc: Global, words: &'a [&'a str]) -> Result<Command, WordsFault>
    ensures found { IfOk result (AsksAudit (map (λ s. s.now) words.entry.now)) }
    ensures usage { result ≡ Err WordsFault.Usage → (command : CommandType) → AsksAudit (map (λ s. s.now) words.entry.now) command → ⊥ }
{
    let Ok(command) = audit_command(alloc) else {
        return Err(WordsFault::Memory);
    };
    match matches_of(command, words) {
        Ok(matches) => audit_of(alloc, &matches),
        Err(fault) => Err(fault),
    }
}

// The introspection that words ask for.
fn introspect_of(alloc: Global, matches: &ArgMatches) -> Result<Command, WordsFault>
    ensures found { IfOk result (GivesIntrospect (rows_of (found_of matches.now))) }
    ensures usage { result ≡ Err WordsFault.Usage → (command : CommandType) → GivesIntrospect (rows_of (found_of matches.now)) command → ⊥ }
{
    match operation_of(alloc, matches) {
        Ok(asked) => Ok(Command::Introspect { asked }),
        Err(fault) => Err(fault),
    }
}

/// `introspect SCHEMA DOCUMENT`
pub fn introspect<'a>(alloc: Global, words: &'a [&'a str]) -> Result<Command, WordsFault>
    ensures found { IfOk result (AsksIntrospect (map (λ s. s.now) words.entry.now)) }
    ensures usage { result ≡ Err WordsFault.Usage → (command : CommandType) → AsksIntrospect (map (λ s. s.now) words.entry.now) command → ⊥ }
{
    let Ok(command) = introspect_command(alloc) else {
        return Err(WordsFault::Memory);
    };
    match matches_of(command, words) {
        Ok(matches) => introspect_of(alloc, &matches),
        Err(fault) => Err(fault),
    }
}

// The part of the cost.
fn part_of(matches: &ArgMatches) -> Result<Part, WordsFault>
    ensures found { IfOk result (GivesPart (rows_of (found_of matches.now))) }
    ensures usage { result ≡ Err WordsFault.Usage → (part : PartType) → GivesPart (rows_of (found_of matches.now)) part → ⊥ }
{
    let word = match place_word(matches, "part") {
        Ok(word) => word,
        Err(fault) => return Err(fault),
    };
    if word == "types" {
        return Ok(Part::Types);
    }
    if word == "fields" {
        return Ok(Part::Fields);
    }
    Err(WordsFault::Usage)
}

// The worst response that words ask for.
fn worst_of(alloc: Global, matches: &ArgMatches) -> Result<Command, WordsFault>
    ensures found { IfOk result (GivesWorst (rows_of (found_of matches.now))) }
    ensures usage { result ≡ Err WordsFault.Usage → (command : CommandType) → GivesWorst (rows_of (found_of matches.now)) command → ⊥ }
{
    let part = match part_of(matches) {
        Ok(part) => part,
        Err(fault) => return Err(fault),
    };
    match asked_of(alloc, matches) {
        Ok(asked) => Ok(Command::Worst { asked, part }),
        Err(fault) => Err(fault),
    }
}

/// `worst SCHEMA DOCUMENT PART`
pub fn worst<'a>(alloc: Global, words: &'a [&'a str]) -> Result<Command, WordsFault>
    ensures found { IfOk result (AsksWorst (map (λ s. s.now) words.entry.now)) }
    ensures usage { result ≡ Err WordsFault.Usage → (command : CommandType) → AsksWorst (map (λ s. s.now) words.entry.now) command → ⊥ }
{
    let Ok(command) = worst_command(alloc) else {
        return Err(WordsFault::Memory);
    };
    match matches_of(command, words) {
        Ok(matches) => worst_of(alloc, &matches),
        Err(fault) => Err(fault),
    }
}

// The forwarding that words ask for.
fn forward_of(alloc: Global, matches: &ArgMatches) -> Result<Command, WordsFault>
    ensures found { IfOk result (GivesForward (rows_of (found_of matches.now))) }
    ensures usage { result ≡ Err WordsFault.Usage → (command : CommandType) → GivesForward (rows_of (found_of matches.now)) command → ⊥ }
{
    match asked_of(alloc, matches) {
        Ok(asked) => Ok(Command::Forward { asked }),
        Err(fault) => Err(fault),
    }
}

/// `forward SCHEMA DOCUMENT`
pub fn forward<'a>(alloc: Global, words: &'a [&'a str]) -> Result<Command, WordsFault>
    ensures found { IfOk result (AsksForward (map (λ s. s.now) words.entry.now)) }
    ensures usage { result ≡ Err WordsFault.Usage → (command : CommandType) → AsksForward (map (λ s. s.now) words.entry.now) command → ⊥ }
{
    let Ok(command) = forward_command(alloc) else {
        return Err(WordsFault::Memory);
    };
    match matches_of(command, words) {
        Ok(matches) => forward_of(alloc, &matches),
        Err(fault) => Err(fault),
    }
}

// The measure of a reply that words ask for.
fn meter_of(alloc: Global, matches: &ArgMatches) -> Result<Command, WordsFault>
    ensures found { IfOk result (GivesMeter (rows_of (found_of matches.now))) }
    ensures usage { result ≡ Err WordsFault.Usage → (command : CommandType) → GivesMeter (rows_of (found_of matches.now)) command → ⊥ }
{
    let reply = match place_text(alloc, matches, "reply") {
        Ok(reply) => reply,
        Err(fault) => return Err(fault),
    };
    match asked_of(alloc, matches) {
        Ok(asked) => Ok(Command::Meter { asked, reply }),
        Err(fault) => Err(fault),
    }
}

/// `meter SCHEMA DOCUMENT REPLY`
pub fn meter<'a>(alloc: Global, words: &'a [&'a str]) -> Result<Command, WordsFault>
    ensures found { IfOk result (AsksMeter (map (λ s. s.now) words.entry.now)) }
    ensures usage { result ≡ Err WordsFault.Usage → (command : CommandType) → AsksMeter (map (λ s. s.now) words.entry.now) command → ⊥ }
{
    let Ok(command) = meter_command(alloc) else {
        return Err(WordsFault::Memory);
    };
    match matches_of(command, words) {
        Ok(matches) => meter_of(alloc, &matches),
        Err(fault) => Err(fault),
    }
}

// The replay that words ask for.
fn replay_of(alloc: Global, matches: &ArgMatches) -> Result<Command, WordsFault>
    ensures found { IfOk result (GivesReplay (rows_of (found_of matches.now))) }
    ensures usage { result ≡ Err WordsFault.Usage → (command : CommandType) → GivesReplay (rows_of (found_of matches.now)) command → ⊥ }
{
    match asked_replay_of(alloc, matches) {
        Ok(asked) => Ok(Command::Replay { asked }),
        Err(fault) => Err(fault),
    }
}

/// `replay SCHEMA CLIENTS SCRIPT`
pub fn replay<'a>(alloc: Global, words: &'a [&'a str]) -> Result<Command, WordsFault>
    ensures found { IfOk result (AsksReplay (map (λ s. s.now) words.entry.now)) }
    ensures usage { result ≡ Err WordsFault.Usage → (command : CommandType) → AsksReplay (map (λ s. s.now) words.entry.now) command → ⊥ }
{
    let Ok(command) = replay_command(alloc) else {
        return Err(WordsFault::Memory);
    };
    match matches_of(command, words) {
        Ok(matches) => replay_of(alloc, &matches),
        Err(fault) => Err(fault),
    }
}

// The serving that words ask for.
fn serve_of(alloc: Global, matches: &ArgMatches) -> Result<Command, WordsFault>
    ensures found { IfOk result (GivesServe (rows_of (found_of matches.now))) }
    ensures usage { result ≡ Err WordsFault.Usage → (command : CommandType) → GivesServe (rows_of (found_of matches.now)) command → ⊥ }
{
    match asked_serve_of(alloc, matches) {
        Ok(asked) => Ok(Command::Serve { asked }),
        Err(fault) => Err(fault),
    }
}

/// `serve SCHEMA CLIENTS --listen ADDR --upstream ADDR`
pub fn serve<'a>(alloc: Global, words: &'a [&'a str]) -> Result<Command, WordsFault>
    ensures found { IfOk result (AsksServe (map (λ s. s.now) words.entry.now)) }
    ensures usage { result ≡ Err WordsFault.Usage → (command : CommandType) → AsksServe (map (λ s. s.now) words.entry.now) command → ⊥ }
{
    let Ok(command) = serve_command(alloc) else {
        return Err(WordsFault::Memory);
    };
    match matches_of(command, words) {
        Ok(matches) => serve_of(alloc, &matches),
        Err(fault) => Err(fault),
    }
}

// The number of requests.
fn requests_of(matches: &ArgMatches) -> Result<u32, WordsFault>
    ensures found { IfOk result (λ n. IsRequests (first_of (codes "requests") (rows_of (found_of matches.now))) n) }
    ensures usage { result ≡ Err WordsFault.Usage → (n : ℕ) → IsRequests (first_of (codes "requests") (rows_of (found_of matches.now))) n → ⊥ }
{
    match word_of(matches, "requests") {
        Some(word) => match number_of(word, GREATEST_EXERCISE) {
            Some(0) => Err(WordsFault::Usage),
            Some(number) => Ok(number),
            None => Err(WordsFault::Usage),
        },
        None => Err(WordsFault::Usage),
    }
}

// The exercise that words ask for.
fn exercise_of(matches: &ArgMatches) -> Result<Command, WordsFault>
    ensures found { IfOk result (GivesExercise (rows_of (found_of matches.now))) }
    ensures usage { result ≡ Err WordsFault.Usage → (command : CommandType) → GivesExercise (rows_of (found_of matches.now)) command → ⊥ }
{
    match requests_of(matches) {
        Ok(requests) => Ok(Command::Exercise { requests }),
        Err(fault) => Err(fault),
    }
}

/// `exercise N`
pub fn exercise<'a>(alloc: Global, words: &'a [&'a str]) -> Result<Command, WordsFault>
    ensures found { IfOk result (AsksExercise (map (λ s. s.now) words.entry.now)) }
    ensures usage { result ≡ Err WordsFault.Usage → (command : CommandType) → AsksExercise (map (λ s. s.now) words.entry.now) command → ⊥ }
{
    let Ok(command) = exercise_command(alloc) else {
        return Err(WordsFault::Memory);
    };
    match matches_of(command, words) {
        Ok(matches) => exercise_of(&matches),
        Err(fault) => Err(fault),
    }
}

// The migration that words ask for.
fn migrate_of(alloc: Global, matches: &ArgMatches) -> Result<Command, WordsFault>
    ensures found { IfOk result (GivesMigrate (rows_of (found_of matches.now))) }
    ensures usage { result ≡ Err WordsFault.Usage → (command : CommandType) → GivesMigrate (rows_of (found_of matches.now)) command → ⊥ }
{
    match place_text(alloc, matches, "clients") {
        Ok(clients) => Ok(Command::Migrate { clients }),
        Err(fault) => Err(fault),
    }
}

/// `migrate CLIENTS`
pub fn migrate<'a>(alloc: Global, words: &'a [&'a str]) -> Result<Command, WordsFault>
    ensures found { IfOk result (AsksMigrate (map (λ s. s.now) words.entry.now)) }
    ensures usage { result ≡ Err WordsFault.Usage → (command : CommandType) → AsksMigrate (map (λ s. s.now) words.entry.now) command → ⊥ }
{
    let Ok(command) = migrate_command(alloc) else {
        return Err(WordsFault::Memory);
    };
    match matches_of(command, words) {
        Ok(matches) => migrate_of(alloc, &matches),
        Err(fault) => Err(fault),
    }
}
