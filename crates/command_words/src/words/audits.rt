//! The audit that words ask for.

ghost use Rattle.std.specs.Prelude.{◌≡◌, IfOk, IfSome, IfNone, Err, Some, Option, List, map, codes, ℕ};
ghost use Rattle.clap.specs.Walk.{rows_of, all_of};
ghost use Rattle.clap.specs.Matches.{found_of};
ghost use Rattle.cost_num.specs.Amount.{IsAmount};
ghost use Rattle.cost_num.specs.declared.Cost.{Cost as CostType};
ghost use Rattle.command_words.specs.declared.command.AskedAudit.{AskedAudit as AskedAuditType};
ghost use Rattle.command_words.specs.Words.{IsMost, GivesAskedAudit};

use crate::command::{AskedAudit, WordsFault};
use crate::words::asked::{most_work_of, place_text, undeclared_of};
use crate::words::matches::{copies_of, words_of};
use clap::ArgMatches;
use cost_num::{CAP, Cost, read_allowance};
use gql_base::Text;
use std::alloc::Global;

// The amount that a word is.
fn amount_of(word: &str) -> Option<u64>
    ensures some { IfSome result (IsAmount CAP word.now) }
    ensures none { IfNone result ((n : ℕ) → IsAmount CAP word.now n → ⊥) }
{
    match read_allowance(word) {
        Ok(amount) => Some(amount),
        Err(_) => None,
    }
}

// The cost that two words are.
fn cost_of(types: &str, fields: &str) -> Option<Cost>
    ensures some { IfSome result (λ most. IsAmount CAP types.now most.types × IsAmount CAP fields.now most.fields) }
    ensures none { IfNone result ((most : CostType) → IsAmount CAP types.now most.types → IsAmount CAP fields.now most.fields → ⊥) }
{
    match (amount_of(types), amount_of(fields)) {
        (Some(types), Some(fields)) => Some(Cost { types, fields }),
        _ => None,
    }
}

// What an operation may cost at most, by the words that say so.
fn most_in(words: &[&str]) -> Result<Option<Cost>, WordsFault>
    ensures found { IfOk result (IsMost (Some (map (λ s. s.now) words.now))) }
    ensures usage { result ≡ Err WordsFault.Usage → (most : Option CostType) → IsMost (Some (map (λ s. s.now) words.now)) most → ⊥ }
{
    let [types, fields] = words else {
        return Err(WordsFault::Usage);
    };
    match cost_of(types, fields) {
        Some(most) => Ok(Some(most)),
        None => Err(WordsFault::Usage),
    }
}

// What an operation may cost at most, where that is said.
fn most_of(matches: &ArgMatches) -> Result<Option<Cost>, WordsFault>
    ensures found { IfOk result (IsMost (all_of (codes "most") (rows_of (found_of matches.now)))) }
    ensures usage { result ≡ Err WordsFault.Usage → (most : Option CostType) → IsMost (all_of (codes "most") (rows_of (found_of matches.now))) most → ⊥ }
{
    match words_of(matches, "most") {
        Some(words) => most_in(words),
        None => Ok(None),
    }
}

// The files of the documents.
fn documents_of(alloc: Global, matches: &ArgMatches) -> Result<Vec<Text>, WordsFault>
    ensures found { IfOk result (λ names. all_of (codes "documents") (rows_of (found_of matches.now)) ≡ Some names.items) }
    ensures usage { result ≡ Err WordsFault.Usage → (names : List (List ℕ)) → all_of (codes "documents") (rows_of (found_of matches.now)) ≡ Some names → ⊥ }
{
    match words_of(matches, "documents") {
        Some(words) => match copies_of(alloc, words) {
            Ok(names) => Ok(names),
            Err(_) => Err(WordsFault::Memory),
        },
        None => Err(WordsFault::Usage),
    }
}

/// The audit that words ask for.
pub fn asked_audit_of(alloc: Global, matches: &ArgMatches) -> Result<AskedAudit, WordsFault>
    ensures found { IfOk result (GivesAskedAudit (rows_of (found_of matches.now))) }
    ensures usage { result ≡ Err WordsFault.Usage → (asked : AskedAuditType) → GivesAskedAudit (rows_of (found_of matches.now)) asked → ⊥ }
{
    let most = match most_of(matches) {
        Ok(most) => most,
        Err(fault) => return Err(fault),
    };
    let undeclared = match undeclared_of(matches) {
        Ok(undeclared) => undeclared,
        Err(fault) => return Err(fault),
    };
    let most_work = match most_work_of(matches) {
        Ok(most_work) => most_work,
        Err(fault) => return Err(fault),
    };
    let schema = match place_text(alloc, matches, "schema") {
        Ok(schema) => schema,
        Err(fault) => return Err(fault),
    };
    match documents_of(alloc, matches) {
        Ok(documents) => Ok(AskedAudit {
            schema,
            documents,
            most,
            undeclared,
            most_work,
        }),
        Err(fault) => Err(fault),
    }
}
