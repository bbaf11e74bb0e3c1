//! Words as a command.

ghost use Rattle.std.specs.Prelude.{◌≡◌, IfOk, Err, IsSome, map, List, []};
ghost use Rattle.command_words.specs.declared.command.Command.{Command as CommandType};
ghost use Rattle.command_words.specs.Words.{AsksAfter, Asks, ServesWithinLimits, IsNoCommand};

use crate::command::{Command, WordsFault};
use crate::words::commands::{
    audit, check, exercise, explain, forward, introspect, meter, migrate, price, replay, serve,
    worst,
};
use gql_base::Text;
use std::alloc::{AllocError, Global};

// Texts as the standard library has them.
fn texts_of(alloc: Global, words: &[Text]) -> Result<Vec<&str>, AllocError>
    ensures { IfOk result (λ texts. map (λ s. s.now) texts.items ≡ words.now) }
{
    let mut texts = Vec::new(alloc);
    'words: for word in words {
        texts.push(word.as_str()).map_err(|_| AllocError)?;
    }
    Ok(texts)
}

// The command of this name that the words behind it ask for.
fn named_command<'a>(alloc: Global, name: &str, words: &'a [&'a str]) -> Result<Command, WordsFault>
    ensures found { IfOk result (AsksAfter name.now (map (λ s. s.now) words.entry.now)) }
    ensures usage { result ≡ Err WordsFault.Usage → (command : CommandType) → AsksAfter name.now (map (λ s. s.now) words.entry.now) command → ⊥ }
{
    match name {
        "check" => check(alloc, words),
        "price" => price(alloc, words),
        "explain" => explain(alloc, words),
        "audit" => audit(alloc, words),
        "introspect" => introspect(alloc, words),
        "worst" => worst(alloc, words),
        "forward" => forward(alloc, words),
        "meter" => meter(alloc, words),
        "replay" => replay(alloc, words),
        "serve" => serve(alloc, words),
        "exercise" => exercise(alloc, words),
        "migrate" => migrate(alloc, words),
        "--help" if words.is_empty() => Ok(Command::Help),
        "--version" if words.is_empty() => Ok(Command::Version),
        _ => Err(WordsFault::Usage),
    }
}

/// The command that words ask for.
pub fn command_of(alloc: Global, words: &[Text]) -> Result<Command, WordsFault>
    ensures asked { IfOk result (Asks words.now) }
    ensures limits { IfOk result ServesWithinLimits }
    ensures usage { result ≡ Err WordsFault.Usage → IsNoCommand words.now }
{
    let Some((name, others)) = words.split_first() else {
        return Err(WordsFault::Usage);
    };
    let Ok(texts) = texts_of(alloc, others) else {
        return Err(WordsFault::Memory);
    };
    named_command(alloc, name.as_str(), texts.as_slice())
}
