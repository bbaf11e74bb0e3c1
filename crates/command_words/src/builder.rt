//! The simple commands of clap, one word after another.

ghost use Rattle.std.specs.Prelude.{◌≡◌, IfOk, false, codes};
ghost use Rattle.clap.specs.Simple.{app_of, with_rule};
ghost use Rattle.clap.specs.Walk.{rule_of};
ghost use Rattle.command_words.specs.Apps.{with_files, with_options, with_gateway, with_serving, with_lasting, with_list, with_telling, with_work, check_app, price_app, explain_app, audit_app, introspect_app, worst_app, forward_app, meter_app, replay_app, serve_app, exercise_app, migrate_app};

use clap::{Arg, ArgAction, Command};
use std::alloc::{AllocError, Global};

// A word that must stand.
fn place<'a>(alloc: Global, id: &'a str) -> Arg<'a>
    ensures rule { rule_of result ≡ Rattle.command_words.specs.Apps.place id.entry.now }
    ensures local { result.global ≡ false }
{
    Arg::new(alloc, id).required(true).action(ArgAction::Set)
}

// `--` and this, with a value.
fn option<'a>(alloc: Global, id: &'a str) -> Arg<'a>
    ensures rule { rule_of result ≡ Rattle.command_words.specs.Apps.option id.entry.now }
    ensures local { result.global ≡ false }
{
    Arg::new(alloc, id).long(id).action(ArgAction::Set)
}

// `--` and this, with a value; it must stand.
fn required_option<'a>(alloc: Global, id: &'a str) -> Arg<'a>
    ensures rule { rule_of result ≡ Rattle.command_words.specs.Apps.required_option id.entry.now }
    ensures local { result.global ≡ false }
{
    Arg::new(alloc, id)
        .long(id)
        .required(true)
        .action(ArgAction::Set)
}

// `--` and this, without a value.
fn flag<'a>(alloc: Global, id: &'a str) -> Arg<'a>
    ensures rule { rule_of result ≡ Rattle.command_words.specs.Apps.flag id.entry.now }
    ensures local { result.global ≡ false }
{
    Arg::new(alloc, id).long(id).action(ArgAction::SetTrue)
}

// `--` and this, with a value; it may stand several times.
fn repeated_option<'a>(alloc: Global, id: &'a str) -> Arg<'a>
    ensures rule { rule_of result ≡ Rattle.command_words.specs.Apps.repeated_option id.entry.now }
    ensures local { result.global ≡ false }
{
    Arg::new(alloc, id).long(id).action(ArgAction::Append)
}

// A word that may stand.
fn maybe_place<'a>(alloc: Global, id: &'a str) -> Arg<'a>
    ensures rule { rule_of result ≡ Rattle.command_words.specs.Apps.maybe_place id.entry.now }
    ensures local { result.global ≡ false }
{
    Arg::new(alloc, id).action(ArgAction::Set)
}

// Words that must stand, one or more, also on both sides of an option.
fn places<'a>(alloc: Global, id: &'a str) -> Arg<'a>
    ensures rule { rule_of result ≡ Rattle.command_words.specs.Apps.places id.entry.now }
    ensures local { result.global ≡ false }
{
    place(alloc, id).num_args(1..).action(ArgAction::Append)
}

// `--` and this, with two values.
fn pair_option<'a>(alloc: Global, id: &'a str) -> Arg<'a>
    ensures rule { rule_of result ≡ Rattle.command_words.specs.Apps.pair_option id.entry.now }
    ensures local { result.global ≡ false }
{
    option(alloc, id).num_args(2)
}

// A command without words so far.
fn top<'a>(alloc: Global, name: &'a str) -> Command<'a>
    ensures { app_of result ≡ Rattle.command_words.specs.Apps.top name.entry.now }
{
    Command::new(alloc, name)
        .no_binary_name(true)
        .disable_help_flag(true)
}

fn with<'a>(command: Command<'a>, arg: Arg<'a>) -> Result<Command<'a>, AllocError>
    requires { arg.global ≡ false }
    ensures { IfOk result (λ c. app_of c ≡ with_rule (app_of command.entry) (rule_of arg.entry)) }
{
    command.arg(arg)
}

// A word that must stand behind those of the command.
fn with_place<'a>(
    alloc: Global,
    command: Command<'a>,
    id: &'a str,
) -> Result<Command<'a>, AllocError>
    ensures { IfOk result (λ c. app_of c ≡ with_rule (app_of command.entry) (Rattle.command_words.specs.Apps.place id.entry.now)) }
{
    with(command, place(alloc, id))
}

// An option beside those of the command.
fn with_option<'a>(
    alloc: Global,
    command: Command<'a>,
    id: &'a str,
) -> Result<Command<'a>, AllocError>
    ensures { IfOk result (λ c. app_of c ≡ with_rule (app_of command.entry) (Rattle.command_words.specs.Apps.option id.entry.now)) }
{
    with(command, option(alloc, id))
}

// An option that must stand, beside those of the command.
fn with_required_option<'a>(
    alloc: Global,
    command: Command<'a>,
    id: &'a str,
) -> Result<Command<'a>, AllocError>
    ensures { IfOk result (λ c. app_of c ≡ with_rule (app_of command.entry) (Rattle.command_words.specs.Apps.required_option id.entry.now)) }
{
    with(command, required_option(alloc, id))
}

// A flag beside the options of the command.
fn with_flag<'a>(
    alloc: Global,
    command: Command<'a>,
    id: &'a str,
) -> Result<Command<'a>, AllocError>
    ensures { IfOk result (λ c. app_of c ≡ with_rule (app_of command.entry) (Rattle.command_words.specs.Apps.flag id.entry.now)) }
{
    with(command, flag(alloc, id))
}

// An option that may stand several times, beside those of the command.
fn with_repeated_option<'a>(
    alloc: Global,
    command: Command<'a>,
    id: &'a str,
) -> Result<Command<'a>, AllocError>
    ensures { IfOk result (λ c. app_of c ≡ with_rule (app_of command.entry) (Rattle.command_words.specs.Apps.repeated_option id.entry.now)) }
{
    with(command, repeated_option(alloc, id))
}

// The files of an operation.
fn with_files<'a>(alloc: Global, command: Command<'a>) -> Result<Command<'a>, AllocError>
    ensures { IfOk result (λ c. app_of c ≡ with_files (app_of command.entry)) }
{
    let command = with_place(alloc, command, "schema")?;
    with_place(alloc, command, "document")
}

// How many steps an operation may take.
fn with_work<'a>(alloc: Global, command: Command<'a>) -> Result<Command<'a>, AllocError>
    ensures { IfOk result (λ c. app_of c ≡ with_work (app_of command.entry)) }
{
    with_option(alloc, command, "most-work")
}

// How an operation is asked for.
fn with_options<'a>(alloc: Global, command: Command<'a>) -> Result<Command<'a>, AllocError>
    ensures { IfOk result (λ c. app_of c ≡ with_options (app_of command.entry)) }
{
    let command = with_option(alloc, command, "variables")?;
    let command = with_option(alloc, command, "operation")?;
    let command = with_option(alloc, command, "unsized")?;
    with_work(alloc, command)
}

// The files of a gateway, and the addresses on both sides of it.
fn with_gateway<'a>(alloc: Global, command: Command<'a>) -> Result<Command<'a>, AllocError>
    ensures { IfOk result (λ c. app_of c ≡ with_gateway (app_of command.entry)) }
{
    let command = with_place(alloc, command, "schema")?;
    let command = with_place(alloc, command, "clients")?;
    let command = with_required_option(alloc, command, "listen")?;
    with_required_option(alloc, command, "upstream")
}

// How it is served.
fn with_serving<'a>(alloc: Global, command: Command<'a>) -> Result<Command<'a>, AllocError>
    ensures { IfOk result (λ c. app_of c ≡ with_serving (app_of command.entry)) }
{
    let command = with_option(alloc, command, "target")?;
    let command = with_option(alloc, command, "workers")?;
    let command = with_option(alloc, command, "connections")?;
    with_option(alloc, command, "unsized")
}

// How it is served for weeks.
fn with_lasting<'a>(alloc: Global, command: Command<'a>) -> Result<Command<'a>, AllocError>
    ensures { IfOk result (λ c. app_of c ≡ with_lasting (app_of command.entry)) }
{
    let command = with_flag(alloc, command, "endless")?;
    let command = with_option(alloc, command, "idle")?;
    let command = with_option(alloc, command, "stop")?;
    with_option(alloc, command, "journal")
}

// The list of trusted documents.
fn with_list<'a>(alloc: Global, command: Command<'a>) -> Result<Command<'a>, AllocError>
    ensures { IfOk result (λ c. app_of c ≡ with_list (app_of command.entry)) }
{
    let command = with_option(alloc, command, "trusted")?;
    with_flag(alloc, command, "trusted-only")
}

// What is told to the upstream of a client's request, and to the client of its account and of the schema.
fn with_telling<'a>(alloc: Global, command: Command<'a>) -> Result<Command<'a>, AllocError>
    ensures { IfOk result (λ c. app_of c ≡ with_telling (app_of command.entry)) }
{
    let command = with_repeated_option(alloc, command, "pass")?;
    let command = with_flag(alloc, command, "hints")?;
    with_option(alloc, command, "most-answer")
}

/// `check SCHEMA`
pub fn check_command<'a>(alloc: Global) -> Result<Command<'a>, AllocError>
    ensures { IfOk result (λ c. app_of c ≡ check_app) }
{
    with_place(alloc, top(alloc, "check"), "schema")
}

/// `price SCHEMA DOCUMENT`
pub fn price_command<'a>(alloc: Global) -> Result<Command<'a>, AllocError>
    ensures { IfOk result (λ c. app_of c ≡ price_app) }
{
    let command = with_files(alloc, top(alloc, "price"))?;
    with_options(alloc, command)
}

/// `explain SCHEMA`, and perhaps DOCUMENT
pub fn explain_command<'a>(alloc: Global) -> Result<Command<'a>, AllocError>
    ensures { IfOk result (λ c. app_of c ≡ explain_app) }
{
    let command = with_place(alloc, top(alloc, "explain"), "schema")?;
    let command = with(command, maybe_place(alloc, "document"))?;
    with_options(alloc, command)
}

/// `audit SCHEMA DOCUMENT..`
pub fn audit_command<'a>(alloc: Global) -> Result<Command<'a>, AllocError>
    ensures { IfOk result (λ c. app_of c ≡ audit_app) }
{
    let command = with_place(alloc, top(alloc, "audit"), "schema")?;
    let command = with(command, places(alloc, "documents"))?;
    let command = with(command, pair_option(alloc, "most"))?;
    let command = with_option(alloc, command, "unsized")?;
    let command = with(command, flag(alloc, "variables-none"))?;
    with_work(alloc, command)
}

/// `introspect SCHEMA DOCUMENT`
pub fn introspect_command<'a>(alloc: Global) -> Result<Command<'a>, AllocError>
    ensures { IfOk result (λ c. app_of c ≡ introspect_app) }
{
    let command = with_files(alloc, top(alloc, "introspect"))?;
    let command = with_option(alloc, command, "variables")?;
    let command = with_option(alloc, command, "operation")?;
    with_work(alloc, command)
}

/// `worst SCHEMA DOCUMENT PART`
pub fn worst_command<'a>(alloc: Global) -> Result<Command<'a>, AllocError>
    ensures { IfOk result (λ c. app_of c ≡ worst_app) }
{
    let command = with_files(alloc, top(alloc, "worst"))?;
    let command = with_place(alloc, command, "part")?;
    with_options(alloc, command)
}

/// `forward SCHEMA DOCUMENT`
pub fn forward_command<'a>(alloc: Global) -> Result<Command<'a>, AllocError>
    ensures { IfOk result (λ c. app_of c ≡ forward_app) }
{
    let command = with_files(alloc, top(alloc, "forward"))?;
    with_options(alloc, command)
}

/// `meter SCHEMA DOCUMENT REPLY`
pub fn meter_command<'a>(alloc: Global) -> Result<Command<'a>, AllocError>
    ensures { IfOk result (λ c. app_of c ≡ meter_app) }
{
    let command = with_files(alloc, top(alloc, "meter"))?;
    let command = with_place(alloc, command, "reply")?;
    with_options(alloc, command)
}

/// `replay SCHEMA CLIENTS SCRIPT`
pub fn replay_command<'a>(alloc: Global) -> Result<Command<'a>, AllocError>
    ensures { IfOk result (λ c. app_of c ≡ replay_app) }
{
    let command = with_place(alloc, top(alloc, "replay"), "schema")?;
    let command = with_place(alloc, command, "clients")?;
    let command = with_place(alloc, command, "script")?;
    let command = with_option(alloc, command, "unsized")?;
    let command = with_list(alloc, command)?;
    with_work(alloc, command)
}

/// `serve SCHEMA CLIENTS --listen ADDR --upstream ADDR`
pub fn serve_command<'a>(alloc: Global) -> Result<Command<'a>, AllocError>
    ensures { IfOk result (λ c. app_of c ≡ serve_app) }
{
    let command = with_gateway(alloc, top(alloc, "serve"))?;
    let command = with_serving(alloc, command)?;
    let command = with_lasting(alloc, command)?;
    let command = with_list(alloc, command)?;
    let command = with_telling(alloc, command)?;
    with_work(alloc, command)
}

/// `exercise N`
pub fn exercise_command<'a>(alloc: Global) -> Result<Command<'a>, AllocError>
    ensures { IfOk result (λ c. app_of c ≡ exercise_app) }
{
    with_place(alloc, top(alloc, "exercise"), "requests")
}

/// `migrate CLIENTS`
pub fn migrate_command<'a>(alloc: Global) -> Result<Command<'a>, AllocError>
    ensures { IfOk result (λ c. app_of c ≡ migrate_app) }
{
    with_place(alloc, top(alloc, "migrate"), "clients")
}
