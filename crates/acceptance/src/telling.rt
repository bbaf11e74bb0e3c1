//! The texts of refusals.

ghost use Rattle.std.specs.Prelude.{◌≡◌, ◌++◌, IfOk, codes};
ghost use Rattle.acceptance.specs.Texts.{lexical_text, document_text, pick_text, broken_text, rule_text, variable_text, argument_text, size_text, plan_text, costly_text, refusal_text};

use crate::fault::Refusal;
use crate::texts::{beside, lexical_place, named, numbered, placed, placed_in};
use cost_directives::SizeFault;
use document_reader::{DocFault, PickFault};
use document_rules::{Rule, RuleFault};
use gql_base::{LexFault, Text};
use merged_selections::PlanFault;
use static_cost::TooCostly;
use std::alloc::{AllocError, Global};
use variable_coercion::{ArgFault, CoerceFault};

fn at_place(alloc: Global, text: &str, at: usize) -> Result<Text, AllocError>
    ensures { IfOk result (λ told. told ≡ Rattle.acceptance.specs.Texts.placed text.now at) }
{
    Ok(Text::from(placed(alloc, text, at)?))
}

fn with_name(alloc: Global, text: &str, name: &Text) -> Result<Text, AllocError>
    ensures { IfOk result (λ told. told ≡ Rattle.acceptance.specs.Texts.naming text.now name.now) }
{
    Ok(Text::from(named(alloc, text, name)?))
}

fn with_text(alloc: Global, text: &str, name: &Text, told: &Text) -> Result<Text, AllocError>
    ensures { IfOk result (λ whole. whole ≡ Rattle.acceptance.specs.Texts.beside (Rattle.acceptance.specs.Texts.naming text.now name.now) told.now) }
{
    let front = named(alloc, text, name)?;
    Ok(Text::from(beside(alloc, front.as_str(), told.as_str())?))
}

// What is wrong with the tokens of a document.
fn told_of_tokens(alloc: Global, fault: LexFault) -> Result<Text, AllocError>
    ensures { IfOk result (λ told. told ≡ codes "document " ++ lexical_text fault) }
{
    match lexical_place(fault) {
        Some((text, at)) => Ok(Text::from(placed_in(alloc, "document ", text, at)?)),
        None => Text::copy_of(alloc, "document "),
    }
}

fn told_of_document(alloc: Global, fault: DocFault) -> Result<Text, AllocError>
    ensures { IfOk result (λ told. told ≡ document_text fault) }
{
    match fault {
        DocFault::Lex(fault) => told_of_tokens(alloc, fault),
        DocFault::Unexpected { at } => at_place(alloc, "document 2 Unexpected", at),
        DocFault::TooDeep { at } => at_place(alloc, "document 3 TooDeep", at),
        DocFault::Memory => Text::copy_of(alloc, ""),
    }
}

fn told_of_picking(alloc: Global, fault: PickFault) -> Result<Text, AllocError>
    ensures { IfOk result (λ told. told ≡ pick_text fault) }
{
    match fault {
        PickFault::NoOperation => Text::copy_of(alloc, "pick 1 NoOperation"),
        PickFault::Several { count } => at_place(alloc, "pick 2 Several", count),
        PickFault::NotThere => Text::copy_of(alloc, "pick 3 NotThere"),
    }
}

// A rule that is broken, by its number and name, and where.
fn told_of_breach(alloc: Global, rule: Rule, at: usize) -> Result<Text, AllocError>
    ensures { IfOk result (λ told. told ≡ broken_text rule at) }
{
    let number = rule.number();
    let name = rule.name();
    Ok(Text::from(format!(in alloc; "rule {number} {name} {at}")?))
}

fn told_of_rule(alloc: Global, fault: RuleFault) -> Result<Text, AllocError>
    ensures { IfOk result (λ told. told ≡ rule_text fault) }
{
    match fault {
        RuleFault::Broken { rule, at } => told_of_breach(alloc, rule, at),
        RuleFault::Memory => Text::copy_of(alloc, ""),
    }
}

fn told_of_variable(alloc: Global, fault: &CoerceFault) -> Result<Text, AllocError>
    ensures { IfOk result (λ told. told ≡ variable_text fault.now) }
{
    match fault {
        CoerceFault::Missing { name } => with_name(alloc, "variable 1 Missing", name),
        CoerceFault::BadValue { path } => with_name(alloc, "variable 2 BadValue", path),
        CoerceFault::TooLarge { name } => with_name(alloc, "variable 3 TooLarge", name),
        CoerceFault::Memory => Text::copy_of(alloc, ""),
    }
}

/// Which argument is refused.
pub fn told_of_argument(alloc: Global, fault: &ArgFault) -> Result<Text, AllocError>
    ensures { IfOk result (λ told. told ≡ argument_text fault.now) }
{
    match fault {
        ArgFault::Missing { name } => with_name(alloc, "1 Missing", name),
        ArgFault::BadValue { name } => with_name(alloc, "2 BadValue", name),
        ArgFault::TooLarge { name } => with_name(alloc, "3 TooLarge", name),
        ArgFault::Memory => Text::copy_of(alloc, ""),
    }
}

/// Why a list has no size.
pub fn told_of_size(alloc: Global, fault: SizeFault) -> Result<Text, AllocError>
    ensures { IfOk result (λ told. told ≡ size_text fault) }
{
    match fault {
        SizeFault::SlicingCount { count } => at_place(alloc, "1 SlicingCount", count),
        SizeFault::NegativeSlice { value } => {
            Ok(Text::from(numbered(alloc, "2 NegativeSlice", value)?))
        }
    }
}

// An argument of the node at a path that is refused.
fn told_of_node_argument(alloc: Global, at: &Text, fault: &ArgFault) -> Result<Text, AllocError>
    ensures { IfOk result (λ told. told ≡ plan_text (PlanFault.Argument at.now fault.now)) }
{
    let told = told_of_argument(alloc, fault)?;
    with_text(alloc, "plan 1 Argument", at, &told)
}

// Why the node at a path has no size.
fn told_of_node_size(alloc: Global, at: &Text, fault: SizeFault) -> Result<Text, AllocError>
    ensures { IfOk result (λ told. told ≡ plan_text (PlanFault.Size at.now fault)) }
{
    let told = told_of_size(alloc, fault)?;
    with_text(alloc, "plan 3 Size", at, &told)
}

fn told_of_plan(alloc: Global, fault: &PlanFault) -> Result<Text, AllocError>
    ensures { IfOk result (λ told. told ≡ plan_text fault.now) }
{
    match fault {
        PlanFault::Argument { at, fault } => told_of_node_argument(alloc, at, fault),
        PlanFault::Conflict { at } => with_name(alloc, "plan 2 Conflict", at),
        PlanFault::Size { at, fault } => told_of_node_size(alloc, at, *fault),
        PlanFault::NoPossibleType { at } => with_name(alloc, "plan 4 NoPossibleType", at),
        PlanFault::TooLarge => Text::copy_of(alloc, "plan 5 TooLarge"),
        PlanFault::TooDeep { at } => with_name(alloc, "plan 6 TooDeep", at),
        PlanFault::Memory => Text::copy_of(alloc, ""),
    }
}

fn told_of_cost(alloc: Global, fault: TooCostly) -> Result<Text, AllocError>
    ensures { IfOk result (λ told. told ≡ costly_text fault.types fault.fields) }
{
    match (fault.types, fault.fields) {
        (true, true) => Text::copy_of(alloc, "bound 1 TooCostly both"),
        (true, false) => Text::copy_of(alloc, "bound 1 TooCostly types"),
        (false, _) => Text::copy_of(alloc, "bound 1 TooCostly fields"),
    }
}

/// The text of a refusal: the stage, the number of the fault, its name and what it holds.
pub fn refusal_text(alloc: Global, refusal: &Refusal) -> Result<Text, AllocError>
    ensures { IfOk result (λ told. told ≡ refusal_text refusal.now) }
{
    match refusal {
        Refusal::Document(fault) => told_of_document(alloc, *fault),
        Refusal::Pick(fault) => told_of_picking(alloc, *fault),
        Refusal::Rule(fault) => told_of_rule(alloc, *fault),
        Refusal::Variable(fault) => told_of_variable(alloc, fault),
        Refusal::Plan(fault) => told_of_plan(alloc, fault),
        Refusal::Bound(fault) => told_of_cost(alloc, *fault),
    }
}
