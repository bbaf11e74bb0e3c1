//! The texts of why an operation isn't answered from the gateway's own schema.

ghost use Rattle.std.specs.Prelude.{◌≡◌, IfOk, codes};
ghost use Rattle.acceptance.specs.Texts.{beside, naming};
ghost use Rattle.local_introspection.specs.LocalTexts.{local_rule_text, local_variable_text, local_plan_text, local_text};

use crate::fault::LocalFault;
use acceptance::texts::{beside, named, placed};
use acceptance::{PlanFault, told_of_argument, told_of_size};
use document_rules::{Rule, RuleFault};
use gql_base::Text;
use std::alloc::{AllocError, Global};
use variable_coercion::CoerceFault;

fn with_name(alloc: Global, text: &str, name: &Text) -> Result<Text, AllocError>
    ensures { IfOk result (λ told. told ≡ naming text.now name.now) }
{
    Ok(Text::from(named(alloc, text, name)?))
}

fn with_text(alloc: Global, text: &str, name: &Text, told: &Text) -> Result<Text, AllocError>
    ensures { IfOk result (λ whole. whole ≡ beside (naming text.now name.now) told.now) }
{
    let front = named(alloc, text, name)?;
    Ok(Text::from(beside(alloc, front.as_str(), told.as_str())?))
}

fn told_of_breach(alloc: Global, rule: Rule, at: usize) -> Result<Text, AllocError>
    ensures { IfOk result (λ told. told ≡ local_rule_text (RuleFault.Broken rule at)) }
{
    let numbered = placed(alloc, "local 2 Rule", rule.number() as usize)?;
    let whole = beside(alloc, numbered.as_str(), rule.name())?;
    Ok(Text::from(placed(alloc, whole.as_str(), at)?))
}

fn told_of_rule(alloc: Global, fault: RuleFault) -> Result<Text, AllocError>
    ensures { IfOk result (λ told. told ≡ local_rule_text fault) }
{
    match fault {
        RuleFault::Broken { rule, at } => told_of_breach(alloc, rule, at),
        RuleFault::Memory => Text::copy_of(alloc, ""),
    }
}

fn told_of_variable(alloc: Global, fault: &CoerceFault) -> Result<Text, AllocError>
    ensures { IfOk result (λ told. told ≡ local_variable_text fault.now) }
{
    match fault {
        CoerceFault::Missing { name } => with_name(alloc, "local 3 Variable 1 Missing", name),
        CoerceFault::BadValue { path } => with_name(alloc, "local 3 Variable 2 BadValue", path),
        CoerceFault::TooLarge { name } => with_name(alloc, "local 3 Variable 3 TooLarge", name),
        CoerceFault::Memory => Text::copy_of(alloc, ""),
    }
}

fn told_of_plan(alloc: Global, fault: &PlanFault) -> Result<Text, AllocError>
    ensures { IfOk result (λ told. told ≡ local_plan_text fault.now) }
{
    match fault {
        PlanFault::Argument { at, fault } => {
            let told = told_of_argument(alloc, fault)?;
            with_text(alloc, "local 4 Plan 1 Argument", at, &told)
        }
        PlanFault::Conflict { at } => with_name(alloc, "local 4 Plan 2 Conflict", at),
        PlanFault::Size { at, fault } => {
            let told = told_of_size(alloc, *fault)?;
            with_text(alloc, "local 4 Plan 3 Size", at, &told)
        }
        PlanFault::NoPossibleType { at } => with_name(alloc, "local 4 Plan 4 NoPossibleType", at),
        PlanFault::TooLarge => Text::copy_of(alloc, "local 4 Plan 5 TooLarge"),
        PlanFault::TooDeep { at } => with_name(alloc, "local 4 Plan 6 TooDeep", at),
        PlanFault::Memory => Text::copy_of(alloc, ""),
    }
}

fn told_of_mixed(alloc: Global, at: usize) -> Result<Text, AllocError>
    ensures { IfOk result (λ told. told ≡ local_text (LocalFault.Mixed at)) }
{
    Ok(Text::from(placed(alloc, "local 1 Mixed", at)?))
}

/// The text of why an operation isn't answered: the stage, the number of the fault, its name and what it holds.
pub fn local_text(alloc: Global, fault: &LocalFault) -> Result<Text, AllocError>
    ensures { IfOk result (λ told. told ≡ local_text fault.now) }
{
    match fault {
        LocalFault::Mixed { at } => told_of_mixed(alloc, *at),
        LocalFault::Rule(fault) => told_of_rule(alloc, *fault),
        LocalFault::Variable(fault) => told_of_variable(alloc, fault),
        LocalFault::Plan(fault) => told_of_plan(alloc, fault),
        LocalFault::TooLarge => Text::copy_of(alloc, "local 5 TooLarge"),
        LocalFault::Memory => Text::copy_of(alloc, ""),
    }
}
