//! The answer to an operation that asks for the gateway's own schema, counted stage by stage, and then written.

ghost use Rattle.std.specs.Prelude.{◌≡◌, IfOk, IfErr};
ghost use Rattle.serde_json.specs.View.{view};
ghost use Rattle.schema_model.specs.SchemaViews.{schema_data};
ghost use Rattle.acceptance.specs.PassedOn.{IsWithin};
ghost use Rattle.document_rules.specs.Checking.{IsChecked};
ghost use Rattle.variable_coercion.specs.Calls.{variables_data};
ghost use Rattle.operation_class.specs.declared.classes.Class.TheVariants.{Local as LocalClass};
ghost use Rattle.operation_class.specs.Classes.{class_at};
ghost use Rattle.local_introspection.specs.LocalRequests.{local_request, IsLocal, IsCheckFor, AreValues};
ghost use Rattle.local_introspection.specs.LocalAnswers.{IsAnsweredWith, IsRefusedFor, TellsRule, TellsVariable, TellsPlan};
ghost use Rattle.local_introspection.specs.LocalStages.{ask_data, IsPlannedOver, AreAsked, stop_told};
ghost use Rattle.meta_schema.specs.PassedOn.{asked_nodes};
ghost use Rattle.schema_facts.specs.FactsViews.{facts_data};
ghost use Rattle.local_introspection.specs.Measuring.{TellsLength, IsSized};
ghost use Rattle.local_introspection.specs.Counted.{answer_at, answer_counted};

use crate::counting::{Stop, count_answer};
use crate::facts::Facts;
use crate::fault::LocalFault;
use crate::measuring::measure_answer;
use crate::walk::{Local, write_answer};
use acceptance::{PlanFault, build_plan};
use cost_num::Cost;
use counted_work::Work;
use document_reader::Document;
use document_rules::{Checked, RuleFault, check};
use meta_schema::{AskedNode, a_meta_schema_has_its_form, ask, responses_to_what_is_asked};
use plan_table::Plan;
use serde_json::Value;
use std::alloc::{AllocError, Global};
use variable_coercion::{CoerceFault, Variables, coerce_variables, what_arguments_see};

// The operation that stands at a place of a document, with what is given for its variables.
#[derive(Clone, Copy)]
pub(crate) struct Asking<'a, 'd> {
    facts: &'a Facts,
    document: &'d Document,
    place: usize,
    given: &'a Value,
    work: Work<'a>,
}

// Which rule is broken.
fn rule_fault(fault: RuleFault) -> LocalFault
    ensures { TellsRule fault result }
{
    match fault {
        RuleFault::Memory => LocalFault::Memory,
        fault => LocalFault::Rule(fault),
    }
}

// Which variable is refused.
fn variable_fault(fault: CoerceFault) -> LocalFault
    ensures { TellsVariable fault result }
{
    match fault {
        CoerceFault::Memory => LocalFault::Memory,
        fault => LocalFault::Variable(fault),
    }
}

// Why there is no plan.
fn plan_fault(fault: PlanFault) -> LocalFault
    ensures { TellsPlan fault result }
{
    match fault {
        PlanFault::Memory => LocalFault::Memory,
        fault => LocalFault::Plan(fault),
    }
}

// Why the answer isn't finished.
fn stop_fault(stop: Stop) -> LocalFault
    ensures { result ≡ stop_told stop }
{
    match stop {
        Stop::TooLarge => LocalFault::TooLarge,
        Stop::Memory => LocalFault::Memory,
    }
}

// The operation that is asked for, where it breaks no rule.
fn checked<'d>(alloc: Global, of: &Asking<'_, 'd>) -> Result<Checked<'d>, LocalFault>
    requires local { IsLocal (ask_data of.now) }
    ensures of { IfOk result (IsCheckFor (ask_data of.now)) }
    ensures checked { IfOk result (IsChecked (schema_data of.now.facts.now.meta.schema)) }
    ensures refused { IfErr result (IsRefusedFor (ask_data of.now)) }
{
    match check(alloc, of.work, &of.facts.meta.schema, of.document, of.place) {
        Ok(checked) => Ok(checked),
        Err(fault) => Err(rule_fault(fault)),
    }
}

// The values of its variables.
fn valued(alloc: Global, of: &Asking, checked: &Checked) -> Result<Variables, LocalFault>
    requires of { IsCheckFor (ask_data of.now) checked.now }
    ensures values { IfOk result (λ vs. AreValues (ask_data of.now) checked.now.operation.now (variables_data vs)) }
    ensures refused { IfErr result (IsRefusedFor (ask_data of.now)) }
{
    match coerce_variables(
        alloc,
        of.work,
        &of.facts.meta.schema,
        checked.operation(),
        of.given,
    ) {
        Ok(variables) => Ok(variables),
        Err(fault) => Err(variable_fault(fault)),
    }
}

// Its plan.
fn planned<'f>(
    alloc: Global,
    of: &Asking<'f, '_>,
    checked: &Checked,
    variables: &Variables,
) -> Result<Plan<'f>, LocalFault>
    requires of { IsCheckFor (ask_data of.now) checked.now }
    requires checked { IsChecked (schema_data of.now.facts.now.meta.schema) checked.now }
    requires values { AreValues (ask_data of.now) checked.now.operation.now (variables_data variables.now) }
    ensures planned { IfOk result (λ _. IsPlannedOver of.now.facts.now checked.now variables.now) }
    ensures refused { IfErr result (IsRefusedFor (ask_data of.now)) }
{
    what_arguments_see();
    let meta = &of.facts.meta;
    match build_plan(
        alloc,
        of.work,
        &meta.schema,
        &meta.weights,
        checked,
        variables,
    ) {
        Ok(plan) => Ok(plan),
        Err(fault) => Err(plan_fault(fault)),
    }
}

// What it asks, node by node.
fn asked(
    alloc: Global,
    work: Work<'_>,
    facts: &Facts,
    checked: &Checked,
    variables: &Variables,
) -> Result<Vec<AskedNode>, AllocError>
    requires checked { IsChecked (schema_data facts.now.meta.schema) checked.now }
    ensures { IfOk result (λ nodes. AreAsked facts.now checked.now variables.now nodes.items) }
{
    let names = facts.known.types();
    let meta = &facts.meta;
    ask(
        alloc,
        work,
        names,
        &meta.schema,
        &meta.weights,
        checked,
        variables,
    )
}

// Whether the text of the answer is longer than it may be. Where nothing is said of that, no text is looked at.
fn fits(alloc: Global, facts: &Facts, nodes: &[AskedNode]) -> Result<(), Stop>
    ensures { TellsLength (facts_data facts.now.known) (asked_nodes nodes.now) facts.now.most result }
{
    match facts.most {
        Some(most) => measure_answer(alloc, &facts.known, nodes, most),
        None => Ok(()),
    }
}

// What the answer costs, where it isn't too large.
fn sized(alloc: Global, work: Work<'_>, facts: &Facts, nodes: &[AskedNode]) -> Result<Cost, Stop>
    ensures { IsSized (facts_data facts.now.known) (asked_nodes nodes.now) facts.now.most result }
{
    let cost = match count_answer(alloc, work, &facts.known, nodes) {
        Ok(cost) => cost,
        Err(stop) => return Err(stop),
    };
    match fits(alloc, facts, nodes) {
        Ok(()) => Ok(cost),
        Err(stop) => Err(stop),
    }
}

// What the answer to what it asks costs.
fn cost_of(
    alloc: Global,
    of: &Asking,
    checked: &Checked,
    variables: &Variables,
    nodes: &[AskedNode],
) -> Result<Cost, LocalFault>
    requires of { IsCheckFor (ask_data of.now) checked.now }
    requires values { AreValues (ask_data of.now) checked.now.operation.now (variables_data variables.now) }
    requires planned { IsPlannedOver of.now.facts.now checked.now variables.now }
    requires asked { AreAsked of.now.facts.now checked.now variables.now nodes.now }
    ensures answered { IfOk result (λ cost. IsAnsweredWith (ask_data of.now) (answer_at of.now.facts.now nodes.now cost)) }
    ensures within { IfOk result IsWithin }
    ensures refused { IfErr result (IsRefusedFor (ask_data of.now)) }
{
    what_arguments_see();
    responses_to_what_is_asked();
    a_meta_schema_has_its_form();
    match sized(alloc, of.work, of.facts, nodes) {
        Ok(cost) => Ok(cost),
        Err(stop) => Err(stop_fault(stop)),
    }
}

/// An answer that was counted, and of which nothing is made yet.
#[derive(Drop)]
pub struct Counted<'f> {
    facts: &'f Facts,
    nodes: Vec<AskedNode>,
    /// What it costs as a response.
    pub cost: Cost,
}

/// Counts the answer to an operation that asks for the gateway's own schema: the one tree that fits the operation over
/// the schema of schemas, and whose every entry is what the schema's facts give. Or tells the first test that the operation doesn't
/// pass: the rules (GraphQL October 2021, 5), the values of its variables (6.1.2), its plan (6.3.2), and the size of the answer.
///
/// The steps that the answer takes are taken here, also those that it will take to write it. Where they run out that is told as want of
/// memory.
///
/// It asks that the operation at the place is local. `given` is an object of JSON; what is no object gives no variable a value.
pub fn count<'f>(
    alloc: Global,
    work: Work<'_>,
    facts: &'f Facts,
    document: &Document,
    place: usize,
    given: &Value,
) -> Result<Counted<'f>, LocalFault>
    requires local { class_at document.now.definitions.items place ≡ LocalClass }
    ensures answered { IfOk result (λ counted. IsAnsweredWith (local_request facts.now document.now.definitions.items place (view given.now)) (answer_counted counted)) }
    ensures within { IfOk result (λ counted. IsWithin counted.cost) }
    ensures refused { IfErr result (IsRefusedFor (local_request facts.now document.now.definitions.items place (view given.now))) }
{
    let of = Asking {
        facts,
        document,
        place,
        given,
        work,
    };
    let checked = match checked(alloc, &of) {
        Ok(checked) => checked,
        Err(fault) => return Err(fault),
    };
    let variables = match valued(alloc, &of, &checked) {
        Ok(variables) => variables,
        Err(fault) => return Err(fault),
    };
    let _plan = match planned(alloc, &of, &checked, &variables) {
        Ok(plan) => plan,
        Err(fault) => return Err(fault),
    };
    let nodes = match asked(alloc, work, facts, &checked, &variables) {
        Ok(nodes) => nodes,
        Err(AllocError) => return Err(LocalFault::Memory),
    };
    match cost_of(alloc, &of, &checked, &variables, nodes.as_slice()) {
        Ok(cost) => Ok(Counted { facts, nodes, cost }),
        Err(fault) => Err(fault),
    }
}

/// Writes an answer that was counted. It fails for want of memory alone.
pub fn write(alloc: Global, counted: &Counted) -> Result<Local, AllocError>
    ensures { IfOk result (λ local. local ≡ answer_counted counted.now) }
{
    let text = write_answer(alloc, &counted.facts.known, counted.nodes.as_slice())?;
    Ok(Local {
        cost: counted.cost,
        text,
    })
}
