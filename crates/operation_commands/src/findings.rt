//! What an audit finds, and what is told of it.

ghost use Rattle.std.specs.Prelude.{◌≡◌, ◌≤◌, ◌++◌, IfOk, OnOk};
ghost use Rattle.command_outcomes.specs.Texts.{line};
ghost use Rattle.operation_commands.specs.Audit.{subject_text, verdict_text, finding_text, is_operation, operations_of, is_priced, prices_of, IsPriceWithin, ArePricesWithin, greater, price_in, greatest, counted_text, totals_text, audit_text, is_within, passes, all_pass, IsAuditOf};

use crate::pricing::text_of_cost;
use crate::steps::push_steps;
use command_outcomes::Outcome;
use cost_num::{CAP, Cost};
use gql_base::{Text, shown_in_line};
use std::alloc::{AllocError, Global};

/// What something is found of.
#[derive(Drop)]
pub enum Subject {
    /// A document whose operations aren't looked at.
    Whole,
    /// An operation without a name.
    Unnamed,
    /// The operation of this name.
    Named(Text),
}

/// What is found of it.
#[derive(Drop)]
pub enum Verdict {
    /// Its price.
    Priced(Cost),
    /// The text by which it is refused.
    Refused(Text),
}

/// What an audit finds.
#[derive(Drop)]
pub struct Finding {
    /// The name of the document's file.
    pub document: Text,
    pub subject: Subject,
    pub verdict: Verdict,
    /// How many steps its price took, where they are counted.
    pub steps: Option<u64>,
}

// ---- a line

fn push_subject(subject: &Subject, into: &mut Vec<u8>) -> Result<(), AllocError>
    ensures { OnOk result (into.new.items ≡ into.old.items ++ subject_text subject.now) }
{
    match subject {
        Subject::Whole => Ok(()),
        Subject::Unnamed => into.extend_from_slice(b" -"),
        Subject::Named(name) => {
            into.push(b' ')?;
            into.extend_from_slice(name.as_bytes())
        }
    }
}

fn push_verdict(alloc: Global, verdict: &Verdict, into: &mut Vec<u8>) -> Result<(), AllocError>
    requires within { IsPriceWithin verdict.now }
    ensures { OnOk result (into.new.items ≡ into.old.items ++ verdict_text verdict.now) }
{
    match verdict {
        Verdict::Priced(cost) => into.extend_from_slice(&text_of_cost(alloc, *cost)?),
        Verdict::Refused(text) => into.extend_from_slice(text.as_bytes()),
    }
}

fn push_finding(alloc: Global, finding: &Finding, into: &mut Vec<u8>) -> Result<(), AllocError>
    requires within { IsPriceWithin finding.now.verdict }
    ensures { OnOk result (into.new.items ≡ into.old.items ++ line (finding_text finding.now)) }
{
    let document = shown_in_line(alloc, finding.document.as_str())?;
    into.extend_from_slice(document.as_bytes())?;
    push_subject(&finding.subject, into)?;
    into.push(b' ')?;
    push_verdict(alloc, &finding.verdict, into)?;
    push_steps(alloc, " ", finding.steps, into)?;
    into.push(b'\n')?;
    Ok(())
}

// ---- what findings come to

fn is_operation(subject: &Subject) -> bool
    ensures { result ≡ is_operation subject.now }
{
    !matches!(subject, Subject::Whole)
}

fn is_priced(verdict: &Verdict) -> bool
    ensures { result ≡ is_priced verdict.now }
{
    matches!(verdict, Verdict::Priced(_))
}

fn price_in(verdict: &Verdict) -> Cost
    ensures { result ≡ price_in verdict.now }
{
    match verdict {
        Verdict::Priced(cost) => *cost,
        Verdict::Refused(_) => Cost {
            types: 0,
            fields: 0,
        },
    }
}

fn greater(a: Cost, b: Cost) -> Cost
    ensures { result ≡ greater a b }
{
    Cost {
        types: a.types.max(b.types),
        fields: a.fields.max(b.fields),
    }
}

fn operations_of(findings: &[Finding]) -> usize
    ensures { result ≡ operations_of findings.now }
{
    let mut count = 0;
    for at in 0..findings.len() {
        if is_operation(&findings[at].subject) {
            count += 1;
        }
    }
    count
}

fn prices_of(findings: &[Finding]) -> usize
    ensures { result ≡ prices_of findings.now }
{
    let mut count = 0;
    for at in 0..findings.len() {
        if is_priced(&findings[at].verdict) {
            count += 1;
        }
    }
    count
}

fn greatest(findings: &[Finding]) -> Cost
    requires within { ArePricesWithin findings.now }
    ensures cost { result ≡ greatest findings.now }
    ensures types_within { result.types ≤ CAP }
    ensures fields_within { result.fields ≤ CAP }
{
    let mut most = Cost {
        types: 0,
        fields: 0,
    };
    for at in 0..findings.len() {
        most = greater(most, price_in(&findings[at].verdict));
    }
    most
}

fn push_counts(
    alloc: Global,
    operations: usize,
    priced: usize,
    into: &mut Vec<u8>,
) -> Result<(), AllocError>
    ensures { OnOk result (into.new.items ≡ into.old.items ++ counted_text operations priced) }
{
    let counts = format!(in alloc; "operations {operations} priced {priced} greatest ")?;
    into.extend_from_slice(counts.as_bytes())
}

fn push_totals(alloc: Global, findings: &[Finding], into: &mut Vec<u8>) -> Result<(), AllocError>
    requires within { ArePricesWithin findings.now }
    ensures { OnOk result (into.new.items ≡ into.old.items ++ totals_text findings.now) }
{
    push_counts(alloc, operations_of(findings), prices_of(findings), into)?;
    into.extend_from_slice(&text_of_cost(alloc, greatest(findings))?)
}

// A line for each finding, and what they come to.
fn audit_text(alloc: Global, findings: &[Finding]) -> Result<Vec<u8>, AllocError>
    requires within { ArePricesWithin findings.now }
    ensures { IfOk result (λ text. text.items ≡ audit_text findings.now) }
{
    let mut text = Vec::new(alloc);
    for at in 0..findings.len() {
        push_finding(alloc, &findings[at], &mut text)?;
    }
    push_totals(alloc, findings, &mut text)?;
    Ok(text)
}

// ---- whether all pass

fn is_within(most: Option<Cost>, cost: Cost) -> bool
    ensures { result ≡ is_within most cost }
{
    match most {
        Some(most) => cost.types <= most.types && cost.fields <= most.fields,
        None => true,
    }
}

fn passes(most: Option<Cost>, verdict: &Verdict) -> bool
    ensures { result ≡ passes most verdict.now }
{
    match verdict {
        Verdict::Priced(cost) => is_within(most, *cost),
        Verdict::Refused(_) => false,
    }
}

fn all_pass(most: Option<Cost>, findings: &[Finding]) -> bool
    ensures { result ≡ all_pass most findings.now }
{
    'findings: for finding in findings {
        if !passes(most, &finding.verdict) {
            return false;
        }
    }
    true
}

/// The outcome of an audit that found this.
pub(crate) fn audited(alloc: Global, most: Option<Cost>, findings: &[Finding]) -> Outcome
    requires within { ArePricesWithin findings.now }
    ensures { IsAuditOf most findings.now result }
{
    match audit_text(alloc, findings) {
        Ok(lines) => Outcome::Audited {
            lines,
            passed: all_pass(most, findings),
        },
        Err(AllocError) => Outcome::Memory,
    }
}
