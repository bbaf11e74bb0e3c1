//! What the body of a request comes to.

ghost use Rattle.std.specs.Prelude.{◌≡◌, Some, IfOk, IfErr, ℕ, List};
ghost use Rattle.serde_json.specs.View.{view};
ghost use Rattle.request_bodies.specs.Bodies.{request_data as asked_data};
ghost use Rattle.trusted_documents.specs.Requests.{IsRequestBy};
ghost use Rattle.schema_model.specs.SchemaData.{has_floats};
ghost use Rattle.document_reader.specs.DocumentAnswers.{IsDocumentOf};
ghost use Rattle.local_introspection.specs.PassedOn.{request_data, IsUnread, IsGivenAsRead};
ghost use Rattle.gateway_core.specs.Rules.{HasWeights, client_of};
ghost use Rattle.gateway_core.specs.Gates.{rules_of};
ghost use Rattle.gateway_core.specs.Requests.{request_of};
ghost use Rattle.gateway_core.specs.Begins.{IsUnfit, IfRefusal};
ghost use Rattle.gateway_core.specs.Examined.{IsFound, IsFoundFor, IsUnfitFor, IsPayable};

use crate::beginning::Denial;
use crate::gate::Gate;
use crate::own_answers::own_answer;
use crate::promise::{Promise, denied, promised};
use counted_work::Work;
use document_reader::Document;
use local_introspection::{Counted, Request, read, read_values_are_in_order, work_up_to};
use request_bodies::Request as Asked;
use std::alloc::Global;
use std::cell::Cell;
use trusted_documents::{Unread, read_request_by, variables_are_the_clients};

/// An operation that is to be reserved for.
#[derive(Drop)]
pub(crate) enum Examined<'g> {
    /// It may be forwarded.
    Upstream(Promise<'g>),
    /// The gateway answers it so. Nothing of the answer is made yet.
    Local(Counted<'g>),
}

// The request that a body is.
fn asked_in(gate: &Gate, alloc: Global, body: &[u8]) -> Result<Asked, Denial>
    ensures asked { IfOk result (λ asked. IsRequestBy (rules_of gate.now).trusted body.now (asked_data asked)) }
    ensures unfit { IfErr result (IsUnfit (rules_of gate.now) body.now) }
{
    match read_request_by(alloc, gate.trusted.as_ref(), body) {
        Ok(asked) => Ok(asked),
        Err(Unread::Memory) => Err(Denial::Memory),
        Err(Unread::Unexpanded(fault)) => Err(Denial::Unexpanded(fault)),
        Err(Unread::BadBody(fault)) => Err(Denial::BadBody(fault)),
    }
}

// The document that its query is.
fn document_in(gate: &Gate, alloc: Global, asked: &Asked) -> Result<Document, Denial>
    ensures document { IfOk result (IsDocumentOf (has_floats (rules_of gate.now).schema) asked.now.query) }
    ensures refused { IfErr result (λ denial. IfRefusal denial (IsUnread (has_floats (rules_of gate.now).schema) asked.now.query)) }
{
    match read(alloc, asked.query.as_str(), gate.schema.has_floats()) {
        Ok(document) => Ok(document),
        Err(fault) => Err(denied(fault)),
    }
}

// What is asked of the schema.
fn request_of<'g, 'r>(
    gate: &'g Gate,
    asked: &'r Asked,
    document: &'r Document,
    work: Work<'r>,
) -> Request<'g, 'r>
    ensures data { request_data result ≡ request_of (rules_of gate.now) (asked_data asked.now) document.now }
    ensures weighed { HasWeights (rules_of gate.now).schema (rules_of gate.now).weights }
{
    let name = match &asked.name {
        Some(name) => Some(name.as_str()),
        None => None,
    };
    Request {
        schema: &gate.schema,
        weights: &gate.weights,
        document,
        name,
        given: &asked.variables,
        work,
    }
}

// What a body comes to that is this request with this document.
fn found_for<'g>(
    gate: &'g Gate,
    alloc: Global,
    work: Work<'_>,
    asked: &Asked,
    document: &Document,
) -> Result<Examined<'g>, Denial>
    requires given { IsGivenAsRead (view asked.now.variables) }
    ensures found { IfOk result (IsFoundFor (rules_of gate.now) (request_of (rules_of gate.now) (asked_data asked.now) document.now)) }
    ensures payable { IfOk result IsPayable }
    ensures unfit { IfErr result (IsUnfitFor (rules_of gate.now) (request_of (rules_of gate.now) (asked_data asked.now) document.now)) }
{
    let request = request_of(gate, asked, document, work);
    match own_answer(gate, alloc, &request) {
        Ok(Some(counted)) => Ok(Examined::Local(counted)),
        Ok(None) => match promised(alloc, &request) {
            Ok(promise) => Ok(Examined::Upstream(promise)),
            Err(denial) => Err(denial),
        },
        Err(denial) => Err(denial),
    }
}

// What a body comes to, by steps that are counted.
fn found_in<'g>(
    gate: &'g Gate,
    alloc: Global,
    work: Work<'_>,
    body: &[u8],
) -> Result<Examined<'g>, Denial>
    ensures found { IfOk result (IsFound (rules_of gate.now) body.now) }
    ensures payable { IfOk result IsPayable }
    ensures unfit { IfErr result (IsUnfit (rules_of gate.now) body.now) }
{
    variables_are_the_clients();
    read_values_are_in_order();
    let asked = match asked_in(gate, alloc, body) {
        Ok(asked) => asked,
        Err(denial) => return Err(denial),
    };
    let document = match document_in(gate, alloc, &asked) {
        Ok(document) => document,
        Err(denial) => return Err(denial),
    };
    found_for(gate, alloc, work, &asked, &document)
}

// Want of memory is told as want of steps, where those are spent that were handed in.
fn told(gate: &Gate, work: Work<'_>, denial: Denial) -> Denial
    ensures { (body : List ℕ) → IsUnfit (rules_of gate.now) body denial → IsUnfit (rules_of gate.now) body result }
{
    match denial {
        Denial::Memory if gate.most_work.is_some() && work.is_spent() => Denial::Work,
        denial => denial,
    }
}

/// Examines a body: what is promised for it or answered, or why it is unfit. All memory that a beginning needs is taken here, but that of
/// the text of the gateway's own answer, and all steps that are counted.
///
/// It asks that the key is this client's: for whoever has none no body is looked at.
pub(crate) fn examine<'g>(
    gate: &'g Gate,
    alloc: Global,
    _key: &str,
    _client: u32,
    body: &[u8],
) -> Result<Examined<'g>, Denial>
    requires known { client_of (rules_of gate.now) _key.now ≡ Some _client }
    ensures found { IfOk result (IsFound (rules_of gate.now) body.now) }
    ensures payable { IfOk result IsPayable }
    ensures unfit { IfErr result (IsUnfit (rules_of gate.now) body.now) }
{
    let left = Cell::new(0u64);
    let work = work_up_to(gate.most_work, &left);
    match found_in(gate, alloc, work, body) {
        Ok(found) => Ok(found),
        Err(denial) => Err(told(gate, work, denial)),
    }
}
