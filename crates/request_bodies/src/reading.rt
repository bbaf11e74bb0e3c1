//! Reading a body.

ghost use Rattle.std.specs.Prelude.{◌≡◌, IfOk, IfErr, Some, option_map};
ghost use Rattle.serde_json.specs.View.{view};
ghost use Rattle.request_bodies.specs.Bodies.{RequestData, request_data, IsObject, query_in, name_in, optional_name, variables_in, optional_object, entry, IsRequest};
ghost use Rattle.request_bodies.specs.Faults.{IsAtFault, HasFault};
ghost use Rattle.request_bodies.specs.Answers.{Gives, Tells, UnlessMemory};
ghost use Rattle.request_bodies.specs.declared.fault.BodyFault as fault_type;

use crate::fault::BodyFault;
use crate::request::Request;
use gql_base::Text;
use serde_json::{Map, Value};
use std::alloc::{AllocError, Global};

/// Reads the body of a request: a JSON object (RFC 8259) with the members `query`, `operationName` and `variables`.
///
/// Of equal keys the last counts, and other members are passed over. Where `variables` is null or isn't there, the
/// variables of the request are the empty object. Of a body that is no request it tells the first fault in the order of
/// `BodyFault`; where there is no memory it may tell that.
pub fn read_request(alloc: Global, body: &[u8]) -> Result<Request, BodyFault>
    ensures request { IfOk result (λ request. IsRequest body.now (request_data request)) }
    ensures fault { IfErr result (UnlessMemory (HasFault body.now)) }
    ensures only_request { (asked : RequestData) → IsRequest body.now asked → Gives asked result }
    ensures only_fault { (fault : fault_type.BodyFault) → HasFault body.now fault → Tells fault result }
{
    let mut json = object_in(alloc, body)?;
    request_in(alloc, &mut json)
}

/// The object of JSON that a body is.
fn object_in(alloc: Global, body: &[u8]) -> Result<Value, BodyFault>
    ensures object { IfOk result (λ json. IsObject body.now (view json)) }
    ensures fault { IfErr result (UnlessMemory (HasFault body.now)) }
{
    match Value::from_slice(alloc, body) {
        Ok(json) => {
            if json.is_object() {
                Ok(json)
            } else {
                Err(BodyFault::NotObject)
            }
        }
        Err(error) => {
            if error.is_memory() {
                Err(BodyFault::Memory)
            } else {
                Err(BodyFault::NotJson)
            }
        }
    }
}

/// The request that an object is. The variables are taken out of it.
fn request_in(alloc: Global, json: &mut Value) -> Result<Request, BodyFault>
    ensures query { IfOk result (λ request. query_in (view json.old) ≡ Some request.query) }
    ensures name { IfOk result (λ request. name_in (view json.old) ≡ Some request.name) }
    ensures variables { IfOk result (λ request. variables_in (view json.old) ≡ Some (view request.variables)) }
    ensures fault { IfErr result (UnlessMemory (IsAtFault (view json.old))) }
{
    let Some(query) = query_in(alloc, json)? else {
        return Err(BodyFault::NoQuery);
    };
    let Some(name) = name_in(alloc, json)? else {
        return Err(BodyFault::BadName);
    };
    let Some(variables) = variables_in(alloc, json) else {
        return Err(BodyFault::BadVariables);
    };
    Ok(Request {
        query,
        name,
        variables,
    })
}

/// The query of an object.
fn query_in(alloc: Global, json: &Value) -> Result<Option<Text>, AllocError>
    ensures { IfOk result (λ query. query ≡ query_in (view json.now)) }
{
    match json.get("query") {
        Some(Value::String(query)) => Ok(Some(Text::copy_of(alloc, query)?)),
        _ => Ok(None),
    }
}

/// The name of the operation, if an object gives one.
fn name_in(alloc: Global, json: &Value) -> Result<Option<Option<Text>>, AllocError>
    ensures { IfOk result (λ name. name ≡ name_in (view json.now)) }
{
    match json.get("operationName") {
        None | Some(Value::Null) => Ok(Some(None)),
        Some(Value::String(name)) => Ok(Some(Some(Text::copy_of(alloc, name)?))),
        Some(_) => Ok(None),
    }
}

/// What an object gives for the variables. It is taken out of the object.
fn variables_in(alloc: Global, json: &mut Value) -> Option<Value>
    ensures { option_map (λ v. view v) result ≡ variables_in (view json.old) }
{
    match json.get_mut("variables") {
        None => Some(Value::Object(Map::new(alloc))),
        Some(given) => optional_object(alloc, given.take()),
    }
}

/// An object, which null stands for where it is empty.
fn optional_object(alloc: Global, given: Value) -> Option<Value>
    ensures { option_map (λ v. view v) result ≡ optional_object (view given) }
{
    match given {
        Value::Null => Some(Value::Object(Map::new(alloc))),
        Value::Object(members) => Some(Value::Object(members)),
        _ => None,
    }
}
