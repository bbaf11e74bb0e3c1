//! The body of the request in which an operation is sent.

ghost use Rattle.std.specs.Prelude.{◌≡◌, ◌≤◌, ◌++◌, false, string_bytes, map, IfOk, OnOk};
ghost use Rattle.serde_json.specs.View.{view, members_view};
ghost use Rattle.serde_json.specs.Data.{depth};
ghost use Rattle.serde_json.specs.Read.{max_depth};
ghost use Rattle.serde_json.specs.Written.{has_float, compact_text};
ghost use Rattle.response_model.specs.WrittenJson.{Appends};
ghost use Rattle.gql_base.specs.names.Names.{has_name};
ghost use Rattle.document_reader.specs.Trees.{maybe_identifier, variable_tree};
ghost use Rattle.typename_rewrite.specs.Views.{word_text};
ghost use Rattle.typename_rewrite.specs.ForwardedBodies.{AppendsObject, variable_name, members_where, members_of, sent_variables, body_data, name_text, member_text, IsMemberText, IsWrittenBody};

use crate::rewriting::Rewritten;
use crate::words::{Word, add_name};
use document_reader::{Operation, VariableDef};
use gql_base::{Name, NameIndex, index_of};
use response_model::{write_key, write_string, write_value};
use serde_json::{Map, Value};
use std::alloc::{AllocError, Global};

/// The operation's name as a member with a comma behind it, where the operation has a name.
fn write_name(alloc: Global, name: &Option<Name>, into: &mut String) -> Result<(), AllocError>
    ensures { OnOk result (string_bytes into.new ≡ string_bytes into.old ++ name_text (maybe_identifier name.now)) }
{
    match name {
        Some(name) => {
            write_key(alloc, "operationName", into)?;
            write_string(alloc, name.text.as_str(), into)?;
            into.push_str(",")
        }
        None => Ok(()),
    }
}

/// One member, with a comma before it where another one stands before.
fn write_member(
    alloc: Global,
    later: bool,
    key: &str,
    value: &Value,
    into: &mut String,
) -> Result<(), AllocError>
    ensures written { OnOk result (depth (view value.now) ≤ max_depth → Appends (IsMemberText later key.now (view value.now)) (string_bytes into.old) (string_bytes into.new)) }
    ensures text { OnOk result (has_float (view value.now) ≡ false → string_bytes into.new ≡ string_bytes into.old ++ member_text later key.now (view value.now)) }
{
    if later {
        into.push_str(",")?;
    }
    write_key(alloc, key, into)?;
    write_value(alloc, value, into)
}

/// An object with those members whose keys stand among names.
fn write_members(
    alloc: Global,
    names: &NameIndex<'_, Word<'_>>,
    members: &Map<String, Value>,
    into: &mut String,
) -> Result<(), AllocError>
    ensures { OnOk result (AppendsObject (string_bytes into.old) (string_bytes into.new) (members_where (has_name word_text names.now.items.now) (members_view members.now.entries))) }
{
    into.push_str("{")?;
    let mut later = false;
    'members: for (key, value) in members.iter() {
        if names.has(key.as_str()) {
            write_member(alloc, later, key.as_str(), value, into)?;
            later = true;
        }
    }
    into.push_str("}")
}

/// The names of variables.
fn variable_words(alloc: Global, variables: &[VariableDef]) -> Result<Vec<Word<'_>>, AllocError>
    ensures { IfOk result (λ words. map word_text words.items ≡ map variable_name (map variable_tree variables.now)) }
{
    let mut words = Vec::new(alloc);
    for variable in variables {
        add_name(&mut words, &variable.name)?;
    }
    Ok(words)
}

/// The values that are sent, as an object.
fn write_variables(
    alloc: Global,
    variables: &[VariableDef],
    given: &Value,
    into: &mut String,
) -> Result<(), AllocError>
    ensures { OnOk result (AppendsObject (string_bytes into.old) (string_bytes into.new) (sent_variables (map variable_tree variables.now) (view given.now))) }
{
    let words = variable_words(alloc, variables)?;
    let names = index_of(alloc, words.as_slice())?;
    match given {
        Value::Object(members) => write_members(alloc, &names, members, into),
        _ => into.push_str("{}"),
    }
}

/// The body of the request in which an operation is sent, as serde_json writes it compactly: `operationName` where the
/// operation has a name, the rewritten document as `query`, and as `variables` those of the given values whose variables
/// the operation defines. Of a number that isn't whole its text says only that it reads as it is given. It fails for want of memory alone.
pub fn forwarded_body(
    alloc: Global,
    operation: &Operation,
    rewritten: &Rewritten,
    given: &Value,
) -> Result<String, AllocError>
    ensures written { IfOk result (λ body. IsWrittenBody (body_data operation.now rewritten.now.text (view given.now)) (string_bytes body)) }
    ensures text { IfOk result (λ body. has_float (body_data operation.now rewritten.now.text (view given.now)) ≡ false → string_bytes body ≡ compact_text (body_data operation.now rewritten.now.text (view given.now))) }
{
    let mut body = String::from_str(alloc, "{")?;
    write_name(alloc, &operation.name, &mut body)?;
    write_key(alloc, "query", &mut body)?;
    write_string(alloc, rewritten.text.as_str(), &mut body)?;
    body.push_str(",")?;
    write_key(alloc, "variables", &mut body)?;
    write_variables(alloc, operation.variables.as_slice(), given, &mut body)?;
    body.push_str("}")?;
    Ok(body)
}
