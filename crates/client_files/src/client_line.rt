//! A line that names a client.

ghost use Rattle.std.specs.Prelude.{◌≡◌, ◌∷◌, ◌↔◌, ℕ, Bool, List, IsTrue, IfOk, IfSome, IfNone, map};
ghost use Rattle.std.specs.List.{list_all};
ghost use Rattle.cost_num.specs.declared.Cost as cost_type;
ghost use Rattle.client_files.specs.ClientLines.{is_key_byte, is_key, carry_words, Allows, IsAllowance, IsClient, IsClientLine};
ghost use Rattle.client_files.specs.declared.client.Client as client_type;

use crate::client::{CARRY_LIMIT, Client, KEY_LIMIT, THOUSANDTH};
use crate::heading::Version;
use crate::line::parts_of;
use cost_num::{Cost, covers, read_allowance};
use gql_base::Text;
use std::alloc::{AllocError, Global};

/// The words of a line that names a client.
#[derive(Clone, Copy)]
struct ClientWords<'a> {
    key: &'a str,
    types: &'a str,
    fields: &'a str,
    carry: bool,
}

/// The client that a line names in a file of this version, or none where it is no such line. It fails for want of memory
/// alone.
pub fn client_in(alloc: Global, version: Version, line: &str) -> Result<Option<Client>, AllocError>
    ensures some { IfOk result (λ found. IfSome found (λ client. IsClientLine version line.now client)) }
    ensures none { IfOk result (λ found. IfNone found ((client : client_type.Client) → ¬ (IsClientLine version line.now client))) }
{
    let words = parts_of(alloc, line, ' ')?;
    match client_words(&words) {
        Some(words) => client_of(alloc, version, &words),
        None => Ok(None),
    }
}

/// The client that these words name.
fn client_of(
    alloc: Global,
    version: Version,
    words: &ClientWords<'_>,
) -> Result<Option<Client>, AllocError>
    ensures some { IfOk result (λ found. IfSome found (λ client. IsClient version words.now.key.now words.now.types.now words.now.fields.now words.now.carry client)) }
    ensures none { IfOk result (λ found. IfNone found ((client : client_type.Client) → ¬ (IsClient version words.now.key.now words.now.types.now words.now.fields.now words.now.carry client))) }
{
    let carry = words.carry;
    let Some(allowance) = allowance_of(version, words.types, words.fields, carry) else {
        return Ok(None);
    };
    if !is_key(words.key) {
        return Ok(None);
    }
    let key = Text::copy_of(alloc, words.key)?;
    Ok(Some(Client {
        key,
        allowance,
        carry,
    }))
}

/// The key, the two allowances and the mark of a client, where the words of a line are these.
fn client_words<'a>(words: &[&'a str]) -> Option<ClientWords<'a>>
    ensures some { IfSome result (λ found. map (λ word. word.now) words.now ≡ found.key.now ∷ found.types.now ∷ found.fields.now ∷ carry_words found.carry) }
    ensures none { IfNone result ((key types fields : List ℕ) (carry : Bool) → ¬ (map (λ word. word.now) words.now ≡ key ∷ types ∷ fields ∷ carry_words carry)) }
{
    let [key, types, fields, rest @ ..] = words else {
        return None;
    };
    let carry = carry_in(rest)?;
    Some(ClientWords {
        key,
        types,
        fields,
        carry,
    })
}

/// Whether the client carries, by what stands behind its allowances.
fn carry_in(words: &[&str]) -> Option<bool>
    ensures some { IfSome result (λ carry. map (λ word. word.now) words.now ≡ carry_words carry) }
    ensures none { IfNone result ((carry : Bool) → ¬ (map (λ word. word.now) words.now ≡ carry_words carry)) }
{
    match words {
        [] => Some(false),
        [word] if *word == "carry" => Some(true),
        _ => None,
    }
}

/// The allowance that these texts spell, where this version lets a client have it.
fn allowance_of(version: Version, types: &str, fields: &str, carry: bool) -> Option<Cost>
    ensures spelled { IfSome result (λ allowance. IsAllowance types.now fields.now allowance) }
    ensures allowed { IfSome result (λ allowance. Allows version allowance carry) }
    ensures none { IfNone result ((allowance : cost_type.Cost) → IsAllowance types.now fields.now allowance → ¬ (Allows version allowance carry)) }
{
    let types = read_allowance(types).ok()?;
    let fields = read_allowance(fields).ok()?;
    let allowance = Cost { types, fields };
    if allows(version, allowance, carry) {
        Some(allowance)
    } else {
        None
    }
}

/// Whether a version lets a client have this allowance, and carry or not.
fn allows(version: Version, allowance: Cost, carry: bool) -> bool
    ensures { IsTrue result ↔ Allows version allowance carry }
{
    match version {
        Version::One => {
            !carry && allowance.types % THOUSANDTH == 0 && allowance.fields % THOUSANDTH == 0
        }
        Version::Two => {
            !carry || allowance.types <= CARRY_LIMIT && allowance.fields <= CARRY_LIMIT
        }
    }
}

/// Whether a text has the form of a key.
pub fn is_key(text: &str) -> bool
    ensures { result ≡ is_key text.now }
{
    bytes_are_key(text.as_bytes())
}

/// Whether the bytes of a text have the form of a key.
pub fn bytes_are_key(text: &[u8]) -> bool
    ensures { result ≡ is_key text.now }
{
    !text.is_empty() && text.len() <= KEY_LIMIT && are_key_bytes(text)
}

/// Whether each byte may stand in a key.
fn are_key_bytes(bytes: &[u8]) -> bool
    ensures { result ≡ list_all is_key_byte bytes.now }
{
    bytes.iter().all(|byte| is_key_byte(*byte))
}

/// Whether a byte may stand in a key.
fn is_key_byte(byte: u8) -> bool
    ensures { result ≡ is_key_byte byte }
{
    byte.is_ascii_alphanumeric() || byte == b'_' || byte == b'-'
}
