//! What holds of bodies. These functions do nothing: their contracts are the laws.

ghost use Rattle.std.specs.Prelude.{◌≡◌, ◌⊎◌, ℕ, List, Some, true, codes, is_some};
ghost use Rattle.serde_json.specs.Data.{Data, object, no_members};
ghost use Rattle.serde_json.specs.Find.{get, as_object};
ghost use Rattle.serde_json.specs.Read.{read};
ghost use Rattle.request_bodies.specs.Bodies.{RequestData, IsRequest};
ghost use Rattle.request_bodies.specs.Faults.{HasFault};
ghost use Rattle.request_bodies.specs.declared.fault.BodyFault.{BodyFault};

use crate::fault::BodyFault;
use crate::request::Request;

/// Each body is a request or has a fault, and not both. It is one request at most, and has one fault at most.
pub fn a_body_is_one_request_or_has_one_fault()
    ensures some { (body : List ℕ) → ((r : RequestData) × IsRequest body r) ⊎ ((f : BodyFault) × HasFault body f) }
    ensures not_both { (body : List ℕ) (r : RequestData) (f : BodyFault) → IsRequest body r → ¬ (HasFault body f) }
    ensures one_request { (body : List ℕ) (r s : RequestData) → IsRequest body r → IsRequest body s → r ≡ s }
    ensures one_fault { (body : List ℕ) (f g : BodyFault) → HasFault body f → HasFault body g → f ≡ g }
{}

/// What is given for the variables of a request is an object: the empty one, or the member `variables` of the JSON that its body
/// is. So what holds of all JSON that is read, and of its members, holds of it.
pub fn variables_are_an_object()
    ensures object { (body : List ℕ) (r : RequestData) → IsRequest body r → is_some (as_object r.variables) ≡ true }
    ensures source { (body : List ℕ) (r : RequestData) → IsRequest body r → (r.variables ≡ object no_members) ⊎ ((json : Data) × (read body ≡ Some json) × (get (codes "variables") json ≡ Some r.variables)) }
{}

/// Threads may share requests, and faults of bodies.
pub fn requests_are_shared() {
    is_shared::<Request>();
    is_shared::<BodyFault>();
}

fn is_shared<T: Send + Sync>() {}
