//! What holds of all responses to what is sent.

ghost use Rattle.std.specs.Prelude.{◌≡◌, ℕ, List, Option};
ghost use Rattle.response_model.specs.Plan.{Form};
ghost use Rattle.response_model.specs.Response.{Tree};
ghost use Rattle.response_model.specs.Cost.{Part};
ghost use Rattle.plan_model.specs.SelectedFields.{Setting, Place};
ghost use Rattle.plan_model.specs.Merging.{Position};
ghost use Rattle.stripped_responses.specs.Stripping.{stripped, IsSentFor, FitsStripped, KeepsStripped, CostsStripped, IsStrippedOne, SentOperation, IsOwnResponse, own_cost, IsSentResponse, sent_cost};

/// A response to rewritten selections fits the client's own selections without the names of types that were added, keeps the same
/// sizes, and costs the same.
pub fn a_stripped_response_is_the_clients()
    ensures fits { (alias : List ℕ) (e : Setting) (form : Form) (place : Place) (p q : Position) (t : Tree) → IsSentFor alias e p q → FitsStripped alias e form place p q t }
    ensures keeps { (alias : List ℕ) (e : Setting) (form : Form) (size : Option ℕ) (place : Place) (p q : Position) (t : Tree) → IsSentFor alias e p q → KeepsStripped alias e form size place p q t }
    ensures costs { (alias : List ℕ) (e : Setting) (form : Form) (part : Part) (place : Place) (p q : Position) (t : Tree) → IsSentFor alias e p q → CostsStripped alias e form part place p q t }
{}

/// Each response to the client's own selections is one to the rewritten selections without the names of types that were added.
pub fn each_response_is_a_stripped_one()
    ensures { (alias : List ℕ) (e : Setting) (form : Form) (size : Option ℕ) (place : Place) (p q : Position) (s : Tree) → IsSentFor alias e p q → IsStrippedOne alias e form size place p q s }
{}

/// The same of a whole operation: a response to what is sent in its place, without the names of types that were added, is one to the
/// operation itself that costs the same, and each response to it comes from one.
pub fn responses_to_what_is_sent()
    ensures stripped { (alias : List ℕ) (x : SentOperation alias) (t : Tree) → IsSentResponse alias x t → IsOwnResponse alias x (stripped alias t) }
    ensures costs { (alias : List ℕ) (x : SentOperation alias) (part : Part) (t : Tree) → IsSentResponse alias x t → sent_cost alias x part t ≡ own_cost alias x part (stripped alias t) }
    ensures each { (alias : List ℕ) (x : SentOperation alias) (r : Tree) → IsOwnResponse alias x r → (t : Tree) × IsSentResponse alias x t × (stripped alias t ≡ r) }
{}
