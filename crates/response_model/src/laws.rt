//! What holds of every plan, every response and every reply.

ghost use Rattle.std.specs.Prelude.{ℕ, Bool, true, false, List, None, Some, ◌≡◌, ◌<◌, ◌≤◌, ◌↔◌};
ghost use Rattle.json.specs.Json.{Json, document};
ghost use Rattle.serde_json.specs.Data.{Data};
ghost use Rattle.serde_json.specs.Read.{max_depth};
ghost use Rattle.serde_json.specs.Written.{has_float, compact_text};
ghost use Rattle.response_model.specs.Plan.{Form, Plan, single};
ghost use Rattle.response_model.specs.Response.{Tree};
ghost use Rattle.response_model.specs.Reading.{NamesDiffer, Reads};
ghost use Rattle.response_model.specs.Cost.{Part, cost};
ghost use Rattle.response_model.specs.Bound.{IsBound, IsResponse, Exceeds, IsSound, greatest_cost};
ghost use Rattle.response_model.specs.Filled.{IsFilled, filled};
ghost use Rattle.response_model.specs.ResponseText.{tree_text};
ghost use Rattle.response_model.specs.WrittenJson.{IsValueText, WritesTree, IsFloatless, nesting};
ghost use Rattle.response_model.specs.AnswerTexts.{IsTreeText};

/// Of every sound plan the recursion over the plan gives the bound, for both parts of the cost.
pub fn greatest_is_bound()
    ensures { (holds : ℕ → Data → Bool) (part : Part) (plan : Plan) → IsSound holds plan → IsBound holds part plan (greatest_cost part plan) }
{}

/// Some response of a sound plan costs more than a number exactly where the greatest cost does.
pub fn greatest_exceeds()
    ensures { (holds : ℕ → Data → Bool) (part : Part) (plan : Plan) (n : ℕ) → IsSound holds plan → (Exceeds holds part plan n ↔ (n < greatest_cost part plan)) }
{}

/// There is one bound of a plan for each part of the cost.
pub fn one_bound()
    ensures { (holds : ℕ → Data → Bool) (part : Part) (plan : Plan) (a b : ℕ) → IsBound holds part plan a → IsBound holds part plan b → a ≡ b }
{}

/// The response that the recursion fills is filled.
pub fn filled_response()
    ensures { (holds : ℕ → Data → Bool) (part : Part) (plan : Plan) → IsSound holds plan → IsFilled part (single true) None plan (filled part plan) }
{}

/// A filled tree is a response that attains the greatest cost.
pub fn filled_attains()
    ensures { (holds : ℕ → Data → Bool) (part : Part) (plan : Plan) (t : Tree) → IsSound holds plan → IsFilled part (single true) None plan t → IsResponse holds plan t × (cost part plan t ≡ greatest_cost part plan) }
{}

/// There is one filled tree.
pub fn one_filled()
    ensures { (part : Part) (plan : Plan) (t s : Tree) → IsFilled part (single true) None plan t → IsFilled part (single true) None plan s → t ≡ s }
{}

/// A JSON value reads as at most one tree, where object types have different names.
pub fn one_reading()
    ensures { (name : ℕ → List ℕ) (alias : List ℕ) (form : Form) (asked : Bool) (plan : Plan) (json : Data) (t s : Tree) → NamesDiffer name → Reads name alias form asked plan json t → Reads name alias form asked plan json s → t ≡ s }
{}

/// A value or a tree that holds no float has one text: the one that serde_json writes compactly.
pub fn one_text_without_floats()
    ensures value { (json : Data) (text : List ℕ) → IsValueText json text → has_float json ≡ false → text ≡ compact_text json }
    ensures tree { (t : Tree) (text : List ℕ) → IsTreeText t text → IsFloatless t → text ≡ tree_text t }
{}

/// The text of a tree is read as JSON by which the tree is written, whatever numbers it holds.
pub fn tree_texts_are_read_back()
    ensures { (t : Tree) (text : List ℕ) → IsTreeText t text → nesting t ≤ max_depth → (j : Json) × WritesTree t j × (document text ≡ Some j) }
{}
