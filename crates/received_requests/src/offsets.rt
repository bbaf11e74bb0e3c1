//! What holds of selections that differ in the offsets of names alone.

ghost use Rattle.std.specs.Prelude.{◌≡◌, ℕ, Option};
ghost use Rattle.response_model.specs.Plan.{Form};
ghost use Rattle.response_model.specs.Response.{Tree};
ghost use Rattle.response_model.specs.Cost.{Part};
ghost use Rattle.plan_model.specs.SelectedFields.{Setting, Place};
ghost use Rattle.plan_model.specs.Merging.{Position};
ghost use Rattle.plan_model.specs.Responses.{FitsSelections, KeepsSizes, response_cost};
ghost use Rattle.received_requests.specs.Offsets.{DifferInOffsets};

/// What fits selections, keeps their sizes and costs something does so of all selections that differ from them in the offsets of
/// names alone. To differ so is symmetric.
pub fn offsets_change_no_response()
    ensures fits { (e f : Setting) (form : Form) (place : Place) (p q : Position) (t : Tree) → DifferInOffsets e f p q → FitsSelections e form place p t → FitsSelections f form place q t }
    ensures keeps { (e f : Setting) (size : Option ℕ) (place : Place) (p q : Position) (t : Tree) → DifferInOffsets e f p q → KeepsSizes e size place p t → KeepsSizes f size place q t }
    ensures costs { (e f : Setting) (part : Part) (place : Place) (p q : Position) (t : Tree) → DifferInOffsets e f p q → response_cost e part place p t ≡ response_cost f part place q t }
    ensures symmetric { (e f : Setting) (p q : Position) → DifferInOffsets e f p q → DifferInOffsets f e q p }
{}
