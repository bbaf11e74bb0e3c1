//! What holds of coercion. These functions do nothing: their contracts are the laws.

ghost use Rattle.std.specs.Prelude.{ℕ, ◌≡◌, Ok};
ghost use Rattle.input_values.specs.values.Coerced.{CoercedTree};
ghost use Rattle.input_values.specs.inputs.Shapes.{ShapeTree};
ghost use Rattle.input_values.specs.coercion.Given.{Given};
ghost use Rattle.input_values.specs.coercion.Forms.{InputForm};
ghost use Rattle.input_values.specs.coercion.Answers.{refusal};
ghost use Rattle.input_values.specs.coercion.Coercion.{coerced};
ghost use Rattle.input_values.specs.coercion.Relation.{IsCoerced};
ghost use Rattle.input_values.specs.coercion.Refusals.{all_refusals, first_path};

/// A given value comes to a coerced one exactly where the relation between them says so.
pub fn what_is_coerced()
    ensures found { (form : ℕ → InputForm) (g : Given) (s : ShapeTree) (t : CoercedTree) → coerced form g s ≡ Ok t → IsCoerced form g s t }
    ensures only { (form : ℕ → InputForm) (g : Given) (s : ShapeTree) (t : CoercedTree) → IsCoerced form g s t → coerced form g s ≡ Ok t }
{}

/// The place that is told is the first of all places that are refused, and none is told where none is refused.
pub fn what_is_refused()
    ensures { (form : ℕ → InputForm) (g : Given) (s : ShapeTree) → first_path (all_refusals form g s) ≡ refusal (coerced form g s) }
{}
