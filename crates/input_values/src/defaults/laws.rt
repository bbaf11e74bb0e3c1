//! What holds of the defaults of all types. These functions do nothing: their contracts are the laws.

ghost use Rattle.std.specs.Prelude.{ℕ, ◌≡◌};
ghost use Rattle.input_values.specs.coercion.Forms.{InputForm};
ghost use Rattle.input_values.specs.defaults.Drafts.{Draft, AreFilled, HaveNoFieldsFrom};

/// Defaults are filled in one way.
pub fn defaults_have_one_filling()
    ensures { (draft : ℕ → Draft) (one other : ℕ → InputForm) → AreFilled draft one → AreFilled draft other → one ≡ other }
{}

/// Defaults of finitely many types can be filled, whatever they are.
pub fn defaults_can_be_filled()
    ensures { (draft : ℕ → Draft) (n : ℕ) → HaveNoFieldsFrom n draft → (form : ℕ → InputForm) × AreFilled draft form }
{}
