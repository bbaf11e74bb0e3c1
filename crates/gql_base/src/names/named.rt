//! What has a name.

ghost use Rattle.std.specs.Prelude.{◌≡◌};

use crate::lexical::text::Text;
use crate::parts::trees::{Argument, Directive, Name};

/// Something with a name.
pub trait Named {
    ghost use Rattle.std.specs.Prelude.{ℕ, List};

    ghost name_of: { Self → List ℕ };

    /// Its name.
    fn name(&self) -> &str
        ensures { result.now ≡ name_of self.now };
}

impl Named for Text {
    ghost name_of = { λ text. text };

    fn name(&self) -> &str {
        self.as_str()
    }
}

impl Named for Name {
    ghost name_of = { λ name. name.text };

    fn name(&self) -> &str {
        self.text.as_str()
    }
}

impl Named for Argument {
    ghost name_of = { λ argument. argument.name.text };

    fn name(&self) -> &str {
        self.name.text.as_str()
    }
}

impl Named for Directive {
    ghost name_of = { λ directive. directive.name.text };

    fn name(&self) -> &str {
        self.name.text.as_str()
    }
}

/// A reference has the name of what it refers to.
impl<'a, T: Named> Named for &'a T {
    ghost name_of = { λ reference. T.name_of reference.now };

    fn name(&self) -> &str {
        T::name(*self)
    }
}
