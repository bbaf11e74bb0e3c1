//! The surprises that fields have.

/// What may surprise of a field.
#[derive(Clone, Copy, Debug, PartialEq, Eq)]
pub enum Surprise {
    /// It is a list that declares no size.
    Unsized,
    /// It is a list that declares none where no argument that slices it is given, and none of these has a default.
    Unsliced,
    /// It is refused where no argument that slices it is given, and none of these has a default.
    MustSlice,
    /// Its weight stands in an interface alone.
    Inherited,
}
