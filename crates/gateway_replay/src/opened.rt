//! Requests that are open: granted, and not finished yet.

ghost use Rattle.std.specs.Prelude.{◌≡◌, bytes_eq, position};

use gateway_core::Grant;

/// An open request. It must be finished.
pub(crate) struct Open<'g, 's> {
    /// What the script names it by.
    pub(crate) id: &'s str,
    pub(crate) grant: Grant<'g>,
}

/// The place of the first open request of an id.
pub(crate) fn place_of(opens: &[Open], id: &str) -> Option<usize>
    ensures { result ≡ position (λ o. bytes_eq o.id.now id.now) opens.now }
{
    opens.iter().position(|open| open.id == id)
}
