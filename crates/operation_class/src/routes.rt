//! Where the operation is answered that is asked for by its name, or without one.

ghost use Rattle.std.specs.Prelude.{IfOk};
ghost use Rattle.document_reader.specs.Picking.{asked};
ghost use Rattle.operation_class.specs.Routes.{IsRoute};

use crate::classes::Class;
use crate::operations::class;
use document_reader::{Document, pick};
use std::alloc::{AllocError, Global};

/// Where an operation is answered.
#[derive(Clone, Copy, Debug, PartialEq, Eq)]
pub enum Route {
    /// By the upstream server; or none is picked.
    Upstream,
    /// By the gateway. The operation stands at this place among the definitions.
    Local { place: usize },
    /// By neither: beside a field that the gateway answers stands one that it can't, whose name begins at this offset.
    Mixed { at: usize },
}

/// Where the operation is answered that is picked by this name, or without one (GraphQL October 2021, 6.1). Where none is picked,
/// that is for others to say.
///
/// # Errors
///
/// `AllocError` where there was not enough memory.
pub fn route_of(alloc: Global, document: &Document, name: Option<&str>) -> Result<Route, AllocError>
    ensures { IfOk result (IsRoute (asked name.entry) document.now.definitions.items) }
{
    let Ok(place) = pick(document, name) else {
        return Ok(Route::Upstream);
    };
    match class(alloc, document, place)? {
        Class::Upstream => Ok(Route::Upstream),
        Class::Local => Ok(Route::Local { place }),
        Class::Mixed { at } => Ok(Route::Mixed { at }),
    }
}
