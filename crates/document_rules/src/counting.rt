//! The steps of parts: each part, its directives and arguments, and the texts of its names.

use crate::sites::Site;
use counted_work::{Work, steps_of_text};
use gql_base::{Argument, Name};
use std::alloc::AllocError;

fn take_name(work: Work<'_>, name: &Name) -> Result<(), AllocError> {
    work.take(steps_of_text(name.text.as_str().len()))
}

fn take_arguments(work: Work<'_>, arguments: &[Argument]) -> Result<(), AllocError> {
    work.take(arguments.len())?;
    for argument in arguments {
        take_name(work, &argument.name)?;
    }
    Ok(())
}

fn take_part(work: Work<'_>, site: Site<'_>) -> Result<(), AllocError> {
    work.take(site.directives().len())?;
    match site {
        Site::Variable(variable) => take_name(work, &variable.name),
        Site::Operation(_) => Ok(()),
        Site::Fragment(fragment) => take_name(work, &fragment.on),
        Site::Field { field, .. } => {
            take_name(work, &field.name)?;
            take_arguments(work, field.arguments.as_slice())
        }
        Site::Spread { name, .. } => take_name(work, name),
        Site::Inline { on: Some(on), .. } => take_name(work, on),
        Site::Inline { on: None, .. } => Ok(()),
    }
}

/// Takes the steps of parts, once for all rules that look at them.
pub(crate) fn count_parts(work: Work<'_>, sites: &[Site<'_>]) -> Result<(), AllocError> {
    work.take(sites.len())?;
    for site in sites {
        take_part(work, *site)?;
    }
    Ok(())
}
