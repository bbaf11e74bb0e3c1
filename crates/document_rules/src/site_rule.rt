//! Rules that look at one part at a time.

ghost use Rattle.std.specs.Prelude.{◌≡◌, map, IfOk};
ghost use Rattle.schema_rules.specs.First.{fault_where, first_of};
ghost use Rattle.document_rules.specs.Views.{site_data};

use crate::sites::Site;
use std::alloc::{AllocError, Global};

/// A rule that is kept where each part keeps it.
pub trait SiteRule {
    ghost use Rattle.std.specs.Prelude.{ℕ, Option, ◌≡◌, IfOk};
    ghost use Rattle.document_rules.specs.Sites.{Site};
    ghost use Rattle.document_rules.specs.Views.{site_data};

    ghost breaks: { Self → Site → Option ℕ };

    /// The offset of the first place at which a part breaks the rule. It fails for want of memory alone.
    fn broken(&self, alloc: Global, site: Site<'_>) -> Result<Option<usize>, AllocError>
        ensures { IfOk result (λ at. at ≡ breaks self.now (site_data site.entry)) };
}

/// The first place at which the rule is broken.
pub fn first_broken<R: SiteRule>(
    alloc: Global,
    rule: &R,
    sites: &[Site<'_>],
) -> Result<Option<usize>, AllocError>
    ensures { IfOk result (λ at. at ≡ first_of (R.breaks rule.now) (map site_data sites.now)) }
{
    for site in sites {
        if let Some(at) = rule.broken(alloc, *site)? {
            return Ok(Some(at));
        }
    }
    Ok(None)
}

/// An offset, where something is wrong there.
pub fn fault_where(wrong: bool, at: usize) -> Option<usize>
    ensures { result ≡ fault_where wrong at }
{
    if wrong { Some(at) } else { None }
}
