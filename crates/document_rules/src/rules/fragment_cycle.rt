//! No fragment spreads itself, directly or through others (GraphQL October 2021, 5.5.2.2).

ghost use Rattle.std.specs.Prelude.{◌≡◌, map, nat_eq, option_map};
ghost use Rattle.std.specs.List.{list_any};
ghost use Rattle.document_rules.specs.Met.{met_there, inside_at};
ghost use Rattle.document_rules.specs.Rules.{is_inside};
ghost use Rattle.document_rules.specs.Views.{met_data};

use crate::indexes::{Defined, fragment_number};
use crate::met::Met;
use crate::site_rule::{SiteRule, fault_where};
use crate::sites::Site;
use counted_work::Work;
use gql_base::Indexed;
use std::alloc::{AllocError, Global};

/// What was met at a place.
fn met_there(met: &[Met], within: Option<usize>) -> Option<Met>
    ensures { option_map met_data result ≡ met_there (map met_data met.now) within }
{
    match within {
        Some(place) => met.get(place).copied(),
        None => None,
    }
}

/// Whether the walk is inside of the fragment of a number, where it is in the one at a place.
fn is_inside_of(work: Work<'_>, met: &[Met], within: Option<usize>, number: usize) -> bool
    ensures { result ≡ list_any (nat_eq number) (inside_at (map met_data met.now) within) }
{
    let mut at = within;
    for _step in 0..met.len() {
        work.count(1);
        let Some(one) = met_there(met, at) else {
            return false;
        };
        if number == one.number {
            return true;
        }
        at = one.within;
    }
    false
}

fn is_inside(work: Work<'_>, met: &[Met], within: Option<usize>, number: Option<usize>) -> bool
    ensures { result ≡ is_inside (inside_at (map met_data met.now) within) number }
{
    match number {
        Some(number) => is_inside_of(work, met, within, number),
        None => false,
    }
}

/// Refuses a spread of a fragment that the walk is inside of there.
#[derive(Clone, Copy)]
pub struct FragmentCycle<'c, 'a> {
    pub fragments: &'c Indexed<Defined<'a>>,
    pub met: &'c [Met],
    pub work: Work<'c>,
}

impl<'c, 'a> SiteRule for FragmentCycle<'c, 'a> {
    ghost use Rattle.std.specs.Prelude.{map};
    ghost use Rattle.document_rules.specs.Rules.{fragment_cycle};
    ghost use Rattle.document_rules.specs.Views.{defined_data, met_data};

    ghost breaks = { λ rule. fragment_cycle (map defined_data rule.fragments.now.items.items) (map met_data rule.met.now) };

    fn broken(&self, _alloc: Global, site: Site<'_>) -> Result<Option<usize>, AllocError> {
        match site {
            Site::Spread { within, name, .. } => {
                let number = fragment_number(self.fragments, name.text.as_str());
                if self.work.is_spent() {
                    return Err(AllocError);
                }
                let inside = is_inside(self.work, self.met, within, number);
                Ok(fault_where(inside, name.at))
            }
            _ => Ok(None),
        }
    }
}
