//! Selection sets that hold nothing but the spread of a fragment.

ghost use Rattle.std.specs.Prelude.{IfSome};
ghost use Rattle.document_reader.specs.Trees.{selection_tree, set_tree};
ghost use Rattle.variable_coercion.specs.Calls.{environment};
ghost use Rattle.collected_fields.specs.Alone.{IsSpread, IsSpreadAlone};

use counted_work::Work;
use distinct_selections::is_included;
use document_reader::Selection;
use variable_coercion::Variables;

/// The name of the fragment that a selection spreads, where it isn't left out.
fn spread_in<'a>(work: Work<'_>, variables: &Variables, selection: &'a Selection) -> Option<&'a str>
    ensures { IfSome result (λ name. IsSpread (environment variables.now) (selection_tree selection.now) name.now) }
{
    match selection {
        Selection::Spread { name, directives } => {
            work.count(directives.len());
            if is_included(variables, directives.as_slice()) {
                Some(name.text.as_str())
            } else {
                None
            }
        }
        Selection::Field(_) => None,
        Selection::Inline { .. } => None,
    }
}

/// The name of the fragment that selections spread, where they hold nothing else.
pub(crate) fn spread_alone<'a>(
    work: Work<'_>,
    variables: &Variables,
    selections: &'a [Selection],
) -> Option<&'a str>
    ensures { IfSome result (λ name. IsSpreadAlone (environment variables.now) (set_tree selections.now) name.now) }
{
    let [selection] = selections else {
        return None;
    };
    spread_in(work, variables, selection)
}
