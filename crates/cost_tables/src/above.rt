//! What stands above nodes.

ghost use Rattle.std.specs.Prelude.{◌≡◌, IfOk, OnOk};
ghost use Rattle.cost_tables.specs.Cells.{at_root, above_of, path_of, stack_behind};

use gql_base::Text;
use plan_table::NodeRow;
use std::alloc::{AllocError, Global};

/// What stands above nodes of some depth.
#[derive(Drop)]
pub struct Above {
    /// Its path: `data`, and behind it a full stop and a response key for each field.
    pub path: Text,
    /// The name of the last of these fields; empty at the root.
    pub field: Text,
}

/// What stands above the nodes of the root.
pub fn at_root(alloc: Global) -> Result<Above, AllocError>
    ensures { IfOk result (λ above. above ≡ at_root) }
{
    Ok(Above {
        path: Text::copy_of(alloc, "data")?,
        field: Text::copy_of(alloc, "")?,
    })
}

/// The path of what stands above a node, and the name of the field there.
pub fn above_of<'a>(stack: &'a [Above], row: &NodeRow) -> (&'a str, &'a str)
    ensures path { result.0.now ≡ (above_of stack.now row.now).path }
    ensures field { result.1.now ≡ (above_of stack.now row.now).field }
{
    match stack.get((row.depth as usize).saturating_sub(1)) {
        Some(above) => (above.path.as_str(), above.field.as_str()),
        None => ("data", ""),
    }
}

/// The path of a node.
pub fn path_of(alloc: Global, stack: &[Above], row: &NodeRow) -> Result<Text, AllocError>
    ensures { IfOk result (λ path. path ≡ path_of stack.now row.now) }
{
    let (above, _) = above_of(stack, row);
    let key = row.key.as_str();
    Ok(Text::from(format!(in alloc; "{above}.{key}")?))
}

/// Goes on to what stands above the nodes behind this one.
pub fn go_behind(alloc: Global, row: &NodeRow, stack: &mut Vec<Above>) -> Result<(), AllocError>
    ensures { OnOk result (stack.new.items ≡ stack_behind stack.old.items row.now) }
{
    let path = path_of(alloc, stack, row)?;
    let field = Text::copy_of(alloc, row.name.as_str())?;
    stack.truncate(row.depth as usize);
    stack.push(Above { path, field })?;
    Ok(())
}
