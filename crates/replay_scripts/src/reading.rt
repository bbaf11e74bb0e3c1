//! Reading a script.

ghost use Rattle.std.specs.Prelude.{◌≡◌, ◌≤◌, ℕ, List, IfOk, IfErr, OnOk};
ghost use Rattle.gql_base.specs.names.Indexes.{at_name};
ghost use Rattle.replay_scripts.specs.Steps.{StepData, step_data};
ghost use Rattle.replay_scripts.specs.Scripts.{IsScript, with_begun};
ghost use Rattle.replay_scripts.specs.Faults.{IsAtFault, HasFault};
ghost use Rattle.replay_scripts.specs.Answers.{steps_of, Gives, Tells, UnlessMemory};
ghost use Rattle.replay_scripts.specs.Fronts.{stands, Know, Follows};
ghost use Rattle.replay_scripts.specs.declared.fault.ScriptFault as fault_type;
ghost use Rattle.replay_scripts.specs.declared.fault.ScriptFault.TheVariants.{Memory};

use crate::fault::ScriptFault;
use crate::line::first_line;
use crate::step::{LINE_LIMIT, Script, Step};
use crate::step_line::step_in;
use std::alloc::Global;
use std::collections::BTreeMap;

/// Reads a script. Its lines end with line feeds, the last one optionally; a line is `begin ID KEY MOMENT BODY`,
/// `end ID BODY`, `down ID` or `fail ID`, with single spaces.
///
/// Of a text that is none it tells the fault of the first line at fault. It takes time in proportion to the text, and for
/// the ids that of a search tree. Where there is no memory it may tell that.
pub fn read_script(alloc: Global, text: &str) -> Result<Script<'_>, ScriptFault>
    ensures script { IfOk result (λ script. IsScript text.now (steps_of script)) }
    ensures fault { IfErr result (UnlessMemory (HasFault text.now)) }
    ensures only_script { (steps : List StepData) → IsScript text.now steps → Gives steps result }
    ensures only_fault { (fault : fault_type.ScriptFault) → HasFault text.now fault → Tells fault result }
{
    let mut steps = Vec::new(alloc);
    let mut begun = BTreeMap::new(alloc);
    let mut rest = text;
    while !rest.is_empty() {
        let (line, more) = first_line(rest);
        let step = match step_behind(line, steps.len(), &begun) {
            Ok(step) => step,
            Err(fault) => return Err(fault),
        };
        note_begun(&mut begun, step, steps.len())?;
        steps.push(step)?;
        rest = more;
    }
    Ok(Script { steps })
}

/// The step that a line is behind so many lines, when the requests of these ids began.
fn step_behind<'a>(
    line: &'a str,
    count: usize,
    begun: &BTreeMap<&str, usize>,
) -> Result<Step<'a>, ScriptFault>
    requires { count ≤ LINE_LIMIT }
    ensures step { IfOk result (λ step. Follows (stands (at_name begun.now)) count line.now (step_data step)) }
    ensures fault { IfErr result (IsAtFault (stands (at_name begun.now)) count line.now) }
{
    let number = count + 1;
    if count == LINE_LIMIT {
        return Err(ScriptFault::BadLine { line: number });
    }
    match step_in(line) {
        None => Err(ScriptFault::BadLine { line: number }),
        Some(Step::Begin { id, .. }) if begun.contains_key(id) => {
            Err(ScriptFault::RepeatedId { line: number })
        }
        Some(Step::End { id, .. }) if !begun.contains_key(id) => {
            Err(ScriptFault::UnknownId { line: number })
        }
        Some(step) => Ok(step),
    }
}

/// Notes the id of a request that a step begins, with how many lines stand before it.
fn note_begun<'a>(
    begun: &mut BTreeMap<&'a str, usize>,
    step: Step<'a>,
    count: usize,
) -> Result<(), ScriptFault>
    ensures known { OnOk result ((ids : List (List ℕ)) → Know (at_name begun.old) ids → Know (at_name begun.new) (with_begun (step_data step.entry) ids)) }
    ensures fault { IfErr result (λ fault. fault ≡ Memory) }
{
    match step {
        Step::Begin { id, .. } => {
            begun.insert(id, count)?;
            Ok(())
        }
        Step::End { .. } => Ok(()),
    }
}
