//! The files of a schema and of clients, by which requests are decided: reading them.

ghost use Rattle.std.specs.Prelude.{◌≡◌, ◌≤◌, ℕ, List, IfOk, IfErr, OnOk};
ghost use Rattle.outside.specs.Faults.{StayAll};
ghost use Rattle.command_outcomes.specs.Outcomes.{files_told};
ghost use Rattle.account_commands.specs.RuleFiles.{HoldRuleTexts, HaveNoRules};

use command_outcomes::{CLIENTS_LIMIT, Outcome, SCHEMA_LIMIT, read_text};
use gql_base::Text;
use outside::Files;
use std::alloc::Global;

/// The texts of a schema file and of a client file.
#[derive(Drop)]
pub struct RuleTexts {
    pub schema: Text,
    pub clients: Text,
}

/// Reads the schema file, and then the client file.
pub fn read_rules<F: Files>(
    alloc: Global,
    schema: &Text,
    clients: &Text,
    files: &mut F,
) -> Result<RuleTexts, Outcome>
    ensures held { IfOk result (HoldRuleTexts schema.now clients.now (F.content files.old)) }
    ensures same { F.content files.new ≡ F.content files.old }
    ensures count { (other : List ℕ) → F.faults files.old other ≤ F.faults files.new other }
    ensures still { OnOk result (StayAll (F.faults files.old) (F.faults files.new)) }
    ensures none { IfErr result (HaveNoRules schema.now clients.now (files_told (F.content files.old) (F.faults files.old) (F.faults files.new))) }
{
    let schema = match read_text(alloc, schema, SCHEMA_LIMIT, files) {
        Ok(schema) => schema,
        Err(outcome) => return Err(outcome),
    };
    match read_text(alloc, clients, CLIENTS_LIMIT, files) {
        Ok(clients) => Ok(RuleTexts { schema, clients }),
        Err(outcome) => Err(outcome),
    }
}
