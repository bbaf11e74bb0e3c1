//! What holds of the migration of all client files. These functions do nothing: their contracts are the laws.

ghost use Rattle.std.specs.Prelude.{◌≡◌, ◌⊎◌, ℕ, List};
ghost use Rattle.client_files.specs.Lines.{lines_of};
ghost use Rattle.client_files.specs.Faults.{IsFirstFault};
ghost use Rattle.client_files.specs.Written.{Migrates};
ghost use Rattle.client_files.specs.declared.fault.ClientsFault.{ClientsFault};
ghost use Rattle.command_outcomes.specs.declared.outcome.Outcome as outcome_type;
ghost use Rattle.command_outcomes.specs.declared.outcome.Outcome.TheVariants.{Memory};
ghost use Rattle.command_outcomes.specs.Texts.{line};
ghost use Rattle.command_outcomes.specs.Outcomes.{IsDone};
ghost use Rattle.account_commands.specs.Migrate.{MigrateOf};

use client_files::laws::{a_text_has_one_reading, what_may_be_served_has_a_file};

/// A text has one output at most. One that is refused has none, and is refused in one way at most.
pub fn a_client_file_has_one_migration()
    ensures one_output { (text output other : List ℕ) → Migrates text (line output) → Migrates text (line other) → output ≡ other }
    ensures not_both { (text output : List ℕ) (fault : ClientsFault) → Migrates text (line output) → IsFirstFault (lines_of text) fault → ⊥ }
    ensures one_refusal { (text : List ℕ) (fault other : ClientsFault) → IsFirstFault (lines_of text) fault → IsFirstFault (lines_of text) other → fault ≡ other }
{
    a_text_has_one_reading();
}

/// Migrating twice is migrating once: a file that is written is its own migration, and where it is migrated again, just its text
/// is the output, unless there is no memory.
pub fn migrating_twice_is_migrating_once()
    ensures same_file { (text file : List ℕ) → Migrates text file → Migrates file file }
    ensures same_output { (text output : List ℕ) (outcome : outcome_type.Outcome) → Migrates text (line output) → MigrateOf (line output) outcome → (outcome ≡ Memory) ⊎ IsDone output outcome }
{
    a_text_has_one_reading();
    what_may_be_served_has_a_file();
}
