//! The commands over clients' accounts that open no doors: the replay of a script, an exercise, and the migration of a client file;
//! and what serving shares with them, the rules that files hold and the lines of the clients.
#![tactic(auto)]

mod client_lines;
mod exercise_laws;
mod exercising;
mod gates;
mod list_inputs;
mod migrate_laws;
mod migrating;
mod replay_end;
mod replay_inputs;
mod replay_laws;
mod replay_texts;
mod replaying;
mod rule_inputs;
mod rule_laws;
mod rule_texts;

pub use client_lines::{write_accounts, write_clients};
pub use command_outcomes::{
    DISK_FAILED, DONE, DOOR_FAILED, FILE_FAILED, NO_MEMORY, NOT_RESPONSE, Outcome, REFUSED,
    SCHEMA_LIMIT, SIZE_BROKEN, STREAM_FAILED, USAGE, check,
};
pub use exercise_laws::an_exercise_is_refused_for_its_schema_alone;
pub use exercising::exercise;
pub use gates::gate_by;
pub use list_inputs::{ListFault, ListText, list_in, read_list, refused_list};
pub use migrate_laws::{a_client_file_has_one_migration, migrating_twice_is_migrating_once};
pub use migrating::migrate;
pub use replay_laws::{refusals_of_replays_are_one_line, refused_texts_have_no_replay};
pub use replaying::replay;
pub use rule_inputs::{RuleInputs, RulesFault, RulesRefusal, refused_rules, rule_inputs_in};
pub use rule_laws::refused_texts_hold_no_rules;
pub use rule_texts::{RuleTexts, read_rules};
