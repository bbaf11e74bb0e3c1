//! What commands share: what a command can come to, the files that it reads, the texts of refusals, and the checked schema that a
//! file holds; and the command `check`, which asks for no more than that.
#![tactic(auto)]

mod check_laws;
mod checked;
mod checking;
mod inputs;
mod known;
mod limits;
mod outcome;
mod schema_texts;
mod text_laws;
mod texts;
mod wants;

pub use check_laws::a_schema_file_has_one_check;
pub use checked::{CheckFault, SchemaRefusal, Weighed, weighed_in};
pub use checking::check;
pub use inputs::{read_file, read_text};
pub use known::known_of;
pub use limits::{
    CLIENTS_LIMIT, DOCUMENT_LIMIT, REPLY_LIMIT, SCHEMA_LIMIT, SCRIPT_LIMIT, TRUSTED_LIMIT,
    VARIABLES_LIMIT,
};
pub use local_introspection::{Counted, Facts, Local, LocalFault, count, local_text, write};
pub use outcome::{
    DISK_FAILED, DONE, DOOR_FAILED, FILE_FAILED, NO_MEMORY, NOT_RESPONSE, Outcome, REFUSED,
    SIZE_BROKEN, STREAM_FAILED, USAGE, each_status_has_its_number,
};
pub use schema_texts::refused_schema;
pub use text_laws::refusals_of_files_are_one_line;
pub use texts::{refused_as, refused_naming};
pub use wants::wanting;
