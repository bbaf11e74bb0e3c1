//! How long the files of commands may be.

/// How many bytes a schema file may have.
pub const SCHEMA_LIMIT: usize = 4_194_304;
/// How many bytes a document file may have.
pub const DOCUMENT_LIMIT: usize = 262_144;
/// How many bytes a file of variables may have.
pub const VARIABLES_LIMIT: usize = 4_194_304;
/// How many bytes a client file may have.
pub const CLIENTS_LIMIT: usize = 262_144;
/// How many bytes a reply file may have.
pub const REPLY_LIMIT: usize = 4_194_304;
/// How many bytes a script may have.
pub const SCRIPT_LIMIT: usize = 4_194_304;
/// How many bytes a list of trusted documents may have.
pub const TRUSTED_LIMIT: usize = 4_194_304;
