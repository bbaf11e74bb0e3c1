//! Lists of trusted documents: reading their files, and what they hold.

ghost use Rattle.std.specs.Prelude.{◌≡◌, IfOk, IfErr, OnOk};
ghost use Rattle.outside.specs.Faults.{StayAll};
ghost use Rattle.trusted_documents.specs.FaultTexts as list_texts;
ghost use Rattle.command_outcomes.specs.Outcomes.{files_told, IsRefusedAs};
ghost use Rattle.account_commands.specs.Lists.{IsListText, HasNoListText, HoldsList, HasListFault, TellsList, IfListRefused};

use command_outcomes::{Outcome, TRUSTED_LIMIT, read_text};
use command_words::AskedList;
use gql_base::Text;
use outside::Files;
use std::alloc::Global;
use thiserror::Error;
use trusted_documents::{Trusted, TrustedFault, read_trusted, trusted_fault_text};

/// The text of a list of trusted documents.
#[derive(Drop)]
pub struct ListText {
    pub text: Text,
    /// Whether only its documents may be asked.
    pub only: bool,
}

/// Why there is no list.
#[derive(Debug, Drop, Error)]
pub enum ListFault {
    /// The text is refused. The fault is not want of memory.
    #[error("the list of trusted documents is refused: {0}")]
    Refused(TrustedFault),
    /// There was no memory.
    #[error("there was no memory for the list of trusted documents")]
    Memory,
}

/// Reads the file of a list, if there is one.
pub fn read_list<F: Files>(
    alloc: Global,
    asked: &Option<AskedList>,
    files: &mut F,
) -> Result<Option<ListText>, Outcome>
    ensures held { IfOk result (IsListText asked.now (F.content files.old)) }
    ensures still { OnOk result (StayAll (F.faults files.old) (F.faults files.new)) }
    ensures none { IfErr result (HasNoListText asked.now (files_told (F.content files.old) (F.faults files.old) (F.faults files.new))) }
{
    let Some(asked) = asked else {
        return Ok(None);
    };
    match read_text(alloc, &asked.file, TRUSTED_LIMIT, files) {
        Ok(text) => Ok(Some(ListText {
            text,
            only: asked.only,
        })),
        Err(outcome) => Err(outcome),
    }
}

// Why there is no list.
fn list_fault(fault: TrustedFault) -> ListFault
    ensures { TellsList fault result }
{
    match fault {
        TrustedFault::Memory => ListFault::Memory,
        fault => ListFault::Refused(fault),
    }
}

/// The list of a text, if there is one.
pub fn list_in(alloc: Global, text: &Option<ListText>) -> Result<Option<Trusted>, ListFault>
    ensures held { IfOk result (HoldsList text.now) }
    ensures refused { IfErr result (λ fault. IfListRefused fault (HasListFault text.now)) }
{
    let Some(list) = text else {
        return Ok(None);
    };
    match read_trusted(alloc, list.text.as_str(), list.only) {
        Ok(trusted) => Ok(Some(trusted)),
        Err(fault) => Err(list_fault(fault)),
    }
}

/// The outcome of a text that is no list.
pub fn refused_list(alloc: Global, fault: &TrustedFault) -> Outcome
    ensures { IsRefusedAs (list_texts.trusted_fault_text fault.now) result }
{
    match trusted_fault_text(alloc, fault) {
        Ok(text) => Outcome::Refused(text),
        Err(_) => Outcome::Memory,
    }
}
