//! What holds of client files. These functions do nothing: their contracts are the laws.

ghost use Rattle.std.specs.Prelude.{◌≡◌, ◌⊎◌, ℕ, List};
ghost use Rattle.client_files.specs.Limits.{key_limit, window_limit, client_limit, carry_limit, thousandth};
ghost use Rattle.client_files.specs.Lines.{lines_of};
ghost use Rattle.client_files.specs.ClientFiles.{IsClientFile, MayBeServed};
ghost use Rattle.client_files.specs.Faults.{IsFirstFault};
ghost use Rattle.client_files.specs.Written.{client_file};
ghost use Rattle.client_files.specs.declared.client.Client as client_type;
ghost use Rattle.client_files.specs.declared.fault.ClientsFault as fault_type;

use crate::client::{
    CARRY_LIMIT, CLIENT_LIMIT, Client, Clients, KEY_LIMIT, THOUSANDTH, WINDOW_LIMIT,
};
use crate::fault::ClientsFault;
use crate::heading::Version;

/// Each text is a client file in one way or has one first fault, and not both.
pub fn a_text_has_one_reading()
    ensures some { (text : List ℕ) → ((seconds : ℕ) × (clients : List client_type.Client) × IsClientFile text seconds clients) ⊎ ((fault : fault_type.ClientsFault) × IsFirstFault (lines_of text) fault) }
    ensures one_window { (text : List ℕ) (one other : ℕ) (clients others : List client_type.Client) → IsClientFile text one clients → IsClientFile text other others → one ≡ other }
    ensures same_clients { (text : List ℕ) (one other : ℕ) (clients others : List client_type.Client) → IsClientFile text one clients → IsClientFile text other others → clients ≡ others }
    ensures one_fault { (text : List ℕ) (one other : fault_type.ClientsFault) → IsFirstFault (lines_of text) one → IsFirstFault (lines_of text) other → one ≡ other }
    ensures not_both { (text : List ℕ) (seconds : ℕ) (clients : List client_type.Client) (fault : fault_type.ClientsFault) → IsClientFile text seconds clients → ¬ (IsFirstFault (lines_of text) fault) }
{}

/// What a file says may be served, and what may be served has a file, which is the one that is written for it.
pub fn what_may_be_served_has_a_file()
    ensures served { (text : List ℕ) (seconds : ℕ) (clients : List client_type.Client) → IsClientFile text seconds clients → MayBeServed seconds clients }
    ensures written { (seconds : ℕ) (clients : List client_type.Client) → MayBeServed seconds clients → IsClientFile (client_file seconds clients) seconds clients }
{}

/// The limits that are tested are those of client files.
pub fn limits_of_client_files()
    ensures keys { KEY_LIMIT ≡ key_limit }
    ensures windows { WINDOW_LIMIT ≡ window_limit }
    ensures clients { CLIENT_LIMIT ≡ client_limit }
    ensures carried { CARRY_LIMIT ≡ carry_limit }
    ensures thousandth { THOUSANDTH ≡ thousandth }
{}

/// Threads may share clients, what a file says, and its faults.
pub fn clients_are_shared() {
    is_shared::<Client>();
    is_shared::<Clients>();
    is_shared::<Version>();
    is_shared::<ClientsFault>();
}

fn is_shared<T: Send + Sync>() {}
