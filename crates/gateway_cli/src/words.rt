//! The words that the program is given.

ghost use Rattle.std.specs.Prelude.{◌≡◌, ◌↔◌, IsOk, IfOk, IfErr, drop};
ghost use Rattle.std.specs.IoError.{error_kind};
ghost use Rattle.gateway_cli.specs.Words.{texts_in};

use gateway_run::WordsFault;
use gql_base::Text;
use std::alloc::Global;
use std::env::Args;
use std::io;
use std::io::ErrorKind;

// Why the system's words could not be had: for want of memory, or since one is not UTF-8.
fn words_fault(kind: ErrorKind) -> WordsFault
    ensures { (result ≡ WordsFault.Memory) ↔ (kind ≡ ErrorKind.OutOfMemory) }
{
    match kind {
        ErrorKind::OutOfMemory => WordsFault::Memory,
        _ => WordsFault::Usage,
    }
}

// The words after the first one, which is the program's name.
fn words_after(alloc: Global, mut given: Args) -> Result<Vec<Text>, WordsFault>
    ensures words { IfOk result (λ words. words.items ≡ drop 1 (texts_in given)) }
    ensures memory { IfErr result (λ fault. fault ≡ WordsFault.Memory) }
{
    let mut words = Vec::new(alloc);
    let _name = given.next();
    for word in given {
        if words.push(Text::from(word)).is_err() {
            return Err(WordsFault::Memory);
        }
    }
    Ok(words)
}

/// The words after the program's name, of what the system gives.
///
/// # Errors
///
/// `Usage` where the system gives none though there is memory, and `Memory` where that is wanting.
pub(crate) fn words_of(alloc: Global, given: io::Result<Args>) -> Result<Vec<Text>, WordsFault>
    ensures words { IfOk result (λ words. IfOk given (λ args. words.items ≡ drop 1 (texts_in args))) }
    ensures given { IfOk result (λ words. IsOk given) }
    ensures memory { IfOk given (λ args. IfErr result (λ fault. fault ≡ WordsFault.Memory)) }
    ensures fault { IfErr given (λ error. IfErr result (λ fault. (fault ≡ WordsFault.Memory) ↔ (error_kind error ≡ ErrorKind.OutOfMemory))) }
{
    match given {
        Ok(given) => words_after(alloc, given),
        Err(error) => Err(words_fault(error.kind())),
    }
}
