ghost use Rattle.std.specs.Prelude.{◌≡◌, ◌≢◌, [], IfOk, IfErr, IsErr, IsOkAnd, Ok};
ghost use Rattle.std.specs.IoError.{error_kind};
ghost use Rattle.std.specs.declared.io.ErrorKind.TheVariants as kind;

use crate::no_memory::NoMemory;
use std::alloc::Global;
use std::io;
use std::io::ErrorKind;

/// The words of the arguments, as the system gives them. One that is no text is in none of the forms that words may
/// have, and neither is no word at all; every other fault is want of memory.
pub fn words_of(alloc: Global, arguments: io::Result<Vec<String>>) -> Result<Vec<String>, NoMemory>
    ensures read { IfOk arguments (λ words. result ≡ Ok words) }
    ensures no_text { IfErr arguments
        (λ e. error_kind e ≡ kind.InvalidData → IsOkAnd result (λ words. words.items ≡ [])) }
    ensures other { IfErr arguments
        (λ e. error_kind e ≢ kind.InvalidData → IsErr result) }
{
    match arguments {
        Ok(words) => Ok(words),
        Err(error) if error.kind() == ErrorKind::InvalidData => Ok(Vec::new(alloc)),
        Err(_) => Err(NoMemory),
    }
}
