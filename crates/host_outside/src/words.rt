// The words of a command.
ghost use Rattle.std.specs.Prelude.{◌≡◌, ◌≢◌, [], drop, IfErr, IfOk, IsOkAnd};
ghost use Rattle.std.specs.IoError.{error_kind};
ghost use Rattle.std.specs.Vec.Iter.{into_iter_items};
ghost use Rattle.std.specs.declared.io.ErrorKind.TheVariants as kind;

use std::alloc::{AllocError, Global};
use std::{env, io};

// The words after the first, which is the program's name.
fn after_name(mut all: Vec<String>) -> Vec<String>
    ensures { result.items ≡ drop 1 all.items }
{
    if !all.is_empty() {
        let _name = all.remove(0);
    }
    all
}

/// The words after the program's name; none where the system does not give them as text. Want of memory may come only where there
/// are words, or where the system itself had none.
pub fn words_after_name(
    alloc: Global,
    args: io::Result<env::Args>,
) -> Result<Vec<String>, AllocError>
    ensures words { IfOk args (λ words. IfOk result (λ after. after.items ≡ drop 1 (into_iter_items words))) }
    ensures no_words { IfErr args (λ _. IfOk result (λ after. after.items ≡ [])) }
    ensures no_text { IfErr args (λ error. error_kind error ≢ kind.OutOfMemory → IsOkAnd result (λ after. after.items ≡ [])) }
{
    let mut all = Vec::new(alloc);
    match args {
        Ok(words) => {
            for word in words {
                all.push(word)?;
            }
        }
        Err(error) => {
            if error.kind() == io::ErrorKind::OutOfMemory {
                return Err(AllocError);
            }
        }
    }
    Ok(after_name(all))
}
