// The words of the program's line, as they are held and lent.
ghost use Rattle.std.specs.Prelude.{◌≡◌, ◌⊎◌, IfOk, IfErr, map, string_bytes};
ghost use Rattle.command_line.specs.declared.options.OptionsError.TheVariants as refusal;

use crate::options::OptionsError;
use std::alloc::Global;
use std::env;
use std::io::ErrorKind;
use std::rt::Runtime;

/// The words of the program's line, the first of which is the program's own name; refused as usage where one of them is no text,
/// and for want of memory.
pub fn held_words(
    rt: &(impl Runtime + AllocGlobal),
    alloc: Global,
) -> Result<Vec<String>, OptionsError>
    ensures refused { IfErr result (λ e. (e ≡ refusal.NoMemory) ⊎ (e ≡ refusal.Usage)) }
{
    let mut words = Vec::new(alloc);
    let args = match env::args(rt) {
        Ok(args) => args,
        Err(error) if error.kind() == ErrorKind::OutOfMemory => return Err(OptionsError::NoMemory),
        Err(_) => return Err(OptionsError::Usage),
    };
    for word in args {
        if words.push(word).is_err() {
            return Err(OptionsError::NoMemory);
        }
    }
    Ok(words)
}

/// The words, lent; refused for want of memory.
pub fn as_strs(alloc: Global, held: &[String]) -> Result<Vec<&str>, OptionsError>
    ensures words { IfOk result (λ words.
        map (λ word. word.now) words.items ≡ map string_bytes held.now) }
    ensures refused { IfErr result (λ e. e ≡ refusal.NoMemory) }
{
    let mut words = Vec::new(alloc);
    for word in held {
        if words.push(word.as_str()).is_err() {
            return Err(OptionsError::NoMemory);
        }
    }
    Ok(words)
}
