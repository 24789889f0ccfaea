//! A launcher of a program. Each argument of the program's command line is a source.

ghost use Rattle.std.specs.Prelude.{map, IfOk, IfErr, IfSome};
ghost use Rattle.subst.specs.ErrorFault.{error_fault};
ghost use Rattle.subst.specs.Language.Several.{EachGives, IsFirstRefusal, under};
ghost use Rattle.subst_uses.specs.CommandLine.{texts_of};

use crate::filled;
use std::alloc::Global;
use std::collections::BTreeMap;
use subst::Error;

/// Expands each argument of a command line. A variable's value is never split into several arguments.
///
/// # Errors
///
/// If an argument is refused, the error of the first such argument. `OutOfMemory` if allocation fails.
pub fn command_line(
    alloc: Global,
    words: &[&str],
    variables: &BTreeMap<String, String>,
) -> Result<Vec<Vec<u8>>, Error>
    ensures ok { IfOk result (λ line.
        EachGives (under (texts_of variables.now)) (map (λ w. w.now) words.now)
        (map (λ x. x.items) line.items)) }
    ensures err { IfErr result (λ e. IfSome (error_fault e)
        (IsFirstRefusal (texts_of variables.now) (map (λ w. w.now) words.now))) }
{
    let mut line = Vec::new(alloc);
    for word in words {
        line.push(filled::by_strings(alloc, word.as_bytes(), variables)?)?;
    }
    Ok(line)
}
