//! The output of a text, or a report of all its missing variables, each with its underlined line.

ghost use Rattle.std.specs.Prelude.{IfOk, map, string_bytes};
ghost use Rattle.std.specs.List.{All};
ghost use Rattle.subst.specs.Calls.Variables.{missing_variable, missing_range};
ghost use Rattle.subst.specs.Range.{IsRangeIn};
ghost use Rattle.subst_uses.specs.CommandLine.{texts_of};
ghost use Rattle.subst_uses.specs.Report.{AreReports, IsWholeOutcome};

use crate::memory;
use crate::report::{Outcome, fault_report};
use std::alloc::{AllocError, Global};
use std::collections::BTreeMap;
use subst::error::NoSuchVariable;
use subst::{Error, Template, laws};

/// Expands the text of a file, or reports every missing variable, in order. If the text isn't a template, its
/// one fault is reported.
///
/// # Errors
///
/// If allocation fails.
pub fn filled(
    alloc: Global,
    file: &str,
    source: &str,
    variables: &BTreeMap<String, String>,
) -> Result<Outcome, AllocError>
    ensures { IfOk result (IsWholeOutcome (texts_of variables.now) file.now source.now) }
{
    laws::missing_lists_are_whole();
    let template = match Template::from_str(alloc, source) {
        Ok(template) => template,
        Err(e) => {
            let fault = fault_report(alloc, file, source, Error::from(e))?;
            return Ok(Outcome::Report(fault));
        }
    };
    let missing = template.missing(alloc, variables)?;
    if !missing.is_empty() {
        return Ok(Outcome::Report(reports(alloc, file, source, missing)?));
    }
    match template.expand(alloc, variables) {
        Ok(output) => Ok(Outcome::Output(output)),
        Err(e) => Err(memory::of_expanding(e)),
    }
}

/// Returns the reports of missing variables, concatenated.
fn reports(
    alloc: Global,
    file: &str,
    source: &str,
    missing: Vec<NoSuchVariable>,
) -> Result<String, AllocError>
    requires { All (λ e. IsRangeIn source.now (missing_range e)) missing.items }
    ensures { IfOk result (λ text.
        AreReports file.now (map missing_variable missing.items) source.now (string_bytes text)) }
{
    let mut text = String::new(alloc);
    for e in missing {
        let shown = fault_report(alloc, file, source, Error::NoSuchVariable(e))?;
        text.push_str(shown.as_str())?;
    }
    Ok(text)
}
