//! A loader of configurations. It reads JSON, fills it in from an environment with defaults, and reports
//! errors with their positions.

ghost use Rattle.std.specs.Prelude.{IfOk};
ghost use Rattle.subst_uses.specs.Config.{IsLoaded, IsLoadedAs};
ghost use Rattle.subst_uses.specs.Layers.{answers_of};

use serde::DeserializeOwned;
use serde_json::Value;
use std::alloc::{AllocError, Global};
use std::collections::BTreeMap;
use subst::json::{Error, from_str, report, value_from_str};
use subst::{Env, Layered};

/// A configuration, or its errors.
#[derive(Drop)]
pub enum Loaded<T, E> {
    /// The configuration, with its strings filled in.
    Configuration(T),
    /// The error of the reader or of the first refused string, and the report of the file's errors. The
    /// function `report` of `json` or `toml` makes the report.
    Refused(E, String),
}

/// Returns the configuration of a file, or its errors with their report.
///
/// # Errors
///
/// If allocation fails.
pub fn load(
    alloc: Global,
    file: &str,
    source: &str,
    environment: &Env,
    defaults: &BTreeMap<String, String>,
) -> Result<Loaded<Value, Error>, AllocError>
    ensures { IfOk result
        (IsLoaded (answers_of environment.now defaults.now) file.now source.now) }
{
    let variables = Layered {
        first: environment,
        second: defaults,
    };
    match value_from_str(alloc, source, &variables) {
        Ok(tree) => Ok(Loaded::Configuration(tree)),
        Err(e) => {
            let report = report(alloc, file, source, &variables, &e)?;
            Ok(Loaded::Refused(e, report))
        }
    }
}

/// Returns the configuration of a file as a `T`, or the file's errors with their report.
///
/// # Errors
///
/// If allocation fails.
pub fn load_as<T: DeserializeOwned>(
    alloc: Global,
    file: &str,
    source: &str,
    environment: &Env,
    defaults: &BTreeMap<String, String>,
) -> Result<Loaded<T, Error>, AllocError>
    ensures { IfOk result
        (IsLoadedAs (answers_of environment.now defaults.now) file.now source.now) }
{
    let variables = Layered {
        first: environment,
        second: defaults,
    };
    match from_str(alloc, source, &variables) {
        Ok(value) => Ok(Loaded::Configuration(value)),
        Err(error) => {
            let report = report(alloc, file, source, &variables, &error)?;
            Ok(Loaded::Refused(error, report))
        }
    }
}
