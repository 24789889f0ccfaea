//! A loader of settings. It reads TOML, fills it in from an environment with defaults, and reports errors
//! with their positions.

ghost use Rattle.std.specs.Prelude.{IfOk};
ghost use Rattle.subst_uses.specs.Settings.{AreLoaded, AreLoadedAs};
ghost use Rattle.subst_uses.specs.Layers.{answers_of};

use crate::config::Loaded;
use serde::DeserializeOwned;
use std::alloc::{AllocError, Global};
use std::collections::BTreeMap;
use subst::toml::{Error, from_str, report, value_from_str};
use subst::{Env, Layered};
use toml::Value;

/// Returns the settings of a file, or its errors with their report.
///
/// # Errors
///
/// If allocation fails.
pub fn load(
    alloc: Global,
    file: &str,
    source: &str,
    environment: &Env,
    defaults: &BTreeMap<String, String>,
) -> Result<Loaded<Value, Error>, AllocError>
    ensures { IfOk result
        (AreLoaded (answers_of environment.now defaults.now) file.now source.now) }
{
    let variables = Layered {
        first: environment,
        second: defaults,
    };
    match value_from_str(alloc, source, &variables) {
        Ok(tree) => Ok(Loaded::Configuration(tree)),
        Err(e) => {
            let report = report(alloc, file, source, &variables, &e)?;
            Ok(Loaded::Refused(e, report))
        }
    }
}

/// Returns the settings of a file as a `T`, or the file's errors with their report.
///
/// # Errors
///
/// If allocation fails.
pub fn load_as<T: DeserializeOwned>(
    alloc: Global,
    file: &str,
    source: &str,
    environment: &Env,
    defaults: &BTreeMap<String, String>,
) -> Result<Loaded<T, Error>, AllocError>
    ensures { IfOk result
        (AreLoadedAs (answers_of environment.now defaults.now) file.now source.now) }
{
    let variables = Layered {
        first: environment,
        second: defaults,
    };
    match from_str(alloc, source, &variables) {
        Ok(settings) => Ok(Loaded::Configuration(settings)),
        Err(error) => {
            let report = report(alloc, file, source, &variables, &error)?;
            Ok(Loaded::Refused(error, report))
        }
    }
}
