//! Errors of documents that are read without variables: each has the text of its inner error.

use std::alloc::{AllocError, Global};
use std::fmt::Display;
use subst::{NoSubstitution, json, toml as filled};

/// Returns whether the text of an error is `want`.
fn displays_as<E: Display>(alloc: Global, error: &E, want: String) -> Result<bool, AllocError> {
    Ok(error.to_string(alloc)? == want)
}

fn inside_json(alloc: Global, error: &json::Error) -> Result<String, AllocError> {
    match error {
        json::Error::Json(e) => e.to_string(alloc),
        json::Error::Subst(e) => e.to_string(alloc),
        json::Error::OutOfMemory(e) => e.to_string(alloc),
    }
}

fn json_shows_what_is_inside(alloc: Global, source: &str) -> Result<bool, AllocError> {
    match json::value_from_str(alloc, source, &NoSubstitution) {
        Ok(_) => Ok(false),
        Err(e) => displays_as(alloc, &e, inside_json(alloc, &e)?),
    }
}

#[test]
fn errors_of_json_have_the_text_of_the_one_inside(rt: HostRuntime) {
    let sources = [
        "[\"$x\"]",
        "[\"\\\\x\"]",
        "[\"${aé}\"]",
        "[\n\"$a\"",
        "[\"$x\",]",
        "{\"a\":1e999}",
    ];
    for source in sources {
        assert_eq!(rt;
            json_shows_what_is_inside(rt.alloc(), source),
            Ok(true),
            "{source}"
        );
    }
}

fn inside_toml(alloc: Global, error: &filled::Error) -> Result<String, AllocError> {
    match error {
        filled::Error::InvalidUtf8(e) => e.to_string(alloc),
        filled::Error::Toml(e) => e.to_string(alloc),
        filled::Error::Subst(e) => e.to_string(alloc),
        filled::Error::OutOfMemory(e) => e.to_string(alloc),
    }
}

fn toml_shows_what_is_inside(alloc: Global, source: &[u8]) -> Result<bool, AllocError> {
    match filled::value_from_slice(alloc, source, &NoSubstitution) {
        Ok(_) => Ok(false),
        Err(e) => displays_as(alloc, &e, inside_toml(alloc, &e)?),
    }
}

#[test]
fn errors_of_toml_have_the_text_of_the_one_inside(rt: HostRuntime) {
    let sources = [
        b"k = '$x'".as_slice(),
        b"k = ['\\x']",
        b"k = '${a\xC3\xA9}'",
        b"x =",
        b"k = '$x'\nk = 1",
        b"d = 1979-13-01",
        b"x =\xFF",
    ];
    for source in sources {
        assert_eq!(rt;
            toml_shows_what_is_inside(rt.alloc(), source),
            Ok(true),
            "{source:?}"
        );
    }
}
