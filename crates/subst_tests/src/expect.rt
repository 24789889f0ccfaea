//! Expectations of tests. A failed assertion names what was tested, and prints the actual and the expected
//! value.

use std::alloc::{AllocError, AllocGlobal, Global};
use std::fmt::{Debug, Display};
use std::process::Abort;

/// The runtime of a test: an allocator, and assertions that end the test.
pub trait Testing: Abort + AllocGlobal {}

impl<R: Abort + AllocGlobal> Testing for R {}

/// Expects that a result is the text `want`. A failure prints `of`.
pub fn expect<E: Debug + Drop>(rt: &impl Testing, of: &str, actual: Result<String, E>, want: &str) {
    match actual {
        Ok(actual) => assert_eq!(rt; actual.as_str(), want, "{of:?}"),
        Err(e) => panic!(rt; "{of:?}: {e:?}"),
    }
}

/// Expects that a result is the bytes of `want`. A failure prints `of`.
pub fn expect_bytes<E: Debug + Drop>(
    rt: &impl Testing,
    of: &str,
    actual: Result<Vec<u8>, E>,
    want: &str,
) {
    match actual {
        Ok(actual) => assert_eq!(rt; actual.as_slice(), want.as_bytes(), "{of:?}"),
        Err(e) => panic!(rt; "{of:?}: {e:?}"),
    }
}

/// Expects that the `{:?}` of a value is `want`.
pub fn expect_debug<T: Debug>(rt: &impl Testing, value: &T, want: &str) {
    let debug: Result<String, AllocError> = format!(in rt.alloc(); "{value:?}");
    expect(rt, want, debug, want);
}

/// Returns the texts of a value with several formatting options, separated by `|`.
fn display_texts<D: Display>(alloc: Global, value: &D) -> Result<String, AllocError> {
    format!(in alloc; "{value}|{value:>90}|{value:<90}|{value:*^90}|{value:.2}|{value:+#090.2}")
}

/// Expects that the text of a value doesn't depend on formatting options.
pub fn expect_plain<D: Display>(rt: &impl Testing, value: &D) -> Result<(), AllocError> {
    let plain = value.to_string(rt.alloc())?;
    expect_display(rt, value, &plain);
    Ok(())
}

/// Expects that the text of a value is `want`, whatever the formatting options.
pub fn expect_display<D: Display>(rt: &impl Testing, value: &D, want: &str) {
    let each: Result<String, AllocError> = format!(in rt.alloc();
        "{want}|{want}|{want}|{want}|{want}|{want}"
    );
    assert_eq!(rt; display_texts(rt.alloc(), value), each);
}
