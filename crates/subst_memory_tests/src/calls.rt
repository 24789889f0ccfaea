//! Calls between printed marks, and the values that are printed around them.

use std::alloc::AllocError;
use subst::Error;
use subst::error::{ExpandError, NoSuchVariable, ParseError};
use subst_testing::answers::fault_text;

/// Makes the call `$call` between printed marks, and repeats it without marks if its result matches
/// `$out_of_memory`. The first mark contains `$name`. Prints the borrowed values before each attempt. At the
/// end, prints the last attempt's result, the borrowed values and an empty line.
macro_rules! again {
    ($rt:ident, $name:expr, [$($borrowed:ident),*], $out_of_memory:pat => $call:expr) => {
        $($borrowed.show($rt, "borrowed");)*
        $crate::marks::begin($rt, $name);
        let mut returned = $call;
        $crate::marks::end($rt);
        if let $out_of_memory = returned {
            $crate::marks::print_out_of_memory($rt);
            $($borrowed.show($rt, "borrowed");)*
            returned = $call;
        }
        $crate::calls::print_result($rt, returned);
        $($borrowed.show($rt, "borrowed");)*
        $crate::calls::print_end($rt);
    };
}

/// Makes the call `$call` between printed marks, and returns its result. The first mark contains `$name`.
macro_rules! once {
    ($rt:expr, $name:expr => $call:expr) => {{
        $crate::marks::begin($rt, $name);
        let returned = $call;
        $crate::marks::end($rt);
        returned
    }};
}

pub(crate) use again;
pub(crate) use once;

/// A value that is printed, as an argument or a result of a call.
pub trait Show {
    /// The text printed for an empty list of such values.
    const NONE: &'static str = "none";

    /// Prints the value, in lines that begin with `word`.
    fn show(&self, rt: &HostRuntime, word: &str);
}

/// Prints a line of `word`, a space and `text`.
pub fn print(rt: &HostRuntime, word: &str, text: &str) {
    let _ = rt.println(format_args!("{word} {text}"));
}

/// Prints an empty line.
pub fn print_end(rt: &HostRuntime) {
    let _ = rt.println("");
}

/// Prints a line of `word` and bytes, or of `word` and `no text` if the bytes aren't UTF-8.
pub fn print_bytes(rt: &HostRuntime, word: &str, bytes: &[u8]) {
    print(rt, word, str::from_utf8(bytes).unwrap_or("no text"));
}

/// Prints the result of a call: the value after `gives`, or the error after `refused`.
pub fn print_result<T: Show + Drop, E: Show + Drop>(rt: &HostRuntime, returned: Result<T, E>) {
    match returned {
        Ok(value) => value.show(rt, "gives"),
        Err(fault) => fault.show(rt, "refused"),
    }
}

fn cloned<T: Clone>(original: &T) -> Result<T, AllocError> {
    let copy: Result<T, AllocError> = original.clone();
    copy
}

/// Makes the call `clone` on a value, and prints the result.
pub fn clone<T: Clone + Show + Drop>(rt: &HostRuntime, name: &str, original: T) {
    again!(rt, name, [original], Err(_) => cloned(&original));
}

impl Show for () {
    fn show(&self, rt: &HostRuntime, word: &str) {
        print(rt, word, "nothing");
    }
}

/// Prints each line of a text.
impl Show for &str {
    fn show(&self, rt: &HostRuntime, word: &str) {
        for line in self.lines() {
            print(rt, word, line);
        }
    }
}

impl Show for String {
    fn show(&self, rt: &HostRuntime, word: &str) {
        print(rt, word, self.as_str());
    }
}

impl Show for Vec<u8> {
    fn show(&self, rt: &HostRuntime, word: &str) {
        print_bytes(rt, word, self.as_slice());
    }
}

/// Prints each value of a list, or `NONE` if the list is empty.
impl<T: Show> Show for Vec<T> {
    fn show(&self, rt: &HostRuntime, word: &str) {
        if self.is_empty() {
            print(rt, word, T::NONE);
        }
        for it in self {
            it.show(rt, word);
        }
    }
}

impl Show for AllocError {
    fn show(&self, rt: &HostRuntime, word: &str) {
        print(rt, word, "for want of memory");
    }
}

impl Show for Error {
    fn show(&self, rt: &HostRuntime, word: &str) {
        match fault_text(rt.alloc(), self) {
            Ok(text) => print(rt, word, text.as_str()),
            Err(_) => print(rt, word, "a fault that isn't told"),
        }
    }
}

impl Show for ParseError {
    fn show(&self, rt: &HostRuntime, word: &str) {
        Error::from(*self).show(rt, word);
    }
}

impl Show for ExpandError {
    fn show(&self, rt: &HostRuntime, word: &str) {
        match self {
            ExpandError::NoSuchVariable(fault) => fault.show(rt, word),
            ExpandError::OutOfMemory(fault) => fault.show(rt, word),
        }
    }
}

impl Show for NoSuchVariable {
    const NONE: &'static str = "all there";

    fn show(&self, rt: &HostRuntime, word: &str) {
        let (position, name) = (self.position, &self.name);
        let _ = rt.println(format_args!("{word} {position}: NoSuchVariable {name}"));
    }
}
