//! Printed marks around calls. From the marks, `tests/test_memory.py` learns which call allocates.

use std::io::Print;

/// Prints the mark before a call, with the call's name.
pub fn begin(rt: &impl Print, call: &str) {
    let _ = rt.println(format_args!("call: {call}"));
}

/// Prints the mark after a call.
pub fn end(rt: &impl Print) {
    let _ = rt.println("end of call");
}

/// Prints the mark of a call that was out of memory.
pub fn print_out_of_memory(rt: &impl Print) {
    let _ = rt.println("out of memory");
}
