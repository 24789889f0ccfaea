//! Calls that convert texts of other tools.

use crate::calls::{Show, again, print};
use std::alloc::AllocError;
use subst::foreign::{
    self, AllNames, FormAt, Forms, Missing, OnlyNames, Style, TextError, TextVariable,
};

/// A text with variables, literal dollars and a literal backslash.
const TEXT: &str = "a $b \\ $1 ${c} $";

/// A shell-style text without refused forms, unlike `REFUSED`.
const SHELL: &str = "a ${b:-x} $$ ${c:?m}";

const REFUSED: &str = "a ${b:=x} ${} ${c:-";

impl Show for TextError {
    fn show(&self, rt: &HostRuntime, word: &str) {
        match self {
            TextError::Refused(form) => form.show(rt, word),
            TextError::OutOfMemory(e) => e.show(rt, word),
        }
    }
}

impl Show for FormAt {
    fn show(&self, rt: &HostRuntime, word: &str) {
        let FormAt { position, form } = self;
        let _ = rt.println(format_args!("{word} {position}: {form}"));
    }
}

impl Show for TextVariable<'_> {
    fn show(&self, rt: &HostRuntime, word: &str) {
        let name = str::from_utf8(self.name).unwrap_or("no text");
        let (position, operator) = (self.position, self.operator);
        let _ = rt.println(format_args!("{word} {position}: {name} {operator:?}"));
    }
}

/// Prints the fixed text `names`, since a set of names has no text of its own.
impl Show for OnlyNames<'_> {
    fn show(&self, rt: &HostRuntime, word: &str) {
        print(rt, word, "names");
    }
}

/// Returns a style with all names chosen.
fn of_all(forms: Forms) -> Style<'static, AllNames> {
    Style {
        forms,
        names: &AllNames,
        missing: Missing::Nothing,
    }
}

pub fn calls(rt: &HostRuntime) {
    let (text, names) = (TEXT, ["c"]);
    again!(rt, "foreign::from_envsubst", [text], Err(_) => foreign::from_envsubst(rt.alloc(), text));
    again!(rt, "foreign::with_only", [text], Err(_) => foreign::with_only(rt.alloc(), text, &names));
    again!(rt, "OnlyNames::new", [text], Err(_) => OnlyNames::new(rt.alloc(), &names));
    templates(rt);
    lists(rt);
}

fn templates(rt: &HostRuntime) {
    let (own, shell) = (of_all(Forms::Own), of_all(Forms::Shell));
    let text = TEXT;
    let name = "Style::template";
    again!(rt, name, [text], Err(TextError::OutOfMemory(_)) => own.template(rt.alloc(), text));
    let (text, bytes, refused) = (SHELL, SHELL.as_bytes(), REFUSED);
    let name = "Style::template of a shell";
    again!(rt, name, [text], Err(TextError::OutOfMemory(_)) => shell.template(rt.alloc(), text));
    let name = "Style::template of a refused form";
    again!(rt, name, [refused],
        Err(TextError::OutOfMemory(_)) => shell.template(rt.alloc(), refused));
    let name = "Style::byte_template";
    again!(rt, name, [bytes],
        Err(TextError::OutOfMemory(_)) => shell.byte_template(rt.alloc(), bytes));
}

fn lists(rt: &HostRuntime) {
    let (style, text, refused) = (of_all(Forms::Shell), SHELL.as_bytes(), REFUSED.as_bytes());
    again!(rt, "Style::refusals", [refused], Err(AllocError) => style.refusals(rt.alloc(), refused));
    again!(rt, "Style::variables", [text], Err(AllocError) => style.variables(rt.alloc(), text));
}
