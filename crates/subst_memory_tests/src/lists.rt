//! Calls that list the variables of templates, and the variables that a map lacks.

use crate::calls::{Show, again};
use crate::{bytes, texts};
use std::alloc::AllocError;
use subst::{ByteTemplate, ByteTemplateBuf, Error, Template, TemplateBuf, Variable};
use subst_testing::variables::{byte_values, texts as text_values};

/// A text with missing variables: one is used twice, and two are in a default.
const LACKING: &str = "Hé $a, ${b:$c and ${d:$e}}, ${f?} and $a!";

impl Show for Variable<'_> {
    const NONE: &'static str = "no variable";

    fn show(&self, rt: &HostRuntime, word: &str) {
        let (position, name, kind) = (self.position, self.name, self.kind);
        let _ = rt.println(format_args!("{word} {position}: {name} {kind:?}"));
    }
}

fn of_text(rt: &HostRuntime) -> Result<(), Error> {
    let alloc = rt.alloc();
    let template = Template::from_str(alloc, LACKING)?;
    let map = text_values(alloc, texts::NAME)?;
    again!(rt, "Template::variables", [template], Err(_) => template.variables(alloc));
    again!(rt, "Template::missing", [template, map], Err(_) => template.missing(alloc, &map));
    Ok(())
}

fn of_text_owner(rt: &HostRuntime, owner: &TemplateBuf) -> Result<(), AllocError> {
    let alloc = rt.alloc();
    let map = text_values(alloc, texts::NAME)?;
    again!(rt, "TemplateBuf::variables", [owner], Err(_) => owner.variables(alloc));
    again!(rt, "TemplateBuf::missing", [owner, map], Err(_) => owner.missing(alloc, &map));
    Ok(())
}

fn of_bytes(rt: &HostRuntime) -> Result<(), Error> {
    let alloc = rt.alloc();
    let template = ByteTemplate::from_slice(alloc, LACKING.as_bytes())?;
    let map = byte_values(alloc, bytes::NAME)?;
    again!(rt, "ByteTemplate::variables", [template], Err(_) => template.variables(alloc));
    again!(rt, "ByteTemplate::missing", [template, map], Err(_) => template.missing(alloc, &map));
    Ok(())
}

fn of_byte_owner(rt: &HostRuntime, owner: &ByteTemplateBuf) -> Result<(), AllocError> {
    let alloc = rt.alloc();
    let map = byte_values(alloc, bytes::NAME)?;
    again!(rt, "ByteTemplateBuf::variables", [owner], Err(_) => owner.variables(alloc));
    again!(rt, "ByteTemplateBuf::missing", [owner, map], Err(_) => owner.missing(alloc, &map));
    Ok(())
}

/// Makes the calls that return empty lists: `variables` of a template without variables, and `missing` with a
/// map that has all needed variables.
fn of_nothing(rt: &HostRuntime) -> Result<(), Error> {
    let alloc = rt.alloc();
    let plain = Template::from_str(alloc, "Hé \\$a!")?;
    again!(rt, "Template::variables, none", [plain], Err(_) => plain.variables(alloc));
    let template = ByteTemplate::from_slice(alloc, bytes::SENTENCE)?;
    let map = byte_values(alloc, bytes::NAME)?;
    let name = "ByteTemplate::missing, none";
    again!(rt, name, [template, map], Err(_) => template.missing(alloc, &map));
    Ok(())
}

pub fn calls(rt: &HostRuntime) -> Result<(), Error> {
    of_text(rt)?;
    of_text_owner(rt, &texts::owned(rt.alloc(), LACKING)?)?;
    of_bytes(rt)?;
    of_byte_owner(rt, &bytes::owned(rt.alloc(), LACKING.as_bytes())?)?;
    of_nothing(rt)
}
