//! Calls of the library that don't allocate.

use crate::calls::{once, print, print_bytes, print_end};
use crate::marks::{begin, end};
use indexmap::IndexMap;
use std::alloc::{AllocError, Global};
use std::collections::{BTreeMap, HashMap};
use subst::steps::{Reads, Turns};
use subst::{
    ByteTemplate, ByteTemplateBuf, Env, Error, Layered, NoEmpty, NoSubstitution, ShellMap,
    Template, TemplateBuf, VariableMap, escape, laws, substitute_bytes_owned, substitute_owned,
};
use subst_testing::variables::owned_pairs;

/// Looks up `name` and `absent`.
fn get<'a, M: VariableMap<'a>>(rt: &HostRuntime, call: &str, variables: &'a M)
where
    M::Value: Drop,
{
    let (has_name, has_absent) = once!(rt, call =>
        (variables.get("name").is_some(), variables.get("absent").is_some()));
    print(rt, "name:", if has_name { "a value" } else { "no value" });
    let text = if has_absent { "a value" } else { "no value" };
    print(rt, "absent:", text);
    print_end(rt);
}

/// Looks up `name` and `absent` in a new `$map`, in which `name` has the value `world`.
macro_rules! get_of {
    ($rt:ident, $call:expr, $map:ident, $key:expr) => {
        let mut map = $map::new($rt.alloc());
        map.insert($key, "world")?;
        get($rt, $call, &map);
    };
}

fn key(alloc: Global) -> Result<String, AllocError> {
    String::from_str(alloc, "name")
}

fn get_of_maps_with_own_keys(rt: &HostRuntime) -> Result<(), AllocError> {
    get_of!(rt, "get of BTreeMap<String>", BTreeMap, key(rt.alloc())?);
    get_of!(rt, "get of HashMap<String>", HashMap, key(rt.alloc())?);
    get_of!(rt, "get of IndexMap<String>", IndexMap, key(rt.alloc())?);
    Ok(())
}

fn get_of_maps_with_borrowed_keys(rt: &HostRuntime) -> Result<(), AllocError> {
    get_of!(rt, "get of BTreeMap<&str>", BTreeMap, "name");
    get_of!(rt, "get of HashMap<&str>", HashMap, "name");
    get_of!(rt, "get of IndexMap<&str>", IndexMap, "name");
    Ok(())
}

fn get_of_env(rt: &HostRuntime) -> Result<(), AllocError> {
    let pairs = owned_pairs(rt.alloc(), &[("name", "world")])?;
    let env = once!(rt, "Env::from_pairs" => Env::from_pairs(pairs));
    get(rt, "get of Env", &env);
    let layers = Layered {
        first: &NoSubstitution,
        second: &env,
    };
    get(rt, "get of Layered", &layers);
    get(rt, "get of NoEmpty", &NoEmpty { map: &env });
    get(rt, "get of ShellMap", &ShellMap { map: &env });
    Ok(())
}

/// Prints the sources of two borrowed templates.
fn print_source(rt: &HostRuntime, borrowed: Template<'_>, by_from: Template<'_>) {
    print(rt, "as_template:", borrowed.source());
    print(rt, "from:", by_from.source());
}

fn take_text_apart(rt: &HostRuntime, owner: TemplateBuf) {
    begin(rt, "lending and sources of texts");
    print_source(rt, owner.as_template(), Template::from(&owner));
    print(rt, "source:", owner.source());
    let source = owner.into_source();
    end(rt);
    print(rt, "into_source:", source.as_str());
}

/// Prints the sources of two borrowed byte templates.
fn print_byte_source(rt: &HostRuntime, borrowed: ByteTemplate<'_>, by_from: ByteTemplate<'_>) {
    print_bytes(rt, "as_template:", borrowed.source());
    print_bytes(rt, "from:", by_from.source());
}

fn take_bytes_apart(rt: &HostRuntime, owner: ByteTemplateBuf) {
    begin(rt, "lending and sources of bytes");
    print_byte_source(rt, owner.as_template(), ByteTemplate::from(&owner));
    print_bytes(rt, "source:", owner.source());
    let source = owner.into_source();
    end(rt);
    print_bytes(rt, "into_source:", source.as_slice());
}

fn templates(rt: &HostRuntime) -> Result<(), Error> {
    let source = "${a:b}";
    take_text_apart(
        rt,
        TemplateBuf::from_string(String::from_str(rt.alloc(), source)?)?,
    );
    print_end(rt);
    take_bytes_apart(
        rt,
        ByteTemplateBuf::from_vec(Vec::from_slice(rt.alloc(), source.as_bytes())?)?,
    );
    print_end(rt);
    Ok(())
}

/// Makes the calls over a source without dollars and backslashes: `is_plain`, `substitute_owned` and
/// `substitute_bytes_owned`.
fn plain_sources(rt: &HostRuntime) -> Result<(), Error> {
    let alloc = rt.alloc();
    let text = String::from_str(alloc, "{a: b}")?;
    let bytes = Vec::from_slice(alloc, b"{a: b}")?;
    let is_plain = once!(rt, "escape::is_plain" => escape::is_plain(&bytes));
    print(rt, "plain:", if is_plain { "yes" } else { "no" });
    let text = once!(rt, "substitute_owned of a plain source" =>
        substitute_owned(alloc, text, &NoSubstitution));
    print(rt, "text:", text?.as_str());
    let bytes = once!(rt, "substitute_bytes_owned of a plain source" =>
        substitute_bytes_owned(alloc, bytes, &NoSubstitution));
    print_bytes(rt, "bytes:", bytes?.as_slice());
    print_end(rt);
    Ok(())
}

fn call_laws() {
    laws::law_1();
    laws::law_2();
    laws::law_3();
    laws::law_4();
    laws::law_5();
    laws::law_6();
    laws::law_7();
    laws::law_8();
    laws::law_9();
    laws::missing_lists_are_whole();
    laws::missing_variables_are_missing();
    laws::outputs_are_bounded();
    laws::shell_names_are_no_questions();
    laws::texts_give_texts();
    laws::turns_are_bounded();
    laws::writes_are_bounded();
    laws::trees_have_one_outcome();
    laws::toml_trees_have_one_outcome();
}

fn steps_and_laws(rt: &HostRuntime) {
    let _ = once!(rt, "Reads::new and Turns::new" => (Reads::new(), Turns::new()));
    once!(rt, "the laws" => call_laws());
    print_end(rt);
}

pub fn calls(rt: &HostRuntime) -> Result<(), Error> {
    get_of_maps_with_own_keys(rt)?;
    get_of_maps_with_borrowed_keys(rt)?;
    get_of_env(rt)?;
    get(rt, "get of NoSubstitution", &NoSubstitution);
    templates(rt)?;
    plain_sources(rt)?;
    steps_and_laws(rt);
    Ok(())
}
