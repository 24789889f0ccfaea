//! The variables of a template.

/// A variable of a template.
#[derive(Clone, Copy, Debug, PartialEq, Eq)]
pub struct Variable<'t> {
    /// The name of the variable.
    pub name: &'t str,
    /// The byte offset of the name in the source.
    pub position: usize,
    /// How the variable expands if it is unset.
    pub kind: VariableKind,
}

/// How an unset variable expands.
#[derive(Clone, Copy, Debug, PartialEq, Eq)]
pub enum VariableKind {
    /// `$name` or `${name}`, which is an error if it is unset.
    Required,
    /// `${name?}`, which expands to nothing if it is unset.
    Optional,
    /// `${name:default}`, which expands to its default if it is unset.
    WithDefault,
}
