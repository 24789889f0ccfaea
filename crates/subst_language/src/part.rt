//! The parts that a source is parsed into.

/// A byte range of the source.
#[derive(Clone, Copy)]
pub struct Span {
    pub start: usize,
    pub end: usize,
}

/// A part of a template: one step of an expansion.
#[derive(Clone, Copy)]
pub enum Part {
    /// A range of the source that is copied to the output.
    Literal(Span),
    /// The byte after a backslash.
    Escaped(u8),
    /// A required variable: the range of its name.
    Variable(Span),
    /// A variable with a default. The parts of the default follow this part and end before the index `next`.
    /// They are skipped if the map has a value for the name. An optional variable has an empty default, so
    /// its `next` is the index after this part.
    Default { name: Span, next: usize },
}
