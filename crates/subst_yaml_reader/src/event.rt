//! Events: the elements of a text, in order.

/// The span of a token, in byte offsets from 0.
#[derive(Clone, Copy, Debug, PartialEq, Eq)]
pub struct Span {
    /// The offset of the token's first byte.
    pub start: usize,
    /// The offset after the token's last byte.
    pub end: usize,
}

/// The style in which a token is written.
#[derive(Clone, Copy, Debug, PartialEq, Eq)]
pub enum Style {
    /// Without quotes.
    Plain,
    /// In single quotes, which are part of the token.
    Single,
    /// In double quotes, which are part of the token.
    Double,
    /// Lines after `|`. The span includes the line end of the last line. Without lines, it ends after the
    /// header.
    Literal,
    /// Lines after `>`. The span includes the line end of the last line. Without lines, it ends after the
    /// header.
    Folded,
    /// An alias, `*name`.
    Alias,
}

/// The kind of a collection in brackets.
#[derive(Clone, Copy, Debug, PartialEq, Eq)]
pub enum Bracket {
    /// `[..]`.
    Sequence,
    /// `{..}`.
    Mapping,
    /// `key: value` as an item of `[..]`: a mapping without brackets of its own.
    Pair,
}

/// An event of a text. The depth of an item or a key is the number of open collections without brackets, its
/// own collection included. A missing value has no event, except `Null` in brackets.
#[derive(Clone, Copy, Debug, PartialEq, Eq)]
pub enum Event {
    /// A document begins.
    Document,
    /// An item `- ` of a sequence.
    Item {
        /// The depth of the sequence.
        depth: usize,
    },
    /// A key of a mapping.
    Key {
        /// The depth of the mapping.
        depth: usize,
        /// The style of the key.
        style: Style,
        /// The span of the key, without its colon.
        span: Span,
    },
    /// A scalar or an alias that is a value.
    Value {
        /// The style of the value.
        style: Style,
        /// The span of the value.
        span: Span,
        /// Whether the value is in brackets.
        in_flow: bool,
        /// The number of spaces before each line of a value after `|` or `>`, and 0 for any other value.
        indent: usize,
    },
    /// A collection in brackets begins.
    Open(Bracket),
    /// A key in brackets.
    FlowKey {
        /// The style of the key.
        style: Style,
        /// The span of the key, without its colon.
        span: Span,
    },
    /// A missing value in brackets: after a key, or as an item that is only an anchor or a tag.
    Null,
    /// The innermost collection in brackets ends.
    Close,
}
