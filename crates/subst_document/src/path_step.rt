//! Steps of a path into a tree.

/// A step from a tree to one of its parts.
#[derive(Clone, Debug, PartialEq, Eq, Drop)]
pub enum PathStep {
    /// To the value under a key.
    Key(String),
    /// To the item at an index, from 0.
    Index(usize),
}
