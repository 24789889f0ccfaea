//! Templates for texts written for other tools. Chosen names in certain forms, such as `$NAME`, are
//! variables; all else is literal text.

pub use subst_foreign::{
    AllNames, FormAt, Forms, KnownNames, Missing, Names, OnlyNames, Operator, ShellForm, Style,
    TextError, TextVariable, from_envsubst, with_only,
};
