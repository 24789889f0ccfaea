//! Laws of the definitions that contracts cite. Each law is the contract of a function that does nothing. The
//! module also has [`escaped`], the subject of one of the laws.

pub use subst_foreign::escape::escaped;
pub use subst_foreign::laws::{
    one_listing, one_reading, questions_are_answered, questions_are_answered_by_texts,
    shell_names_are_no_questions, variables_are_in_one_order,
};
pub use subst_json::laws::{pointers_find_strings, trees_have_one_outcome};
pub use subst_language::laws::{
    law_1, law_2, law_3, law_4, law_5, law_6, law_7, law_8, law_9, missing_lists_are_whole,
    missing_variables_are_missing, outputs_are_bounded, texts_give_texts, turns_are_bounded,
    writes_are_bounded,
};
pub use subst_language::maps::laws::{
    filled_maps_are_look_ups, filled_maps_are_look_ups_of_texts, layers_are_look_ups,
    layers_are_look_ups_of_texts, maps_are_look_ups, maps_are_look_ups_of_texts,
};
pub use subst_toml::laws::trees_have_one_outcome as toml_trees_have_one_outcome;
pub use subst_yaml::laws::filled_texts_keep_their_shape;
