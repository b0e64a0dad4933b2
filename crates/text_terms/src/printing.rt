//! How terms print, over any interner.

mod binders;
mod constants;
mod free;
mod items;
mod leaves;
mod letters;
mod names;
mod objects;
mod patterns;
mod signatures;
mod terms;
pub mod under;
mod whole;

pub use names::{
    ItemText, ItemTexts, NameTexts, Texts, TextsOf, TraitText, float_name, int_name, item_text,
    name_text, uint_name,
};
pub use whole::{
    write_alias, write_arg, write_const, write_item_name, write_object_predicates, write_param,
    write_placeholder, write_region, write_ty, write_variable,
};
