//! The texts of names, of items and of the small enums.
ghost use Rattle.std.specs.Prelude.{◌≡◌, None, codes, option_map, unwrap_or};
ghost use Rattle.std.specs.HashMap.{get};
ghost use Rattle.text_terms.specs.Texts.{int_name, uint_name, float_name, pointer_name, mutability_text};
ghost use Rattle.text_terms.specs.Texts.{safety_text, abi_text, item_text, trait_text};

use relation_terms::terms::{ExternAbi, FloatTy, IntTy, Keys, Mutability, Safety, UintTy};
use std::collections::HashMap;
use std::hash::Hash;

/// The trait that an item is an associated one of: its text, and how many of the item's arguments are the trait's, the
/// first of which is the type that the trait is of.
#[derive(Clone, Copy)]
pub struct TraitText<'a> {
    pub text: &'a str,
    pub count: usize,
}

/// An item's text; of an associated item of a trait also the trait's.
#[derive(Clone, Copy)]
pub struct ItemText<'a> {
    pub text: &'a str,
    pub of: Option<TraitText<'a>>,
}

impl<'a> ItemText<'a> {
    /// The text of an item that is no associated item of a trait.
    pub fn new(text: &'a str) -> ItemText<'a>
        ensures text { result.text.now ≡ text.now }
        ensures of { result.of ≡ None }
    {
        ItemText { text, of: None }
    }
}

/// The texts of names.
pub type NameTexts<'a, N> = HashMap<N, &'a str>;

/// The texts of items, by their ids.
pub type ItemTexts<'a, D> = HashMap<D, ItemText<'a>>;

/// The texts of names and of items, as the caller hands them in.
#[derive(Drop)]
pub struct Texts<'a, D: Eq + Hash, N: Eq + Hash> {
    pub names: NameTexts<'a, N>,
    pub items: ItemTexts<'a, D>,
}

/// The texts of an interner's names and items.
pub type TextsOf<'a, I> = Texts<'a, <I as Keys>::Id, <I as Keys>::Name>;

/// The text of a name that stands for no region. One that has no text is `_`.
pub fn name_text<'a, N: Eq + Hash>(names: &NameTexts<'a, N>, name: &N) -> &'a str
    ensures { result.now ≡ unwrap_or (option_map (λ t. t.now) (get N.eq names.now name.now)) (codes "_") }
{
    match names.get(name) {
        Some(found) => *found,
        None => "_",
    }
}

// The text of a name that stands for a region. One that has no text is `'_`.
pub(super) fn region_name_text<'a, N: Eq + Hash>(names: &NameTexts<'a, N>, name: &N) -> &'a str
    ensures { result.now ≡ unwrap_or (option_map (λ t. t.now) (get N.eq names.now name.now)) (codes "'_") }
{
    match names.get(name) {
        Some(text) => *text,
        None => "'_",
    }
}

/// The text of an item. One that has no text is `_`.
pub fn item_text<'a, D: Eq + Hash>(items: &ItemTexts<'a, D>, id: &D) -> &'a str
    ensures { result.now ≡ item_text (get D.eq items.now id.now) }
{
    match items.get(id) {
        Some(item) => item.text,
        None => "_",
    }
}

// The trait that an item is an associated one of, if the texts say so.
pub(super) fn trait_text<'a, D: Eq + Hash>(
    items: &ItemTexts<'a, D>,
    id: &D,
) -> Option<TraitText<'a>>
    ensures { result ≡ trait_text (get D.eq items.now id.now) }
{
    items.get(id)?.of
}

/// The name of a signed integer type.
pub fn int_name(width: IntTy) -> &'static str
    ensures { result.now ≡ int_name width }
{
    match width {
        IntTy::Isize => "isize",
        IntTy::I8 => "i8",
        IntTy::I16 => "i16",
        IntTy::I32 => "i32",
        IntTy::I64 => "i64",
        IntTy::I128 => "i128",
    }
}

/// The name of an unsigned integer type.
pub fn uint_name(width: UintTy) -> &'static str
    ensures { result.now ≡ uint_name width }
{
    match width {
        UintTy::Usize => "usize",
        UintTy::U8 => "u8",
        UintTy::U16 => "u16",
        UintTy::U32 => "u32",
        UintTy::U64 => "u64",
        UintTy::U128 => "u128",
    }
}

/// The name of a float type.
pub fn float_name(width: FloatTy) -> &'static str
    ensures { result.now ≡ float_name width }
{
    match width {
        FloatTy::F16 => "f16",
        FloatTy::F32 => "f32",
        FloatTy::F64 => "f64",
        FloatTy::F128 => "f128",
    }
}

// What stands before the type that a raw pointer leads to.
pub(super) fn pointer_name(mutability: Mutability) -> &'static str
    ensures { result.now ≡ pointer_name mutability }
{
    match mutability {
        Mutability::Not => "*const ",
        Mutability::Mut => "*mut ",
    }
}

// What stands between the region of a reference and the type that it leads to.
pub(super) fn mutability_text(mutability: Mutability) -> &'static str
    ensures { result.now ≡ mutability_text mutability }
{
    match mutability {
        Mutability::Not => " ",
        Mutability::Mut => " mut ",
    }
}

// What stands before a function pointer that safe code must not call.
pub(super) fn safety_text(safety: Safety) -> &'static str
    ensures { result.now ≡ safety_text safety }
{
    match safety {
        Safety::Safe => "",
        Safety::Unsafe => "unsafe ",
    }
}

// What stands before a function pointer that is called in another way than Rust's.
pub(super) fn abi_text(abi: ExternAbi) -> &'static str
    ensures { result.now ≡ abi_text abi }
{
    match abi {
        ExternAbi::Rust => "",
        ExternAbi::C => "extern \"C\" ",
        ExternAbi::System => "extern \"system\" ",
    }
}
