//! Generic parameters of items.

/// What a generic parameter stands for.
#[derive(Clone, Copy)]
pub enum GenericParamKind {
    Lifetime,
    Type,
    Const,
}

/// A generic parameter of an item, over names.
#[derive(Clone, Copy)]
pub struct GenericParam<N> {
    pub kind: GenericParamKind,
    pub name: N,
}
