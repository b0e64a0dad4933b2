//! The keys of the integer and float types, which a context makes once.
ghost use Rattle.std.specs.Prelude.{◌≡◌, ◌≢◌, ◌<◌, IfOk, get_or, map};
ghost use Rattle.relation_terms.specs.Trees.{nil};
ghost use Rattle.relation_terms.specs.Meaning.{Meaning, Extends, kind_tree};
ghost use Rattle.relation_terms.specs.declared.terms.ty_kind.IntVarValue.TheVariants.{Unknown};
ghost use Rattle.relation_terms.specs.declared.terms.ty_kind.FloatVarValue.TheVariants.{Unknown as UnknownFloat};
ghost use Rattle.relation_semantics.specs.NumberValues.{int_value_tree, float_value_tree};
ghost use Rattle.variable_tables.specs.Numbers.{number_trees};

use relation_terms::terms::{
    FloatTy, FloatVarValue, IntTy, IntVarValue, Interner, OutOfMemory, Ty, TyForm, TyKind, UintTy,
};

const NUMBERS: usize = 16;

// The form of the number type at a place.
fn number_kind<I: Interner>(place: usize) -> TyForm<I>
    requires { place < 16 }
    ensures { (m : Meaning I.Key I.Id I.Name) → kind_tree m result ≡ get_or number_trees place nil }
{
    match place {
        0 => TyKind::Int(IntTy::Isize),
        1 => TyKind::Int(IntTy::I8),
        2 => TyKind::Int(IntTy::I16),
        3 => TyKind::Int(IntTy::I32),
        4 => TyKind::Int(IntTy::I64),
        5 => TyKind::Int(IntTy::I128),
        6 => TyKind::Uint(UintTy::Usize),
        7 => TyKind::Uint(UintTy::U8),
        8 => TyKind::Uint(UintTy::U16),
        9 => TyKind::Uint(UintTy::U32),
        10 => TyKind::Uint(UintTy::U64),
        11 => TyKind::Uint(UintTy::U128),
        12 => TyKind::Float(FloatTy::F16),
        13 => TyKind::Float(FloatTy::F32),
        14 => TyKind::Float(FloatTy::F64),
        _ => TyKind::Float(FloatTy::F128),
    }
}

// The keys of all number types, in the order of their places.
pub(crate) fn number_keys<I: Interner>(interner: &mut I) -> Result<Vec<Ty<I>>, OutOfMemory>
    ensures grown { Extends (I.meaning interner.old) (I.meaning interner.new) }
    ensures means { IfOk result (λ keys. map (I.meaning interner.new).ty keys.items ≡ number_trees) }
{
    let mut keys = Vec::new(interner.alloc());
    for place in 0..NUMBERS {
        let kind = number_kind::<I>(place);
        let key = interner.mk_ty(kind)?;
        keys.push(key)?;
    }
    Ok(keys)
}

// The place of the type that a value of an integer variable says.
pub(crate) fn int_value_place(value: IntVarValue) -> usize
    requires { value ≢ Unknown }
    ensures place { result < 16 }
    ensures is { get_or number_trees result nil ≡ int_value_tree value }
{
    match value {
        IntVarValue::IntType(IntTy::Isize) => 0,
        IntVarValue::IntType(IntTy::I8) => 1,
        IntVarValue::IntType(IntTy::I16) => 2,
        IntVarValue::IntType(IntTy::I32) => 3,
        IntVarValue::IntType(IntTy::I64) => 4,
        IntVarValue::IntType(IntTy::I128) => 5,
        IntVarValue::UintType(UintTy::Usize) => 6,
        IntVarValue::UintType(UintTy::U8) => 7,
        IntVarValue::UintType(UintTy::U16) => 8,
        IntVarValue::UintType(UintTy::U32) => 9,
        IntVarValue::UintType(UintTy::U64) => 10,
        IntVarValue::UintType(UintTy::U128) => 11,
        IntVarValue::Unknown => unreachable!(),
    }
}

// The place of the type that a value of a float variable says.
pub(crate) fn float_value_place(value: FloatVarValue) -> usize
    requires { value ≢ UnknownFloat }
    ensures place { result < 16 }
    ensures is { get_or number_trees result nil ≡ float_value_tree value }
{
    match value {
        FloatVarValue::Known(FloatTy::F16) => 12,
        FloatVarValue::Known(FloatTy::F32) => 13,
        FloatVarValue::Known(FloatTy::F64) => 14,
        FloatVarValue::Known(FloatTy::F128) => 15,
        FloatVarValue::Unknown => unreachable!(),
    }
}
