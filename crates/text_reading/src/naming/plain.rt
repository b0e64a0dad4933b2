//! The terms whose names are taken, and the numbers that are written of a type.
ghost use Rattle.std.specs.Prelude.{◌≡◌};
ghost use Rattle.text_reading.specs.Names.{number_size};

use crate::naming::program::{Sort, Term};
use term_enums::{FloatTy, IntTy, UintTy};

/// The number of the type that a number alone is of.
pub(super) const USIZE: usize = 0;

/// The terms whose names are taken, in the order of their numbers.
pub(super) const PLAIN: [(&str, Sort, Term); 20] = [
    ("usize", Sort::Type, Term::Uint(UintTy::Usize)),
    ("bool", Sort::Type, Term::Bool),
    ("char", Sort::Type, Term::Char),
    ("str", Sort::Type, Term::Str),
    ("i8", Sort::Type, Term::Int(IntTy::I8)),
    ("i16", Sort::Type, Term::Int(IntTy::I16)),
    ("i32", Sort::Type, Term::Int(IntTy::I32)),
    ("i64", Sort::Type, Term::Int(IntTy::I64)),
    ("i128", Sort::Type, Term::Int(IntTy::I128)),
    ("isize", Sort::Type, Term::Int(IntTy::Isize)),
    ("u8", Sort::Type, Term::Uint(UintTy::U8)),
    ("u16", Sort::Type, Term::Uint(UintTy::U16)),
    ("u32", Sort::Type, Term::Uint(UintTy::U32)),
    ("u64", Sort::Type, Term::Uint(UintTy::U64)),
    ("u128", Sort::Type, Term::Uint(UintTy::U128)),
    ("f16", Sort::Type, Term::Float(FloatTy::F16)),
    ("f32", Sort::Type, Term::Float(FloatTy::F32)),
    ("f64", Sort::Type, Term::Float(FloatTy::F64)),
    ("f128", Sort::Type, Term::Float(FloatTy::F128)),
    ("'static", Sort::Region, Term::Static),
];

// How many bytes a number of a type takes, and the greatest bits that it has. A signed number is written by its bits.
pub(super) fn number_size(ty: Term) -> Option<(u8, u128)>
    ensures { result ≡ number_size ty }
{
    match ty {
        Term::Bool => Some((1, 1)),
        Term::Char => Some((4, 0x10_ffff)),
        Term::Uint(UintTy::U8) | Term::Int(IntTy::I8) => Some((1, 0xff)),
        Term::Uint(UintTy::U16) | Term::Int(IntTy::I16) => Some((2, 0xffff)),
        Term::Uint(UintTy::U32) | Term::Int(IntTy::I32) => Some((4, 0xffff_ffff)),
        Term::Uint(UintTy::U64) | Term::Int(IntTy::I64) => Some((8, 0xffff_ffff_ffff_ffff)),
        Term::Uint(UintTy::Usize) | Term::Int(IntTy::Isize) => Some((8, 0xffff_ffff_ffff_ffff)),
        Term::Uint(UintTy::U128) | Term::Int(IntTy::I128) => Some((16, u128::MAX)),
        _ => None,
    }
}
