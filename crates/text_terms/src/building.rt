//! Terms of a program become keys, through an interner's making calls.
ghost use Rattle.std.specs.Prelude.{◌≡◌, IfOk, length};
ghost use Rattle.relation_terms.specs.Meaning.{Extends};
ghost use Rattle.text_terms.specs.Built.{AreKnown, AreKeysOf};

mod binders;
mod inner;
mod items;
mod lists;
mod making;
mod objects;
mod patterns;

pub use binders::variables_at;
pub use inner::term_of;
pub use lists::{const_at, key_at, keys_at, region_at, ty_at};
use making::make_either;
pub use making::name_at;
use relation_terms::terms::{GenericArg, Interner, OutOfMemory};
use text_reading::naming::Program;

/// The keys of a program's terms, over ids of its items and names of an interner. There is none of a pattern and of a
/// predicate, which are only built as parts; none of a term where a growth was refused, and none of a term over such a
/// one.
///
/// # Errors
/// `OutOfMemory` where there is no room for the list of keys.
pub fn build<I: Interner>(
    cx: &mut I,
    ids: &[I::Id],
    names: &[I::Name],
    program: &Program,
) -> Result<Vec<Option<GenericArg<I>>>, OutOfMemory>
    ensures grown { Extends (I.meaning cx.old) (I.meaning cx.new) }
    ensures each { IfOk result (λ keys. length keys.items ≡ length program.now.terms.items) }
    ensures sure { IfOk result (λ keys. AreKnown (I.meaning cx.new) keys.items) }
    ensures made { IfOk result (λ keys. AreKeysOf I.meaning cx.old cx.new ids.now names.now program.now keys.items) }
{
    let mut built = Vec::with_capacity(cx.alloc(), program.terms.len())?;
    let mut inners = Vec::with_capacity(cx.alloc(), program.terms.len())?;
    for term in &program.terms {
        let (key, inner) = make_either(cx, ids, names, &program.parts, &built, &inners, *term);
        built.push(key)?;
        inners.push(inner)?;
    }
    Ok(built)
}
