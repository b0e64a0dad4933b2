//! What a term prints by under binders that stand around it.
ghost use Rattle.std.specs.Prelude.{◌≡◌};

use crate::printing::binders::Around;
pub use crate::printing::free::free_letters;
use crate::printing::letters::Letters;
use crate::printing::names::TextsOf;
use relation_terms::terms::Interner;

/// The interner that knows a term, the texts of names and of items, and the binders around the term.
#[derive(Drop)]
pub struct Under<'a, I: Interner> {
    pub cx: &'a I,
    pub texts: &'a TextsOf<'a, I>,
    pub(super) around: Around<'a>,
}

impl<'a, I: Interner> Under<'a, I> {
    /// No binder around. A bound region prints by none of these letters.
    pub fn new(cx: &'a I, texts: &'a TextsOf<'a, I>, letters: &'a Letters) -> Under<'a, I>
        ensures cx { result.cx.now ≡ cx.now }
    {
        let around = Around::Nothing(letters);
        Under { cx, texts, around }
    }

    /// The same in the body of a binder of so many variables.
    pub fn enter(&self, count: usize) -> Under<'_, I>
        ensures cx { result.cx.now ≡ self.now.cx.now }
    {
        Under {
            cx: self.cx,
            texts: self.texts,
            around: self.around.enter(count),
        }
    }
}
