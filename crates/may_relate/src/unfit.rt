//! Why a term may not be related in a context.
use relation_terms::terms::{
    BoundVar, ConstVid, DebruijnIndex, FloatVid, IntVid, RegionVid, TyVid, UniverseIndex,
};

/// Why a term may not be related in a context: the first thing in it, part by part, that stands in the way; or that a
/// growth was refused before that was known.
#[derive(Clone, Copy, PartialEq, Eq)]
pub enum Unfit {
    /// A variable of types that is not the context's.
    TyVariable(TyVid),
    /// One of integer types.
    IntVariable(IntVid),
    /// One of float types.
    FloatVariable(FloatVid),
    /// One of constants.
    ConstVariable(ConstVid),
    /// One of regions.
    RegionVariable(RegionVid),
    /// A placeholder of a universe later than the context's current one.
    LaterUniverse(UniverseIndex),
    /// A stand-in for a variable.
    StandIn,
    /// A bound variable that no binder in the term binds. A binder around the term, so many further out, would bind it.
    Escapes(DebruijnIndex),
    /// A bound variable whose binder's list has nothing of its kind at this place.
    NotInList(BoundVar),
    /// A growth was refused. That says nothing of the term.
    Memory,
}
