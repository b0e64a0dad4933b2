//! The numbers of universes and variables, and places in a binder's list, each of a type of its own.

/// The number of a universe. A universe can name the placeholders of universes up to its own.
#[derive(Clone, Copy, PartialEq, Eq, PartialOrd, Ord, Hash)]
pub struct UniverseIndex(pub usize);

/// How many binders stand between a bound variable and the one that binds it: 0 is the nearest.
#[derive(Clone, Copy, PartialEq, Eq, PartialOrd, Ord, Hash)]
pub struct DebruijnIndex(pub u64);

/// The place of a variable in the list of the binder that binds it.
#[derive(Clone, Copy, PartialEq, Eq, PartialOrd, Ord, Hash, Debug)]
pub struct BoundVar(pub usize);

/// The number of a type variable.
#[derive(Clone, Copy, PartialEq, Eq, PartialOrd, Ord, Hash)]
pub struct TyVid(pub usize);

/// The number of an integer variable.
#[derive(Clone, Copy, PartialEq, Eq, PartialOrd, Ord, Hash)]
pub struct IntVid(pub usize);

/// The number of a float variable.
#[derive(Clone, Copy, PartialEq, Eq, PartialOrd, Ord, Hash)]
pub struct FloatVid(pub usize);

/// The number of a constant variable.
#[derive(Clone, Copy, PartialEq, Eq, PartialOrd, Ord, Hash)]
pub struct ConstVid(pub usize);

/// The number of a region variable.
#[derive(Clone, Copy, PartialEq, Eq, PartialOrd, Ord, Hash)]
pub struct RegionVid(pub usize);
