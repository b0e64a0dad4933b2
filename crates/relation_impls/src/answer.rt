//! Whether two impls overlap.
use relation_proving::proving::Why;

/// Why two impls do not overlap.
#[derive(Clone, Copy, PartialEq, Eq)]
pub enum WhyApart {
    /// Nothing makes what they give one.
    ByForm,
    /// What they give may be one, but then the bound of this number doesn't follow: of what the left one asks for, and
    /// behind it of what the right one does.
    ByBound(usize),
}

/// Whether two impls overlap.
#[derive(Clone, Copy, PartialEq, Eq)]
pub enum Impls {
    /// They don't, so they may stand beside each other.
    Apart(WhyApart),
    /// They do.
    Meet,
    /// That isn't told.
    Unclear(Why),
}
