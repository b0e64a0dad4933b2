//! The names of what binders bind.

use crate::printing::leaves::write_between;
use crate::printing::letters::{Letters, write_letter};
use crate::printing::under::Under;
use relation_terms::terms::{BoundVar, BoundVariable, BoundVariableKind, DebruijnIndex, Interner};
use std::fmt::{self, Write};

/// The binders around a term that is printed. Each of their variables has a number: how many stand bound outside its
/// binder, and before it in the binder's list.
#[derive(Clone, Copy)]
pub enum Around<'a> {
    /// No binder. A bound region prints by none of these letters.
    Nothing(&'a Letters),
    /// A binder whose variables have the numbers from the first up to `behind`, and those around it.
    Binder {
        first: usize,
        behind: usize,
        letters: &'a Letters,
        outer: &'a Around<'a>,
    },
}

// What binds a variable: a binder around the term, where the variable has that number, or one so many binders further
// out than all of them.
#[derive(Clone, Copy)]
enum Bound {
    Inside(usize),
    Outside(u64),
}

impl<'a> Around<'a> {
    // What stands around the body of a binder of so many variables.
    pub fn enter(&'a self, count: usize) -> Around<'a> {
        let first = self.bound_count();
        Around::Binder {
            first,
            behind: first.saturating_add(count),
            letters: self.letters(),
            outer: self,
        }
    }

    // How many variables are bound.
    fn bound_count(&self) -> usize {
        match self {
            Around::Nothing(_) => 0,
            Around::Binder { behind, .. } => *behind,
        }
    }

    // The letters by which no bound region prints.
    fn letters(&self) -> &'a Letters {
        match self {
            Around::Nothing(letters) => *letters,
            Around::Binder { letters, .. } => *letters,
        }
    }
}

// What binds the variable at that place of the binder so far out.
fn binder_of(around: &Around, depth: u64, place: usize) -> Bound {
    match around {
        Around::Nothing(_) => Bound::Outside(depth),
        Around::Binder { first, .. } if depth == 0 => Bound::Inside(first.saturating_add(place)),
        Around::Binder { outer, .. } => binder_of(*outer, depth - 1, place),
    }
}

// Writes what a binder outside the term binds, behind its mark: how far out that binder stands, and the place in its
// list. Where no binder of the term stands around, the nearest needs no distance.
fn write_escaping<W: Write>(
    mark: &str,
    around: &Around,
    depth: u64,
    var: BoundVar,
    out: &mut W,
) -> fmt::Result {
    let place = var.0;
    match around {
        Around::Nothing(_) if depth == 0 => write!(out, "{mark}{place}"),
        _ => write!(out, "{mark}{depth}.{place}"),
    }
}

impl<'a, I: Interner> Under<'a, I> {
    // Writes the name of a bound type or constant behind its mark.
    pub(super) fn write_bound<W: Write>(
        &self,
        mark: &str,
        depth: DebruijnIndex,
        var: BoundVar,
        out: &mut W,
    ) -> fmt::Result {
        match binder_of(&self.around, depth.0, var.0) {
            Bound::Inside(number) => write!(out, "{mark}{number}"),
            Bound::Outside(depth) => write_escaping(mark, &self.around, depth, var, out),
        }
    }

    // Writes the name of a bound region.
    pub(super) fn write_bound_region<W: Write>(
        &self,
        depth: DebruijnIndex,
        var: BoundVar,
        out: &mut W,
    ) -> fmt::Result {
        match binder_of(&self.around, depth.0, var.0) {
            Bound::Inside(number) => write_letter(self.around.letters(), number, out),
            Bound::Outside(depth) => write_escaping("'^", &self.around, depth, var, out),
        }
    }

    /// Writes a binder, unless it binds nothing: `for<'a, ^1> `.
    ///
    /// # Errors
    /// `fmt::Error` where `out` refused to take some of the text. What it took before stands.
    pub fn write_for<W: Write>(&self, vars: &[BoundVariable<I>], out: &mut W) -> fmt::Result {
        if vars.is_empty() {
            return Ok(());
        }
        out.write_str("for")?;
        self.write_variables(vars, out)
    }

    // Writes the variables of a binder: `<'a, ^1> `.
    pub(super) fn write_variables<W: Write>(
        &self,
        vars: &[BoundVariable<I>],
        out: &mut W,
    ) -> fmt::Result {
        let first = self.around.bound_count();
        out.write_str("<")?;
        for (place, var) in vars.iter().enumerate() {
            write_between(place, ", ", out)?;
            let number = first.saturating_add(place);
            match var {
                BoundVariableKind::Region(_) => write_letter(self.around.letters(), number, out)?,
                BoundVariableKind::Ty(_) => write!(out, "^{number}")?,
                BoundVariableKind::Const(_) => write!(out, "^c{number}")?,
            }
        }
        out.write_str("> ")
    }
}
