//! Variables of contexts, and the statements of which contexts have.

use crate::naming::error::{Named, Wrong, error_at};
use crate::naming::namer::Namer;
use crate::naming::program::{VariableId, VariableKind, Variables};
use crate::naming::statements::{LAST_UNIVERSE, MOST_VARIABLES};
use crate::reading::{Leaf, Node, NodeKind};

// The variable that a leaf names, if it names one.
fn variable_of(leaf: Leaf) -> Option<VariableId> {
    let (kind, number) = match leaf {
        Leaf::TyVar(number) => (VariableKind::Ty, number),
        Leaf::IntVar(number) => (VariableKind::Int, number),
        Leaf::FloatVar(number) => (VariableKind::Float, number),
        Leaf::ConstVar(number) => (VariableKind::Const, number),
        Leaf::RegionVar(number) => (VariableKind::Region, number),
        _ => return None,
    };
    Some(VariableId { kind, number })
}

// The variable that a node names.
pub(super) fn variable_at(node: &Node) -> Named<VariableId> {
    let found = match node.kind {
        NodeKind::Leaf(leaf) => variable_of(leaf),
        NodeKind::Form(_) => None,
    };
    let variable = found.ok_or(error_at(node, Wrong::NotRead))?;
    if variable.number >= MOST_VARIABLES {
        return Err(error_at(node, Wrong::TooManyVariables));
    }
    Ok(variable)
}

impl Variables {
    // And all up to that one. Of the other kinds none is said to be in a context.
    fn with(self, variable: VariableId) -> Variables {
        let mut variables = self;
        let count = variable.number.saturating_add(1);
        match variable.kind {
            VariableKind::Ty => variables.types = variables.types.max(count),
            VariableKind::Const => variables.consts = variables.consts.max(count),
            VariableKind::Region => variables.regions = variables.regions.max(count),
            VariableKind::Int | VariableKind::Float => {}
        }
        variables
    }
}

impl<'a> Namer<'a> {
    // The universe in which variables stand, the one that is given or else that of those before, and what names them.
    fn universe<'b>(&self, parts: &'b [usize]) -> Named<(usize, &'b [usize])> {
        let before = self.program.variables.last();
        let least = before.map_or(0, |variables| variables.universe);
        let Some((last, rest)) = parts.split_last() else {
            return Ok((least, parts));
        };
        let leaf = self.node(*last);
        let NodeKind::Leaf(Leaf::Number { .. }) = leaf.kind else {
            return Ok((least, parts));
        };
        let universe = self.count(*last)?;
        if universe < least || universe > LAST_UNIVERSE {
            return Err(error_at(&leaf, Wrong::Universe { least }));
        }
        Ok((universe, rest))
    }

    // Variables that are in the contexts from here on.
    pub fn declare_variables(&mut self, parts: &[usize]) -> Named<()> {
        let (universe, numbers) = self.universe(parts)?;
        let mut variables = Variables {
            universe,
            types: 0,
            consts: 0,
            regions: 0,
        };
        for number in numbers {
            variables = variables.with(variable_at(&self.node(*number))?);
        }
        self.program.variables.push(variables)?;
        Ok(())
    }
}
