//! What traits declare, and what is given to traits.

use crate::naming::error::{Missing, Named, Wrong, check_count, error_at};
use crate::naming::namer::{Made, Meaning, Namer};
use crate::naming::program::Sort;
use crate::naming::terms::{List, Wanted};
use crate::reading::{Form, ItemSort, Node, NodeKind};

// Whether an item is a trait.
pub(super) fn is_trait(sort: ItemSort) -> bool {
    sort == ItemSort::Trait || sort == ItemSort::AutoTrait
}

// What an item over its arguments stands for. A trait stands for none.
pub(super) fn sort_of(sort: ItemSort) -> Sort {
    match sort {
        ItemSort::AssocConst | ItemSort::FreeConst | ItemSort::InherentConst => Sort::Const,
        _ => Sort::Type,
    }
}

// A name, its arguments, and what is assigned behind them.
#[derive(Drop)]
pub(super) struct Given {
    pub node: Node,
    pub name: usize,
    pub args: Vec<usize>,
    pub assigned: Vec<usize>,
}

// An item that a trait declares, and its arguments: the trait's, and then its own.
#[derive(Drop)]
pub(super) struct Own {
    pub item: usize,
    pub args: Vec<usize>,
}

impl<'a> Namer<'a> {
    // The number of the trait that a node names.
    pub fn trait_of(&self, number: usize) -> Named<usize> {
        let name = self.node(number);
        match self.meaning(&name, Missing::Trait)? {
            Meaning::Item(item) if is_trait(self.item_sort(item)) => Ok(item),
            _ => Err(error_at(&name, Wrong::NoTrait)),
        }
    }

    // The item that a trait declares under the name of a node, which the whole gives so many arguments of its own.
    pub fn associated_of(
        &self,
        whole: &Node,
        of: usize,
        number: usize,
        found: usize,
    ) -> Named<usize> {
        let name = self.node(number);
        let item = self.associated.get(&(of, self.text_of(&name))).copied();
        let item = item.ok_or(error_at(&name, Wrong::Unknown(Missing::Associated)))?;
        let before = self.declared_count(of);
        let expected = self.declared_count(item).saturating_sub(before);
        check_count(whole, expected, found)?;
        Ok(item)
    }

    // The name and the arguments that a node gives, and what it assigns.
    pub fn given(&self, number: usize) -> Named<Given> {
        let node = self.node(number);
        let mut args = Vec::new(self.alloc);
        let mut assigned = Vec::new(self.alloc);
        for number in self.parts(&node).get(1..).unwrap_or(&[]) {
            if matches!(self.node(*number).kind, NodeKind::Form(Form::Assigned)) {
                assigned.push(*number)?;
            } else {
                args.push(*number)?;
            }
        }
        Ok(Given {
            node,
            name: self.part(&node, 0),
            args,
            assigned,
        })
    }

    // The same of a node that assigns nothing.
    fn given_alone(&self, number: usize) -> Named<Given> {
        let given = self.given(number)?;
        match given.assigned.first() {
            None => Ok(given),
            Some(assigned) => Err(error_at(&self.node(*assigned), Wrong::Assigned)),
        }
    }

    // The trait that is given its arguments.
    pub fn trait_over(&self, given: &Given) -> Named<usize> {
        let of = self.trait_of(given.name)?;
        check_count(&given.node, self.declared_count(of), given.args.len())?;
        Ok(of)
    }

    // The trait that a node names which assigns nothing, and its arguments.
    pub fn trait_alone(&self, number: usize) -> Named<Own> {
        let given = self.given_alone(number)?;
        let item = self.trait_over(&given)?;
        Ok(Own {
            item,
            args: given.args,
        })
    }

    // What the trait of one node declares that another names, over the arguments of both.
    pub fn own_of(&self, of: usize, own: usize) -> Named<Own> {
        let of = self.trait_alone(of)?;
        let own = self.given_alone(own)?;
        let item = self.associated_of(&own.node, of.item, own.name, own.args.len())?;
        let mut args = of.args;
        args.extend_from_slice(&own.args)?;
        Ok(Own { item, args })
    }

    // The arguments of an item, behind the type that implements its trait.
    pub fn implemented(&mut self, ty: usize, args: &[usize], item: usize) -> Named<List> {
        let mut all = Vec::new(self.alloc);
        all.push(ty)?;
        all.extend_from_slice(args)?;
        self.list(&all, Wanted::Implemented(item))
    }

    // What a trait declares, of a type that implements it.
    pub fn associated(&mut self, node: &Node, ty: usize, of: usize, own: usize) -> Named<Made> {
        let own = self.own_of(of, own)?;
        let args = self.implemented(ty, &own.args, own.item)?;
        self.item_term(node, own.item, args)
    }
}
