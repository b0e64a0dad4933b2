//! Items and parameters that are declared.

use crate::naming::error::{Named, Wrong, error_at};
use crate::naming::namer::{Meaning, Namer};
use crate::naming::program::{Declared, Item, ParamSort, Sort};
use crate::naming::terms::parameter;
use crate::reading::{Form, ItemSort, Leaf, Node, NodeKind};
use std::collections::HashSet;

impl<'a> Namer<'a> {
    // A parameter that an item declares, or that an impl is generic over.
    pub fn declared(&self, number: usize) -> Named<(Node, Declared<'a>)> {
        let node = self.node(number);
        let name = self.node(self.part(&node, 0));
        let (sort, variance) = match (node.kind, name.kind) {
            (NodeKind::Form(Form::DeclaredConst(variance)), _) => (ParamSort::Const, variance),
            (NodeKind::Form(Form::Declared(variance)), NodeKind::Leaf(Leaf::Lifetime)) => {
                (ParamSort::Region, variance)
            }
            (NodeKind::Form(Form::Declared(variance)), _) => (ParamSort::Type, variance),
            _ => return Err(error_at(&node, Wrong::NotRead)),
        };
        let text = self.text_of(&name);
        Ok((
            name,
            Declared {
                sort,
                variance,
                text,
            },
        ))
    }

    // The parameters that an item declares itself, behind those of its trait.
    fn declared_all(
        &self,
        sort: ItemSort,
        of: Option<usize>,
        nodes: &[usize],
    ) -> Named<Vec<Declared<'a>>> {
        let mut declared = Vec::new(self.alloc);
        if let Some(of) = of {
            if let Some(item) = self.program.items.get(of) {
                declared.extend_from_slice(&item.declared)?;
            }
        }
        let mut texts = HashSet::new(self.alloc);
        for number in nodes {
            let (leaf, parameter) = self.declared(*number)?;
            if sort == ItemSort::Foreign || sort == ItemSort::AutoTrait {
                return Err(error_at(&leaf, Wrong::Parameter));
            }
            if !texts.insert(parameter.text)? {
                return Err(error_at(&leaf, Wrong::Again));
            }
            declared.push(parameter)?;
        }
        Ok(declared)
    }

    // From here on a trait declares that item under a name.
    fn declare_associated(&mut self, name: &Node, of: usize, item: usize) -> Named<()> {
        let key = (of, self.text_of(name));
        if self.associated.contains_key(&key) {
            return Err(error_at(name, Wrong::Again));
        }
        let _ = self.associated.insert(key, item)?;
        Ok(())
    }

    // An item, which the trait of that name declares, if there is one.
    pub fn declare_item(
        &mut self,
        sort: ItemSort,
        of: Option<usize>,
        name: usize,
        nodes: &[usize],
    ) -> Named<()> {
        let of = match of {
            Some(of) => Some(self.trait_of(of)?),
            None => None,
        };
        let declared = self.declared_all(sort, of, nodes)?;
        let name = self.node(name);
        let text = self.text_of(&name);
        let number = self.program.items.len();
        match of {
            Some(of) => self.declare_associated(&name, of, number)?,
            None => self.declare(&name, Meaning::Item(number))?,
        }
        self.program.items.push(Item {
            sort,
            text,
            of,
            declared,
        })?;
        Ok(())
    }

    // The index of a parameter: the one that is given, or else the one behind the last one's.
    fn index(&self, node: &Node, given: &[usize]) -> Named<u32> {
        let index = match given {
            [number] => u32::try_from(self.count(*number)?).ok(),
            _ => self.next_index,
        };
        index.ok_or(error_at(node, Wrong::TooLarge))
    }

    // A parameter of questions.
    pub fn declare_parameter(
        &mut self,
        node: &Node,
        constant: bool,
        name: usize,
        given: &[usize],
    ) -> Named<()> {
        let leaf = self.node(name);
        let index = self.index(node, given)?;
        self.next_index = index.checked_add(1);
        let name = self.name_of(name)?;
        let sort = match leaf.kind {
            _ if constant => Sort::Const,
            NodeKind::Leaf(Leaf::Lifetime) => Sort::Region,
            _ => Sort::Type,
        };
        let made = self.add(&leaf, parameter(sort, index, name), sort, 0)?;
        self.declare(&leaf, Meaning::Term(made))
    }
}
