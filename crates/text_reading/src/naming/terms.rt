//! Terms of the tree's nodes.

use crate::naming::aliases::{is_trait, sort_of};
use crate::naming::error::{Missing, Named, Wrong, check_count, error_at, missing_at};
use crate::naming::namer::{Made, Meaning, Namer};
use crate::naming::plain::{USIZE, number_size};
use crate::naming::program::{ParamSort, Parts, Sort, Term, VariableKind};
use crate::naming::variables::variable_at;
use crate::reading::{Form, Leaf, Node, NodeKind};
use term_enums::FnHeader;

// What the members of a list are to be: of any sort, of one, the first of one and all others of another, what an item
// declares, or a type that implements a trait, and then what an item of the trait declares.
#[derive(Clone, Copy)]
pub(super) enum Wanted {
    Any,
    Each(Sort),
    First(Sort, Sort),
    Declared(usize),
    Implemented(usize),
}

// What a parameter is given.
pub(super) fn given_to(param: ParamSort) -> Sort {
    match param {
        ParamSort::Region => Sort::Region,
        ParamSort::Type => Sort::Type,
        ParamSort::Const => Sort::Const,
    }
}

// A parameter of that index and name.
pub(super) fn parameter(sort: Sort, index: u32, name: usize) -> Term {
    match sort {
        Sort::Region => Term::RegionParam(index, name),
        Sort::Const => Term::ConstParam(index, name),
        _ => Term::TyParam(index, name),
    }
}

// What a form over terms alone is, and what these are to be.
fn made_of(form: Form) -> Option<(Sort, Wanted)> {
    match form {
        Form::Never | Form::Slice | Form::Tuple | Form::RawPtr(_) => {
            Some((Sort::Type, Wanted::Each(Sort::Type)))
        }
        Form::Array => Some((Sort::Type, Wanted::First(Sort::Type, Sort::Const))),
        Form::Ref(_) => Some((Sort::Type, Wanted::First(Sort::Region, Sort::Type))),
        Form::Pat => Some((Sort::Type, Wanted::First(Sort::Type, Sort::Pattern))),
        Form::Branch => Some((Sort::Const, Wanted::Each(Sort::Const))),
        Form::Range => Some((Sort::Pattern, Wanted::Each(Sort::Const))),
        Form::Or | Form::NotNull => Some((Sort::Pattern, Wanted::Each(Sort::Pattern))),
        _ => None,
    }
}

// The term of a form over the terms of a list, which is a range of a program's parts.
fn term_over(form: Form, parts: &[usize], list: Parts) -> Option<Term> {
    let numbers = parts.get(list.first..list.behind)?;
    match (form, numbers) {
        (Form::Tuple, _) => Some(Term::Tuple(list)),
        (Form::Branch, _) => Some(Term::Branch(USIZE, list)),
        (Form::Or, _) => Some(Term::Or(list)),
        (Form::Never, []) => Some(Term::Never),
        (Form::NotNull, []) => Some(Term::NotNull),
        (Form::Slice, [element]) => Some(Term::Slice(*element)),
        (Form::RawPtr(mutability), [pointee]) => Some(Term::RawPtr(*pointee, mutability)),
        (Form::Array, [element, length]) => Some(Term::Array(*element, *length)),
        (Form::Ref(mutability), [region, pointee]) => {
            Some(Term::Ref(*region, *pointee, mutability))
        }
        (Form::Pat, [base, pat]) => Some(Term::Pat(*base, *pat)),
        (Form::Range, [start, end]) => Some(Term::Range(*start, *end)),
        _ => None,
    }
}

// A list of parts, and how many levels the deepest has.
#[derive(Clone, Copy)]
pub(super) struct List {
    pub parts: Parts,
    pub levels: usize,
}

impl<'a> Namer<'a> {
    // The sort of what an item declares at a place.
    fn declared_sort(&self, item: usize, place: usize) -> Option<Sort> {
        let declared = self.declared_at(item, place)?;
        Some(given_to(declared.sort))
    }

    // The sort that is wanted at a place of a list.
    fn wanted_at(&self, wanted: Wanted, place: usize) -> Option<Sort> {
        match wanted {
            Wanted::Any => None,
            Wanted::Each(sort) => Some(sort),
            Wanted::First(first, others) => Some(if place == 0 { first } else { others }),
            Wanted::Declared(item) => self.declared_sort(item, place),
            Wanted::Implemented(item) => match place.checked_sub(1) {
                None => Some(Sort::Type),
                Some(place) => self.declared_sort(item, place),
            },
        }
    }

    // The terms of those nodes, as a list of parts.
    pub fn list(&mut self, nodes: &[usize], wanted: Wanted) -> Named<List> {
        let first = self.program.parts.len();
        let mut levels = 0;
        for (place, number) in nodes.iter().enumerate() {
            let sort = self.wanted_at(wanted, place);
            let made = self.term(*number, sort)?;
            self.program.parts.push(made.number)?;
            levels = levels.max(made.levels);
        }
        let parts = self.parts_from(first);
        Ok(List { parts, levels })
    }

    // An item over its arguments.
    pub fn item_term(&mut self, node: &Node, item: usize, args: List) -> Named<Made> {
        let sort = self.item_sort(item);
        let term = Term::Item(sort, item, args.parts);
        self.add(node, term, sort_of(sort), args.levels)
    }

    // The item that a node names is no trait, and the whole gives it that many arguments.
    fn check_item(&self, whole: &Node, node: &Node, item: usize, found: usize) -> Named<()> {
        check_count(whole, self.declared_count(item), found)?;
        if is_trait(self.item_sort(item)) {
            return Err(error_at(node, Wrong::IsTrait));
        }
        Ok(())
    }

    // An item that has no parameters.
    fn item_alone(&mut self, node: &Node, item: usize) -> Named<Made> {
        self.check_item(node, node, item, 0)?;
        let parts = self.parts_from(self.program.parts.len());
        self.item_term(node, item, List { parts, levels: 0 })
    }

    // What a name means as a term.
    fn named(&mut self, node: &Node, missing: Missing) -> Named<Made> {
        if let Some(own) = self.own_parameter(node)? {
            return Ok(own);
        }
        match self.meaning(node, missing)? {
            Meaning::Term(made) => Ok(made),
            Meaning::Item(item) => self.item_alone(node, item),
        }
    }

    // A variable.
    fn variable(&mut self, node: &Node) -> Named<Made> {
        let variable = variable_at(node)?;
        let number = variable.number;
        let (term, sort) = match variable.kind {
            VariableKind::Ty => (Term::TyVar(number), Sort::Type),
            VariableKind::Int => (Term::IntVar(number), Sort::Type),
            VariableKind::Float => (Term::FloatVar(number), Sort::Type),
            VariableKind::Const => (Term::ConstVar(number), Sort::Const),
            VariableKind::Region => (Term::RegionVar(number), Sort::Region),
        };
        self.add(node, term, sort, 0)
    }

    // The type that is named behind the digits of a number, with its size and its greatest number.
    fn number_type(&self, name: &str) -> Option<(usize, u8, u128)> {
        let ty = match (name, self.meanings.get(name)) {
            ("", _) => USIZE,
            (_, Some(Meaning::Term(made))) => made.number,
            _ => return None,
        };
        let (size, greatest) = number_size(*self.program.terms.get(ty)?)?;
        Some((ty, size, greatest))
    }

    // A number.
    fn number(&mut self, node: &Node, value: u128, behind: usize) -> Named<Made> {
        let ty = self.number_type(self.text_from(node, behind));
        let (ty, size, greatest) = ty.ok_or(error_at(node, Wrong::NumberType))?;
        if value > greatest {
            return Err(error_at(node, Wrong::TooLarge));
        }
        self.add(node, Term::Number(ty, value, size), Sort::Const, 0)
    }

    // A placeholder, behind whose universe its name stands, or its place.
    fn placeholder(
        &mut self,
        node: &Node,
        universe: usize,
        behind: usize,
        sort: Sort,
    ) -> Named<Made> {
        let text = self.text_from(node, behind);
        let place = match text.strip_prefix('.') {
            None => 0,
            Some(digits) => digits.parse().map_err(|_| error_at(node, Wrong::Place))?,
        };
        let name = self.name(text)?;
        let term = match sort {
            Sort::Region => Term::RegionPlaceholder(universe, place, name),
            Sort::Const => Term::ConstPlaceholder(universe, place, name),
            _ => Term::TyPlaceholder(universe, place, name),
        };
        self.add(node, term, sort, 0)
    }

    // What could not be told.
    fn error(&mut self, node: &Node, sort: Sort) -> Named<Made> {
        let term = if sort == Sort::Const {
            Term::ConstError
        } else {
            Term::TyError
        };
        self.add(node, term, sort, 0)
    }

    // The term of a leaf, the node of that number.
    fn leaf(
        &mut self,
        node: &Node,
        number: usize,
        leaf: Leaf,
        expected: Option<Sort>,
    ) -> Named<Made> {
        match leaf {
            Leaf::Name | Leaf::Lifetime | Leaf::BoundTy | Leaf::BoundConst => {
                match self.bound_leaf(node, number, leaf)? {
                    Some(made) => Ok(made),
                    None => self.named(node, missing_at(leaf, expected)),
                }
            }
            Leaf::OuterTy { depth, behind }
            | Leaf::OuterConst { depth, behind }
            | Leaf::OuterRegion { depth, behind } => self.outer(node, number, leaf, depth, behind),
            Leaf::Number { value, behind } => self.number(node, value, behind),
            Leaf::RegionPlaceholder { universe, behind } => {
                self.placeholder(node, universe, behind, Sort::Region)
            }
            Leaf::Placeholder { universe, behind } => {
                self.placeholder(node, universe, behind, type_or_const(expected))
            }
            _ => self.variable(node),
        }
    }

    // The term of a node, which is to be of that sort if one is wanted.
    pub fn term(&mut self, number: usize, expected: Option<Sort>) -> Named<Made> {
        let node = self.node(number);
        let made = match node.kind {
            NodeKind::Leaf(leaf) => self.leaf(&node, number, leaf, expected)?,
            NodeKind::Form(Form::Error) => self.error(&node, type_or_const(expected))?,
            NodeKind::Form(_) => match self.made.get(number) {
                Some(Some(made)) => *made,
                _ => return Err(error_at(&node, Wrong::NotRead)),
            },
        };
        let found = made.sort;
        match expected {
            Some(expected) if expected != found => {
                Err(error_at(&node, Wrong::Sort { expected, found }))
            }
            _ => Ok(made),
        }
    }

    // A name over arguments.
    fn applied(&mut self, node: &Node, name: usize, args: &[usize]) -> Named<Made> {
        let name = self.node(name);
        let Meaning::Item(item) = self.meaning(&name, Missing::Item)? else {
            return Err(error_at(&name, Wrong::NoItem));
        };
        self.check_item(node, &name, item, args.len())?;
        let args = self.list(args, Wanted::Declared(item))?;
        self.item_term(node, item, args)
    }

    // A form over terms alone.
    fn plain(
        &mut self,
        node: &Node,
        form: Form,
        sort: Sort,
        wanted: Wanted,
        parts: &[usize],
    ) -> Named<Made> {
        let list = self.list(parts, wanted)?;
        let term = term_over(form, &self.program.parts, list.parts);
        let term = term.ok_or(error_at(node, Wrong::NotRead))?;
        self.add(node, term, sort, list.levels)
    }

    // An expression.
    fn expression(&mut self, node: &Node, operation: usize, args: &[usize]) -> Named<Made> {
        let operation = self.node(operation);
        let NodeKind::Leaf(Leaf::Number { value, .. }) = operation.kind else {
            return Err(error_at(&operation, Wrong::NotRead));
        };
        let kind = u32::try_from(value).map_err(|_| error_at(&operation, Wrong::TooLarge))?;
        let args = self.list(args, Wanted::Any)?;
        self.add(node, Term::Expr(kind, args.parts), Sort::Const, args.levels)
    }

    // A function pointer.
    fn fn_ptr(
        &mut self,
        node: &Node,
        header: FnHeader,
        variables: usize,
        types: &[usize],
    ) -> Named<Made> {
        let variables = self.variables(variables)?;
        let types = self.list(types, Wanted::Each(Sort::Type))?;
        let term = Term::FnPtr(header, variables, types.parts);
        self.add(node, term, Sort::Type, types.levels)
    }

    // A type under a binder.
    fn unsafe_binder(&mut self, node: &Node, variables: usize, body: usize) -> Named<Made> {
        let variables = self.variables(variables)?;
        let body = self.term(body, Some(Sort::Type))?;
        let term = Term::UnsafeBinder(variables, body.number);
        self.add(node, term, Sort::Type, body.levels)
    }

    // The term of a form, if that is one.
    pub fn form(&mut self, node: &Node, form: Form, parts: &[usize]) -> Named<Option<Made>> {
        if let Some((sort, wanted)) = made_of(form) {
            return Ok(Some(self.plain(node, form, sort, wanted, parts)?));
        }
        let made = match (form, parts) {
            (Form::Applied, [name, args @ ..]) => self.applied(node, *name, args),
            (Form::Expr, [operation, args @ ..]) => self.expression(node, *operation, args),
            (Form::Const, [constant]) => self.term(*constant, Some(Sort::Const)),
            (Form::FnPtr(header), [variables, types @ ..]) => {
                self.fn_ptr(node, header, *variables, types)
            }
            (Form::UnsafeBinder, [variables, body]) => self.unsafe_binder(node, *variables, *body),
            (Form::Object, [bounds @ .., region]) => self.object(node, bounds, *region),
            (Form::Associated, [ty, of, own]) => self.associated(node, *ty, *of, *own),
            _ => return Ok(None),
        };
        Ok(Some(made?))
    }
}

// A constant where one is wanted, and else a type.
fn type_or_const(expected: Option<Sort>) -> Sort {
    if expected == Some(Sort::Const) {
        Sort::Const
    } else {
        Sort::Type
    }
}
