//! Questions of the tree's nodes.

use crate::naming::error::{Named, Wrong, error_at};
use crate::naming::namer::Namer;
use crate::naming::program::{Parts, Put, Question, QuestionKind, Sort};
use crate::naming::terms::Wanted;
use crate::naming::variables::variable_at;
use crate::reading::{Form, Node};

impl<'a> Namer<'a> {
    // Adds a question.
    pub fn note(&mut self, kind: QuestionKind) -> Named<()> {
        let variables = self.program.variables.len();
        self.program.questions.push(Question {
            kind,
            counts: None,
            then: false,
            repeat: 1,
            setup: self.setup,
            budget: self.budget,
            assumed: self.assumed,
            variables,
        })?;
        Ok(())
    }

    // The number of a term of any sort.
    pub fn any(&mut self, number: usize) -> Named<usize> {
        Ok(self.term(number, None)?.number)
    }

    // The number of a type.
    pub fn ty(&mut self, number: usize) -> Named<usize> {
        Ok(self.term(number, Some(Sort::Type))?.number)
    }

    // The number of a region.
    fn region(&mut self, number: usize) -> Named<usize> {
        Ok(self.term(number, Some(Sort::Region))?.number)
    }

    // The terms of a node that lists some.
    fn listed(&mut self, number: usize) -> Named<Parts> {
        let numbers = self.parts(&self.node(number));
        Ok(self.list(numbers, Wanted::Any)?.parts)
    }

    // The terms of two lists, each of the second of the sort of its partner in the first.
    fn paired(&mut self, lhs: usize, rhs: usize) -> Named<(Parts, Parts)> {
        let left = self.parts(&self.node(lhs));
        let right = self.parts(&self.node(rhs));
        let lhs = self.listed(lhs)?;
        let first = self.program.parts.len();
        for (place, number) in right.iter().enumerate() {
            let sort = match left.get(place) {
                Some(partner) => Some(self.term(*partner, None)?.sort),
                None => None,
            };
            let made = self.term(*number, sort)?;
            self.program.parts.push(made.number)?;
        }
        Ok((lhs, self.parts_from(first)))
    }

    // Terms, of that sort if one is wanted, and the regions that they outlive, as two lists of parts.
    fn outliving(&mut self, numbers: &[usize], sort: Option<Sort>) -> Named<(Parts, Parts)> {
        let mut regions = Vec::new(self.alloc);
        let first = self.program.parts.len();
        for number in numbers {
            let node = self.node(*number);
            let term = self.term(self.part(&node, 0), sort)?.number;
            self.program.parts.push(term)?;
            regions.push(self.region(self.part(&node, 1))?)?;
        }
        let terms = self.parts_from(first);
        self.program.parts.extend_from_slice(&regions)?;
        Ok((terms, self.parts_from(terms.behind)))
    }

    // Terms and those that are put for them, each of the sort of its own, as a range of the program's list.
    fn puts(&mut self, numbers: &[usize]) -> Named<Parts> {
        let first = self.program.puts.len();
        for number in numbers {
            let node = self.node(*number);
            let from = self.term(self.part(&node, 0), None)?;
            let to = self.term(self.part(&node, 1), Some(from.sort))?.number;
            let from = from.number;
            self.program.puts.push(Put { from, to })?;
        }
        Ok(Parts::new(first, self.program.puts.len()))
    }

    // After how many pulls a walk skips, as a range of the program's list.
    fn skips(&mut self, numbers: &[usize]) -> Named<Parts> {
        let first = self.program.skips.len();
        for number in numbers {
            let pulls = self.count(*number)?;
            self.program.skips.push(pulls)?;
        }
        Ok(Parts::new(first, self.program.skips.len()))
    }

    // What is asked of one term, or of variables.
    fn asked_of_one(&mut self, form: Form, parts: &[usize]) -> Named<Option<QuestionKind>> {
        let kind = match (form, parts) {
            (Form::Components, [ty]) => QuestionKind::Components(self.ty(*ty)?),
            (Form::Rigid, [ty]) => QuestionKind::Rigid(self.ty(*ty)?),
            (Form::Escapes, [term]) => QuestionKind::Escapes(self.any(*term)?),
            (Form::Infers, [term]) => QuestionKind::Infers(self.any(*term)?),
            (Form::Key(params), [ty]) => {
                let ty = self.ty(*ty)?;
                QuestionKind::Key { params, ty }
            }
            (Form::Walk, [term, skips @ ..]) => {
                let term = self.any(*term)?;
                let skips = self.skips(skips)?;
                QuestionKind::Walk { term, skips }
            }
            (Form::Fold, [term, puts @ ..]) => {
                let term = self.any(*term)?;
                let puts = self.puts(puts)?;
                QuestionKind::Fold { term, puts }
            }
            (Form::SupertraitIds, [name]) => QuestionKind::SupertraitIds(self.trait_of(*name)?),
            (Form::Binding, [variable]) => {
                QuestionKind::Binding(variable_at(&self.node(*variable))?)
            }
            (Form::One, [first, second]) => {
                let first = variable_at(&self.node(*first))?;
                QuestionKind::One(first, variable_at(&self.node(*second))?)
            }
            _ => return Ok(None),
        };
        Ok(Some(kind))
    }

    // What is asked of terms, if that is a question.
    fn asked(&mut self, form: Form, parts: &[usize]) -> Named<Option<QuestionKind>> {
        let kind = match (form, parts) {
            (Form::Question(relation), [lhs, rhs]) => {
                let lhs = self.ty(*lhs)?;
                let rhs = self.ty(*rhs)?;
                QuestionKind::Relate { lhs, relation, rhs }
            }
            (Form::MayUnify(params), [lhs, rhs, depth @ ..]) => {
                let depth = self.count_if(depth)?;
                let lhs = self.ty(*lhs)?;
                let rhs = self.ty(*rhs)?;
                QuestionKind::MayUnify {
                    params,
                    lhs,
                    rhs,
                    depth,
                }
            }
            (Form::ArgsMayUnify(params), [lhs, rhs]) => {
                let (lhs, rhs) = self.paired(*lhs, *rhs)?;
                QuestionKind::ArgsMayUnify { params, lhs, rhs }
            }
            (Form::ArgsEqual, [lhs, rhs]) => {
                let (lhs, rhs) = self.paired(*lhs, *rhs)?;
                QuestionKind::RelateArgs { lhs, rhs }
            }
            (Form::Visit, [term, skip, stop]) => {
                let term = self.any(*term)?;
                let skip = self.listed(*skip)?;
                let stop = self.listed(*stop)?;
                QuestionKind::Visit { term, skip, stop }
            }
            (Form::Assumptions, _) => {
                let (terms, regions) = self.outliving(parts, None)?;
                QuestionKind::Assumptions { terms, regions }
            }
            (Form::Solve, _) => {
                let (longer, shorter) = self.outliving(parts, Some(Sort::Region))?;
                QuestionKind::Solve { longer, shorter }
            }
            _ => return self.asked_of_one(form, parts),
        };
        Ok(Some(kind))
    }

    // The last question is asked in the context that the one before left.
    fn note_then(&mut self, node: &Node) -> Named<()> {
        let any = self.program.questions.len() > 1;
        match self.program.questions.last_mut() {
            Some(question) if any => {
                question.then = true;
                Ok(())
            }
            _ => Err(error_at(node, Wrong::NothingBefore)),
        }
    }

    // The last question is asked that many times.
    fn note_again(&mut self, times: usize) -> Named<()> {
        let repeat = self.count(times)?;
        if repeat == 0 {
            return Err(error_at(&self.node(times), Wrong::NoTime));
        }
        if let Some(question) = self.program.questions.last_mut() {
            question.repeat = repeat;
        }
        Ok(())
    }

    // A question, or what stands in a statement or in a question and is made with it.
    pub fn question(&mut self, node: &Node, form: Form, parts: &[usize]) -> Named<()> {
        if let Some(kind) = self.asked(form, parts)? {
            return self.note(kind);
        }
        match (form, parts) {
            (Form::Count(counted), _) => {
                if let Some(question) = self.program.questions.last_mut() {
                    question.counts = Some(counted);
                }
                Ok(())
            }
            (Form::Then, _) => self.note_then(node),
            (Form::Repeat, [times, _]) => self.note_again(*times),
            (Form::Elaborate { only_self, sized }, _) => {
                self.note_elaborated(only_self, sized, parts)
            }
            (Form::Supertraits, _) => self.note_supertraits(node, parts),
            (Form::Overlap, [lhs, rhs]) => self.note_overlap(*lhs, *rhs),
            (Form::ImplsOverlap, [lhs, rhs, depth @ ..]) => self.note_impls_overlap(
                *lhs, *rhs, depth,
            ),
            (Form::Methods, [methods @ .., ty]) => self.note_methods(methods, *ty),
            (Form::Prove, [goal, depth @ ..]) => self.note_prove(node, *goal, depth),
            (Form::File | Form::Parameters | Form::Terms | Form::Error, _) => Ok(()),
            (Form::Declared(_) | Form::DeclaredConst(_) | Form::Named | Form::Assigned, _) => Ok(
                (),
            ),
            (Form::Implements | Form::Projects | Form::Given | Form::Gives, _) => Ok(()),
            (Form::Claims(_) | Form::OutlivesUnder | Form::ComesTo | Form::Says, _) => Ok(()),
            (Form::ImplHeader | Form::Method | Form::Put | Form::Outlives, _) => Ok(()),
            (Form::Limit | Form::Pulls, _) => Ok(()),
            _ => Err(error_at(node, Wrong::NotRead)),
        }
    }
}
