//! The words of a text from one on, and the tree that was made of those before.
ghost use Rattle.std.specs.Prelude.{◌≡◌, ◌≤◌, ◌↔◌, IsTrue, length, take};
ghost use Rattle.text_reading.specs.Words.{EachLies, leaves};
ghost use Rattle.text_reading.specs.Trees.{node_words};

use crate::reading::error::{Expected, ReadError};
use crate::reading::signs::Sign;
use crate::reading::tree::{Form, NodeKind, Tree};
use crate::reading::words::{Leaf, Word, WordKind};
use std::alloc::Global;

/// How many of the words were read, and what was made of them.
#[derive(Drop)]
pub(super) struct Reader {
    pub alloc: Global,
    pub words: Vec<Word>,
    pub at: usize,
    pub tree: Tree,
    ghost within: { at ≤ length words.items },
    ghost lies: { EachLies words.items tree.text_len },
    // No leaf is left out, and none stands twice.
    ghost each_once: { ∥ node_words tree.nodes.items ≡ leaves (take at words.items) ∥₁ },
}

// Whether a leaf may stand where that is expected.
fn admits(expected: Expected, leaf: Leaf) -> bool {
    match (expected, leaf) {
        (Expected::Term, _) => true,
        (Expected::Name, Leaf::Name) => true,
        (Expected::Number, Leaf::Number { .. }) => true,
        (Expected::Region, Leaf::Lifetime) => true,
        (Expected::Region, Leaf::RegionVar(_)) => true,
        (Expected::Region, Leaf::RegionPlaceholder { .. }) => true,
        (Expected::Region, Leaf::OuterRegion { .. }) => true,
        (Expected::Variable, Leaf::TyVar(_)) => true,
        (Expected::Variable, Leaf::ConstVar(_)) => true,
        (Expected::Variable, Leaf::RegionVar(_)) => true,
        (Expected::AnyVariable, Leaf::TyVar(_)) => true,
        (Expected::AnyVariable, Leaf::IntVar(_)) => true,
        (Expected::AnyVariable, Leaf::FloatVar(_)) => true,
        (Expected::AnyVariable, Leaf::ConstVar(_)) => true,
        (Expected::AnyVariable, Leaf::RegionVar(_)) => true,
        (Expected::Parameter, Leaf::Name) => true,
        (Expected::Parameter, Leaf::Lifetime) => true,
        (Expected::Bound, Leaf::Lifetime) => true,
        (Expected::Bound, Leaf::BoundTy) => true,
        (Expected::Bound, Leaf::BoundConst) => true,
        (Expected::BoundConst, Leaf::BoundConst) => true,
        (Expected::Const, Leaf::Placeholder { .. }) => true,
        _ => false,
    }
}

// Whether a word is that sign.
fn is_sign(word: &Word, sign: Sign) -> bool
    ensures { IsTrue result ↔ (word.now.kind ≡ WordKind.Sign sign) }
{
    match word.kind {
        WordKind::Sign(found) => found == sign,
        WordKind::Leaf(_) => false,
    }
}

impl Reader {
    ghost use Rattle.std.specs.Prelude.{◌<◌, [], IfOk, IfErr, OnOk, OnErr, suc};
    ghost use Rattle.std.specs.List.{slice_get};
    ghost use Rattle.std.specs.Bool.{OnTrue, OnFalse};
    ghost use Rattle.text_reading.specs.Errors.{LiesIn};
    ghost use Rattle.text_reading.specs.Words.{StandsAt, IsLeafAt};
    ghost use Rattle.text_reading.specs.Trees.{EachBelow};
    ghost use Rattle.text_reading.specs.Reads.{GoesOn, Makes, Gathers};

    // The word of that number.
    fn word(&self, number: usize) -> Option<Word>
        ensures { result ≡ slice_get self.now.words.items number }
    {
        self.words.get(number).copied()
    }

    // The next word.
    pub fn next(&self) -> Option<Word>
        ensures { result ≡ slice_get self.now.words.items self.now.at }
    {
        self.word(self.at)
    }

    // What the word of that number is.
    pub fn kind_at(&self, number: usize) -> Option<WordKind> {
        match self.word(number) {
            Some(word) => Some(word.kind),
            None => None,
        }
    }

    // Whether the word of that number is that sign.
    pub fn is_at(&self, number: usize, sign: Sign) -> bool
        ensures { IsTrue result → StandsAt self.now.words.items number sign }
    {
        match self.word(number) {
            Some(word) => is_sign(&word, sign),
            None => false,
        }
    }

    // What the next word is.
    pub fn peek(&self) -> Option<WordKind> {
        self.kind_at(self.at)
    }

    // Whether the next word is that sign.
    pub fn is_next(&self, sign: Sign) -> bool
        ensures { IsTrue result → StandsAt self.now.words.items self.now.at sign }
    {
        self.is_at(self.at, sign)
    }

    // Whether the word behind the next is that sign.
    pub fn is_behind(&self, sign: Sign) -> bool {
        self.is_at(self.at.saturating_add(1), sign)
    }

    // Whether the next word is a leaf that may stand where that is expected.
    pub fn is_leaf_next(&self, expected: Expected) -> bool {
        match self.peek() {
            Some(WordKind::Leaf(leaf)) => admits(expected, leaf),
            _ => false,
        }
    }

    // Where the next word begins, or else the text ends.
    pub fn place(&self) -> usize
        ensures { result ≤ self.now.tree.text_len }
    {
        match self.next() {
            Some(word) => word.start,
            None => self.tree.text_len,
        }
    }

    // Where the last word ends that was read.
    fn behind(&self) -> usize
        ensures { result ≤ self.now.tree.text_len }
    {
        match self.word(self.at.saturating_sub(1)) {
            Some(word) => word.end,
            None => 0,
        }
    }

    // Something else was expected than the next word.
    pub fn unexpected(&self, expected: Expected) -> ReadError
        ensures { LiesIn self.now.tree.text_len result }
    {
        let (at, end) = match self.next() {
            Some(word) => (word.start, word.end),
            None => (self.tree.text_len, self.tree.text_len),
        };
        ReadError::Unexpected { at, end, expected }
    }

    // Goes over the next word if it is that sign.
    pub fn accept(&mut self, sign: Sign) -> bool
        ensures words { self.new.words ≡ self.old.words }
        ensures tree { self.new.tree ≡ self.old.tree }
        ensures there { IsTrue result ↔ StandsAt self.old.words.items self.old.at sign }
        ensures over { OnTrue result (self.new.at ≡ suc self.old.at) }
        ensures stays { OnFalse result (self.new.at ≡ self.old.at) }
    {
        let Some(word) = self.next() else {
            return false;
        };
        if !is_sign(&word, sign) {
            return false;
        }
        self.at += 1;
        true
    }

    // Goes over the next word, which is to be that sign.
    pub fn expect(&mut self, sign: Sign) -> Result<(), ReadError>
        ensures words { self.new.words ≡ self.old.words }
        ensures tree { self.new.tree ≡ self.old.tree }
        ensures there { OnOk result (StandsAt self.old.words.items self.old.at sign) }
        ensures over { OnOk result (self.new.at ≡ suc self.old.at) }
        ensures stays { OnErr result (self.new.at ≡ self.old.at) }
        ensures wrong { IfErr result (LiesIn self.old.tree.text_len) }
    {
        if self.accept(sign) {
            Ok(())
        } else {
            Err(self.unexpected(Expected::Sign(sign)))
        }
    }

    // Makes a leaf of the next word, and goes over it.
    pub fn take(&mut self, expected: Expected) -> Result<usize, ReadError>
        ensures goes { GoesOn self.old self.new }
        ensures node { IfOk result (Makes self.old self.new) }
        ensures leaf { OnOk result (IsLeafAt self.old.words.items self.old.at) }
        ensures over { OnOk result (self.new.at ≡ suc self.old.at) }
        ensures wrong { IfErr result (LiesIn self.old.tree.text_len) }
    {
        let Some(word) = self.next() else {
            return Err(self.unexpected(expected));
        };
        let WordKind::Leaf(leaf) = word.kind else {
            return Err(self.unexpected(expected));
        };
        if !admits(expected, leaf) {
            return Err(self.unexpected(expected));
        }
        let number = self
            .tree
            .push(NodeKind::Leaf(leaf), word.start, word.end, &[])?;
        self.at += 1;
        Ok(number)
    }

    // Makes a node of the words from `start` on.
    #[tactic(auto, using(crate::proofs::WordLemmas::once_form, crate::proofs::WordLemmas::once_same))]
    pub fn make(&mut self, form: Form, start: usize, parts: &[usize]) -> Result<usize, ReadError>
        requires inside { start ≤ self.old.tree.text_len }
        requires there { EachBelow parts.now (length self.old.tree.nodes.items) }
        ensures goes { GoesOn self.old self.new }
        ensures at { self.new.at ≡ self.old.at }
        ensures there { IfOk result (λ n. n < length self.new.tree.nodes.items) }
        ensures parts { OnOk result (Gathers 1 self.old self.new parts.now []) }
        ensures wrong { IfErr result (LiesIn self.old.tree.text_len) }
    {
        let end = self.behind().max(start);
        Ok(self.tree.push(NodeKind::Form(form), start, end, parts)?)
    }
}
