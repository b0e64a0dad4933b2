//! What is asked of a node's term as a whole, which is kept beside the node from its making.
ghost use Rattle.std.specs.Prelude.{◌≡◌, IsTrue};
ghost use Rattle.relation_terms.specs.Trees.{Tree, known, list_tree, front};
ghost use Rattle.relation_terms.specs.Flags.{flags_of};
ghost use Rattle.relation_terms.specs.Meaning.{Meaning, arg_tree, term_tree, existential_tree, object_predicate_tree};
ghost use Rattle.relation_terms.specs.Parts.{part_tree, parts_tree, body_tree};
ghost use Rattle.reference_interner.specs.Nodes.{NodeSort, entry_of, known_entry, form_tree};
ghost use Rattle.reference_interner.specs.Forms.{form_of};
ghost use Rattle.reference_interner.specs.Places.{HasKey, tree_of_key};
ghost use Rattle.reference_interner.specs.Adding.{meaning_in};
ghost use Rattle.reference_interner.specs.declared.keys.NodeKey.{NodeKey};
ghost use Rattle.reference_interner.specs.declared.keys.ItemId.{ItemId};
ghost use Rattle.reference_interner.specs.declared.keys.SymbolId.{SymbolId};

use crate::{ItemId, Node, NodeKey, RefInterner, SymbolId};
use relation_terms::predicate::ExistentialPredicate;
use relation_terms::terms::parts::{const_parts, pattern_parts, ty_parts, valtree_parts};
use relation_terms::terms::{
    AlternativesKey, ArgsKey, Binder, Body, BranchesKey, ConstKey, ExistentialPredicatesKey,
    GenericArgKind, Interner, Part, Parts, PatKey, RegionKey, TermKind, TyKey, TypeFlags, TysKey,
    ValTreeKey, const_own_flags, region_own_flags, ty_own_flags,
};

mod predicates;

// What stands for a tree of an interner: a key, or a form over keys.
trait Flagged {
    ghost tree: { Meaning NodeKey ItemId SymbolId → Self → Tree };

    // The flags of the tree, from those that are kept.
    fn flags(&self, cx: &RefInterner) -> TypeFlags
        requires { IsTrue (known (tree (meaning_in cx.now) self.now)) }
        ensures { result ≡ flags_of (tree (meaning_in cx.now) self.now) };
}

impl Flagged for TyKey<NodeKey> {
    ghost tree = { λ m k. m.ty k };

    fn flags(&self, cx: &RefInterner) -> TypeFlags {
        cx.kept_flags(&self.0)
    }
}

impl Flagged for RegionKey<NodeKey> {
    ghost tree = { λ m k. m.region k };

    fn flags(&self, cx: &RefInterner) -> TypeFlags {
        cx.kept_flags(&self.0)
    }
}

impl Flagged for ConstKey<NodeKey> {
    ghost tree = { λ m k. m.const_ k };

    fn flags(&self, cx: &RefInterner) -> TypeFlags {
        cx.kept_flags(&self.0)
    }
}

impl Flagged for ValTreeKey<NodeKey> {
    ghost tree = { λ m k. m.valtree k };

    fn flags(&self, cx: &RefInterner) -> TypeFlags {
        cx.kept_flags(&self.0)
    }
}

impl Flagged for PatKey<NodeKey> {
    ghost tree = { λ m k. m.pat k };

    fn flags(&self, cx: &RefInterner) -> TypeFlags {
        cx.kept_flags(&self.0)
    }
}

impl Flagged for ArgsKey<NodeKey> {
    ghost tree = { λ m k. m.args k };

    fn flags(&self, cx: &RefInterner) -> TypeFlags {
        cx.kept_flags(&self.0)
    }
}

impl Flagged for TysKey<NodeKey> {
    ghost tree = { λ m k. m.tys k };

    fn flags(&self, cx: &RefInterner) -> TypeFlags {
        cx.kept_flags(&self.0)
    }
}

impl Flagged for BranchesKey<NodeKey> {
    ghost tree = { λ m k. m.branches k };

    fn flags(&self, cx: &RefInterner) -> TypeFlags {
        cx.kept_flags(&self.0)
    }
}

impl Flagged for AlternativesKey<NodeKey> {
    ghost tree = { λ m k. m.alternatives k };

    fn flags(&self, cx: &RefInterner) -> TypeFlags {
        cx.kept_flags(&self.0)
    }
}

impl Flagged for ExistentialPredicatesKey<NodeKey> {
    ghost tree = { λ m k. m.existential_predicates k };

    fn flags(&self, cx: &RefInterner) -> TypeFlags {
        cx.kept_flags(&self.0)
    }
}

impl Flagged for GenericArgKind<NodeKey> {
    ghost tree = { λ m a. arg_tree m a };

    fn flags(&self, cx: &RefInterner) -> TypeFlags {
        match self {
            GenericArgKind::Lifetime(region) => region.flags(cx),
            GenericArgKind::Ty(ty) => ty.flags(cx),
            GenericArgKind::Const(constant) => constant.flags(cx),
        }
    }
}

impl Flagged for TermKind<NodeKey> {
    ghost tree = { λ m a. term_tree m a };

    fn flags(&self, cx: &RefInterner) -> TypeFlags {
        match self {
            TermKind::Ty(ty) => ty.flags(cx),
            TermKind::Const(constant) => constant.flags(cx),
        }
    }
}

impl Flagged for ExistentialPredicate<NodeKey, ItemId> {
    ghost tree = { λ m p. existential_tree m p };

    fn flags(&self, cx: &RefInterner) -> TypeFlags {
        match self {
            ExistentialPredicate::Trait(of) => of.args.flags(cx),
            ExistentialPredicate::Projection(projection) => {
                projection.term.flags(cx).and(&projection.args.flags(cx))
            }
            ExistentialPredicate::AutoTrait(_) => TypeFlags::none(),
        }
    }
}

impl Flagged for Binder<NodeKey, ExistentialPredicate<NodeKey, ItemId>> {
    ghost tree = { λ m b. object_predicate_tree m b };

    fn flags(&self, cx: &RefInterner) -> TypeFlags {
        self.value.flags(cx).under_binder()
    }
}

impl Flagged for Body<NodeKey, ItemId> {
    ghost tree = { λ m b. body_tree m b };

    fn flags(&self, cx: &RefInterner) -> TypeFlags {
        match self {
            Body::Signature(sig) => sig.inputs_and_output.flags(cx),
            Body::Ty(ty) => ty.flags(cx),
            Body::Existential(predicate) => predicate.flags(cx),
        }
    }
}

impl Flagged for Part<NodeKey, ItemId> {
    ghost tree = { λ m p. part_tree m p };

    fn flags(&self, cx: &RefInterner) -> TypeFlags {
        match self {
            Part::Region(region) => region.flags(cx),
            Part::Ty(ty) => ty.flags(cx),
            Part::Const(constant) => constant.flags(cx),
            Part::ValTree(valtree) => valtree.flags(cx),
            Part::Pat(pat) => pat.flags(cx),
            Part::ValueType(ty) => ty.flags(cx),
            Part::Binder(_, body) => body.flags(cx).under_binder(),
            Part::Signature(sig) => sig.inputs_and_output.flags(cx),
            Part::Inputs(tys) => input_flags(cx, tys),
            Part::Existential(predicate) => predicate.flags(cx),
            Part::Object(predicates) => predicates.flags(cx),
        }
    }
}

impl Flagged for Parts<NodeKey, ItemId> {
    ghost tree = { λ m ps. parts_tree m ps };

    fn flags(&self, cx: &RefInterner) -> TypeFlags {
        match self {
            Parts::Empty => TypeFlags::none(),
            Parts::One(part) => part.flags(cx),
            Parts::Two(first, second) => first.flags(cx).and(&second.flags(cx)),
            Parts::Args(args) => args.flags(cx),
            Parts::Tys(tys) => tys.flags(cx),
            Parts::Branches(branches) => branches.flags(cx),
            Parts::Alternatives(alternatives) => alternatives.flags(cx),
            Parts::TermArgs(term, args) => term.flags(cx).and(&args.flags(cx)),
            Parts::Inputs(tys) => input_flags(cx, tys),
            Parts::Predicates(predicates) => predicates.flags(cx),
        }
    }
}

// The flags of a list.
fn list_flags<T: Flagged>(cx: &RefInterner, list: &[T]) -> TypeFlags
    requires { IsTrue (known (list_tree (T.tree (meaning_in cx.now)) list.now)) }
    ensures { result ≡ flags_of (list_tree (T.tree (meaning_in cx.now)) list.now) }
{
    let mut flags = TypeFlags::none();
    for member in list {
        flags = flags.and(&member.flags(cx));
    }
    flags
}

// The flags of all types of a list but the last.
fn input_flags(cx: &RefInterner, tys: &TysKey<NodeKey>) -> TypeFlags
    requires { IsTrue (known (front ((meaning_in cx.now).tys tys.now))) }
    ensures { result ≡ flags_of (front ((meaning_in cx.now).tys tys.now)) }
{
    let list = cx.tys(tys);
    list_flags(cx, &list[..list.len() - 1])
}

impl RefInterner {
    // What is kept beside the node of a key.
    pub(super) fn kept_flags(&self, key: &NodeKey) -> TypeFlags
        requires { HasKey (meaning_in self.now) (key.now).0 }
        ensures { (s : NodeSort) → IsTrue (known (tree_of_key s (meaning_in self.now) (key.now).0)) →
            result ≡ flags_of (tree_of_key s (meaning_in self.now) (key.now).0) }
    {
        self.flags[key.0 as usize]
    }

    // The flags of a node, from those that are kept beside its parts.
    pub(super) fn node_flags(&self, node: &Node) -> TypeFlags
        requires { IsTrue (known_entry (entry_of (meaning_in self.now) node.now)) }
        ensures { result ≡ flags_of (form_tree (meaning_in self.now) (form_of node.now)) }
    {
        match node {
            Node::Ty(kind) => ty_own_flags(kind).and(&ty_parts(kind).flags(self)),
            Node::Region(kind) => region_own_flags::<NodeKey, ItemId, SymbolId>(kind),
            Node::Const(kind) => const_own_flags(kind).and(&const_parts(kind).flags(self)),
            Node::ValTree(kind) => valtree_parts(kind).flags(self),
            Node::Pat(kind) => pattern_parts(kind).flags(self),
            Node::Args(list) => list_flags(self, list.as_slice()),
            Node::Tys(list) => list_flags(self, list.as_slice()),
            Node::Branches(list) => list_flags(self, list.as_slice()),
            Node::Alternatives(list) => list_flags(self, list.as_slice()),
            Node::ExistentialPredicates(list) => list_flags(self, list.as_slice()),
            Node::Predicate(binder) => binder.flags(self),
            Node::Clauses(list) => list_flags(self, list.as_slice()),
            Node::BoundVars(_) => TypeFlags::none(),
        }
    }
}
