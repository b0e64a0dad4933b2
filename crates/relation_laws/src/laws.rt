//! Laws of the definitions that relating is said in. Each function does nothing, and its contract is the law.

ghost use Rattle.relation_laws.specs.SmallTerms.{IsReflexive, AnythingAtBivariance, ErrorsAreRelated};
ghost use Rattle.relation_laws.specs.SmallTerms.{ParametersByIndex, ValuesByTheirTrees};
ghost use Rattle.relation_combining.specs.ConstantLaws.{ConstantsAtEachVariance};
ghost use Rattle.relation_laws.specs.SmallTerms.{ReferencesByRegions, MutablePointeesAreFixed, InputsTurnRound};
ghost use Rattle.relation_laws.specs.SmallTerms.{BivariantArguments, UnlikeHeadsAreUnrelated, UnlikeAtomsAreUnrelated};
ghost use Rattle.relation_laws.specs.SmallTerms.{AtomsAreNoForms, FormsByParts, PredicatesWithThemselvesAlone};
ghost use Rattle.relation_laws.specs.SmallTerms.{AnyIsStatic, StaticIsNotAny, PlaceholderIsNotAny, OneRegionIsNotTwo};
ghost use Rattle.relation_laws.specs.SmallTerms.{AnyIsNotInvariantlyStatic};
ghost use Rattle.relation_semantics.specs.StepLaws.{AssigningTwice, InstantiatingAssigns, OccursCheck, CyclesDoNotUnify};
ghost use Rattle.relation_semantics.specs.StepLaws.{ValuesAreNamable, RelatesLater, RelatesUnderMore, PartsCompose};
ghost use Rattle.relation_semantics.specs.StepLaws.{NoPartsRelate, FormsRelate, StepsCompose, InstantiatingSteps};
ghost use Rattle.relation_semantics.specs.StepLaws.{OpeningSteps, OneRoundRelates, TwoRoundsRelate, UnusedBindersRelate};
ghost use Rattle.relation_semantics.specs.StepLaws.{FrontBegins, FrontGoesOn, FrontEnds, ExactsCompose};
ghost use Rattle.relation_semantics.specs.StepLaws.{ExactStepsCompose, InstantiatingIsExactStep, ExactFrontGoesOn};
ghost use Rattle.relation_semantics.specs.StepLaws.{ExactFrontEnds, ExactKeepsUnifiers};
ghost use Rattle.relation_semantics.specs.ErasureLaws.{ErasureAssigns, FormsUnifyByParts, TypesOfValuesUnify};
ghost use Rattle.relation_semantics.specs.ErasureLaws.{ListsUnifyByItems, UnlikeFormsDoNotUnify, ErasedOccursCheck};
ghost use Rattle.relation_semantics.specs.ErasureLaws.{InvariantTermsAreAlike};
ghost use Rattle.relation_semantics.specs.StoreLaws.{EquatingStaysSound, EquatingIsExact, BindingStaysSound};
ghost use Rattle.relation_semantics.specs.StoreLaws.{BindingIsExact, BindingInstantiates, CyclesRefuse};
ghost use Rattle.relation_semantics.specs.StoreLaws.{GeneralisingIsOne, GeneralisingInstantiates, GeneralisingRefuses};
ghost use Rattle.relation_semantics.specs.StoreLaws.{NumbersStaySound, NumbersAreExact, MakingStaysSound};
ghost use Rattle.relation_semantics.specs.StoreLaws.{MadeIsUnconstrained, ConstrainingIsExact, NothingIsSeen};
ghost use Rattle.relation_semantics.specs.StoreLaws.{ResolvedResolves, MakingOneMakes};
ghost use Rattle.relation_semantics.specs.OpeningLaws.{MakingEachMakes, InstantiatingEachOpens, EnteredBodyIsIn};
ghost use Rattle.relation_semantics.specs.OpeningLaws.{InstantiatedBodyIsIn, EnteredBodyBinds, InstantiatedBodyBinds};
ghost use Rattle.relation_semantics.specs.Stores.{BindingsAreMet};
ghost use Rattle.relation_combining.specs.UniverseLaws.{RootsAreBoundOrNot, EquatingKeepsUniverse, ReadingKeepsUniverse};
ghost use Rattle.relation_combining.specs.UniverseLaws.{GeneralisingKeepsUniverse};
ghost use Rattle.relation_laws.specs.RejectionLaws.{ClashesDoNotUnify, ClashesAreNotRelated};
ghost use Rattle.relation_laws.specs.SolutionLaws.{FreeValues, MadeIsUnconstrainedErased, TermStays};
ghost use Rattle.relation_laws.specs.SolutionLaws.{NewVariablesFit};
ghost use Rattle.relation_laws.specs.OpenedInstances.{OpenedIsInstance};
ghost use Rattle.relation_laws.specs.AskingLaws.{NothingAtBivariance, ItselfIsTrivial, NoGoalWithoutAlias};
ghost use Rattle.relation_laws.specs.AskingLaws.{RegionsAskOne, FormsAskByParts, FrontRecordsOn, PartsRecord};
ghost use Rattle.relation_laws.specs.AskingLaws.{RememberedRecords, AddsWhatIsAsked, SomeInterpretation};
ghost use Rattle.relation_laws.specs.FindingLaws.{OneTraitFindsItsOwn};
ghost use Rattle.context_relation.specs.RegionTerms.{RelatedTermsAgree, RelatedIffAgree};
ghost use Rattle.context_relation.specs.Completing.{ErrorsDisagree, ErrorsAreUnrelated, AgreeingAreRelated};

use relation_recursion::relatable::Relate;
use relation_semantics::infer_ctxt::InferCtxtLike;
use relation_steps::type_relation::HasState;
use relation_terms::terms::Interner;

/// What holds of all terms, and of errors, parameters and constants.
pub fn all_terms()
    ensures reflexive { IsReflexive }
    ensures bivariance { AnythingAtBivariance }
    ensures errors { ErrorsAreRelated }
    ensures parameters { ParametersByIndex }
    ensures values { ValuesByTheirTrees }
    ensures constants { ConstantsAtEachVariance }
{}

/// What relates references, functions and arguments at a variance.
pub fn varying_parts()
    ensures references { ReferencesByRegions }
    ensures mutable { MutablePointeesAreFixed }
    ensures inputs { InputsTurnRound }
    ensures bivariant { BivariantArguments }
{}

/// Which forms are related, and by what.
pub fn forms()
    ensures unlike_heads { UnlikeHeadsAreUnrelated }
    ensures unlike_atoms { UnlikeAtomsAreUnrelated }
    ensures no_forms { AtomsAreNoForms }
    ensures by_parts { FormsByParts }
    ensures predicates { PredicatesWithThemselvesAlone }
{}

/// Function pointers with binders, told apart as the binder rule tells them apart.
pub fn bound_regions()
    ensures any_is_static { AnyIsStatic }
    ensures static_is_not_any { StaticIsNotAny }
    ensures placeholder_is_not_any { PlaceholderIsNotAny }
    ensures one_is_not_two { OneRegionIsNotTwo }
    ensures not_invariantly { AnyIsNotInvariantlyStatic }
{}

/// Assigning values and putting them for the variables of binders.
pub fn assigning()
    ensures twice { AssigningTwice }
    ensures instantiating { InstantiatingAssigns }
    ensures occurs { OccursCheck }
    ensures cycles { CyclesDoNotUnify }
    ensures namable { ValuesAreNamable }
{}

/// Erasure and unification.
pub fn erasing()
    ensures assigns { ErasureAssigns }
    ensures forms { FormsUnifyByParts }
    ensures types_of_values { TypesOfValuesUnify }
    ensures lists { ListsUnifyByItems }
    ensures unlike { UnlikeFormsDoNotUnify }
    ensures occurs { ErasedOccursCheck }
    ensures alike { InvariantTermsAreAlike }
{}

/// Instantiating a variable and opening binders are steps, after which what is left is related.
pub fn steps()
    ensures compose { StepsCompose }
    ensures instantiating { InstantiatingSteps }
    ensures opening { OpeningSteps }
    ensures one_round { OneRoundRelates }
    ensures two_rounds { TwoRoundsRelate }
    ensures unused { UnusedBindersRelate }
    ensures exact_compose { ExactStepsCompose }
    ensures exact_instantiating { InstantiatingIsExactStep }
{}

/// Outcomes over the parts of forms, one after another or in a loop; and what was shown stays shown.
pub fn outcomes()
    ensures later { RelatesLater }
    ensures under_more { RelatesUnderMore }
    ensures no_parts { NoPartsRelate }
    ensures parts { PartsCompose }
    ensures forms { FormsRelate }
    ensures begins { FrontBegins }
    ensures goes_on { FrontGoesOn }
    ensures ends { FrontEnds }
{}

/// The same of what is exact up to erasure.
pub fn exactness()
    ensures parts { ExactsCompose }
    ensures goes_on { ExactFrontGoesOn }
    ensures ends { ExactFrontEnds }
    ensures unifiers { ExactKeepsUnifiers }
{}

/// What a store's calls do to the assignments that satisfy it, and that it stays sound.
pub fn stores()
    ensures met { BindingsAreMet }
    ensures free { FreeValues }
    ensures equating { EquatingIsExact }
    ensures equated { EquatingStaysSound }
    ensures binding { BindingIsExact }
    ensures bound { BindingStaysSound }
    ensures instantiating { BindingInstantiates }
    ensures refusing { CyclesRefuse }
    ensures generalised { GeneralisingIsOne }
    ensures generalising { GeneralisingInstantiates }
    ensures stopping { GeneralisingRefuses }
    ensures numbers { NumbersAreExact }
    ensures numbered { NumbersStaySound }
    ensures making { MadeIsUnconstrained }
    ensures making_erased { MadeIsUnconstrainedErased }
    ensures made { MakingStaysSound }
    ensures makes { MakingOneMakes }
    ensures constraining { ConstrainingIsExact }
    ensures nothing { NothingIsSeen }
    ensures resolving { ResolvedResolves }
{}

/// Types and constants in one universe stay in it.
pub fn one_universe()
    ensures roots { RootsAreBoundOrNot }
    ensures equating { EquatingKeepsUniverse }
    ensures reading { ReadingKeepsUniverse }
    ensures generalising { GeneralisingKeepsUniverse }
{}

/// What becomes of a store where a variable is made for each place of a binder's list, and of a binder's body that is
/// opened by variables or placeholders; what the variables stand for.
pub fn opening()
    ensures makes { MakingEachMakes }
    ensures opens { InstantiatingEachOpens }
    ensures entered { EnteredBodyIsIn }
    ensures instantiated { InstantiatedBodyIsIn }
    ensures entered_binds { EnteredBodyBinds }
    ensures instantiated_binds { InstantiatedBodyBinds }
    ensures instance { OpenedIsInstance }
    ensures fit { NewVariablesFit }
{}

/// What was shown of a term stays shown in a later context.
pub fn later_contexts<C: InferCtxtLike, T: Relate<C::Interner>>()
    ensures stays { TermStays C.state T.over T.tree }
{}

/// First-order terms that a quick test tells apart, parameters standing for themselves.
pub fn rejecting()
    ensures unifying { ClashesDoNotUnify }
    ensures relating { ClashesAreNotRelated }
{}

/// Terms that are first-order but for binders of regions, where all regions outlive each other.
pub fn region_terms()
    ensures agree { RelatedTermsAgree }
    ensures just_where { RelatedIffAgree }
{}

/// What an elaboration of one trait finds. So who needs the interner after a fault of `supertraits` begins by
/// `Elaborator::new`, `extend_deduped` with the trait's clause alone, and `filter_only_self`: a `FilterToTraits` of
/// that finds the same, and `into_cx` gives the interner back.
pub fn finding<I: Interner>()
    ensures supertraits { OneTraitFindsItsOwn I.meaning }
{}

/// What relating two terms asks for.
pub fn asking()
    ensures bivariance { NothingAtBivariance }
    ensures itself { ItselfIsTrivial }
    ensures no_goal { NoGoalWithoutAlias }
    ensures regions { RegionsAskOne }
    ensures forms { FormsAskByParts }
    ensures some { SomeInterpretation }
{}

/// What is recorded of what is asked for: part by part, and where pairs are remembered.
pub fn recording<I: Interner, R: HasState<I>>()
    ensures goes_on { FrontRecordsOn R.state }
    ensures parts { PartsRecord R.state }
    ensures remembered { RememberedRecords R.state }
    ensures just_asked { AddsWhatIsAsked R.state }
{}

/// Plain terms: no error comes of such whose erasures agree; and without variables such of which an error comes are
/// related nowhere, and such that agree are where all regions outlive each other and what is asked of aliases is so.
pub fn plain_terms<I: Interner>()
    ensures disagree { ErrorsDisagree I.Key I.Id I.Name }
    ensures unrelated { ErrorsAreUnrelated I.Key I.Id I.Name }
    ensures related { AgreeingAreRelated }
{}
