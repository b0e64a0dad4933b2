//! Relations on terms: what the crates below have, under one path.

pub mod solver_relating;

pub use part_variances::diag_info::{VarianceDiagInfo, VarianceDiagInfoOf};
pub use part_variances::part_errors;
pub use relation_combining::{combine, variables};
pub use relation_folds::error::RelateResult;
pub use relation_recursion::args::{
    relate_args_invariantly, relate_args_with_variances, relate_ty_args,
};
pub use relation_recursion::relatable::Relate;
pub use relation_recursion::structural::{
    consts, relate, relate_with_variance, structurally_relate_consts, structurally_relate_tys, tys,
};
pub use relation_recursion::{comparing, structural};
pub use relation_semantics::relate::{Step, StructurallyRelateAliases};
pub use relation_steps::type_relation::{HasState, TypeRelation};
