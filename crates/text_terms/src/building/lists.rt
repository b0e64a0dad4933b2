//! Keys by the numbers of their terms.
ghost use Rattle.std.specs.Prelude.{◌≡◌, Some, IfSome, map, slice_get};
ghost use Rattle.text_terms.specs.Built.{AreKeysAt};

use relation_terms::terms::{ConstKey, GenericArgKind, RegionKey, TyKey};
use std::alloc::Global;
use text_reading::naming::Parts;

/// The key of the term of that number, if there is one.
pub fn key_at<K: Copy>(built: &[Option<K>], number: usize) -> Option<K>
    ensures { IfSome result (λ key. slice_get built.now number ≡ Some (Some key)) }
{
    match built.get(number) {
        Some(key) => *key,
        None => None,
    }
}

/// The type of that number, if that is a type.
pub fn ty_at<X: Copy>(built: &[Option<GenericArgKind<X>>], number: usize) -> Option<TyKey<X>>
    ensures { IfSome result (λ x. slice_get built.now number ≡ Some (Some (GenericArgKind.Ty x))) }
{
    match key_at(built, number)? {
        GenericArgKind::Ty(ty) => Some(ty),
        GenericArgKind::Lifetime(_) => None,
        GenericArgKind::Const(_) => None,
    }
}

/// The region of that number, if that is a region.
pub fn region_at<X: Copy>(
    built: &[Option<GenericArgKind<X>>],
    number: usize,
) -> Option<RegionKey<X>>
    ensures { IfSome result (λ x. slice_get built.now number ≡ Some (Some (GenericArgKind.Lifetime x))) }
{
    match key_at(built, number)? {
        GenericArgKind::Lifetime(region) => Some(region),
        GenericArgKind::Ty(_) => None,
        GenericArgKind::Const(_) => None,
    }
}

/// The constant of that number, if that is a constant.
pub fn const_at<X: Copy>(built: &[Option<GenericArgKind<X>>], number: usize) -> Option<ConstKey<X>>
    ensures { IfSome result (λ x. slice_get built.now number ≡ Some (Some (GenericArgKind.Const x))) }
{
    match key_at(built, number)? {
        GenericArgKind::Const(constant) => Some(constant),
        GenericArgKind::Lifetime(_) => None,
        GenericArgKind::Ty(_) => None,
    }
}

/// The keys of a term's parts, if there is one of each. There are none where memory for them is refused.
pub fn keys_at<K: Copy>(
    alloc: Global,
    numbers: &[usize],
    built: &[Option<K>],
    parts: Parts,
) -> Option<Vec<K>>
    ensures { IfSome result (λ keys. AreKeysAt numbers.now built.now parts keys.items) }
{
    let places = numbers.get(parts.first..parts.behind)?;
    let mut keys = Vec::new(alloc);
    for number in places {
        let key = key_at(built, *number)?;
        if keys.push(key).is_err() {
            return None;
        }
    }
    Some(keys)
}

// Keys that are types, as such.
pub(super) fn tys_of<X: Copy>(alloc: Global, keys: &[GenericArgKind<X>]) -> Option<Vec<TyKey<X>>>
    ensures { IfSome result (λ tys. map (λ ty. GenericArgKind.Ty ty) tys.items ≡ keys.now) }
{
    let mut tys = Vec::new(alloc);
    for key in keys {
        let GenericArgKind::Ty(ty) = *key else {
            return None;
        };
        if tys.push(ty).is_err() {
            return None;
        }
    }
    Some(tys)
}

// Keys that are constants, as such.
pub(super) fn consts_of<X: Copy>(
    alloc: Global,
    keys: &[GenericArgKind<X>],
) -> Option<Vec<ConstKey<X>>>
    ensures { IfSome result (λ cs. map (λ c. GenericArgKind.Const c) cs.items ≡ keys.now) }
{
    let mut constants = Vec::new(alloc);
    for key in keys {
        let GenericArgKind::Const(constant) = *key else {
            return None;
        };
        if constants.push(constant).is_err() {
            return None;
        }
    }
    Some(constants)
}
