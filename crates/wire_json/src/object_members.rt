//! Takes the values of JSON objects with given keys. Members ascend by their keys, so one walk compares the keys and
//! takes the values. Each count of keys has its own function, `one_at` to `four_at`, since the checker refuses an array
//! of references of any length.

ghost use Rattle.std.specs.Prelude.{◌≡◌, ℕ, false, List, [], ◌∷◌, Some, IfSome, IfNone, is_some, length, drop, option_map};
ghost use Rattle.serde_json.specs.Find.{get};
ghost use Rattle.serde_json.specs.View.{view};
ghost use Rattle.wire_json.specs.code.ObjectMembers as spec;
ghost use Rattle.wire_json.specs.Values.{has_keys};

use serde_json::Value;
use std::collections::btree_map::Iter;

/// The members of an object, in the ascending order of their keys, or `None` unless the value is an object with this
/// count of members.
#[inline(always)]
fn members_of(value: &Value, count: usize) -> Option<Iter<'_, String, Value>>
    ensures found { IfSome result (λ members. (length members ≡ count) × spec.AreMembers (view value.now) members) }
    ensures other { IfNone result ((keys : List (List ℕ)) → length keys ≡ count → has_keys keys (view value.now) ≡ false) }
{
    let members = value.as_object()?;
    if members.len() == count {
        Some(members.iter())
    } else {
        None
    }
}

/// Takes the next member. Returns its value if the member has this key.
#[inline(always)]
fn next_at<'v>(members: &mut Iter<'v, String, Value>, key: &str) -> Option<&'v Value>
    ensures value { option_map (λ value. value.now) result ≡ spec.first_at key.now members.old }
    ensures rest { members.new ≡ drop 1 members.old }
{
    match members.next() {
        Some((found, value)) if found.as_str() == key => Some(value),
        _ => None,
    }
}

/// The value at a key, or `None` unless the value is an object with exactly this key.
#[inline(always)]
pub fn one_at<'v>(value: &'v Value, key: &str) -> Option<&'v Value>
    ensures keys { is_some result ≡ has_keys (key.now ∷ []) (view value.now) }
    ensures found { IfSome result (λ one. get key.now (view value.now) ≡ Some (view one.now)) }
{
    let mut members = members_of(value, 1)?;
    next_at(&mut members, key)
}

/// The values at two keys, or `None` unless the value is an object with exactly these keys. The keys are given in
/// ascending order.
#[inline(always)]
pub fn two_at<'v>(value: &'v Value, first: &str, second: &str) -> Option<(&'v Value, &'v Value)>
    ensures keys { is_some result ≡ has_keys (first.now ∷ second.now ∷ []) (view value.now) }
    ensures first { IfSome result (λ two. get first.now (view value.now) ≡ Some (view two.0.now)) }
    ensures second { IfSome result (λ two. get second.now (view value.now) ≡ Some (view two.1.now)) }
{
    let mut members = members_of(value, 2)?;
    Some((
        next_at(&mut members, first)?,
        next_at(&mut members, second)?,
    ))
}

/// The values at three keys, or `None` unless the value is an object with exactly these keys. The keys are given in
/// ascending order.
#[inline(always)]
pub fn three_at<'v>(
    value: &'v Value,
    first: &str,
    second: &str,
    third: &str,
) -> Option<(&'v Value, &'v Value, &'v Value)>
    ensures keys { is_some result ≡ has_keys (first.now ∷ second.now ∷ third.now ∷ []) (view value.now) }
    ensures first { IfSome result (λ three. get first.now (view value.now) ≡ Some (view three.0.now)) }
    ensures second { IfSome result (λ three. get second.now (view value.now) ≡ Some (view three.1.now)) }
    ensures third { IfSome result (λ three. get third.now (view value.now) ≡ Some (view three.2.now)) }
{
    let mut members = members_of(value, 3)?;
    Some((
        next_at(&mut members, first)?,
        next_at(&mut members, second)?,
        next_at(&mut members, third)?,
    ))
}

/// The values at four keys, or `None` unless the value is an object with exactly these keys. The keys are given in
/// ascending order.
#[inline(always)]
pub fn four_at<'v>(
    value: &'v Value,
    first: &str,
    second: &str,
    third: &str,
    fourth: &str,
) -> Option<(&'v Value, &'v Value, &'v Value, &'v Value)>
    ensures keys { is_some result ≡ has_keys (first.now ∷ second.now ∷ third.now ∷ fourth.now ∷ []) (view value.now) }
    ensures first { IfSome result (λ four. get first.now (view value.now) ≡ Some (view four.0.now)) }
    ensures second { IfSome result (λ four. get second.now (view value.now) ≡ Some (view four.1.now)) }
    ensures third { IfSome result (λ four. get third.now (view value.now) ≡ Some (view four.2.now)) }
    ensures fourth { IfSome result (λ four. get fourth.now (view value.now) ≡ Some (view four.3.now)) }
{
    let mut members = members_of(value, 4)?;
    Some((
        next_at(&mut members, first)?,
        next_at(&mut members, second)?,
        next_at(&mut members, third)?,
        next_at(&mut members, fourth)?,
    ))
}
