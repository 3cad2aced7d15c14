//! Reads and writes JSON lists whose items are all of one form.

ghost use Rattle.std.specs.Prelude.{◌≡◌, Option, IfOk};
ghost use Rattle.serde_json.specs.Data.{Data, array};
ghost use Rattle.serde_json.specs.View.{items_view, view};
ghost use Rattle.wire_json.specs.EntryTexts.{list_items, token_data};
ghost use Rattle.wire_json.specs.Values as spec;

use crate::values::token_of;
use cluster_terms::{Memory, SmallList, Token};
use serde_json::Value;
use std::alloc::Global;

/// An item that can be read from a JSON value.
pub trait Form {
    ghost form: { Data → Option Self };

    /// The item in a value, or `None` if the value isn't of its form.
    fn read(alloc: Global, value: &Value) -> Result<Option<Self>, Memory>
        ensures { IfOk result (λ found. found ≡ form (view value.now)) };
}

impl Form for Token {
    ghost form = { spec.token_of };

    fn read(_alloc: Global, value: &Value) -> Result<Option<Token>, Memory> {
        Ok(token_of(value))
    }
}

/// An item that is written as a JSON value.
pub trait Written {
    ghost data_of: { Self → Data };

    /// The item as a JSON value.
    fn value(&self, alloc: Global) -> Result<Value, Memory>
        ensures { IfOk result (λ value. view value ≡ data_of self.now) };
}

impl Written for Token {
    ghost data_of = { token_data };

    fn value(&self, _alloc: Global) -> Result<Value, Memory> {
        let token = *self;
        Ok(Value::from(token.value()))
    }
}

/// The items in a list of values, or `None` if a value isn't of their form. The cost is that of reading each value.
pub fn each_of<T: Form + Drop>(
    alloc: Global,
    values: &Vec<Value>,
) -> Result<Option<SmallList<T>>, Memory>
    ensures { IfOk result (λ found. found ≡ spec.each_of T.form (items_view values.now.items)) }
{
    let mut items = Vec::with_capacity(alloc, values.len())?;
    for value in values {
        match T::read(alloc, value)? {
            Some(item) => items.push(item)?,
            None => return Ok(None),
        }
    }
    Ok(Some(SmallList::from_vec(items)))
}

/// The items in the list at a key, or `None` if no list of such items is there.
pub fn each_at<T: Form + Drop>(
    alloc: Global,
    value: &Value,
    key: &str,
) -> Result<Option<SmallList<T>>, Memory>
    ensures { IfOk result (λ found. found ≡ spec.each_at T.form key.now (view value.now)) }
{
    match value.get(key).and_then(Value::as_array) {
        Some(values) => each_of(alloc, values),
        None => Ok(None),
    }
}

fn values_of<T: Written>(alloc: Global, list: &SmallList<T>) -> Result<Vec<Value>, Memory>
    ensures { IfOk result (λ values. items_view values.items ≡ list_items T.data_of list.now) }
{
    let items = list.as_slice();
    let mut values = Vec::with_capacity(alloc, items.len())?;
    for item in items {
        values.push(item.value(alloc)?)?;
    }
    Ok(values)
}

/// The items as a JSON list. The cost is that of writing each item.
pub fn list_value<T: Written>(alloc: Global, list: &SmallList<T>) -> Result<Value, Memory>
    ensures { IfOk result (λ value. view value ≡ array (list_items T.data_of list.now)) }
{
    let values = values_of(alloc, list)?;
    Ok(Value::Array(values))
}
