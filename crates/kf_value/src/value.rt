ghost use Rattle.std.specs.Prelude.{◌≡◌, IfOk};
ghost use Rattle.kf_value.specs.Views.{value_tree, value_items, value_trees};

use crate::Mem;
use std::alloc::Global;

/// A value: what a variable holds, or an expression gives.
#[cycle(value)]
#[derive(Drop)]
pub enum Value {
    Bool(bool),
    Int(i64),
    /// At least two parts.
    Tuple(ValueList),
    /// The elements in ascending order, each once.
    Set(ValueList),
}

/// Values in a row: the parts of a tuple, the elements of a set or the values of a trace.
#[cycle(value)]
#[derive(Drop)]
pub struct ValueList {
    items: Vec<Value>,
}

impl ValueList {
    pub fn new(items: Vec<Value>) -> Self
        ensures { value_items result ≡ items.items }
    {
        ValueList { items }
    }

    pub fn as_slice(&self) -> &[Value]
        ensures { result.now ≡ value_items self.now }
    {
        self.items.as_slice()
    }

    /// An equal list.
    #[cycle(copy_value)]
    pub fn copy(&self, alloc: Global) -> Result<ValueList, Mem>
        ensures { IfOk result (λ copied. value_trees copied ≡ value_trees self.now) }
    {
        let mut items = Vec::new(alloc);
        for value in &self.items {
            items.push(value.copy(alloc)?)?;
        }
        Ok(ValueList { items })
    }
}

impl Value {
    /// An equal value.
    #[cycle(copy_value)]
    pub fn copy(&self, alloc: Global) -> Result<Value, Mem>
        ensures { IfOk result (λ copied. value_tree copied ≡ value_tree self.now) }
    {
        Ok(match self {
            Value::Bool(truth) => Value::Bool(*truth),
            Value::Int(whole) => Value::Int(*whole),
            Value::Tuple(parts) => Value::Tuple(parts.copy(alloc)?),
            Value::Set(elements) => Value::Set(elements.copy(alloc)?),
        })
    }
}
