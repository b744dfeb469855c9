ghost use Rattle.std.specs.Prelude.{◌≡◌, ◌≤◌, ◌<◌, ◌+◌, ◌^◌, ◌++◌, IfOk};
ghost use Rattle.kf_column.specs.Joint.{IsJoint, mass};

use crate::{Column, ColumnList};
use kf_value::Mem;
use std::alloc::Global;
use std::marker::Model;

/// A joint matrix: columns of whole weights over a common scale of 1 to 2^127 - 1, which their sum doesn't pass.
#[derive(Drop)]
pub struct Columns {
    scale: u128,
    columns: ColumnList,
}

impl Model for Columns {
    ghost use Rattle.kf_column.specs.Joint.{Joint, IsJoint};

    ghost Value = { Joint };

    ghost view = { λ c. record { scale = c.scale; columns = c.columns } };

    ghost invariant = { λ c. IsJoint (record { scale = c.scale; columns = c.columns }) };
}

impl Columns {
    /// These columns over this scale.
    pub fn new(scale: u128, columns: ColumnList) -> Columns
        requires { IsJoint (record { scale = scale; columns = columns }) }
        ensures { result ≡ record { scale = scale; columns = columns } }
    {
        Columns { scale, columns }
    }

    /// What every weight is divided by to give a probability.
    pub fn scale(&self) -> u128
        ensures kept { result ≡ self.now.scale }
        ensures joint { IsJoint self.now }
    {
        self.scale
    }

    pub fn columns(&self) -> &ColumnList
        ensures kept { result.now ≡ self.now.columns }
        ensures joint { IsJoint self.now }
    {
        &self.columns
    }

    pub(crate) fn into_parts(self) -> (u128, Vec<Column>)
        ensures scale { result.0 ≡ self.scale }
        ensures columns { result.1.items ≡ self.columns }
        ensures joint { IsJoint self }
    {
        (self.scale, self.columns.into_items())
    }

    /// An equal list of columns over the same scale.
    pub fn copy(&self, alloc: Global) -> Result<Columns, Mem>
        ensures { IfOk result (λ copied. copied ≡ self.now) }
    {
        let mut columns = Vec::with_capacity(alloc, self.columns.as_slice().len())?;
        for column in self.columns.as_slice() {
            columns.push(column.copy(alloc)?)?;
        }
        Ok(Columns::new(self.scale, ColumnList::new(columns)))
    }
}

/// The columns of `a`, then those of `b`.
pub fn join(alloc: Global, a: Columns, b: Columns) -> Result<Columns, Mem>
    requires one_scale { a.scale ≡ b.scale }
    requires fits { mass a.columns + mass b.columns ≤ a.scale }
    ensures { IfOk result (λ joined. joined ≡ record { scale = a.scale; columns = a.columns ++ b.columns }) }
{
    let scale = a.scale;
    let mut columns = Vec::new(alloc);
    columns.append(&mut a.columns.into_items())?;
    columns.append(&mut b.columns.into_items())?;
    Ok(Columns::new(scale, ColumnList::new(columns)))
}
