ghost use Rattle.std.specs.Prelude.{◌≡◌};

use std::marker::Model;

/// One whole number for each secret.
#[derive(Drop)]
pub(crate) struct GridColumn {
    items: Vec<u128>,
}

impl Model for GridColumn {
    ghost use Rattle.std.specs.Prelude.{ℕ, List};

    ghost Value = { List ℕ };

    ghost view = { λ l. l.items.items };
}

impl GridColumn {
    pub(crate) fn new(items: Vec<u128>) -> Self
        ensures { result ≡ items.items }
    {
        GridColumn { items }
    }

    pub(crate) fn as_slice(&self) -> &[u128]
        ensures { result.now ≡ self.now }
    {
        self.items.as_slice()
    }
}

/// Columns in their order.
#[derive(Drop)]
pub(crate) struct GridColumnList {
    items: Vec<GridColumn>,
}

impl Model for GridColumnList {
    ghost use Rattle.std.specs.Prelude.{List};
    ghost use Rattle.kf_capacity.specs.declared.column.GridColumn.{GridColumn};

    ghost Value = { List GridColumn };

    ghost view = { λ l. l.items.items };
}

impl GridColumnList {
    pub(crate) fn new(items: Vec<GridColumn>) -> Self
        ensures { result ≡ items.items }
    {
        GridColumnList { items }
    }

    pub(crate) fn as_slice(&self) -> &[GridColumn]
        ensures { result.now ≡ self.now }
    {
        self.items.as_slice()
    }
}
