// Erased columns, worked out by hand.
ghost use Rattle.std.specs.Prelude.{◌≡◌};
ghost use Rattle.kf_column.specs.Columns.{IsColumn};

use crate::tests::*;
use kf_hyper::{Column, ColumnList, Columns, Entry, EntryList};
use kf_push::erase;
use std::alloc::AllocError;
use std::fmt::Write;

fn entry(value: u64, weight: u128) -> Entry
    ensures { result ≡ record { value = value; weight = weight } }
{
    Entry { value, weight }
}

fn column(rt: &(impl Abort + AllocGlobal), entries: &[Entry]) -> Column
    requires { IsColumn entries.now }
    ensures { result ≡ entries.now }
{
    let entries = entries.to_vec(rt.alloc()).expect(rt, "memory");
    Column::new(EntryList::new(entries))
}

// Two columns that share a value.
fn two_columns(rt: &(impl Abort + AllocGlobal)) -> Columns {
    let first = column(rt, &[entry(0, 8), entry(1, 4)]);
    let second = column(rt, &[entry(1, 3)]);
    let columns = vec![in rt.alloc(); first, second].expect(rt, "memory");
    Columns::new(16, ColumnList::new(columns))
}

fn write_weights(text: &mut String, column: &Column) -> Result<(), AllocError> {
    for entry in column.entries().as_slice() {
        let (value, weight) = (entry.value, entry.weight);
        write!(text, " {value}:{weight}")?;
    }
    Ok(())
}

// The values and weights of all columns, one after the other.
fn text_of(rt: &(impl Abort + AllocGlobal), columns: &Columns) -> String {
    let mut text = String::new(rt.alloc());
    for column in columns.columns().as_slice() {
        write_weights(&mut text, column).expect(rt, "memory");
    }
    text
}

#[test]
fn erased_columns_are_one(rt: HostRuntime) {
    let erased = erase(rt.alloc(), &two_columns(&rt)).expect(&rt, "memory");
    assert_eq!(rt;
        text_of(&rt, &erased).as_str(),
        " 0:8 1:7",
        "the sum of both"
    );
}
