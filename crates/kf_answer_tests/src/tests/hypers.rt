// Small joint matrices and their hypers, worked out by hand.
ghost use Rattle.std.specs.Prelude.{◌≡◌, ◌<◌, ◌≤◌, ◌^◌, ◌-◌, ◌==◌, ◌∷◌, [], pos, All};
ghost use Rattle.std.specs.List.{IsDistinct};
ghost use Rattle.kf_value.specs.Shapes.{shape_types};
ghost use Rattle.kf_value.specs.Types.{Range};
ghost use Rattle.kf_value.specs.TypeViews.{type_tree};
ghost use Rattle.kf_value.specs.Numbers.{target_size};
ghost use Rattle.kf_value.specs.Views.{items_of};
ghost use Rattle.kf_column.specs.Columns.{IsColumn};
ghost use Rattle.kf_column.specs.Shapes.{IsBelow};
ghost use Rattle.kf_column.specs.Joint.{mass};

use crate::tests::is_text;
use kf_hyper::{
    Column, ColumnList, Columns, Entry, EntryList, Hyper, abstract_columns, join, merge, project,
};
use kf_value::{Mem, Name, Shape, SlotList, Target, TargetItem, TargetItemList, Ty, TyList};
use std::alloc::Global;
use std::fmt::Write;
use std::process::Abort;

// The target `x : 0..9`.
fn ten_values(rt: &(impl Abort + AllocGlobal)) -> Target
    ensures { target_size (items_of result) ≡ 10 }
{
    let item = TargetItem {
        initial: false,
        name: Name::new("x".to_string(rt.alloc()).expect(rt, "memory")),
        ty: Ty::Int { lo: 0, hi: 9 },
    };
    let items = vec![in rt.alloc(); item].expect(rt, "memory");
    Target {
        items: TargetItemList::new(items),
    }
}

fn entry(value: u64, weight: u128) -> Entry
    ensures { result ≡ record { value = value; weight = weight } }
{
    Entry { value, weight }
}

fn column(rt: &(impl Abort + AllocGlobal), entries: &[Entry]) -> Column
    requires { IsColumn entries.now }
    ensures { result ≡ entries.now }
{
    let entries = entries.to_vec(rt.alloc()).expect(rt, "memory");
    Column::new(EntryList::new(entries))
}

fn write_weights(text: &mut String, column: &Column) -> Result<(), Mem> {
    for entry in column.entries().as_slice() {
        let (value, weight) = (entry.value, entry.weight);
        write!(text, " {value}:{weight}")?;
    }
    Ok(())
}

// A joint matrix: its scale, and for each column its values with their weights.
fn write_matrix(text: &mut String, joint: &Columns) -> Result<(), Mem> {
    let scale = joint.scale();
    write!(text, "/{scale}")?;
    for column in joint.columns().as_slice() {
        text.push_str(" |")?;
        write_weights(text, column)?;
    }
    Ok(())
}

fn is_column(rt: &(impl Abort + AllocGlobal), column: &Column, want: &str) {
    let mut text = String::new(rt.alloc());
    write_weights(&mut text, column).expect(rt, "memory");
    is_text(rt, text.as_str(), want);
}

fn is_matrix(rt: &(impl Abort + AllocGlobal), joint: &Columns, want: &str) {
    let mut text = String::new(rt.alloc());
    write_matrix(&mut text, joint).expect(rt, "memory");
    is_text(rt, text.as_str(), want);
}

// A column of half the scale.
fn half(rt: &(impl Abort + AllocGlobal)) -> Columns
    ensures scale { result.scale ≡ 8 }
    ensures mass { mass result.columns ≡ 4 }
{
    let columns = vec![in rt.alloc(); column(rt, &[entry(0, 2), entry(3, 2)])];
    Columns::new(8, ColumnList::new(columns.expect(rt, "memory")))
}

#[test]
fn joined_columns_keep_their_order(rt: HostRuntime) {
    let joined = join(rt.alloc(), half(&rt), half(&rt)).expect(&rt, "memory");
    is_matrix(&rt, &joined, "/8 | 0:2 3:2 | 0:2 3:2");
}

// Two multiples of one column, and another between them.
fn multiples(rt: &(impl Abort + AllocGlobal)) -> Columns {
    let columns = vec![in rt.alloc();
        column(rt, &[entry(1, 2), entry(2, 4)]),
        column(rt, &[entry(0, 3)]),
        column(rt, &[entry(1, 1), entry(2, 2)]),
    ];
    Columns::new(12, ColumnList::new(columns.expect(rt, "memory")))
}

fn one_column(rt: &(impl Abort + AllocGlobal)) -> Columns {
    let columns = vec![in rt.alloc(); column(rt, &[entry(2, 4), entry(7, 6)])];
    Columns::new(20, ColumnList::new(columns.expect(rt, "memory")))
}

fn no_columns(alloc: Global) -> Columns {
    Columns::new(5, ColumnList::new(Vec::new(alloc)))
}

fn is_merged(rt: &(impl Abort + AllocGlobal), columns: &Columns, want: &str) {
    let merged = merge(rt.alloc(), columns).expect(rt, "memory");
    is_matrix(rt, &merged, want);
}

#[test]
fn columns_of_one_posterior_are_added_up(rt: HostRuntime) {
    is_merged(&rt, &multiples(&rt), "/12 | 0:3 | 1:3 2:6");
}

#[test]
fn one_column_and_none_stay(rt: HostRuntime) {
    is_merged(&rt, &one_column(&rt), "/20 | 2:4 7:6");
    is_merged(&rt, &no_columns(rt.alloc()), "/5");
}

fn range(lo: i64, hi: i64) -> Ty
    ensures { type_tree result ≡ Range lo hi }
{
    Ty::Int { lo, hi }
}

// The shape of two variables, of `0..3` and of `0..1`.
fn two_ranges(rt: &(impl Abort + AllocGlobal)) -> Shape
    ensures { shape_types result ≡ Range (pos 0) (pos 3) ∷ Range (pos 0) (pos 1) ∷ [] }
{
    let types = vec![in rt.alloc(); range(0, 3), range(0, 1)];
    let types = TyList::new(types.expect(rt, "memory"));
    Shape::new(rt.alloc(), types).expect(rt, "a shape")
}

// A matrix of stores of these variables.
fn stores(rt: &(impl Abort + AllocGlobal)) -> Columns
    ensures { All (IsBelow 8) result.columns }
{
    let columns = vec![in rt.alloc(); column(rt, &[entry(0, 1), entry(1, 1), entry(6, 2)])];
    Columns::new(4, ColumnList::new(columns.expect(rt, "memory")))
}

// The stores at these slots have this matrix.
fn is_at_slots(rt: &(impl Abort + AllocGlobal), slots: &[u8], want: &str)
    requires places { All (λ i. i < 2) slots.now }
    requires apart { IsDistinct (λ i j. i == j) slots.now }
{
    let slots = SlotList::new(slots.to_vec(rt.alloc()).expect(rt, "memory"));
    let joint = project(rt.alloc(), &stores(rt), &two_ranges(rt), &slots);
    is_matrix(rt, &joint.expect(rt, "memory"), want);
}

#[test]
fn stores_become_numbers_of_a_slot(rt: HostRuntime) {
    is_at_slots(&rt, &[0], "/4 | 0:2 3:2");
}

#[test]
fn stores_become_numbers_of_turned_slots(rt: HostRuntime) {
    is_at_slots(&rt, &[1, 0], "/4 | 0:1 3:2 4:1");
}

#[test]
fn stores_become_numbers_of_no_slot(rt: HostRuntime) {
    is_at_slots(&rt, &[], "/4 | 0:4");
}

// The hyper of the parity of a uniform value of `0..3`, of which each odd value counts twice.
fn doubled_parities(rt: &(impl Abort + AllocGlobal)) -> Hyper {
    let columns = vec![in rt.alloc();
        column(rt, &[entry(0, 1), entry(2, 1)]),
        column(rt, &[entry(1, 2), entry(3, 2)]),
    ];
    let columns = Columns::new(6, ColumnList::new(columns.expect(rt, "memory")));
    abstract_columns(rt.alloc(), ten_values(rt), columns).expect(rt, "memory")
}

// The same where each value counts once.
fn parities(rt: &(impl Abort + AllocGlobal)) -> Hyper {
    let columns = vec![in rt.alloc();
        column(rt, &[entry(0, 1), entry(2, 1)]),
        column(rt, &[entry(1, 1), entry(3, 1)]),
    ];
    let columns = Columns::new(4, ColumnList::new(columns.expect(rt, "memory")));
    abstract_columns(rt.alloc(), ten_values(rt), columns).expect(rt, "memory")
}

// An inner, a value, and the value's joint weight.
type Weight = (usize, u64, u128);

const WEIGHTS: [Weight; 4] = [(0, 2, 1), (0, 3, 0), (1, 2, 0), (1, 3, 2)];

fn has_weight(rt: &impl Abort, hyper: &Hyper, (inner, value, want): &Weight) {
    assert!(rt; *inner < hyper.count(), "there are not two inners");
    assert!(rt;
        hyper.weight(*inner, *value) == *want,
        "of {value} in {inner}"
    );
}

#[test]
fn joint_weights(rt: HostRuntime) {
    let hyper = doubled_parities(&rt);
    assert_eq!(rt; hyper.count(), 2);
    for row in &WEIGHTS {
        has_weight(&rt, &hyper, row);
    }
}

#[test]
fn average_of_joint_weights(rt: HostRuntime) {
    let hyper = doubled_parities(&rt);
    let average = hyper.average(rt.alloc()).expect(&rt, "memory");
    is_column(&rt, &average, " 0:1 1:2 2:1 3:2");
}

#[test]
fn average_of_a_uniform_value(rt: HostRuntime) {
    let hyper = parities(&rt);
    let average = hyper.average(rt.alloc()).expect(&rt, "memory");
    assert_eq!(rt; average.total(), 4);
    is_column(&rt, &average, " 0:1 1:1 2:1 3:1");
}
