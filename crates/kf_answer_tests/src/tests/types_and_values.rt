// Worked rows, and a table of small nested types with all their values.
ghost use Rattle.std.specs.Prelude.{◌≡◌, ◌<◌, [], ◌∷◌, pos, IsTrue};
ghost use Rattle.kf_value.specs.Types.{count, type_parts, Boolean, Range, TupleOf, SetOf};
ghost use Rattle.kf_value.specs.Sizes.{well_formed, HasSize};
ghost use Rattle.kf_value.specs.TypeViews.{type_tree};
ghost use Rattle.kf_value.specs.Shapes.{shape_types};
ghost use Rattle.kf_value.specs.Numbers.{target_size};
ghost use Rattle.kf_value.specs.Views.{items_of};

use crate::tests::are_bytes;
use kf_value::{
    Name, OutOfRange, Shape, Target, TargetItem, TargetItemList, Ty, TyFault, TyList, Value,
    compare, number, number_of, print_target, print_value, size, value_at,
};
use std::cmp::Ordering;
use std::process::Abort;

fn pair(rt: &(impl Abort + AllocGlobal), first: Ty, second: Ty) -> Ty
    ensures { type_tree result ≡ TupleOf (type_parts (type_tree first ∷ type_tree second ∷ [])) }
{
    let items = vec![in rt.alloc(); first, second].expect(rt, "memory");
    Ty::Tuple(TyList::new(items))
}

fn set_of(rt: &(impl Abort + AllocGlobal), base: Ty) -> Ty
    ensures { type_tree result ≡ SetOf (type_tree base) }
{
    Ty::Set(Box::new(rt.alloc(), base).expect(rt, "memory"))
}

fn range(lo: i64, hi: i64) -> Ty
    ensures { type_tree result ≡ Range lo hi }
{
    Ty::Int { lo, hi }
}

fn item(rt: &(impl Abort + AllocGlobal), name: &str, ty: Ty) -> TargetItem
    ensures { type_tree result.ty ≡ type_tree ty }
{
    TargetItem {
        initial: false,
        name: Name::new(name.to_string(rt.alloc()).expect(rt, "memory")),
        ty,
    }
}

/// A target of one variable of the type.
#[tactic(auto, using(crate::proofs::Sizes::few_values))]
fn alone(rt: &(impl Abort + AllocGlobal), ty: &Ty) -> Target
    requires formed { IsTrue (well_formed (type_tree ty.now)) }
    requires sized { HasSize (type_tree ty.now) }
{
    let ty = ty.copy(rt.alloc()).expect(rt, "memory");
    let items = vec![in rt.alloc(); item(rt, "x", ty)];
    Target {
        items: TargetItemList::new(items.expect(rt, "memory")),
    }
}

/// The number of values of a type that has a size.
fn known_size(ty: &Ty) -> u32
    requires { HasSize (type_tree ty.now) }
    ensures { result ≡ count (type_tree ty.now) }
{
    match size(ty) {
        Ok(size) => size,
        Err(_) => unreachable!(),
    }
}

/// The value is printed like this.
fn has_text(rt: &(impl Abort + AllocGlobal), value: &Value, want: &str) {
    let mut text = Vec::new(rt.alloc());
    print_value(rt.alloc(), value, &mut text).expect(rt, "memory");
    are_bytes(rt, text.as_slice(), want);
}

/// The value with this number has this text, and its number is found again.
fn has_value(rt: &(impl Abort + AllocGlobal), ty: &Ty, n: u32, want: &str)
    requires formed { IsTrue (well_formed (type_tree ty.now)) }
    requires sized { HasSize (type_tree ty.now) }
    requires below { n < count (type_tree ty.now) }
{
    let value = value_at(rt.alloc(), ty, n).expect(rt, "memory");
    assert_eq!(rt; number(ty, &value), Some(n));
    has_text(rt, &value, want);
}

/// The number of the value with this text, in a target of one variable.
fn has_number(rt: &(impl Abort + AllocGlobal), target: &Target, text: &str, want: Option<u64>) {
    let found = number_of(rt.alloc(), target, text).expect(rt, "memory");
    assert!(rt; found == want, "the number of {text}");
}

/// The value with this number is above the one before it.
fn is_above(rt: &(impl Abort + AllocGlobal), ty: &Ty, n: u32)
    requires formed { IsTrue (well_formed (type_tree ty.now)) }
    requires sized { HasSize (type_tree ty.now) }
    requires below { n < count (type_tree ty.now) }
    requires some { 0 < n }
{
    let before = value_at(rt.alloc(), ty, n - 1).expect(rt, "memory");
    let value = value_at(rt.alloc(), ty, n).expect(rt, "memory");
    assert!(rt;
        compare(&before, &value) == Ordering::Less,
        "the order of values"
    );
}

/// The type's values have these texts, in this order, and no others; each has the number of its place, which is found
/// again from its text.
fn has_values(rt: &(impl Abort + AllocGlobal), ty: &Ty, texts: &[&str])
    requires formed { IsTrue (well_formed (type_tree ty.now)) }
    requires sized { HasSize (type_tree ty.now) }
{
    let count = known_size(ty);
    assert_eq!(rt; count as usize, texts.len(), "how many values");
    let target = alone(rt, ty);
    for n in 0..count {
        let text = texts[n as usize];
        has_value(rt, ty, n, text);
        has_number(rt, &target, text, Some(u64::from(n)));
        if n > 0 {
            is_above(rt, ty, n);
        }
    }
}

#[test]
fn values_of_a_pair(rt: HostRuntime) {
    let bits = pair(&rt, Ty::Bool, range(-1, 1));
    has_values(
        &rt,
        &bits,
        &[
            "(false, -1)",
            "(false, 0)",
            "(false, 1)",
            "(true, -1)",
            "(true, 0)",
            "(true, 1)",
        ],
    );
}

#[test]
fn values_of_a_set(rt: HostRuntime) {
    let digits = set_of(&rt, range(0, 2));
    has_values(
        &rt,
        &digits,
        &[
            "{}",
            "{0}",
            "{1}",
            "{0, 1}",
            "{2}",
            "{0, 2}",
            "{1, 2}",
            "{0, 1, 2}",
        ],
    );
}

#[test]
fn values_of_a_set_of_pairs(rt: HostRuntime) {
    let tuples = set_of(&rt, pair(&rt, Ty::Bool, range(7, 7)));
    has_values(
        &rt,
        &tuples,
        &[
            "{}",
            "{(false, 7)}",
            "{(true, 7)}",
            "{(false, 7), (true, 7)}",
        ],
    );
}

#[test]
fn values_of_a_set_of_sets(rt: HostRuntime) {
    let sets = set_of(&rt, set_of(&rt, range(0, 0)));
    has_values(&rt, &sets, &["{}", "{{}}", "{{0}}", "{{}, {0}}"]);
}

#[test]
fn values_of_a_pair_with_a_set(rt: HostRuntime) {
    let mixed = pair(&rt, set_of(&rt, Ty::Bool), range(0, 1));
    has_values(
        &rt,
        &mixed,
        &[
            "({}, 0)",
            "({}, 1)",
            "({false}, 0)",
            "({false}, 1)",
            "({true}, 0)",
            "({true}, 1)",
            "({false, true}, 0)",
            "({false, true}, 1)",
        ],
    );
}

fn has_size(rt: &impl Abort, ty: Ty, want: Result<u32, TyFault>) {
    assert_eq!(rt; size(&ty), want);
}

#[test]
fn sizes_of_sets_and_their_faults(rt: HostRuntime) {
    let fault = Err(TyFault::TooManyValues);
    has_size(&rt, set_of(&rt, range(0, 16)), fault);
    has_size(&rt, set_of(&rt, range(0, 15)), Ok(65_536));
    let fault = Err(TyFault::BadRange);
    has_size(&rt, set_of(&rt, range(0, 2_000_000)), fault);
}

#[test]
fn sizes_of_pairs_and_their_faults(rt: HostRuntime) {
    let fault = Err(TyFault::TooManyValues);
    has_size(
        &rt,
        pair(&rt, set_of(&rt, range(0, 16)), range(3, 0)),
        fault,
    );
    has_size(&rt, pair(&rt, range(0, 255), range(0, 255)), Ok(65_536));
    has_size(&rt, pair(&rt, range(0, 255), range(0, 256)), fault);
}

#[test]
fn a_range_has_a_least_number(rt: HostRuntime) {
    assert_eq!(rt; size(&range(-1_000_001, 0)), Err(TyFault::BadRange));
}

/// The shape of two variables, of `0..3` and of `0..2`.
fn two_ranges(rt: &(impl Abort + AllocGlobal)) -> Shape
    ensures { shape_types result ≡ Range (pos 0) (pos 3) ∷ Range (pos 0) (pos 2) ∷ [] }
{
    let types = vec![in rt.alloc(); range(0, 3), range(0, 2)];
    let types = TyList::new(types.expect(rt, "memory"));
    Shape::new(rt.alloc(), types).expect(rt, "a shape")
}

fn sizes_of(shape: &Shape) -> (u32, u32)
    requires { shape_types shape.now ≡ Range (pos 0) (pos 3) ∷ Range (pos 0) (pos 2) ∷ [] }
{
    (shape.size(0), shape.size(1))
}

fn slots_of(shape: &Shape, store: u64) -> (u32, u32)
    requires types { shape_types shape.now ≡ Range (pos 0) (pos 3) ∷ Range (pos 0) (pos 2) ∷ [] }
    requires store { store < 12 }
{
    (shape.slot(store, 0), shape.slot(store, 1))
}

/// The store whose variable has this number for a value.
fn changed(shape: &Shape, store: u64, variable: usize, number: i64) -> Result<u64, OutOfRange>
    requires types { shape_types shape.now ≡ Range (pos 0) (pos 3) ∷ Range (pos 0) (pos 2) ∷ [] }
    requires store { store < 12 }
    requires variable { variable < 2 }
{
    shape.with_slot(store, variable, &Value::Int(number))
}

#[test]
fn variables_of_a_store(rt: HostRuntime) {
    let shape = two_ranges(&rt);
    assert_eq!(rt; (sizes_of(&shape), slots_of(&shape, 7)), ((4, 3), (2, 1)));
}

#[test]
fn values_put_into_a_store(rt: HostRuntime) {
    let shape = two_ranges(&rt);
    let (within, beyond) = (changed(&shape, 7, 1, 2), changed(&shape, 7, 0, 4));
    assert_eq!(rt; (within, beyond), (Ok(8), Err(OutOfRange)));
}

/// The target `x : 0..3`.
fn four_values(rt: &(impl Abort + AllocGlobal)) -> Target
    ensures { target_size (items_of result) ≡ 4 }
{
    let items = vec![in rt.alloc(); item(rt, "x", range(0, 3))];
    Target {
        items: TargetItemList::new(items.expect(rt, "memory")),
    }
}

#[test]
fn numbers_of_texts(rt: HostRuntime) {
    let one = four_values(&rt);
    has_number(&rt, &one, "3", Some(3));
    has_number(&rt, &one, "03", None);
    has_number(&rt, &one, "4", None);
    has_number(&rt, &one, "(3)", None);
}

/// The value with this number in the target is printed like this, after what stands there.
fn has_target_text(rt: &(impl Abort + AllocGlobal), target: &Target, n: u64, want: &str)
    requires { n < target_size (items_of target.now) }
{
    let mut text = vec![in rt.alloc(); b'='].expect(rt, "memory");
    print_target(rt.alloc(), target, n, &mut text).expect(rt, "memory");
    are_bytes(rt, text.as_slice(), want);
}

#[test]
fn text_of_a_number(rt: HostRuntime) {
    has_target_text(&rt, &four_values(&rt), 2, "=2");
}

/// A copy of the value with this number in a copy of the type.
fn copied(rt: &(impl Abort + AllocGlobal), ty: &Ty, n: u32) -> Value
    requires sized { HasSize (type_tree ty.now) }
    requires below { n < count (type_tree ty.now) }
{
    let ty = ty.copy(rt.alloc()).expect(rt, "memory");
    let value = value_at(rt.alloc(), &ty, n).expect(rt, "memory");
    value.copy(rt.alloc()).expect(rt, "memory")
}

#[test]
fn copies_are_equal(rt: HostRuntime) {
    let ty = pair(&rt, set_of(&rt, range(0, 2)), Ty::Bool);
    has_text(&rt, &copied(&rt, &ty, 11), "({0, 2}, true)");
}
