// Full sources: what is written for each type's values, and what they are about.
use crate::tests::*;
use kf_ast::{Decl, Dist, DistNode, Expr, ExprNode, Item, Source};
use kf_prior::{FullError, full_source};
use std::alloc::AllocError;
use std::fmt::Write;

// The full source of a text, or why there is none.
fn full_of(rt: &(impl Abort + AllocGlobal), text: &str) -> Result<Source, FullError> {
    let source = source_of(rt, text);
    let program = check(rt.alloc(), &source).expect(rt, text);
    full_source(rt.alloc(), &source, &program)
}

// An operator as its row behind a `#`, a tuple behind a `t`, a set behind an `s`.
#[cycle(write)]
fn write_expr(out: &mut String, expr: &Expr) -> Result<(), AllocError> {
    match &expr.node {
        ExprNode::Number(n) => write!(out, "{n}"),
        ExprNode::Truth(truth) => write!(out, "{truth}"),
        ExprNode::Apply { row, args } => {
            write!(out, "#{row}")?;
            write_all(out, args.as_slice())
        }
        ExprNode::Tuple(parts) => {
            out.push('t')?;
            write_all(out, parts.as_slice())
        }
        ExprNode::SetOf(members) => {
            out.push('s')?;
            write_all(out, members.as_slice())
        }
        ExprNode::Name(_) | ExprNode::Part { .. } => out.push('?'),
    }
}

#[cycle(write)]
fn write_all(out: &mut String, exprs: &[Expr]) -> Result<(), AllocError> {
    for expr in exprs {
        out.push(' ')?;
        write_expr(out, expr)?;
    }
    out.push(';')
}

fn write_range(out: &mut String, lo: &Expr, hi: &Expr) -> Result<(), AllocError> {
    write_expr(out, lo)?;
    out.push_str("..")?;
    write_expr(out, hi)
}

// A range as its bounds around two points.
fn write_dist(out: &mut String, dist: &Dist) -> Result<(), AllocError> {
    match &dist.node {
        DistNode::UniformSet(set) => write_expr(out, set),
        DistNode::UniformRange(lo, hi) => write_range(out, lo, hi),
        DistNode::Sure(_) | DistNode::Choose(_) | DistNode::Flip { .. } => out.push('?'),
    }
}

fn write_decl(out: &mut String, decl: &Decl) -> Result<(), AllocError> {
    out.push_str(if decl.visible { "vis " } else { "" })?;
    write_dist(out, &decl.dist)
}

fn write_item(out: &mut String, item: &Item) -> Result<(), AllocError> {
    out.push_str(if item.initial { " old " } else { " " })?;
    out.push_str(item.name.text.as_str())
}

fn write_source(out: &mut String, source: &Source) -> Result<(), AllocError> {
    for decl in source.decls.as_slice() {
        write_decl(out, decl)?;
    }
    for item in source.target.as_slice() {
        write_item(out, item)?;
    }
    Ok(())
}

// A full source, or how many stores are too many.
fn write_full(out: &mut String, full: &Result<Source, FullError>) -> Result<(), AllocError> {
    match full {
        Ok(source) => write_source(out, source),
        Err(FullError::Stores { count }) => write!(out, "{count} stores"),
        Err(FullError::Mem) => out.push_str("want of memory"),
    }
}

fn full_text(rt: &(impl Abort + AllocGlobal), full: &Result<Source, FullError>) -> String {
    let mut out = String::new(rt.alloc());
    write_full(&mut out, full).expect(rt, "memory");
    out
}

// The text of a source, and what is written of its full source.
type Row = (&'static str, &'static str);

fn are_full(rt: &(impl Abort + AllocGlobal), rows: &[Row]) {
    for (text, want) in rows {
        let full = full_text(rt, &full_of(rt, text));
        assert!(rt; full.as_str() == *want, "{text}");
    }
}

const LITERALS: [Row; 5] = [
    ("var x : 0..3 := 0; observe x;", "0..3 old x x"),
    ("var y : -2..-1 := -1; skip;", "#18 2;..#18 1; old y y"),
    ("vis b : bool := true; skip;", "vis s false true; old b b"),
    (
        "var s : set of 0..1 := {0}; skip;",
        "s #13 s 0; s 0;; s 0; s 1; s 0 1;; old s s",
    ),
    (
        "var p : (-1..0, bool) := (0, true); skip;",
        "s t #18 1; false; t #18 1; true; t 0 false; t 0 true;; old p p",
    ),
];

#[test]
fn literals_of_each_type(rt: HostRuntime) {
    are_full(&rt, &LITERALS);
}

const STORES: [Row; 3] = [
    (
        "var x : 0..1 := 0; vis y : 0..2 := x; about y; y := x;",
        "0..1vis 0..2 old x old y x y",
    ),
    ("var x : 0..4095 := 0; skip;", "0..4095 old x x"),
    ("var x : 0..4096 := 0; skip;", "4097 stores"),
];

#[test]
fn two_variables_and_too_many_stores(rt: HostRuntime) {
    are_full(&rt, &STORES);
}
