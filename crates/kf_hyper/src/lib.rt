//! Columns of whole weights, the hyper of a list of columns, and tables of traces.
#![tactic(auto)]

mod class;
mod classes;
mod column;
mod columns;
mod counts;
mod entry;
mod hyper;
mod posteriors;
mod projection;
mod reduction;
mod sums;
mod traces;
mod unsorted;

pub use column::{Column, ColumnList};
pub use columns::{Columns, join};
pub use counts::CountList;
pub use entry::EntryList;
pub use hyper::{Hyper, abstract_columns};
pub use kf_column::Entry;
pub use posteriors::{merge, merge_owned};
pub use projection::project;
pub use sums::column_of;
pub use traces::{TraceRow, TraceRowList, TraceTable};
pub use unsorted::gathered;
