//! Types and values, their order and numbers, stores and targets, and what values print as.
#![tactic(auto)]

mod divisor;
mod equality;
mod kind;
mod laws;
mod mem;
mod name;
mod nth;
mod numbers;
mod order;
mod prints;
mod readings;
mod shape;
mod sizes;
mod slot_list;
mod target;
mod target_item;
mod truth;
mod ty;
mod value;

pub use equality::same_target;
pub use kind::{Kind, KindList};
pub use laws::{order_laws, store_laws, text_laws};
pub use mem::Mem;
pub use name::Name;
pub use nth::value_at;
pub use numbers::number;
pub use order::compare;
pub use prints::{number_of, print_target, print_value, values_at, write_target};
pub use shape::{OutOfRange, Shape, ShapeError};
pub use sizes::size;
pub use slot_list::SlotList;
pub use target::Target;
pub use target_item::{TargetItem, TargetItemList};
pub use truth::is_true;
pub use ty::{Ty, TyFault, TyList};
pub use value::{Value, ValueList};
