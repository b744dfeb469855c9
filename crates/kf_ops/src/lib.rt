//! The operator table: the one list of operators that lexer, parser, checker and evaluator read.
#![tactic(auto)]

mod arguments;
mod facts;
mod fault;
mod laws;
mod lookup;
mod row;
mod sets;
mod table;
mod values;

pub use facts::{operator_at, operator_row, operators, table_facts};
pub use fault::OpFault;
pub use laws::row_laws;
pub use lookup::find;
pub use row::{Op, OpRow, Pat};
pub use table::OPS;
pub use values::apply;
