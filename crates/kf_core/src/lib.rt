//! What a program means: its runs, their scale and their joint weights.
#![tactic(auto)]

mod dx;
mod ex;
mod laws;
mod program;
mod st;

pub use dx::{Dx, DxCase, DxCaseList, DxList, DxNode};
pub use ex::{Ex, ExList};
pub use kf_value::SlotList;
pub use laws::{choice_laws, evaluation_laws, joint_laws, run_laws};
pub use program::Program;
pub use st::{St, StList};
