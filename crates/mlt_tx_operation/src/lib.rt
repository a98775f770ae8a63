//! An operation on an object, run on pages: one page per step, or in one call if no page is locked.
//! An `Operation` finds its record, decides its reply, changes the record in place, and ends; so
//! does an inverse. A step that waits changes nothing; one that is refused rolls everything back.
//! `plan_fast` finds the same reply and change without locks. No clause says that it finds a plan,
//! or that a first pass takes no memory.
#![tactic(auto)]

mod access_path;
mod answer;
mod end_law;
mod operation;
mod perform;
mod plan;
mod walking;

pub use access_path::AccessPath;
pub use answer::StepAnswer;
pub use end_law::operations_come_to_an_end;
pub use operation::Operation;
pub use plan::{PlanFast, plan_fast};
