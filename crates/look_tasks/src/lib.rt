//! What the thread that looks at windows does next, and when: the tasks of a look, the parts that it comes to, its share of a processor, the
//! time of the next look, and how many mappings windows may take.
#![tactic(auto)]

mod budget;
pub mod budget_laws;
mod chores;
mod config;
pub mod laws;
mod looked;
pub mod room;
pub mod room_laws;
mod step;
pub mod step_laws;
mod steps;
mod task;
mod tasks;
pub mod time_laws;
mod times;

pub use budget::Budget;
pub use chores::{OF_SHARE, again_ns};
pub use config::{BudgetConfig, BudgetCounts};
pub use step::{LookSteps, MANY_YOUNG, PartReturn, RETURN_NS, RETURNS_MOST, Step};
pub use task::{ATTEND_NS, BATCH, LookTasks, NAP_NS, Sharing, Stage, Task, TaskOutcome};
pub use times::{
    AGAIN_NS, ASKED_LITTLE, BUSY_PART, CALM_LOOKS, CALM_PART, DEAR_PART, EAGER_LOOKS, FOUND_LITTLE,
    LEAST_PART, LONGER_PART, LookFinds, LookTimes, MUCH, MUCH_PART, TURNS_LEAST, TURNS_MOST,
};
