//! The top call of `tsswitch`: words and a desk come in; the inputs are played one after another, the next one read ahead,
//! their packets at their places or found again; plays are reported, a status is returned. The program uses the clauses of `explained_switch_call`, which
//! has that of `switch_call`, and nothing else.
#![tactic(auto)]

mod call;
mod ending;
mod found_source;
mod laws;
mod lines;
mod plan;
mod play_source;
mod played_cut;
mod playing;
mod plays_left;
mod status;
mod stepping;
mod switch_end;
mod switching;

pub use call::{explained_switch_call, switch_call};
pub use laws::{
    switched_complete, switched_ends, switched_faults, switched_first, switched_found,
    switched_status, switched_whole,
};
pub use plan::SwitchPlan;
pub use playing::switch_plan;
pub use status::SwitchStatus;
pub use switch_args::SwitchOutput;
pub use switch_end::SwitchEnd;
