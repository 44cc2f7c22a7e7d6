//! A call that the system refused.
use crate::reason::Reason;
use ts_outside::Purpose;

/// A call that the system refused: for what it was made, which call for that it was, from 1 on, and why it failed.
#[derive(Clone, Copy, Drop)]
pub struct Trouble {
    pub purpose: Purpose,
    pub number: u64,
    pub reason: Reason,
}
