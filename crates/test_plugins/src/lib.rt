//! The tests of the plugins, of the editor that some of them share and of the command line, in a crate of their own:
//! a crate with tests is proved twice, and this one takes little time.
#![tactic(auto)]

#[cfg(test)]
mod applied;
#[cfg(test)]
mod cells;
#[cfg(test)]
mod compared;
#[cfg(test)]
mod editors;
#[cfg(test)]
mod ends;
#[cfg(test)]
mod filters;
#[cfg(test)]
mod injected;
#[cfg(test)]
mod moved_pids;
#[cfg(test)]
mod names;
#[cfg(test)]
mod numbers;
#[cfg(test)]
mod plans;
#[cfg(test)]
mod services;
#[cfg(test)]
mod tables_in_force;
#[cfg(test)]
mod watchers;
#[cfg(test)]
mod windows;
