//! Tests of what the built program does not show: managers, sessions and workers within limits that
//! they meet, threads in an interleaving that is repeated, desks whose answers are invented, outcomes
//! of connections, and calls that the program doesn't make. They are in a crate of their own because a
//! crate with tests is proved twice.
#![tactic(auto)]

#[cfg(test)]
mod bounds;
#[cfg(test)]
mod direct_calls;
#[cfg(test)]
mod fakes;
#[cfg(test)]
mod outcomes;
#[cfg(test)]
mod schedules;
#[cfg(test)]
mod served;
#[cfg(test)]
mod sessions;
#[cfg(test)]
mod workers;
