//! The state that the harts of a run share, before its first hold: tests alone.
#![tactic(auto)]

#[cfg(test)]
mod opening;
#[cfg(test)]
mod sets;
#[cfg(test)]
mod taking;
#[cfg(test)]
mod tests;
