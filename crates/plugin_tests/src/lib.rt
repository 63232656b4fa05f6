//! Plug-in words and scripts, the installs of a plan, boxes and columns: tests alone.
#![tactic(auto)]

#[cfg(test)]
mod box_tests;
#[cfg(test)]
mod column_tests;
#[cfg(test)]
mod install_tests;
#[cfg(test)]
mod script_tests;
