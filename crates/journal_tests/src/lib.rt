//! Journals, their files and the registry of plug-ins, each over all its calls: tests alone.
#![tactic(auto)]

#[cfg(test)]
mod file_tests;
#[cfg(test)]
mod registry_tests;
#[cfg(test)]
mod turn_tests;
