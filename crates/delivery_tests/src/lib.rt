//! Whole guests whose events are delivered to attached sets, beside a slow reading of the same events: tests alone.
#![tactic(auto)]

#[cfg(test)]
mod attaching;
#[cfg(test)]
mod guests;
#[cfg(test)]
mod list_tests;
#[cfg(test)]
mod lookups;
#[cfg(test)]
mod readings;
#[cfg(test)]
mod runs;
#[cfg(test)]
mod tests;
#[cfg(test)]
mod unstored;
