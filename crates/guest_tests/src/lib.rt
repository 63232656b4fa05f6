//! Images, blocks, texts and steps of harts, on small files made here: tests alone.
#![tactic(auto)]

#[cfg(test)]
mod block_tests;
#[cfg(test)]
mod guests;
#[cfg(test)]
mod image_tests;
#[cfg(test)]
mod step_tests;
#[cfg(test)]
mod text_tests;
