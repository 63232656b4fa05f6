//! The stock boxes: one type that counts events, blocks, classes and pages, or keeps a trace of accesses or of
//! instructions. A box keeps what its rows need and no event.
#![tactic(auto)]

pub use racks::{StockRack, stock_rack};
pub use stocks::Stock;

mod keeping;
mod numbers;
mod racks;
mod stocks;
mod totals;
mod traces;
