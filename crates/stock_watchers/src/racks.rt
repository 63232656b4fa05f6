//! A rack of stock boxes.

ghost use Rattle.std.specs.Prelude.{◌≡◌, [], None, All, IfOk, vec_len};
ghost use Rattle.flat_model.specs.declared.limits.TheConstants.{PLUGINS_MOST, RACK_BOXES};

use crate::stocks::Stock;
use flat_model::NoMemory;
use flat_model::limits::{PLUGINS_MOST, RACK_BOXES};
use std::alloc::Global;
use watcher_api::{Closer, Held, Notices, Rack, Watcher};

/// Blank stock boxes, and closers that keep their notices.
pub type StockRack = Rack<Stock, Notices<Held<Stock>>>;

fn boxes(alloc: Global) -> Result<Vec<Stock>, NoMemory>
    ensures blank { IfOk result (λ boxes. All (λ w. ⟦<Stock as Watcher>⟧.kind_of w ≡ None) boxes.items) }
    ensures count { IfOk result (λ boxes. vec_len boxes ≡ RACK_BOXES) }
{
    let mut boxes = Vec::new(alloc);
    for _made in 0..RACK_BOXES {
        boxes.push(Stock::blank(alloc))?;
    }
    Ok(boxes)
}

fn closers(alloc: Global) -> Result<Vec<Notices<Held<Stock>>>, NoMemory>
    ensures untold { IfOk result (λ closers.
        All (λ c. ⟦<Notices<Held<Stock>> as Closer<Held<Stock>>>⟧.notices c ≡ []) closers.items) }
    ensures count { IfOk result (λ closers. vec_len closers ≡ PLUGINS_MOST) }
{
    let mut closers = Vec::new(alloc);
    for _made in 0..PLUGINS_MOST {
        closers.push(Notices::new(alloc))?;
    }
    Ok(closers)
}

/// The 128 boxes and 8 closers that a run may take.
pub fn stock_rack(alloc: Global) -> Result<StockRack, NoMemory>
    ensures boxes { IfOk result (λ rack. vec_len rack.watchers ≡ RACK_BOXES) }
    ensures closers { IfOk result (λ rack. vec_len rack.closers ≡ PLUGINS_MOST) }
{
    Ok(Rack {
        watchers: boxes(alloc)?,
        closers: closers(alloc)?,
    })
}
