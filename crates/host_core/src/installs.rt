//! The installs of a plan.

ghost use Rattle.std.specs.Prelude.{◌≡◌, ◌↔◌, None, IfOk, MatchOption};
ghost use Rattle.flat_model.specs.declared.journals.Order.TheVariants.{Install};
ghost use Rattle.flat_model.specs.Registry.{refusal, after_order};
ghost use Rattle.plug_registry.specs.Installs.{first_refused, AreAllowed};

use flat_model::limits::RACK_BOXES;
use flat_model::{NoMemory, Order, OrderRefusal, Plan, SetSpec};
use plug_registry::Registry;
use std::alloc::Global;

/// The first install of the plan that isn't allowed, by its index from 0, and the first rule that it breaks, in a run of
/// `harts` harts. An install is judged once those before it were placed; a rack has 128 boxes.
pub fn first_refused(
    alloc: Global,
    plan: &Plan,
    harts: u8,
) -> Result<Option<(u32, OrderRefusal)>, NoMemory>
    ensures first { IfOk result (λ found. found ≡ first_refused harts plan.now.installs) }
    ensures none { IfOk result (λ found. (found ≡ None) ↔ AreAllowed harts plan.now.installs) }
{
    let mut registry = Registry::new(alloc, harts, RACK_BOXES)?;
    for spec in &plan.installs {
        if let Some(refusal) = place(alloc, &mut registry, spec)? {
            return Ok(Some((u32::from(registry.count()), refusal)));
        }
    }
    Ok(None)
}

/// Places an install where it is allowed, and else gives its refusal.
fn place(
    alloc: Global,
    registry: &mut Registry,
    spec: &SetSpec,
) -> Result<Option<OrderRefusal>, NoMemory>
    ensures refusal { IfOk result (λ r. r ≡ refusal registry.old.table (Install spec.now)) }
    ensures placed { IfOk result (λ r. MatchOption r
        (registry.new.table ≡ after_order (Install spec.now) registry.old.table)
        (λ _. registry.new ≡ registry.old)) }
{
    let order = Order::Install {
        spec: spec.copied(alloc)?,
    };
    if let Err(refusal) = registry.check(&order) {
        return Ok(Some(refusal));
    }
    registry.reserve_for(&order)?;
    registry.apply(order);
    Ok(None)
}
