//! The first rows of a trace.

ghost use Rattle.std.specs.Prelude.{◌≡◌, List, ◌++◌, ◌∷◌, [], MatchResult};
ghost use Rattle.flat_model.specs.declared.events.Event.{Event};
ghost use Rattle.watcher_api.specs.Tallies.{traced, mem_row, exec_row};

use flat_model::{Event, NoMemory, Row};
use watcher_api::{MOST_ROWS, exec_row, mem_row};

/// Keeps the row of an access, where fewer than 65,536 rows are kept.
#[inline]
pub(crate) fn trace_access(rows: &mut Vec<Row>, e: &Event) -> Result<(), NoMemory>
    ensures { MatchResult result
        (λ _. (heard : List Event) → rows.old.items ≡ traced mem_row heard → rows.new.items ≡ traced mem_row (heard ++ e.now ∷ []))
        (λ _. rows.new.items ≡ rows.old.items) }
{
    if rows.len() < MOST_ROWS {
        if let Some(row) = mem_row(e) {
            rows.push(row)?;
        }
    }
    Ok(())
}

/// Keeps the row of an executed instruction, where fewer than 65,536 rows are kept.
#[inline]
pub(crate) fn trace_instruction(rows: &mut Vec<Row>, e: &Event) -> Result<(), NoMemory>
    ensures { MatchResult result
        (λ _. (heard : List Event) → rows.old.items ≡ traced exec_row heard → rows.new.items ≡ traced exec_row (heard ++ e.now ∷ []))
        (λ _. rows.new.items ≡ rows.old.items) }
{
    if rows.len() < MOST_ROWS {
        if let Some(row) = exec_row(e) {
            rows.push(row)?;
        }
    }
    Ok(())
}
