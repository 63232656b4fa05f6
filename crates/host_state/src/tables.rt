//! Tables with a row for each plug-in and a place for each hart, which may be empty.

ghost use Rattle.std.specs.Prelude.{◌≡◌, ◌<◌, [], None, Some, length, slice_index_or};
ghost use Rattle.run_order.specs.Laws.{with_place};
ghost use Rattle.host_state.specs.Tables.{rows_of, row_at};

/// Takes what stands at a place, and leaves it empty.
pub(crate) fn take_at<T: Drop>(rows: &mut [Vec<Option<T>>], row: usize, place: usize) -> Option<T>
    requires row { row < length rows.old }
    requires place { place < length (row_at (rows_of rows.old) row) }
    ensures taken { result ≡ slice_index_or (row_at (rows_of rows.old) row) place None }
    ensures left { rows_of rows.new ≡ with_place (rows_of rows.old) row place None }
{
    rows[row][place].take()
}

/// Puts something at a place.
pub(crate) fn put_at<T: Drop>(rows: &mut [Vec<Option<T>>], row: usize, place: usize, item: T)
    requires row { row < length rows.old }
    requires place { place < length (row_at (rows_of rows.old) row) }
    ensures put { rows_of rows.new ≡ with_place (rows_of rows.old) row place (Some item) }
{
    rows[row][place] = Some(item);
}
