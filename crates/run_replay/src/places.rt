//! The berths of harts, by their numbers.

ghost use Rattle.std.specs.Prelude.{◌≡◌, ◌<◌, None, Some, IfSome, length, option_copied, slice_index_or, slice_set};

use crate::berths::Berth;
use watcher_api::Watcher;

/// Takes the berth of a hart out; `None` where it has none, or is no hart of the run.
pub(crate) fn take_out<W: Watcher>(berths: &mut [Option<Berth<W>>], no: u8) -> Option<Berth<W>>
    ensures taken { result ≡ slice_index_or berths.old no None }
    ensures left { IfSome result (λ _. berths.new ≡ slice_set berths.old no None) }
{
    let place = usize::from(no);
    if place >= berths.len() {
        return None;
    }
    berths[place].take()
}

/// Puts a hart's berth back.
pub(crate) fn put_back<W: Watcher>(berths: &mut [Option<Berth<W>>], no: u8, berth: Berth<W>)
    requires place { no < length berths.old }
    ensures put { berths.new ≡ slice_set berths.old no (Some berth) }
{
    berths[usize::from(no)] = Some(berth);
}

/// The berth of a hart; `None` where it has none, or is no hart of the run.
pub(crate) fn berth_of<W: Watcher>(berths: &[Option<Berth<W>>], no: u8) -> Option<&Berth<W>>
    ensures berth { option_copied result ≡ slice_index_or berths.now no None }
{
    berths.get(usize::from(no))?.as_ref()
}
