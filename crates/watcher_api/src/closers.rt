//! How a set was withdrawn, with the boxes and columns given back, and who is told.

ghost use Rattle.std.specs.Prelude.{◌≡◌, ◌<◌, List, [], ◌∷◌, ◌++◌, length, slice_index_or, MatchResult, OnErr};
ghost use Rattle.watcher_api.specs.declared.closers.Returned.{Returned};

use flat_model::How;
use score_boards::ParkedColumn;
use std::alloc::Global;

/// A hart's box that nothing calls any more.
#[derive(Debug, Drop)]
pub struct Parked<B> {
    pub hart: u8,
    /// The place of its subscription in the set.
    pub sub: u8,
    pub watcher: B,
}

/// A notice: how a set was withdrawn, with the boxes and columns given back; none where an Idle plug-in was uninstalled.
#[derive(Debug, Drop)]
pub struct Returned<B> {
    /// The plug-in's number, from 1.
    pub plugin: u8,
    pub how: How,
    pub boxes: Vec<Parked<B>>,
    pub columns: Vec<ParkedColumn>,
}

/// Gets the notices of a plug-in, and keeps them.
pub trait Closer<B: Drop>: Drop {
    // the notices that it was given, in order
    ghost notices: { Self → List (Returned B) };

    /// Takes one notice. An `Err` is want of memory: it hands the notice back and has kept nothing of it.
    fn closed(&mut self, back: Returned<B>) -> Result<(), Returned<B>>
        ensures kept { MatchResult result
            (λ _. notices self.new ≡ notices self.old ++ back ∷ [])
            (λ handed_back. handed_back ≡ back) }
        ensures unchanged { OnErr result (notices self.new ≡ notices self.old) };

    /// How many notices there are.
    fn count(&self) -> usize
        ensures count { result ≡ length (notices self.now) };

    /// The notice at a place, from 0.
    fn notice(&self, i: usize) -> &Returned<B>
        requires there { i < length (notices self.now) }
        ensures notice { result.now ≡ slice_index_or (notices self.now) i result.now };
}

/// A closer that keeps each notice.
#[derive(Debug, Drop)]
pub struct Notices<B> {
    kept: Vec<Returned<B>>,
}

impl<B: Drop> Notices<B> {
    /// A closer without a notice.
    pub fn new(alloc: Global) -> Notices<B>
        ensures none { ⟦<Notices<B> as Closer<B>>⟧.notices result ≡ [] }
    {
        Notices {
            kept: Vec::new(alloc),
        }
    }
}

impl<B: Drop> Closer<B> for Notices<B> {
    ghost notices = { λ closer. closer.kept.items };

    fn closed(&mut self, back: Returned<B>) -> Result<(), Returned<B>>
        ensures kept { MatchResult result
            (λ _. self.new.kept.items ≡ self.old.kept.items ++ back ∷ [])
            (λ handed_back. handed_back ≡ back) }
        ensures unchanged { OnErr result (self.new.kept.items ≡ self.old.kept.items) }
    {
        match self.kept.push(back) {
            Ok(()) => Ok(()),
            Err(refused) => Err(refused.value),
        }
    }

    fn count(&self) -> usize
        ensures count { result ≡ length self.now.kept.items }
    {
        self.kept.len()
    }

    fn notice(&self, i: usize) -> &Returned<B>
        requires there { i < length self.now.kept.items }
        ensures notice { result.now ≡ slice_index_or self.now.kept.items i result.now }
    {
        &self.kept[i]
    }
}
