//! Walking over the words of a block, from the first to the last.

ghost use Rattle.std.specs.Prelude.{◌≡◌, ◌+◌, ◌-◌, ◌/◌, ◌%◌, min, MatchOption, None};
ghost use Rattle.std.specs.Option.{option_map_or};
ghost use Rattle.flat_model.specs.declared.limits.TheConstants.{BLOCK_WORDS, PAGE_BYTES};
ghost use Rattle.flat_model.specs.Image.{Program, word_at};
ghost use Rattle.flat_model.specs.Instruction.{class_of};
ghost use Rattle.flat_model.specs.Blocks.{length_of};
ghost use Rattle.block_finder.specs.Block.{IsSite};
ghost use Rattle.block_finder.specs.Walks.{IsWithin, next_pc, to_come};

use crate::blocks::Site;
use flat_model::limits::{BLOCK_WORDS, PAGE_BYTES};
use flat_model::{Class, Image, Ins};
use rv_decode::{class_of, decode};

/// How many words a block at `pc` has at most: those up to the page's end, and 512.
fn words_in_reach(pc: u64) -> u32
    ensures { result ≡ min BLOCK_WORDS ((PAGE_BYTES - pc % PAGE_BYTES) / 4) }
{
    u64::from(BLOCK_WORDS).min((PAGE_BYTES - pc % PAGE_BYTES) / 4) as u32
}

/// The class of a word with this instruction.
fn class_with(ins: &Option<Ins>) -> Class
    ensures { result ≡ option_map_or class_of ins.now Class.Illegal }
{
    match ins {
        Some(ins) => class_of(ins),
        None => Class::Illegal,
    }
}

/// The word at `pc` with its instruction; `None` where it is absent.
fn site_at(image: &Image, pc: u64) -> Option<Site>
    ensures site { MatchOption result (word_at image.now pc ≡ None) (IsSite image.now pc) }
{
    let word = image.word(pc)?;
    let ins = decode(word);
    Some(Site {
        pc,
        word,
        ins,
        class: class_with(&ins),
    })
}

/// A walk over the words of a block.
#[derive(Drop)]
pub struct Walk {
    /// The address of the block's first word, in bytes.
    first: u64,
    /// How many words the walk has come to.
    pub place: u32,
    /// How many words are in reach; behind a word that ends the block, those so far.
    end: u32,
}

impl Walk {
    /// The walk over the block at `pc`, before its first word.
    pub fn new(pc: u64) -> Walk
        requires aligned { pc % 4 ≡ 0 }
        ensures first { result.first ≡ pc }
        ensures place { result.place ≡ 0 }
        ensures within { IsWithin result }
        ensures all { (image : Program) → to_come image result ≡ length_of image pc }
    {
        Walk {
            first: pc,
            place: 0,
            end: words_in_reach(pc),
        }
    }

    /// The block's next word; `None` behind its last one.
    pub fn next(&mut self, image: &Image) -> Option<Site>
        requires within { IsWithin self.old }
        ensures first { self.new.first ≡ self.old.first }
        ensures within { IsWithin self.new }
        ensures site { MatchOption result (to_come image.now self.new ≡ 0) (IsSite image.now (next_pc self.old)) }
        ensures place { MatchOption result (self.new.place ≡ self.old.place)
            (λ _. self.new.place ≡ self.old.place + 1) }
        ensures to_come { self.new.place + to_come image.now self.new ≡ self.old.place + to_come image.now self.old }
    {
        if self.place == self.end {
            return None;
        }
        let Some(site) = site_at(image, self.first + 4 * u64::from(self.place)) else {
            return None;
        };
        self.place += 1;
        if site.ends_block() {
            self.end = self.place;
        }
        Some(site)
    }
}
