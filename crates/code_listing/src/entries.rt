//! The lines of a listing, one for each word or for each block.

ghost use Rattle.std.specs.Prelude.{◌≡◌, ◌≤◌, ◌<◌, ◌+◌, ◌%◌, ◌++◌, Some, OnOk, IfOk};
ghost use Rattle.flat_model.specs.Image.{word_at};
ghost use Rattle.code_listing.specs.Listings.{block_line, entry_text, entry_words, HasLines, IsRestListed};

use crate::listings::ListingOf;
use block_finder::length;
use flat_model::limits::SEGMENTS_END;
use flat_model::{Image, NoMemory};
use number_text::{put_decimal, put_hex, put_text};
use rv_text::line;

/// Puts the line of the block at `pc`, of `n` words.
fn put_block(text: &mut Vec<u8>, pc: u64, n: u32) -> Result<(), NoMemory>
    ensures text { OnOk result (text.new.items ≡ text.old.items ++ block_line pc n) }
{
    put_hex(text, pc, 16)?;
    put_text(text, " ")?;
    put_decimal(text, u64::from(n))?;
    put_text(text, "\n")
}

/// Puts the line that begins at `pc`, where `word` is, and answers how many words it stands for.
fn put_entry(
    text: &mut Vec<u8>,
    image: &Image,
    what: ListingOf,
    pc: u64,
    word: u32,
) -> Result<u64, NoMemory>
    requires aligned { pc % 4 ≡ 0 }
    requires present { word_at image.now pc ≡ Some word }
    ensures text { OnOk result (text.new.items ≡ text.old.items ++ entry_text what image.now pc word) }
    ensures words { IfOk result (λ words. words ≡ entry_words what image.now pc) }
    ensures some { IfOk result (λ words. 0 < words) }
    ensures most { IfOk result (λ words. words ≤ 512) }
{
    match what {
        ListingOf::Instructions => {
            line(pc, word, text)?;
            Ok(1)
        }
        ListingOf::Blocks => {
            let n = length(image, pc);
            put_block(text, pc, n)?;
            Ok(u64::from(n))
        }
    }
}

/// Puts the lines from an address on, up to the first absent word.
pub(crate) fn put_from(
    text: &mut Vec<u8>,
    image: &Image,
    what: ListingOf,
    first: u64,
) -> Result<(), NoMemory>
    requires aligned { first % 4 ≡ 0 }
    requires low { first ≤ SEGMENTS_END }
    ensures text { OnOk result (IsRestListed what image.now first text.old.items text.new.items) }
{
    let mut pc = first;
    while let Some(word) = image.word(pc) {
        let words = put_entry(text, image, what, pc, word)?;
        pc += 4 * words;
    }
    Ok(())
}
