//! Laws of which files load.

ghost use Rattle.elf_image.specs.Laws.{OneImage, OneRefusal, NeverBoth, AlwaysOne, EntersCode, LoadsByRules};

/// Each file has one answer: its image or its refusal, never both and never two. It loads exactly where it
/// keeps each rule, as `specs/Kept.antt` says them. The first word of an image is present.
pub fn answers_are_one()
    ensures one_image { OneImage }
    ensures one_refusal { OneRefusal }
    ensures never_both { NeverBoth }
    ensures always_one { AlwaysOne }
    ensures enters_code { EntersCode }
    ensures by_rules { LoadsByRules }
{}
