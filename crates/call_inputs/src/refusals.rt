//! Why a call is refused before there is anything to run.

ghost use Rattle.std.specs.Prelude.{◌≡◌};
ghost use Rattle.call_inputs.specs.Causes.{limit_of};

use elf_image::ImageRefusal;
use flat_model::limits::{FILE_MOST, JOURNAL_MOST, SCRIPT_MOST};
use journal_file::{FileRefusal, RunHead};
use run_script::{ScriptRefusal, SpecRefusal};

/// A file that a call reads.
#[derive(Clone, Copy, Debug, PartialEq, Eq)]
pub enum Input {
    /// The ELF file, of at most 67,108,864 bytes.
    File,
    /// The script, of at most 65,536 bytes.
    Script,
    /// The journal file, of at most 268,435,456 bytes.
    Journal,
}

impl Input {
    /// The bytes that it has at most.
    pub fn limit(&self) -> usize
        ensures limit { result ≡ limit_of self.now }
    {
        let limit = match self {
            Input::File => FILE_MOST,
            Input::Script => SCRIPT_MOST,
            Input::Journal => JOURNAL_MOST,
        };
        limit as usize
    }
}

/// Why a set that a plug-in word spells can't be installed.
#[derive(Clone, Copy, Debug, PartialEq, Eq)]
pub enum InstallRefusal {
    /// Eight plug-ins are installed.
    Full,
    /// The rack has fewer boxes left than the harts need.
    FewBoxes { need: u32, left: u32 },
}

/// Why a call is refused.
#[derive(Clone, Copy, Debug, PartialEq, Eq)]
pub enum Refusal {
    /// The words are not in the grammar.
    Usage,
    /// The file was not read, or is not there.
    CannotRead {
        input: Input,
    },
    /// The file has more bytes than its limit.
    TooLong {
        input: Input,
    },
    /// The ELF file breaks a rule of the loader.
    Image(ImageRefusal),
    /// The plug-in word with this number, from 1, breaks a rule.
    Word {
        number: u64,
        refusal: SpecRefusal,
    },
    /// The set of the plug-in word with this number, from 1, can't be installed.
    Install {
        number: u64,
        refusal: InstallRefusal,
    },
    /// The script breaks a rule.
    Script(ScriptRefusal),
    /// The journal file breaks a rule.
    Journal(FileRefusal),
    /// The journal was made with other harts, another mode or another limit than the words name.
    OtherRun {
        head: RunHead,
    },
    /// The entry of the journal with this index, from 0, isn't one of a run of the image; or the journal ends there too early.
    NotThisRun {
        place: u64,
    },
    OutOfMemory,
}
