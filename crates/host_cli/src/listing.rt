//! Listings of a file's code.

ghost use Rattle.std.specs.Prelude.{◌≡◌};
ghost use Rattle.host_cli.specs.Answers.{ListAnswers};
ghost use Rattle.host_cli.specs.Commands.{list_command};
ghost use Rattle.host_cli.specs.Files.{files_around};
ghost use Rattle.host_cli.specs.Sinks.{around};

use crate::ending::put_text_pieces;
use crate::refusing::{refuse, refuse_for_memory};
use crate::running::name_of;
use call_inputs::image;
use code_listing::{ListingOf, listing};
use outer_io::{Files, Sink};
use std::alloc::Global;

/// Lists the code of the file.
pub(crate) fn list<F: Files, O: Sink, E: Sink>(
    alloc: Global,
    what: ListingOf,
    file: &str,
    files: &mut F,
    out: &mut O,
    report: &mut E,
) -> u8
    ensures answers { ListAnswers (list_command what file.now) what file.now
        (files_around F.told F.contents F.read_faults F.write_faults files.old files.new)
        (around O.pieces O.faults out.old out.new) (around E.pieces E.faults report.old report.new) result }
    ensures told { F.told files.new ≡ F.told files.old }
{
    let image = match image(alloc, files, file) {
        Ok(image) => image,
        Err(refusal) => {
            let name = name_of(&refusal, file, None, "");
            return refuse(alloc, report, name, &refusal);
        }
    };
    let Ok(text) = listing(alloc, &image, what) else {
        return refuse_for_memory(report);
    };
    match put_text_pieces(out, text.as_slice()) {
        Ok(()) => 0,
        Err(_) => 6,
    }
}
