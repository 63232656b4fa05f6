//! All that a run or a replay is made of, gathered in the order in which it is judged.

ghost use Rattle.std.specs.Prelude.{◌≡◌, ◌≢◌, [], map, option_map, MatchResult, MatchOption, IfOk};
ghost use Rattle.outer_io.specs.Counts.{IsFaultless};
ghost use Rattle.flat_model.specs.Plan.{IsPlan};
ghost use Rattle.journal_file.specs.File.{held};
ghost use Rattle.call_inputs.specs.Inputs.{IsImageOf, IsScript, IsPlanOf, IsJournalFile};
ghost use Rattle.call_inputs.specs.Causes.{OfScript, RunCause, ReplayCause};

use crate::installing::installs;
use crate::reading::{image, journal, script};
use crate::refusals::Refusal;
use flat_model::{Image, Plan, Timed};
use journal_file::{JournalFile, RunHead};
use outer_io::Files;
use std::alloc::Global;

/// What a run is made of.
#[derive(Drop)]
pub struct RunInputs {
    pub image: Image,
    pub plan: Plan,
}

/// What a replay is made of.
#[derive(Drop)]
pub struct ReplayInputs {
    pub image: Image,
    pub plan: Plan,
    pub file: JournalFile,
}

/// The lines of the script, where one is named.
fn lines_of<F: Files>(
    alloc: Global,
    files: &mut F,
    name: Option<&str>,
) -> Result<Vec<Timed>, Refusal>
    ensures cases { MatchResult result
        (λ lines. IsScript (record { told = F.told files.old; contents = F.contents files.old })
        (option_map (λ n. n.now) name.entry) lines.items
        × IsFaultless (F.read_faults files.old) (F.read_faults files.new))
        (OfScript (record { told = F.told files.old; contents = F.contents files.old })
        (option_map (λ n. n.now) name.entry) (F.read_faults files.old) (F.read_faults files.new)) }
    ensures plan { IfOk result (λ lines. IsPlan lines.items) }
    ensures writes { F.write_faults files.new ≡ F.write_faults files.old }
    ensures still_told { F.told files.new ≡ F.told files.old }
    ensures unchanged { F.contents files.new ≡ F.contents files.old }
{
    match name {
        None => Ok(Vec::new(alloc)),
        Some(name) => script(alloc, files, name),
    }
}

/// What a run of so many harts is made of: the image of its file, and the plan of its plug-in words and its script.
pub fn run_inputs<F: Files>(
    alloc: Global,
    files: &mut F,
    harts: u8,
    file: &str,
    words: &[&str],
    script: Option<&str>,
) -> Result<RunInputs, Refusal>
    ensures cases { MatchResult result
        (λ inputs. (IsImageOf (record { told = F.told files.old; contents = F.contents files.old }) file.now inputs.image
        × IsPlanOf (record { told = F.told files.old; contents = F.contents files.old }) harts (map (λ w. w.now) words.now)
        (option_map (λ n. n.now) script.entry) inputs.plan)
        × IsFaultless (F.read_faults files.old) (F.read_faults files.new))
        (RunCause (record { told = F.told files.old; contents = F.contents files.old }) harts file.now (map (λ w. w.now) words.now)
        (option_map (λ n. n.now) script.entry) (F.read_faults files.old) (F.read_faults files.new)) }
    ensures writes { F.write_faults files.new ≡ F.write_faults files.old }
    ensures still_told { F.told files.new ≡ F.told files.old }
    ensures unchanged { F.contents files.new ≡ F.contents files.old }
{
    let image = match image(alloc, files, file) {
        Ok(image) => image,
        Err(refusal) => return Err(refusal),
    };
    let plan = match installs(alloc, harts, words) {
        Ok(plan) => plan,
        Err(refusal) => return Err(refusal),
    };
    let lines = match lines_of(alloc, files, script) {
        Ok(lines) => lines,
        Err(refusal) => return Err(refusal),
    };
    Ok(RunInputs {
        image,
        plan: with_script(plan, lines),
    })
}

/// The plan with the lines of a script.
fn with_script(plan: Plan, script: Vec<Timed>) -> Plan
    requires plan { IsPlan script.items }
    ensures installs { result.installs ≡ plan.installs }
    ensures script { result.script ≡ script.items }
{
    Plan {
        installs: plan.installs,
        script,
    }
}

/// What the replay of a journal is made of, by the words that name its run.
pub fn replay_inputs<F: Files>(
    alloc: Global,
    files: &mut F,
    head: &RunHead,
    file: &str,
    journal_name: &str,
    words: &[&str],
    script: Option<&str>,
) -> Result<ReplayInputs, Refusal>
    ensures cases { MatchResult result
        (λ inputs. (IsImageOf (record { told = F.told files.old; contents = F.contents files.old }) file.now inputs.image
        × IsPlanOf (record { told = F.told files.old; contents = F.contents files.old }) head.now.harts (map (λ w. w.now) words.now)
        (option_map (λ n. n.now) script.entry) inputs.plan
        × IsJournalFile (record { told = F.told files.old; contents = F.contents files.old }) journal_name.now (held inputs.file)
        × MatchOption inputs.file.head (Unit {0}) (λ made. made ≡ head.now))
        × IsFaultless (F.read_faults files.old) (F.read_faults files.new))
        (ReplayCause (record { told = F.told files.old; contents = F.contents files.old }) head.now file.now journal_name.now
        (map (λ w. w.now) words.now) (option_map (λ n. n.now) script.entry) (F.read_faults files.old) (F.read_faults files.new)) }
    ensures writes { F.write_faults files.new ≡ F.write_faults files.old }
    ensures still_told { F.told files.new ≡ F.told files.old }
    ensures unchanged { F.contents files.new ≡ F.contents files.old }
{
    let inputs = match run_inputs(alloc, files, head.harts(), file, words, script) {
        Ok(inputs) => inputs,
        Err(refusal) => return Err(refusal),
    };
    let file = match journal(alloc, files, journal_name, head) {
        Ok(file) => file,
        Err(refusal) => return Err(refusal),
    };
    Ok(ReplayInputs {
        image: inputs.image,
        plan: inputs.plan,
        file,
    })
}
