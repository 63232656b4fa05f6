//! The installs that plug-in words spell.

ghost use Rattle.std.specs.Prelude.{◌≡◌, ◌+◌, ◌-◌, ◌<◌, ◌≤◌, ℕ, [], map, length, All, MatchResult, IfOk, None, Some, Ok, Err, IsOk};
ghost use Rattle.std.specs.Prelude.{slice_index_or};
ghost use Rattle.flat_model.specs.Registry.{set_refusal};
ghost use Rattle.plug_registry.specs.Installs.{first_refused, AreAllowed};
ghost use Rattle.run_script.specs.Words.{spelt};
ghost use Rattle.call_inputs.specs.Inputs.{AreSpelt, AreInstalls};
ghost use Rattle.call_inputs.specs.Causes.{WordCause, IsAs, IsOfInstall, BreaksWord, SpellingCause, WordsCause};

use crate::refusals::{InstallRefusal, Refusal};
use flat_model::{OrderRefusal, Plan, Refused, SetSpec};
use host_core::first_refused;
use run_script::plugin_word;
use std::alloc::Global;

/// The set that the plug-in word of this number spells.
fn set_of(alloc: Global, number: u64, word: &str) -> Result<SetSpec, Refusal>
    ensures cases { MatchResult result (λ set. spelt word.now ≡ Ok set) (WordCause number word.now) }
    ensures sound { IfOk result (λ set. set_refusal set ≡ None) }
{
    match plugin_word(alloc, word) {
        Ok(set) => Ok(set),
        Err(Refused::Because(refusal)) => Err(Refusal::Word { number, refusal }),
        Err(Refused::NoMemory) => Err(Refusal::OutOfMemory),
    }
}

/// The sets that the plug-in words spell, in their order.
fn sets_of(alloc: Global, words: &[&str]) -> Result<Vec<SetSpec>, Refusal>
    ensures cases { MatchResult result
        (λ sets. AreSpelt (map (λ w. w.now) words.now) sets.items)
        (SpellingCause (map (λ w. w.now) words.now)) }
    ensures sound { IfOk result (λ sets. All (λ set. set_refusal set ≡ None) sets.items) }
{
    let mut sets = Vec::new(alloc);
    for (i, word) in words.iter().enumerate() {
        let set = match set_of(alloc, i as u64 + 1, word) {
            Ok(set) => set,
            Err(refusal) => return Err(refusal),
        };
        let Ok(()) = sets.push(set) else {
            return Err(Refusal::OutOfMemory);
        };
    }
    Ok(sets)
}

/// Why a set can't be installed.
fn install_refusal(why: OrderRefusal) -> InstallRefusal
    requires { IsOfInstall why }
    ensures { IsAs result why }
{
    match why {
        OrderRefusal::Full { .. } => InstallRefusal::Full,
        OrderRefusal::FewBoxes { need, left } => InstallRefusal::FewBoxes { need, left },
        _ => unreachable!(),
    }
}

/// The plan whose installs the plug-in words spell, in a run of so many harts. It has no script.
#[tactic(auto, using(crate::proofs::Refused::of_first))]
pub fn installs(alloc: Global, harts: u8, words: &[&str]) -> Result<Plan, Refusal>
    ensures cases { MatchResult result
        (λ plan. AreInstalls harts (map (λ w. w.now) words.now) plan.installs)
        (WordsCause harts (map (λ w. w.now) words.now)) }
    ensures plain { IfOk result (λ plan. plan.script ≡ []) }
{
    let plan = Plan {
        installs: sets_of(alloc, words)?,
        script: Vec::new(alloc),
    };
    match first_refused(alloc, &plan, harts) {
        Ok(None) => Ok(plan),
        Ok(Some((index, why))) => Err(Refusal::Install {
            number: u64::from(index) + 1,
            refusal: install_refusal(why),
        }),
        Err(_) => Err(Refusal::OutOfMemory),
    }
}
