//! The lists of a block.

ghost use Rattle.std.specs.Prelude.{◌≡◌, ◌+◌, ◌*◌, ◌<◌, ◌^◌, ◌++◌, ℕ, List, true, length, flat_map, All, IfOk, OnOk, IsTrue};
ghost use Rattle.flat_model.specs.declared.events.Event.{Event};
ghost use Rattle.flat_model.specs.Image.{Program};
ghost use Rattle.block_finder.specs.Block.{IsBlock};
ghost use Rattle.event_walk.specs.Matches.{classes_of};
ghost use Rattle.event_walk.specs.Walk.{Walk};
ghost use Rattle.instr_lists.specs.Delivery.{each_walks};
ghost use Rattle.instr_lists.specs.Silence.{at_all, only_adds, is_silent, adds_alone, acts_each, AllAdd, word_slots, code_slots};
ghost use Rattle.instr_lists.specs.Sorts.{IsInside, LiesIn, access_sorts, site_sorts, other_sorts};
ghost use Rattle.instr_lists.specs.Lists.{IsPlaceOf, AreHeard};

use crate::lists::Lists;
use crate::slots::{Slot, push_slots};
use crate::sorts::Sort;
use block_finder::{Block, Site};
use flat_model::{NoMemory, SetSpec, Trace, What};
use std::alloc::Global;
use std::marker::Model;

/// For each event that steps in a block can give, which subscriptions of some sets hear it. A block that nothing listens to
/// holds no memory.
#[derive(Drop)]
pub struct BlockList {
    pc: u64,
    n: u32,
    lists: Lists,
    /// Where all acts add: those of a block that is gone through, one after the other.
    whole: Vec<Slot>,
    sites: Trace<Site>,
}

impl Model for BlockList {
    ghost use Rattle.std.specs.Prelude.{◌≡◌, ◌<◌, ◌^◌, true, length};
    ghost use Rattle.instr_lists.specs.Lists.{Listed};
    ghost use Rattle.instr_lists.specs.Silence.{at_all, only_adds, code_slots};
    ghost use Rattle.instr_lists.specs.Sorts.{sorts_of};

    ghost Value = { Listed };

    ghost view = { λ l. record { block = record { pc = l.pc; n = l.n; sites = l.sites.items }; sets = l.lists.sets } };

    ghost invariant = { λ l. (l.lists.sorts ≡ sorts_of l.sites.items) × (length l.sites.items ≡ l.n)
        × (at_all only_adds l.lists.sets l.lists.sorts ≡ true → l.whole.items ≡ code_slots l.lists.sets l.sites.items) };
}

/// The lists with those of a word of the block.
fn with_site(lists: Lists, site: &Site, sets: &[(u8, SetSpec)]) -> Result<Lists, NoMemory>
    requires sets { lists.sets ≡ sets.now }
    requires grows { lists.grows ≡ true }
    ensures with { IfOk result (λ l. l ≡ record lists { sorts = lists.sorts ++ site_sorts site.now }) }
{
    let (pc, class) = (site.pc, site.class);
    let lists = lists.with(Sort::Block { pc }, sets)?;
    let lists = lists.with(Sort::Insn { pc, class }, sets)?;
    with_accesses(lists, site, sets)
}

/// The lists with those of the accesses that a word can make: loads, stores and both.
fn with_accesses(lists: Lists, site: &Site, sets: &[(u8, SetSpec)]) -> Result<Lists, NoMemory>
    requires sets { lists.sets ≡ sets.now }
    requires grows { lists.grows ≡ true }
    ensures with { IfOk result (λ l. l ≡ record lists { sorts = lists.sorts ++ access_sorts site.now }) }
{
    let (pc, class) = (site.pc, site.class);
    let lists = lists.with(Sort::Mem { pc, class, rw: 1 }, sets)?;
    let lists = lists.with(Sort::Mem { pc, class, rw: 2 }, sets)?;
    lists.with(Sort::Mem { pc, class, rw: 3 }, sets)
}

/// The lists with those of the events that any step can give.
fn with_others(lists: Lists, sets: &[(u8, SetSpec)]) -> Result<Lists, NoMemory>
    requires sets { lists.sets ≡ sets.now }
    requires grows { lists.grows ≡ true }
    ensures with { IfOk result (λ l. l ≡ record lists { sorts = lists.sorts ++ other_sorts }) }
{
    let lists = lists.with(Sort::Init, sets)?;
    let lists = lists.with(Sort::Sys, sets)?;
    let lists = lists.with(Sort::SysRet, sets)?;
    lists.with(Sort::Exit, sets)
}

/// Appends the slots of words that are executed, one after the other.
fn push_words(sites: &[Site], sets: &[(u8, SetSpec)], slots: &mut Vec<Slot>) -> Result<(), NoMemory>
    ensures slots { OnOk result (slots.new.items ≡ slots.old.items ++ flat_map (word_slots sets.now) sites.now) }
{
    for site in sites {
        let (pc, class) = (site.pc, site.class);
        push_slots(sets, &Sort::Insn { pc, class }, slots)?;
    }
    Ok(())
}

/// The slots of a block that is gone through.
fn code_slots(alloc: Global, sites: &[Site], sets: &[(u8, SetSpec)]) -> Result<Vec<Slot>, NoMemory>
    ensures slots { IfOk result (λ slots. slots.items ≡ code_slots sets.now sites.now) }
{
    let mut slots = Vec::new(alloc);
    let Some(first) = sites.first() else {
        return Ok(slots);
    };
    push_slots(sets, &Sort::Block { pc: first.pc }, &mut slots)?;
    push_words(sites, sets, &mut slots)?;
    Ok(slots)
}

/// The slots of a block that is gone through, where all acts add; nothing where they don't.
fn whole_slots(
    alloc: Global,
    lists: &Lists,
    sites: &[Site],
    sets: &[(u8, SetSpec)],
) -> Result<Vec<Slot>, NoMemory>
    ensures slots { IfOk result (λ slots. at_all only_adds lists.now.sets lists.now.sorts ≡ true
        → slots.items ≡ code_slots sets.now sites.now) }
{
    if !lists.adds_alone() {
        return Ok(Vec::new(alloc));
    }
    code_slots(alloc, sites, sets)
}

/// Finds out which subscriptions of the sets hear which events of the block. Delivery needs that the block is what `find`
/// gives. It takes memory for the lists alone.
pub fn build(alloc: Global, block: &Block, sets: &[(u8, SetSpec)]) -> Result<BlockList, NoMemory>
    requires whole { length block.now.sites ≡ block.now.n }
    ensures built { IfOk result (λ list. list ≡ record { block = block.now; sets = sets.now }) }
{
    let mut lists = Lists::new(alloc, sets)?;
    let mut sites = Trace::new();
    for site in &block.sites {
        lists = with_site(lists, site, sets)?;
        sites = sites.and(site);
    }
    let lists = with_others(lists, sets)?.finished(alloc);
    let whole = whole_slots(alloc, &lists, &block.sites, sets)?;
    Ok(BlockList {
        pc: block.pc,
        n: block.n,
        lists,
        whole,
        sites,
    })
}

impl BlockList {
    /// Whether no subscription hears any event that steps in the block can give. Delivery of such events changes nothing,
    /// so that they need not be stored.
    #[inline]
    pub fn is_silent(&self) -> bool
        ensures silent { result ≡ is_silent self.now.block self.now.sets }
        ensures skips { IsTrue result → (image : Program) → IsBlock image self.now.block.pc self.now.block
            → (events : List Event) → All (λ e. LiesIn self.now.block e.what) events
            → (ws : List Walk) → each_walks (classes_of image) self.now.sets events ws ≡ ws }
    {
        self.lists.is_silent()
    }

    /// Whether all that is done at events which steps in the block can give is to add where the block starts or at a
    /// word. Such events need not be stored: `deliver_words` delivers them.
    #[inline]
    pub fn adds_alone(&self) -> bool
        ensures adds { result ≡ adds_alone self.now.block self.now.sets }
    {
        self.lists.adds_alone()
    }

    /// The address of the block, in bytes.
    #[inline]
    pub(crate) fn pc(&self) -> u64
        ensures pc { result ≡ self.now.block.pc }
    {
        self.pc
    }

    /// Which word of the block stands at `pc`, from 0.
    #[inline]
    fn word(&self, pc: u64) -> usize
        requires inside { IsInside self.now.block pc }
        ensures word { (k : ℕ) → pc ≡ self.now.block.pc + 4 * k → result ≡ k }
        ensures within { result < length self.now.block.sites }
        ensures small { result < 2 ^ 32 }
    {
        // The place is below this number, which bounds it.
        let _words = self.n;
        ((pc - self.pc) / 4) as usize
    }

    /// The place of an event's list.
    #[inline]
    fn place(&self, what: &What) -> usize
        requires lies { LiesIn self.now.block what.now }
        ensures place { IsPlaceOf self.now.block what.now result }
    {
        match *what {
            What::Block { pc, .. } => 5 * self.word(pc),
            What::Insn { pc, .. } => 5 * self.word(pc) + 1,
            What::Mem { pc, rw, .. } => 5 * self.word(pc) + 1 + usize::from(rw),
            What::Init => 5 * self.n as usize,
            What::Sys { .. } => 5 * self.n as usize + 1,
            What::SysRet { .. } => 5 * self.n as usize + 2,
            What::Exit { .. } => 5 * self.n as usize + 3,
        }
    }

    /// The subscriptions that hear an event.
    #[inline]
    pub(crate) fn slots(&self, what: &What) -> &[Slot]
        requires lies { LiesIn self.now.block what.now }
        ensures heard { AreHeard self.now what.now result.now }
    {
        self.lists.get(self.place(what))
    }

    /// How many words the block has.
    #[inline]
    pub fn words(&self) -> usize
        ensures words { result ≡ length self.now.block.sites }
    {
        self.n as usize
    }

    /// The subscriptions that hear a block that is gone through, in the order of its events, where all acts add.
    #[inline]
    pub(crate) fn whole_slots(&self) -> &[Slot]
        requires adds { adds_alone self.now.block self.now.sets ≡ true }
        ensures slots { result.now ≡ code_slots self.now.sets self.now.block.sites }
    {
        &self.whole
    }

    /// The subscriptions that hear that the block starts.
    #[inline]
    pub(crate) fn start_slots(&self) -> &[Slot]
        requires some { 0 < length self.now.block.sites }
        ensures heard { (n : ℕ) → AreHeard self.now (What.Block self.now.block.pc n) result.now }
        ensures add { adds_alone self.now.block self.now.sets ≡ true → AllAdd (acts_each self.now.sets) result.now }
    {
        self.lists.get(0)
    }

    /// The subscriptions that hear that word `k`, from 0, is executed.
    #[inline]
    pub(crate) fn word_slots(&self, k: usize) -> &[Slot]
        requires within { k < length self.now.block.sites }
        ensures heard { (word : ℕ) → AreHeard self.now (What.Insn (self.now.block.pc + 4 * k) word) result.now }
        ensures add { adds_alone self.now.block self.now.sets ≡ true → AllAdd (acts_each self.now.sets) result.now }
    {
        // The place is below five times this number, which bounds it.
        let _words = self.n;
        self.lists.get(5 * k + 1)
    }
}
