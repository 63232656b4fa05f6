//! Why a word or a script is refused.

ghost use Rattle.std.specs.Prelude.{◌≡◌};
ghost use Rattle.run_script.specs.Texts.{spec_text, script_text};

/// The rule that a head or an item breaks. `docs/formats.md` has the rules in their order.
#[derive(Clone, Copy, Debug, PartialEq, Eq)]
pub enum SpecRule {
    /// It is not in the grammar, whatever its numbers are, or a name in it is not.
    Name,
    /// A number is misspelt or out of range, or a quota is 0.
    Number,
    /// The first address is above the second.
    Range,
    /// The item's name stood before in its part.
    Repeat,
    /// The item does not go with the part's act.
    Place,
    /// A quota without an ask, or an ask without a quota.
    Pair,
    /// The 17th part.
    Subs,
    /// The third part that calls.
    Boxes,
}

impl SpecRule {
    /// Its text in a printed line.
    pub fn text(&self) -> &'static str
        ensures { result.now ≡ spec_text self.now }
    {
        match self {
            SpecRule::Name => "name",
            SpecRule::Number => "number",
            SpecRule::Range => "range",
            SpecRule::Repeat => "repeat",
            SpecRule::Place => "place",
            SpecRule::Pair => "pair",
            SpecRule::Subs => "subscriptions",
            SpecRule::Boxes => "boxes",
        }
    }
}

/// The first refusal of a word.
#[derive(Clone, Copy, Debug, PartialEq, Eq)]
pub struct SpecRefusal {
    /// The place of the first byte of the head or item at fault, in bytes from 1.
    pub column: u64,
    pub rule: SpecRule,
}

/// The rule that a field of a script's line breaks. `docs/formats.md` has the rules in their order.
#[derive(Clone, Copy, Debug, PartialEq, Eq)]
pub enum ScriptRule {
    /// A field is missing or surplus, is not one of its names, or has a byte that is not ASCII.
    Form,
    /// A number is empty, misspelt or out of range.
    Number,
    /// The moment is less than that of the line before.
    Backwards,
    /// The plug-in word breaks a rule of words.
    Word(SpecRule),
}

impl ScriptRule {
    /// Its text in a printed line.
    pub fn text(&self) -> &'static str
        ensures { result.now ≡ script_text self.now }
    {
        match self {
            ScriptRule::Form => "form",
            ScriptRule::Number => "number",
            ScriptRule::Backwards => "backwards",
            ScriptRule::Word(rule) => rule.text(),
        }
    }
}

/// The first refusal of a script.
#[derive(Clone, Copy, Debug, PartialEq, Eq)]
pub struct ScriptRefusal {
    /// The number of the line at fault, from 1.
    pub line: u64,
    /// The place of the first byte at fault in its line, in bytes from 1: that of the field, of the head or item in a
    /// word, or for a missing field the one after the line's last byte.
    pub column: u64,
    pub rule: ScriptRule,
}
