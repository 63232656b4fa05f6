//! What a single word is.

ghost use Rattle.std.specs.Prelude.{◌≡◌, option_map};
ghost use Rattle.command_words.specs.Words.{is_empty, is_plain, verb_named, option_named, front, back, named_sort, sort_of, value_in};

/// What the first word of a command line names.
#[derive(Clone, Copy, Debug, PartialEq, Eq)]
pub enum Verb {
    Run,
    Replay,
    Blocks,
    Disas,
    Generated,
}

/// The name of an option.
#[derive(Clone, Copy, Debug, PartialEq, Eq)]
pub enum OptionName {
    Harts,
    Limit,
    Start,
    Script,
    Journal,
}

/// What a word before `--` is, as far as the word itself tells.
#[derive(Clone, Copy, Debug, PartialEq, Eq)]
pub enum Sort {
    /// Neither empty nor beginning with `-`: a plain word, or the value of the option before it.
    Plain,
    /// `--`: the words after it are plain.
    End,
    /// The name of an option, whose value is the next word.
    Bare { name: OptionName },
    /// The name of an option with its value after `=`.
    Valued { name: OptionName },
    /// None of these.
    Wrong,
}

/// Whether a word is neither empty nor begins as an option does.
pub fn is_plain(word: &str) -> bool
    ensures { result ≡ is_plain word.now }
{
    match word.as_bytes() {
        [] => false,
        [first, ..] => *first != b'-',
    }
}

/// The command of this name.
pub fn verb_named(word: &str) -> Option<Verb>
    ensures { result ≡ verb_named word.now }
{
    match word {
        "run" => Some(Verb::Run),
        "replay" => Some(Verb::Replay),
        "blocks" => Some(Verb::Blocks),
        "disas" => Some(Verb::Disas),
        "self" => Some(Verb::Generated),
        _ => None,
    }
}

fn option_named(word: &str) -> Option<OptionName>
    ensures { result ≡ option_named word.now }
{
    match word {
        "--harts" => Some(OptionName::Harts),
        "--limit" => Some(OptionName::Limit),
        "--start" => Some(OptionName::Start),
        "--script" => Some(OptionName::Script),
        "--journal" => Some(OptionName::Journal),
        _ => None,
    }
}

// What stands before the first `=`, and what stands after it, where there is one.
fn cut(word: &str) -> (&str, Option<&str>)
    ensures front { result.0.now ≡ front word.now }
    ensures back { option_map (λ text. text.now) result.1 ≡ back word.now }
{
    match word.split_once('=') {
        None => (word, None),
        Some((name, value)) => (name, Some(value)),
    }
}

fn named_sort(name: Option<OptionName>, value: Option<&str>) -> Sort
    ensures { result ≡ named_sort name (option_map (λ text. text.now) value.entry) }
{
    match (name, value) {
        (None, _) => Sort::Wrong,
        (Some(name), None) => Sort::Bare { name },
        (Some(name), Some(value)) => {
            if value.is_empty() {
                Sort::Wrong
            } else {
                Sort::Valued { name }
            }
        }
    }
}

/// What a word before `--` is.
#[tactic(auto, unfolding(crate::specs::Words::sort_of))]
pub fn sort_of(word: &str) -> Sort
    ensures { result ≡ sort_of word.now }
{
    if is_plain(word) {
        return Sort::Plain;
    }
    if word == "--" {
        return Sort::End;
    }
    let (name, value) = cut(word);
    named_sort(option_named(name), value)
}

/// The value that a word has after `=`: empty where it has none.
#[tactic(auto, unfolding(crate::specs::Words::value_in))]
pub fn value_in(word: &str) -> &str
    ensures { result.now ≡ value_in word.now }
{
    match cut(word) {
        (_, None) => "",
        (_, Some(value)) => value,
    }
}
