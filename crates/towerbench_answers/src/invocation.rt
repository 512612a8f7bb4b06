//! What the words after the program's name ask for.

ghost use Rattle.std.specs.Prelude.{◌≡◌, ◌&&◌, not, map};
ghost use Rattle.std.specs.String.{string_bytes};
ghost use Rattle.towerbench_answers.specs.Words as spec;

/// What the words ask for.
#[derive(Clone, Copy, Debug, PartialEq, Eq)]
pub enum AnswersInvocation<'a> {
    /// To answer the question in the file at this path.
    File(&'a str),
    /// The help.
    Help,
    /// Nothing that the program can do: there are several words, or one begins with `-` and isn't
    /// an option of the program.
    Nothing,
}

/// What the words ask for. No words, or the one word `--help` or `-h`, ask for the help. Several
/// words, or any other single word that begins with `-`, ask for nothing. Any other single word is
/// a path.
pub fn read_words(words: &[String]) -> AnswersInvocation<'_>
    ensures asked { spec.IsAnswersInvocation (map string_bytes words.entry.now) result }
    ensures refused { spec.is_nothing result
        ≡ spec.are_refused (map string_bytes words.entry.now) }
{
    let Some((word, others)) = words.split_first() else {
        return AnswersInvocation::Help;
    };
    if !others.is_empty() {
        return AnswersInvocation::Nothing;
    }
    read_word(word.as_str())
}

/// What a single word asks for.
fn read_word(word: &str) -> AnswersInvocation<'_>
    ensures asked { spec.IsAnswersInvocationOfWord word.entry.now result }
    ensures refused { spec.is_nothing result
        ≡ (spec.is_option word.entry.now && not (spec.is_help word.entry.now)) }
{
    if word == "--help" || word == "-h" {
        return AnswersInvocation::Help;
    }
    if word.starts_with("-") {
        return AnswersInvocation::Nothing;
    }
    AnswersInvocation::File(word)
}
