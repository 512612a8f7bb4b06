//! The first words of requests, and what each selects.

ghost use Rattle.std.specs.Prelude.{◌≡◌};
ghost use Rattle.script.specs.Lines as spec;

/// What the first word of a request selects: how the words after it are read.
#[derive(Clone, Copy)]
pub(crate) enum Verb {
    Look(LookVerb),
    Fill,
    Command(CommandVerb),
}

/// The looks, by their first words.
#[derive(Clone, Copy)]
pub(crate) enum LookVerb {
    Branches,
    Cursor,
    Steps,
    Process,
    State,
    Pending,
    Bits,
    History,
    Verdict,
}

/// The commands, by their first words.
#[derive(Clone, Copy)]
pub(crate) enum CommandVerb {
    Join,
    Leave,
    Seek,
    Back,
    Go,
    Break,
    Clear,
    Insert,
    Remove,
    Replace,
    Fork,
    Detach,
    Drop,
}

/// What a request's first word selects; `None` if no request without a guard begins with `word`.
pub(crate) fn verb_of(word: &[u8]) -> Option<Verb>
    ensures { result ≡ spec.verb_of word.now }
{
    // This `match` compiles to a comparison of the length, and then of the bytes one by one.
    match word {
        b"branches" => Some(Verb::Look(LookVerb::Branches)),
        b"cursor" => Some(Verb::Look(LookVerb::Cursor)),
        b"steps" => Some(Verb::Look(LookVerb::Steps)),
        b"process" => Some(Verb::Look(LookVerb::Process)),
        b"state" => Some(Verb::Look(LookVerb::State)),
        b"pending" => Some(Verb::Look(LookVerb::Pending)),
        b"bits" => Some(Verb::Look(LookVerb::Bits)),
        b"history" => Some(Verb::Look(LookVerb::History)),
        b"verdict" => Some(Verb::Look(LookVerb::Verdict)),
        b"fill" => Some(Verb::Fill),
        b"join" => Some(Verb::Command(CommandVerb::Join)),
        b"leave" => Some(Verb::Command(CommandVerb::Leave)),
        b"seek" => Some(Verb::Command(CommandVerb::Seek)),
        b"back" => Some(Verb::Command(CommandVerb::Back)),
        b"go" => Some(Verb::Command(CommandVerb::Go)),
        b"break" => Some(Verb::Command(CommandVerb::Break)),
        b"clear" => Some(Verb::Command(CommandVerb::Clear)),
        b"insert" => Some(Verb::Command(CommandVerb::Insert)),
        b"remove" => Some(Verb::Command(CommandVerb::Remove)),
        b"replace" => Some(Verb::Command(CommandVerb::Replace)),
        b"fork" => Some(Verb::Command(CommandVerb::Fork)),
        b"detach" => Some(Verb::Command(CommandVerb::Detach)),
        b"drop" => Some(Verb::Command(CommandVerb::Drop)),
        _ => None,
    }
}
