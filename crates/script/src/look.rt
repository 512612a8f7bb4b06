//! Reading a look, and the branches and places of a line. A function that reads words returns
//! `None` if they don't spell what it reads.

ghost use Rattle.std.specs.Prelude.{◌≡◌, IfSome};
ghost use Rattle.words.specs.Words.{after_next};
ghost use Rattle.script.specs.Lines as spec;

use crate::verb::LookVerb;
use schedule_trie::name::Name;
use views::query::Query;
use words::number::{number, one_number};
use words::parts::Parts;

/// Reads a look of this session. `words` are the words after the look's first word.
pub(crate) fn look_of(session: u32, verb: LookVerb, words: &mut Parts<'_>) -> Option<Query>
    ensures { result ≡ spec.look_of session verb words.old }
{
    match verb {
        LookVerb::Branches => words.is_end().then_some(Query::Branches),
        LookVerb::Cursor => words.is_end().then_some(Query::Cursor { who: session }),
        LookVerb::Steps => only_branch(words).map(|b| Query::Steps { b }),
        LookVerb::Process => {
            let (b, k) = place_in(words)?;
            one_number(words).map(|p| Query::Process { b, k, p })
        }
        LookVerb::State => branch_and_place(words).map(|(b, k)| Query::State { b, k }),
        LookVerb::Pending => branch_and_place(words).map(|(b, k)| Query::Pending { b, k }),
        LookVerb::Bits => branch_and_place(words).map(|(b, k)| Query::Bits { b, k }),
        LookVerb::History => branch_and_place(words).map(|(b, k)| Query::History { b, k }),
        LookVerb::Verdict => branch_and_place(words).map(|(b, k)| Query::Verdict { b, k }),
    }
}

/// Reads the name of a branch, which must be the last word of the line.
pub(crate) fn only_branch(words: &mut Parts<'_>) -> Option<Name>
    ensures { result ≡ spec.only_branch words.old }
{
    let branch = branch(words.next())?;
    words.is_end().then_some(branch)
}

/// Reads a branch's name and a place, which must be the last two words of the line.
pub(crate) fn branch_and_place(words: &mut Parts<'_>) -> Option<(Name, u32)>
    ensures { result ≡ spec.branch_and_place words.old }
{
    let branch = branch(words.next())?;
    let place = one_number(words)?;
    Some((branch, place))
}

/// Reads a branch's name and a place; more words may follow them.
pub(crate) fn place_in(words: &mut Parts<'_>) -> Option<(Name, u32)>
    ensures place { result ≡ spec.place_in words.old }
    ensures left { IfSome result (λ p. words.new ≡ after_next (after_next words.old)) }
{
    let branch = branch(words.next())?;
    let place = number(words.next())?;
    Some((branch, place))
}

/// These bytes as the name of a branch; `None` unless there are 1 to 16 bytes.
fn branch(word: &[u8]) -> Option<Name>
    ensures { result ≡ spec.branch_word word.now }
{
    if word.is_empty() {
        return None;
    }
    Name::new(word)
}
