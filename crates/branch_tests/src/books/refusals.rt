//! Refusals are checked in order. In each test the command is refused for one reason, although the
//! next reason in its row of this table holds too.
//!
//! | Command | Its refusals, in order; at each, the next one holds too |
//! |---|---|
//! | `join`, `leave`, `seek`, `back`, `break` | LogFull, NoSession, Newer |
//! | `clear` | LogFull, NoSession, Newer, NoBreak |
//! | `go`, `remove` | LogFull, NoSession, Newer, NoBranch, NoPlace |
//! | `insert` | LogFull, NoSession, Newer, BadStep, NoBranch, NoPlace, Full |
//! | `replace` | LogFull, NoSession, Newer, BadStep, NoBranch, NoPlace |
//! | `fork` | LogFull, NoSession, Newer, NoBranch, NameTaken, NoPlace, TooManyBranches |
//! | `detach` | LogFull, NoSession, Newer, NoBranch, Full |
//! | `drop` | LogFull, NoSession, Newer, NoBranch, LastBranch, Occupied |
//!
//! A `fork` is also refused as BadName before NoPlace. NameTaken and BadName never hold together: a
//! name that is taken isn't a bad one.

ghost use Rattle.std.specs.Prelude.{◌<◌};

use super::commands::{detach, drop_branch, fork, go, insert, remove, replace};
use super::{Ask, first_wrong_in_new_book};
use crate::given::{GO, READ, name, none_wrong};
use frames::types::Step;
use schedule_trie::limits::Limits;
use schedule_trie::name::Name;
use schedule_trie::refusal::Refusal;
use sessions::command::Command;
use sessions::reply::Reply;
use views::breakpoint::Break;

/// A step that doesn't fit: process 1 doesn't write.
const BAD: Step = Step::Write { p: 1, v: 0 };

/// Three edits and a fork, each at its first place past the end of a branch of `cells` cells.
fn past_the_end(branch: &Name, cells: u32, step: Step, name: &Name) -> [Command; 4]
    requires { cells < 100 }
{
    [
        insert(branch, cells + 1, step),
        remove(branch, cells),
        replace(branch, cells, step),
        fork(branch, cells + 1, name),
    ]
}

/// Commands that any session may give. For each but `join`, a reason for refusal that is checked
/// after the guard holds too.
fn open_commands(main: &Name, zed: &Name) -> [Command; 7] {
    [
        Command::Join,
        insert(zed, 9, BAD),
        remove(zed, 9),
        replace(zed, 9, BAD),
        fork(zed, 9, main),
        detach(zed),
        drop_branch(zed),
    ]
}

/// Commands that only a session that has joined may give. For `go` and `clear`, a reason for
/// refusal that is checked after the guard holds too; the others have no such reason.
fn own_commands(zed: &Name) -> [Command; 6] {
    [
        Command::Leave,
        go(zed, 9),
        Command::Seek,
        Command::Back,
        Command::Break(Break::Void),
        Command::Clear(Break::Void),
    ]
}

/// Commands to give with a guard that fails: those of any session, and those of one that has
/// joined.
#[derive(Drop)]
struct Early {
    open: [Command; 7],
    own: [Command; 6],
}

/// The commands to give with a guard that fails; `zed` is the name of no branch.
fn early_commands(main: &Name, zed: &Name) -> Early {
    Early {
        open: open_commands(main, zed),
        own: own_commands(zed),
    }
}

/// Rows for a log that is full after one command.
fn full_rows(early: &Early) -> [Ask<'_>; 8] {
    [
        Ask::Replies(Command::Join, Reply::Joined),
        Ask::HasLogged(1),
        Ask::Refuses(Command::Join, Refusal::LogFull),
        Ask::RefusesEach(16, &early.open, Refusal::LogFull),
        Ask::RefusesEach(16, &early.own, Refusal::LogFull),
        Ask::RefusesEach(5, &early.open, Refusal::LogFull),
        Ask::RefusesEach(5, &early.own, Refusal::LogFull),
        Ask::HasLogged(1),
    ]
}

#[test]
fn a_log_of_one_entry(rt: HostRuntime) {
    let commands = early_commands(&name(&rt, b"main"), &name(&rt, b"zed"));
    let limits = Limits {
        cells: 8,
        branches: 2,
        log: 1,
    };
    let rows = full_rows(&commands);
    none_wrong(
        &rt,
        first_wrong_in_new_book(rt.alloc(), limits, &[], &rows, 1),
    );
}

/// Commands that are refused late, for a reason that is checked after their guards. The book has
/// one branch and three cells, the most that its limits allow, and session 0's cursor is on the
/// branch. The commands `missing_branch` name a branch that isn't there, and the commands
/// `missing_place` a place; `others` are refused for the reasons given with them.
#[derive(Drop)]
struct Late {
    missing_branch: [Command; 4],
    missing_place: [Command; 4],
    others: [(Command, Refusal); 13],
}

/// The commands that are refused late; `zed` is the name of no branch, `new` that of a branch to be
/// forked, and `bad` no name of a new branch.
fn late_commands(main: &Name, zed: &Name, new: &Name, bad: &Name) -> Late {
    let others = [
        (insert(zed, 9, BAD), Refusal::BadStep),
        (replace(zed, 9, BAD), Refusal::BadStep),
        (detach(zed), Refusal::NoBranch),
        (drop_branch(zed), Refusal::NoBranch),
        (go(zed, 9), Refusal::NoBranch),
        (fork(main, 4, main), Refusal::NameTaken),
        (fork(main, 4, bad), Refusal::BadName),
        (go(main, 4), Refusal::NoPlace),
        (insert(main, 3, READ), Refusal::Full),
        (detach(main), Refusal::Full),
        (drop_branch(main), Refusal::LastBranch),
        (fork(main, 3, new), Refusal::TooManyBranches),
        (Command::Clear(Break::Void), Refusal::NoBreak),
    ];
    Late {
        missing_branch: past_the_end(zed, 9, READ, main),
        missing_place: past_the_end(main, 3, READ, new),
        others,
    }
}

/// Commands to give with a guard that fails, and commands that are refused late.
#[derive(Drop)]
struct Refused {
    early: Early,
    late: Late,
}

/// Rows for each reason, from the earliest to the latest.
fn rows_in_order(refused: &Refused) -> [Ask<'_>; 11] {
    [
        Ask::Replies(Command::Join, Reply::Joined),
        Ask::RefusesEach(16, &refused.early.open, Refusal::NoSession),
        Ask::RefusesEach(16, &refused.early.own, Refusal::NoSession),
        Ask::RefusesEach(5, &refused.early.open, Refusal::Newer(0)),
        Ask::RefusesEach(5, &refused.early.own, Refusal::NoSession),
        Ask::RefusesEach(0, &refused.early.open, Refusal::Newer(0)),
        Ask::RefusesEach(0, &refused.early.own, Refusal::Newer(0)),
        Ask::RefusesUnguarded(&refused.late.missing_branch, Refusal::NoBranch),
        Ask::RefusesUnguarded(&refused.late.missing_place, Refusal::NoPlace),
        Ask::RefusesAll(&refused.late.others),
        Ask::HasLogged(61),
    ]
}

#[test]
fn refusals_in_order(rt: HostRuntime) {
    let (main, zed) = (name(&rt, b"main"), name(&rt, b"zed"));
    let limits = Limits {
        cells: 3,
        branches: 1,
        log: 64,
    };
    let refused = Refused {
        early: early_commands(&main, &zed),
        late: late_commands(&main, &zed, &name(&rt, b"a"), &name(&rt, b"9x")),
    };
    let rows = rows_in_order(&refused);
    none_wrong(
        &rt,
        first_wrong_in_new_book(rt.alloc(), limits, &[READ, GO, GO], &rows, 61),
    );
}
