//! A desk, which is a book guarded by a lock, and its calls.

ghost use Rattle.std.specs.Prelude.{◌≡◌, ◌≤◌, ◌<◌, ◌+◌, [], Ok, OnOk, IfOk, IfErr, MatchResult, length};
ghost use Rattle.frames.specs.Recorded.{AllFit};
ghost use Rattle.schedule_trie.specs.Forest.{IsRefused, opened};
ghost use Rattle.schedule_trie.specs.Forest as forests;
ghost use Rattle.schedule_trie.specs.declared.refusal.Refusal.TheVariants.{Memory};
ghost use Rattle.schedule_trie.specs.Limbs.{forest_of, loaded};
ghost use Rattle.cutoff.specs.Charts.{CanBegin, CanLoad};
ghost use Rattle.turn.specs.Shares.{HasAll, count, next_least};
ghost use Rattle.turn.specs.Histories.{IsJoined, OwnsItsCalls, with_news, kept, handed};
ghost use Rattle.turn.specs.Chairs.{view};
ghost use Rattle.pages.specs.Strays.{IsRegularOrAtomic, ShowsNoStray};
ghost use Rattle.sessions.specs.World.{opening_of_limbs, opening_of_steps};
ghost use Rattle.sessions.specs.Logs.{IsLegal};
ghost use Rattle.sessions.specs.Books.{opening_of};
ghost use Rattle.desk.specs.Items.{made_under};
ghost use Rattle.desk.specs.Histories.{seen};
ghost use Rattle.desk.specs.Works.{IsPaged, answer_at, answer_by};
ghost use Rattle.desk.specs.Chairs.{IsChairOf, IsNewDesk, Received, Looked, book_at_first};

use crate::act::Act;
use crate::journal::Journal;
use crate::look::Look;
use crate::receipt::{Answer, Receipt};
use frames::register::Register;
use frames::types::Step;
use schedule_trie::limb::Limb;
use schedule_trie::limits::Limits;
use schedule_trie::refusal::Refusal;
use sessions::book::Book;
use sessions::command::Command;
use sessions::log::Log;
use snapshots::Snapshot;
use std::alloc::Global;
use std::sync::Wait;
use turn::{ChairsOut, Turn};
use views::lens::Lens;
use views::page::Page;
use views::query::Query;
use views::slip::Slip;

/// One caller's part of a desk: some of the desk's 16 shares, and, for contracts alone, what the
/// chair knows of the desk's history.
pub type Chair<R> = turn::Chair<Journal<R>>;

/// A book guarded by one lock, the turn. Callers share the desk by reference; each has a chair. For
/// proofs, the desk also has the book that it opened with.
#[derive(Drop)]
pub struct Desk<R: Register> {
    pub(crate) turn: Turn<Journal<R>>,
    first: Snapshot<Book<R>>,
}

impl<R: Register> Desk<R> {
    /// Opens a desk, with one chair that holds all 16 shares. The desk's history is empty. The
    /// desk's one branch, `main`, has these steps, each of which has to fit the register. The
    /// register's initial value is `value`, which has to be one of its values. The limits have to
    /// be in their ranges.
    ///
    /// # Errors
    ///
    /// Full if there are more steps than the limit of cells; Memory if memory runs out.
    pub fn open(
        alloc: Global,
        register: R,
        value: u32,
        limits: Limits,
        steps: &[Step],
    ) -> Result<(Desk<R>, Chair<R>), Refusal>
        requires begins { CanBegin (R.behaviour register) value limits }
        requires fits { AllFit (R.behaviour register) steps.now }
        ensures new { let first = opening_of_steps (R.behaviour register) value limits steps.now in
            IfOk result (λ r. IsNewDesk R.behaviour first r.0 r.1) }
        ensures ok { OnOk result (opened limits steps.now ≡ Ok (forests.opening_forest steps.now)) }
        ensures err { IfErr result (IsRefused (opened limits steps.now)) }
    {
        let book = Book::new(alloc, register, value, limits, steps)?;
        Desk::over(alloc, book)
    }

    /// Opens a desk on a book whose log is empty, with one chair that holds all 16 shares.
    fn over(alloc: Global, book: Book<R>) -> Result<(Desk<R>, Chair<R>), Refusal>
        requires { book.log ≡ [] }
        ensures new { let first = opening_of R.behaviour book in
            IfOk result (λ r. IsNewDesk R.behaviour first r.0 r.1) }
        ensures err { IfErr result (λ e. e ≡ Memory) }
    {
        let first = Snapshot::of(&book);
        let journal = Journal::new(alloc, book)?;
        let Ok((turn, chair)) = Turn::new(alloc, journal) else {
            return Err(Refusal::Memory);
        };
        Ok((Desk { turn, first }, chair))
    }

    /// Opens a desk, with one chair that holds all 16 shares. The desk's history is empty. Each
    /// limb describes a branch of the desk: its name, how many cells it shares with which earlier
    /// branch, and its own steps. There has to be at least one limb. The limbs have to be lawful:
    /// the names are well-formed and all different, and a limb either shares no cells (and its
    /// `from` is 0), or shares an earlier branch's first cells, the last of which is one of that
    /// branch's own cells. The steps have to fit the register. The register's initial value is
    /// `value`, which has to be one of its values. The limits have to be in their ranges.
    ///
    /// # Errors
    ///
    /// Full if the limbs have more own steps in total than the limit of cells; else TooManyBranches
    /// if there are more limbs than the limit of branches; Memory if memory runs out.
    pub fn open_limbs(
        alloc: Global,
        register: R,
        value: u32,
        limits: Limits,
        limbs: &[Limb],
    ) -> Result<(Desk<R>, Chair<R>), Refusal>
        requires limbs { CanLoad (R.behaviour register) limbs.now }
        requires begins { CanBegin (R.behaviour register) value limits }
        ensures new { let first = opening_of_limbs (R.behaviour register) value limits limbs.now in
            IfOk result (λ r. IsNewDesk R.behaviour first r.0 r.1) }
        ensures ok { OnOk result (loaded limits limbs.now ≡ Ok (forest_of limbs.now)) }
        ensures err { IfErr result (IsRefused (loaded limits limbs.now)) }
    {
        let book = Book::load(alloc, register, value, limits, limbs)?;
        Desk::over(alloc, book)
    }

    /// Waits for the turn, and answers a session's command. The history that the call finds begins
    /// with what the chair had seen. The reply is the one that the command gets after this history,
    /// or Memory; if a guard `if_at` is given and differs from the edit count, the command is
    /// refused. If the reply is LogFull or Memory, the command isn't logged, and what commands see
    /// doesn't change. Otherwise the command is logged with its reply, under the chair's number.
    /// Afterwards the chair has seen the history found, followed by this call if the call was
    /// logged.
    pub fn act<W: Wait>(
        &self,
        rt: &W,
        alloc: Global,
        chair: &mut Chair<R>,
        session: u32,
        if_at: Option<u64>,
        command: &Command,
    ) -> Receipt
        requires { IsChairOf R.behaviour self.now chair.old }
        ensures chair { IsChairOf R.behaviour self.now chair.new }
        ensures received { Received R.behaviour (book_at_first self.now) session if_at command.now
            (view chair.old) (view chair.new) result }
        ensures owns { OwnsItsCalls made_under (view chair.new) }
    {
        let mut act = Act {
            alloc,
            session,
            if_at,
            command,
        };
        self.turn.with(rt, chair, &mut act)
    }

    /// Waits for the turn and looks. The answer has the page that the query asks for, or why the
    /// look is refused (there is no such branch or place, or the query is for the cursor of a
    /// session that doesn't exist or hasn't joined), or Memory. The answer also has the length of
    /// the history that the look found. The page is made after the turn is given back, but shows
    /// what the look found, whatever the lens (a cache) holds. On a regular or an atomic register
    /// the page shows no stray read. Afterwards the chair has seen the history that the look found;
    /// the look adds no call to this history.
    pub fn look<W: Wait>(
        &self,
        rt: &W,
        alloc: Global,
        chair: &mut Chair<R>,
        lens: &mut Lens<R>,
        query: Query,
    ) -> Answer
        requires { IsChairOf R.behaviour self.now chair.old }
        ensures chair { IsChairOf R.behaviour self.now chair.new }
        ensures looked { Looked R.behaviour (book_at_first self.now) query (view chair.old)
            (view chair.new) result }
        ensures never_stray { IsRegularOrAtomic
            (opening_of R.behaviour (book_at_first self.now)).tower
            → IfOk result.result ShowsNoStray }
        ensures owns { OwnsItsCalls made_under (view chair.new) }
    {
        let (at, slip) = self.slip(rt, alloc, chair, query);
        let result = paged(alloc, lens, slip);
        Answer { at, result }
    }

    /// Waits for the turn and looks, as `look` does, but makes no page. Returns the length of the
    /// history that the look found, and a slip, from which the page is made later; or why the look
    /// is refused, or Memory. So a caller can make its lens after it knows that there is a page.
    pub fn slip<W: Wait>(
        &self,
        rt: &W,
        alloc: Global,
        chair: &mut Chair<R>,
        query: Query,
    ) -> (u64, Result<Slip<R>, Refusal>)
        requires { IsChairOf R.behaviour self.now chair.old }
        ensures chair { IsChairOf R.behaviour self.now chair.new }
        ensures looked { Looked R.behaviour (book_at_first self.now) query (view chair.old)
            (view chair.new) (answer_at result.0 result.1) }
        ensures never_stray { IsRegularOrAtomic
            (opening_of R.behaviour (book_at_first self.now)).tower
            → IfOk (answer_by result.1) ShowsNoStray }
        ensures owns { OwnsItsCalls made_under (view chair.new) }
    {
        self.turn.with(rt, chair, &mut Look { alloc, query })
    }

    /// Reads how long the history is now, without waiting. The length is at least that of what the
    /// chair has seen, and at least each length that the chair has read before. The chair has seen
    /// no more of the history than before. (The length in the chair's view also counts the opening,
    /// hence the 1.)
    pub fn news(&self, chair: &mut Chair<R>) -> u64
        requires { IsChairOf R.behaviour self.now chair.old }
        ensures chair { IsChairOf R.behaviour self.now chair.new }
        ensures reported { view chair.new ≡ with_news (view chair.old) (result + 1) }
        ensures seen { length (seen (view chair.old)) ≤ result }
        ensures grows { (view chair.old).reported ≤ result + 1 }
    {
        self.turn.news(chair) - 1
    }

    /// Makes a new chair of this desk. The new chair gets `shares` of the shares of `chair` (at
    /// least one, and fewer than `chair` has), and the calls made under them. `chair` keeps its
    /// least share, whose number is also the chair's number. Of its other shares, it gives away the
    /// `shares` least ones. Both chairs have then seen what `chair` had seen.
    pub fn split(&self, chair: &mut Chair<R>, shares: u32) -> Chair<R>
        requires desk { IsChairOf R.behaviour self.now chair.old }
        requires some { 0 < shares }
        requires fewer { shares < count (view chair.old).shares }
        ensures chairs { IsChairOf R.behaviour self.now chair.new
            × IsChairOf R.behaviour self.now result }
        ensures kept { view chair.new ≡ kept made_under (next_least shares (view chair.old).shares)
            (view chair.old) }
        ensures given { view result ≡ handed made_under (next_least shares (view chair.old).shares)
            (view chair.old) }
        ensures owns { OwnsItsCalls made_under (view chair.new)
            × OwnsItsCalls made_under (view result) }
    {
        self.turn.split(chair, shares)
    }

    /// Moves the shares and calls of `other`, another chair of this desk, to `chair`, and reads the
    /// history's length. Of the histories that the two chairs had seen, the longer begins with the
    /// shorter; `chair` has then seen the longer.
    pub fn join(&self, chair: &mut Chair<R>, other: Chair<R>)
        requires { IsChairOf R.behaviour self.now chair.old × IsChairOf R.behaviour self.now other }
        ensures chair { IsChairOf R.behaviour self.now chair.new }
        ensures joined { IsJoined (view chair.old) (view other) (view chair.new) }
        ensures owns { OwnsItsCalls made_under (view chair.new) }
    {
        self.turn.join(chair, other);
    }

    /// Closes the desk and returns its log, if the chair holds all 16 shares. The log is the
    /// history that the chair has seen, and it is legal: each reply is the one that its command
    /// gets after the entries before it. If the chair lacks a share, the call is refused, and the
    /// error returns the desk and the chair unchanged.
    pub fn close(self, chair: Chair<R>) -> Result<Log, (ChairsOut, Desk<R>, Chair<R>)>
        requires { IsChairOf R.behaviour self chair }
        ensures { MatchResult result (λ log. HasAll (view chair).shares × (log ≡ seen (view chair))
            × IsLegal (opening_of R.behaviour (book_at_first self)) log)
            (λ r. (¬ HasAll (view chair).shares) × (r.1 ≡ self) × (r.2 ≡ chair)) }
    {
        let Desk { turn, first } = self;
        match turn.close(chair) {
            Ok(journal) => Ok(journal.into_log()),
            Err((out, turn, chair)) => Err((out, Desk { turn, first }, chair)),
        }
    }
}

/// Makes the page of a slip, without holding the turn. If the look is refused, returns that
/// refusal; if memory runs out, Memory.
fn paged<R: Register>(
    alloc: Global,
    lens: &mut Lens<R>,
    slip: Result<Slip<R>, Refusal>,
) -> Result<Page, Refusal>
    ensures { IsPaged (answer_by slip) result }
{
    let slip = slip?;
    let Ok(page) = slip.into_page(alloc, lens) else {
        return Err(Refusal::Memory);
    };
    Ok(page)
}
