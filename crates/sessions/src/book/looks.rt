//! Looks at a book: what a session asks to see.

ghost use Rattle.std.specs.Prelude.{◌≡◌, Some, Ok, OnOk, IfOk, IfErr};
ghost use Rattle.schedule_trie.specs.Forest.{IsRefused};
ghost use Rattle.pages.specs.Strays.{ShowsNoStray};
ghost use Rattle.sessions.specs.Logs.{world_after};
ghost use Rattle.sessions.specs.Looks.{looked_in, shown_in};
ghost use Rattle.sessions.specs.Books.{opening_of};

use super::Book;
use crate::cursor::SESSIONS;
use frames::register::Register;
use schedule_trie::listed::Listed;
use schedule_trie::refusal::Refusal;
use std::alloc::Global;
use views::branches::branches_page;
use views::page::Page;
use views::page::cursor::CursorPage;
use views::query::Query;
use views::slip::Slip;

impl<R: Register> Book<R> {
    /// Looks at all branches.
    pub(super) fn look_at_branches(&self, alloc: Global) -> Result<Slip<R>, Refusal>
        ensures page { let w = world_after (opening_of R.behaviour self.now) self.now.log in
            IfOk result (λ slip. Some slip.page ≡ shown_in w Query.Branches) }
        ensures no_stray { IfOk result (λ slip. ShowsNoStray slip.page) }
        ensures err { IfErr result (λ e. e ≡ Refusal.Memory) }
    {
        let page = branches_page(alloc, self.workspace.edits, &self.workspace.chart)?;
        Ok(Slip::of(Page::Branches(page)))
    }

    /// Looks at a session's cursor, and at its breaks.
    pub(super) fn look_at_cursor(&self, alloc: Global, who: u32) -> Result<Slip<R>, Refusal>
        ensures page { let w = world_after (opening_of R.behaviour self.now) self.now.log in
            IfOk result (λ slip. Some slip.page ≡ shown_in w (Query.Cursor who)) }
        ensures no_stray { IfOk result (λ slip. ShowsNoStray slip.page) }
        ensures found { let w = world_after (opening_of R.behaviour self.now) self.now.log in
            OnOk result (looked_in w (Query.Cursor who) ≡ Ok w.forest) }
        ensures err { let w = world_after (opening_of R.behaviour self.now) self.now.log in
            IfErr result (IsRefused (looked_in w (Query.Cursor who))) }
    {
        let index = who as usize;
        if index >= SESSIONS {
            return Err(Refusal::NoSession);
        }
        let Some(cursor) = self.workspace.cursors[index] else {
            return Err(Refusal::NoSession);
        };
        let breaks = Vec::from_slice(alloc, self.workspace.breaks[index].as_slice())?;
        let breaks = Listed::new(breaks);
        let branch = cursor.branch;
        let place = cursor.place;
        Ok(Slip::of(Page::Cursor(CursorPage {
            branch,
            place,
            breaks,
        })))
    }
}
