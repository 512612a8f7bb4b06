//! What one line adds to a question.

ghost use Rattle.std.specs.Prelude.{◌≡◌, ◌≢◌, ◌==◌, ◌<◌, [], true, None, Some, Ok, Err, OnOk, OnErr, IfErr, IfOk, IfSome, OnSome, length, slice_get};
ghost use Rattle.std.specs.List.{list_all, list_any};
ghost use Rattle.question_file.specs.declared.fault.QuestionFaultKind.TheVariants.{BadProcess, BadAfter, BadStop, BadMost};
ghost use Rattle.question_file.specs.Faults.{out_of_memory_kind};
ghost use Rattle.question_file.specs.Asked.{lists_of};
ghost use Rattle.question_file.specs.Parsed.{as_asked};
ghost use Rattle.question_file.specs.Lines as spec;
ghost use Rattle.tower_file.specs.Towers.{is_lawful_tower, suits};
ghost use Rattle.words.specs.Words.{words, next, after_next};

use crate::fault::{OUT_OF_MEMORY, QuestionFaultKind};
use crate::file::QuestionFile;
use answers::find::MOST_STATES;
use answers::question::{After, NthOp};
use frames::roles::HasRoles;
use frames::types::Op;
use std::alloc::{AllocError, Global};
use tower_file::TowerSpec;
use words::number::{four_numbers, number, one_number};
use words::parts::Parts;
use words::step::is_word;
use words::text::{push_bytes, push_text};

/// The tower file that has this line as its tower and no steps. It is made because `tower_file`
/// parses whole files only.
fn tower_file_of(alloc: Global, line: &[u8]) -> Result<Vec<u8>, AllocError>
    ensures { IfOk result (λ text. text.items ≡ spec.tower_file_of line.now) }
{
    let mut text = Vec::new(alloc);
    push_text(&mut text, "tower 1\n")?;
    push_bytes(&mut text, line)?;
    push_text(&mut text, "\n")?;
    Ok(text)
}

/// The lawful tower that a line spells, or the line's fault.
pub(crate) fn tower_in(alloc: Global, line: &[u8]) -> Result<TowerSpec, QuestionFaultKind>
    ensures tower { IfOk result (λ tower. spec.tower_in line.now ≡ Ok tower) }
    ensures lawful { IfOk result (λ tower. is_lawful_tower tower ≡ true) }
    ensures fault { IfErr result (λ k. k ≢ out_of_memory_kind → spec.tower_in line.now ≡ Err k) }
{
    let Ok(text) = tower_file_of(alloc, line) else {
        return Err(OUT_OF_MEMORY);
    };
    match tower_file::parse(alloc, &text) {
        Ok(file) => Ok(file.tower),
        Err(fault) => Err(QuestionFaultKind::Shared(fault.kind)),
    }
}

/// Takes the words of the next operation; `None` if they spell none.
fn next_operation(words: &mut Parts<'_>) -> Option<Op>
    ensures op { result ≡ spec.next_operation words.old }
    ensures left { OnSome result (words.new ≡ spec.after_operation words.old) }
{
    match words.next() {
        b"r" => Some(Op::Read),
        b"w" => number(words.next()).map(Op::Write),
        _ => None,
    }
}

/// The operations that the words spell; `None` if they spell none.
#[tactic(auto, using(crate::proofs::OperationLoop::operation_read, crate::proofs::OperationLoop::no_operation_read, crate::proofs::OperationLoop::no_words_left, crate::proofs::OperationLoop::fewer_words))]
fn operations(alloc: Global, words: &mut Parts<'_>) -> Result<Option<Vec<Op>>, AllocError>
    ensures some { IfOk result (λ list. IfSome list (λ list.
        spec.operations_from [] words.old ≡ Some list.items)) }
    ensures none { result ≡ Ok None → spec.operations_from [] words.old ≡ None }
{
    let mut list = Vec::new(alloc);
    'words: while !words.is_end() {
        let Some(op) = next_operation(words) else {
            return Ok(None);
        };
        let Ok(()) = list.push(op) else {
            return Err(AllocError);
        };
    }
    Ok(Some(list))
}

/// Whether each operation fits process `p` of the tower.
fn all_suit(tower: &TowerSpec, p: u32, list: &[Op]) -> bool
    ensures { result ≡ list_all (suits tower.now p) list.now }
{
    list.iter().all(|op| tower.suits(p, *op))
}

impl QuestionFile {
    /// Whether process `p` exists and has no operations yet.
    fn is_free(&self, p: u32) -> bool
        ensures { result ≡ spec.is_empty_list
            (slice_get (as_asked self.now).operations p) }
    {
        match self.question.operations.get(p as usize) {
            Some(list) => list.is_empty(),
            None => false,
        }
    }

    /// Whether process `p` has an operation `index`.
    fn has_operation(&self, p: u32, index: u32) -> bool
        ensures { result ≡ spec.has_operation (as_asked self.now) p index }
    {
        match self.question.operations.get(p as usize) {
            Some(list) => (index as usize) < list.len(),
            None => false,
        }
    }

    /// Gives process `p` these operations in place of its own.
    #[tactic(auto, using(crate::proofs::ListsOfOperations::put_list))]
    fn put(&mut self, p: u32, list: Vec<Op>)
        requires { p < length self.old.question.operations.items }
        ensures { as_asked self.new ≡ spec.with_list (as_asked self.old) p list.items }
    {
        self.question.operations[p as usize] = list;
    }

    /// Adds the operations of a line `process`, given the words after the first.
    fn take_process(
        &mut self,
        alloc: Global,
        words: &mut Parts<'_>,
    ) -> Result<(), QuestionFaultKind>
        ensures { spec.Takes BadProcess (spec.with_operations (as_asked self.old) words.old)
            (as_asked self.new) result }
    {
        let Some(p) = number(words.next()) else {
            return Err(QuestionFaultKind::BadProcess);
        };
        let Ok(list) = operations(alloc, words) else {
            return Err(OUT_OF_MEMORY);
        };
        let Some(list) = list else {
            return Err(QuestionFaultKind::BadProcess);
        };
        if !self.is_free(p) || list.is_empty() || !all_suit(&self.tower, p, &list) {
            return Err(QuestionFaultKind::BadProcess);
        }
        self.put(p, list);
        Ok(())
    }

    /// Adds what a line `after` says, given the words after the first.
    fn take_after(&mut self, words: &mut Parts<'_>) -> Result<(), QuestionFaultKind>
        ensures { spec.Takes BadAfter (spec.with_after (as_asked self.old) words.old)
            (as_asked self.new) result }
    {
        let Some((p, i, q, j)) = four_numbers(words) else {
            return Err(QuestionFaultKind::BadAfter);
        };
        if !self.has_operation(p, i) || !self.has_operation(q, j) {
            return Err(QuestionFaultKind::BadAfter);
        }
        let after = After {
            later: NthOp {
                process: p,
                index: i,
            },
            earlier: NthOp {
                process: q,
                index: j,
            },
        };
        let Ok(()) = self.question.after.push(after) else {
            return Err(OUT_OF_MEMORY);
        };
        Ok(())
    }

    /// Lets the process of a line `stop` stop, given the words after the first.
    fn take_stop(&mut self, words: &mut Parts<'_>) -> Result<(), QuestionFaultKind>
        ensures { spec.Takes BadStop (spec.with_stop (as_asked self.old) words.old)
            (as_asked self.new) result }
    {
        let Some(p) = one_number(words) else {
            return Err(QuestionFaultKind::BadStop);
        };
        if p as usize >= self.question.operations.len() || self.may_stop(p) {
            return Err(QuestionFaultKind::BadStop);
        }
        let Ok(()) = self.question.may_stop.push(p) else {
            return Err(OUT_OF_MEMORY);
        };
        Ok(())
    }

    /// Whether process `p` may stop.
    fn may_stop(&self, p: u32) -> bool
        ensures { result ≡ list_any (λ r. p == r) (as_asked self.now).may_stop }
    {
        self.question.may_stop.iter().any(|r| p == *r)
    }

    /// Keeps the number of a line `most`, given the words after the first.
    fn take_most(&mut self, words: &mut Parts<'_>) -> Result<(), QuestionFaultKind>
        ensures taken { OnOk result
            (spec.with_most (as_asked self.old) words.old ≡ Some (as_asked self.new)) }
        ensures kind { IfErr result (λ k. k ≡ BadMost) }
        ensures fault { OnErr result (spec.with_most (as_asked self.old) words.old ≡ None) }
    {
        let Some(most) = one_number(words) else {
            return Err(QuestionFaultKind::BadMost);
        };
        if self.most.is_some() || most < 1 || most > MOST_STATES {
            return Err(QuestionFaultKind::BadMost);
        }
        self.most = Some(most);
        Ok(())
    }

    /// Adds what a line says that isn't a tower's line or a comment.
    pub(crate) fn take_line(&mut self, alloc: Global, line: &[u8]) -> Result<(), QuestionFaultKind>
        ensures taken { OnOk result
            (spec.with_entry (as_asked self.old) (words line.now) ≡ Ok (as_asked self.new)) }
        ensures fault { IfErr result (λ k. k ≢ out_of_memory_kind
            → spec.with_entry (as_asked self.old) (words line.now) ≡ Err k) }
    {
        let mut words = Parts::new(line, b' ');
        let name = words.next();
        if is_word(name, "process") {
            return self.take_process(alloc, &mut words);
        }
        if is_word(name, "after") {
            return self.take_after(&mut words);
        }
        if is_word(name, "stop") {
            return self.take_stop(&mut words);
        }
        if is_word(name, "most") {
            return self.take_most(&mut words);
        }
        Err(QuestionFaultKind::BadLine)
    }
}
