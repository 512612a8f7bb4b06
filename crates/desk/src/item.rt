//! The items of a journal's list: in contracts, a journal is a list of the desk's opening and the
//! logged calls.

use frames::register::Register;
use sessions::book::Book;
use sessions::log::Entry;

/// An item of a journal's list: the desk's opening, or a logged call. Only contracts use this type;
/// no value of it is ever made.
pub enum Item<R: Register> {
    /// The book as it was at the desk's opening. It is the first item.
    Opening(Book<R>),
    /// A logged call.
    Call(Entry),
}
