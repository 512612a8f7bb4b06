//! Pages of slips, and their texts. Each function drops at most one page, since a page has many
//! variants.

use crate::registers::switch::Switch;
use std::alloc::{AllocError, Global};
use views::{Lens, Page, Slip, page_text};

/// The page that a slip gives through a new lens.
pub(crate) fn page_of(alloc: Global, slip: &Slip<Switch>) -> Result<Page, AllocError> {
    let mut lens = Lens::new(alloc)?;
    slip.page(alloc, &mut lens)
}

/// The text of a page.
pub(crate) fn text_of(alloc: Global, page: &Page) -> Result<Vec<u8>, AllocError> {
    page_text(alloc, 0, page)
}

/// The text of the page that a slip gives through a new lens.
pub(crate) fn text_of_slip(alloc: Global, slip: &Slip<Switch>) -> Result<Vec<u8>, AllocError> {
    let page = page_of(alloc, slip)?;
    text_of(alloc, &page)
}

/// The text of a page, and the text of the page that a slip of it gives.
pub(crate) fn both_texts(
    alloc: Global,
    page: Page,
) -> (Result<Vec<u8>, AllocError>, Result<Vec<u8>, AllocError>) {
    let text = text_of(alloc, &page);
    let slip = Slip::of(page);
    (text, text_of_slip(alloc, &slip))
}

/// Whether a text was made, and is the expected one.
pub(crate) fn is_text(found: &Result<Vec<u8>, AllocError>, text: &[u8]) -> bool {
    match found {
        Ok(found) => found.as_slice() == text,
        Err(_) => false,
    }
}
