//! Names of branches.

ghost use Rattle.std.specs.Prelude.{◌≡◌, ◌≤◌, codes, length, nat_eq, IsTrue, refl};
ghost use Rattle.std.proofs.Common.{rules};
ghost use Rattle.std.specs.Hash as fed;
ghost use Rattle.std.specs.List.{list_all};
ghost use Rattle.std.specs.Cmp.Lexicographic.{pointwise, nat_list_eq_equiv};
ghost use Rattle.std.specs.Cmp.{partial_equiv_from_equiv};
ghost use Rattle.std.specs.Cmp.Rules.{hashing};
ghost use Rattle.branch_terms.specs.Names.{name_of_bytes, is_letter, is_letter_or_digit, is_well_formed};

use std::alloc::AllocError;
use std::hash::{Hash, Hasher};
use std::marker::Model;

/// The greatest length of a name, in bytes.
const MOST_BYTES: usize = 16;

/// A name of at most 16 bytes, stored inline. Contracts see its bytes.
#[derive(Debug, Drop)]
pub struct Name {
    bytes: [u8; MOST_BYTES],
    len: u32,
}

impl Model for Name {
    ghost use Rattle.std.specs.Prelude.{ℕ, List, length, take};
    ghost use Rattle.branch_terms.specs.Names.{IsPadded, padded};

    ghost Value = { List ℕ };

    ghost view = { λ n. take n.len n.bytes };

    ghost invariant = { λ n. IsPadded n.bytes n.len };

    ghost inverse = { λ l. record { bytes = padded l; len = length l } };

    ghost inverse_ok = { λ n h i. record { bytes = h.fills i; len = h.counted i } };
}

impl Copy for Name {}

impl Clone for Name {
    ghost is_clone = { λ name copy. copy ≡ name };

    fn clone(&self) -> Result<Name, AllocError> {
        Ok(*self)
    }
}

impl PartialEq for Name {
    ghost eq = { pointwise nat_eq };

    ghost laws = { partial_equiv_from_equiv nat_list_eq_equiv };

    fn eq(&self, other: &Name) -> bool {
        self.as_bytes() == other.as_bytes()
    }
}

impl Eq for Name {
    ghost laws = { nat_list_eq_equiv };
}

impl Hash for Name {
    ghost hash_input = { fed.slice fed.u8 };

    ghost respects_eq = { Prim.search (hashing, rules) };

    fn hash<H: Hasher>(&self, state: &mut H) {
        self.as_bytes().hash(state);
    }
}

impl Name {
    /// The name `main`, which `Trie::new` gives to the new trie's only branch.
    pub fn main() -> Name
        ensures { result ≡ codes "main" }
    {
        Name {
            bytes: *b"main\0\0\0\0\0\0\0\0\0\0\0\0",
            len: 4,
        }
    }

    /// The name with these bytes; `None` if there are more than 16.
    pub fn new(text: &[u8]) -> Option<Name>
        ensures { result ≡ name_of_bytes text.now }
    {
        if text.len() > MOST_BYTES {
            return None;
        }
        let mut bytes = [0; MOST_BYTES];
        bytes[..text.len()].copy_from_slice(text);
        Some(Name {
            bytes,
            len: text.len() as u32,
        })
    }

    /// The name's bytes, of which there are at most 16.
    pub fn as_bytes(&self) -> &[u8]
        ensures bytes { result.now ≡ self.now }
        ensures short { length self.now ≤ 16 }
    {
        &self.bytes[..self.len as usize]
    }

    /// Whether the name is a lower-case letter, followed by lower-case letters or digits only. A
    /// new branch's name has to have this form.
    pub fn is_well_formed(&self) -> bool
        ensures { result ≡ is_well_formed self.now }
    {
        match self.as_bytes() {
            [] => false,
            [first, rest @ ..] => is_letter(*first) && are_letters_or_digits(rest),
        }
    }
}

/// Whether a byte is a lower-case letter.
fn is_letter(byte: u8) -> bool
    ensures { result ≡ is_letter byte }
{
    b'a' <= byte && byte <= b'z'
}

/// Whether each byte is a lower-case letter or a digit.
fn are_letters_or_digits(bytes: &[u8]) -> bool
    ensures { result ≡ list_all is_letter_or_digit bytes.now }
{
    bytes.iter().all(|byte| is_letter(*byte) || (b'0' <= *byte && *byte <= b'9'))
}
