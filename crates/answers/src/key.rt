//! What a search keeps of a state.

ghost use Rattle.std.specs.Prelude.{◌≡◌, nat_eq, IfOk};
ghost use Rattle.std.proofs.Common.{rules};
ghost use Rattle.std.specs.Hash as fed;
ghost use Rattle.std.specs.Cmp.Lexicographic.{pointwise, nat_list_eq_equiv};
ghost use Rattle.std.specs.Cmp.{partial_equiv_from_equiv};
ghost use Rattle.std.specs.Cmp.Rules.{hashing};
ghost use Rattle.answers.specs.Packing.{state_bytes};

use crate::packing::bytes_of;
use crate::state::State;
use frames::register::Register;
use std::alloc::{AllocError, Global};
use std::hash::{Hash, Hasher};
use std::marker::Model;

/// A state, packed: its bytes, which differ from those of other states. Contracts see the bytes.
#[derive(Drop)]
pub struct StateKey {
    bytes: Vec<u8>,
}

impl Model for StateKey {
    ghost use Rattle.std.specs.Prelude.{ℕ, List};

    ghost Value = { List ℕ };

    ghost view = { λ k. k.bytes.items };
}

impl PartialEq for StateKey {
    ghost eq = { pointwise nat_eq };

    ghost laws = { partial_equiv_from_equiv nat_list_eq_equiv };

    fn eq(&self, other: &StateKey) -> bool {
        self.as_bytes() == other.as_bytes()
    }
}

impl Eq for StateKey {
    ghost laws = { nat_list_eq_equiv };
}

impl Hash for StateKey {
    ghost hash_input = { fed.slice fed.u8 };

    ghost respects_eq = { Prim.search (hashing, rules) };

    fn hash<H: Hasher>(&self, state: &mut H) {
        self.as_bytes().hash(state);
    }
}

impl StateKey {
    /// The key of a state. `AllocError` if memory runs out.
    pub(crate) fn of<R: Register>(alloc: Global, state: &State<R>) -> Result<StateKey, AllocError>
        ensures { IfOk result (λ k. k
            ≡ state_bytes (R.behaviour state.now.configuration.register) state.now) }
    {
        let bytes = bytes_of(alloc, &state.config, state.answers())?;
        Ok(StateKey { bytes })
    }

    /// The bytes of the state.
    fn as_bytes(&self) -> &[u8]
        ensures { result.now ≡ self.now }
    {
        &self.bytes
    }
}
