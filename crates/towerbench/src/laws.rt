//! Laws of towers in the words of pages: verdicts that are never stray, and linearizability.

ghost use Rattle.pages.specs.Linearizability.{IsLinearizable};
ghost use Rattle.views.specs.Looks.{NeverShowsStray};

use frames::register::Behaves;
use pages::laws::linearizable;
use towers::laws::{matrix_is_atomic, regular_is_regular, stamped_is_atomic, unary_is_regular};
use towers::{MatrixTower, RegularTower, StampedTower, UnaryTower};
use views::laws::never_shows_stray;

/// If each step of each branch fits the tower, then from any initial value no page of a regular,
/// unary or stamped tower shows a stray read: a read that gives neither the value written last
/// before it nor the value of a write that overlaps it.
pub fn pages_show_no_stray(bit: &RegularTower, number: &UnaryTower, register: &StampedTower)
    ensures regular { NeverShowsStray (⟦<RegularTower as Behaves>⟧.behaviour bit.now) }
    ensures unary { NeverShowsStray (⟦<UnaryTower as Behaves>⟧.behaviour number.now) }
    ensures stamped { NeverShowsStray (⟦<StampedTower as Behaves>⟧.behaviour register.now) }
{
    // for the proof: a regular bit is regular, so it never shows a stray read
    regular_is_regular(bit);
    never_shows_stray(bit);
    // for the proof: a unary number is regular, so it never shows a stray read
    unary_is_regular(number);
    never_shows_stray(number);
    // for the proof: a stamped register is atomic, so it never shows a stray read
    stamped_is_atomic(register);
    never_shows_stray(register);
}

/// A matrix tower is linearizable, in Herlihy and Wing's words. The clause says nothing of ranks.
pub fn matrix_is_linearizable(register: &MatrixTower)
    ensures { IsLinearizable (⟦<MatrixTower as Behaves>⟧.behaviour register.now) }
{
    matrix_is_atomic(register);
    linearizable(register);
}
