//! A law of pages: no page of a regular or an atomic register shows a stray read.

ghost use Rattle.pages.specs.Strays.{IsRegularOrAtomic};
ghost use Rattle.views.specs.Looks.{NeverShowsStray};

use frames::register::Register;

/// If a register is regular or atomic, and each step of each branch fits it, no look at a branch
/// shows a stray read: a read that gives neither the fresh value nor that of an overlapping write.
pub fn never_shows_stray<R: Register>(register: &R)
    ensures { IsRegularOrAtomic (R.behaviour register.now)
        → NeverShowsStray (R.behaviour register.now) }
{}
