//! Makes commands from a branch and a place.

use frames::types::Step;
use schedule_trie::name::Name;
use sessions::command::Command;

pub(super) fn insert(branch: &Name, place: u32, step: Step) -> Command {
    Command::Insert {
        b: *branch,
        k: place,
        step,
    }
}

pub(super) fn remove(branch: &Name, place: u32) -> Command {
    Command::Remove {
        b: *branch,
        k: place,
    }
}

pub(super) fn replace(branch: &Name, place: u32, step: Step) -> Command {
    Command::Replace {
        b: *branch,
        k: place,
        step,
    }
}

pub(super) fn fork(branch: &Name, place: u32, name: &Name) -> Command {
    Command::Fork {
        b: *branch,
        k: place,
        name: *name,
    }
}

pub(super) fn detach(branch: &Name) -> Command {
    Command::Detach { b: *branch }
}

pub(super) fn drop_branch(branch: &Name) -> Command {
    Command::Drop { b: *branch }
}

pub(super) fn go(branch: &Name, place: u32) -> Command {
    Command::Go {
        b: *branch,
        k: place,
    }
}
