//! The report of a fill: how its jobs, which are segments to replay, ended.

ghost use Rattle.std.specs.Prelude.{◌≡◌, ◌<◌, ◌≤◌, ◌+◌, ◌^◌, MatchOption};
ghost use Rattle.std.specs.Bool.{Decides};
ghost use Rattle.desk.specs.Reports.{IsIdle, IsSum, sum_of_reports, report_with, no_jobs};

use cutoff::install::Installation;

/// How many jobs (segments to replay) a fill planned, and how they ended.
#[derive(Clone, Copy, Debug, PartialEq, Eq)]
pub struct Report {
    /// How many jobs were planned: the sum of the four other counts.
    pub planned: u64,
    /// How many jobs gave a run that was installed.
    pub installed: u64,
    /// How many runs weren't installed because they didn't fit, or because a segment above theirs
    /// had no stored run that fitted.
    pub stale: u64,
    /// How many runs weren't installed because their segment no longer existed.
    pub gone: u64,
    /// How many jobs ran out of memory, and so gave no run.
    pub memory: u64,
}

impl Report {
    /// The report of a fill that has no jobs: all its counts are 0.
    pub(crate) fn new() -> Report
        ensures { result ≡ no_jobs }
    {
        Report {
            planned: 0,
            installed: 0,
            stale: 0,
            gone: 0,
            memory: 0,
        }
    }

    /// Whether no job gave a run: there was no job, or each job ran out of memory.
    pub(crate) fn is_idle(&self) -> bool
        ensures { Decides result (IsIdle self.now) }
    {
        self.memory == self.planned
    }

    /// Adds one more planned job, and counts its run as installed, stale or gone, as `answer` says.
    /// If `answer` is `None`, the job is counted as out of memory.
    pub(crate) fn add(&mut self, answer: Option<Installation>)
        requires sum { IsSum self.old }
        requires room { self.old.planned + 1 < 2 ^ 64 }
        ensures { self.new ≡ report_with answer self.old }
    {
        self.planned += 1;
        match answer {
            Some(Installation::Installed) => self.installed += 1,
            Some(Installation::Stale) => self.stale += 1,
            Some(Installation::Gone) => self.gone += 1,
            None => self.memory += 1,
        }
    }

    /// The sum of two reports, count by count; `None` if the number of planned jobs overflows 64
    /// bits.
    pub(crate) fn plus(self, other: Report) -> Option<Report>
        requires { IsSum self × IsSum other }
        ensures { MatchOption result (2 ^ 64 ≤ self.planned + other.planned)
            (λ sum. sum ≡ sum_of_reports self other) }
    {
        Some(Report {
            planned: self.planned.checked_add(other.planned)?,
            installed: self.installed.checked_add(other.installed)?,
            stale: self.stale.checked_add(other.stale)?,
            gone: self.gone.checked_add(other.gone)?,
            memory: self.memory.checked_add(other.memory)?,
        })
    }
}
