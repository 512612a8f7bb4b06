//! The jobs of a chart's plan (segments to replay), as jobs that a crew can run.

use crate::job;
use checkpoints::run::{Run, run_of_owned};
use cutoff::plan::Job;
use frames::register::Register;
use schedule_trie::trie::SegKey;
use std::alloc::{AllocError, Global};
use std::sync::Arc;

impl<R: Register> job::Runnable for Job<R> {
    ghost use Rattle.cutoff.specs.Plans.{key_of};
    ghost use Rattle.workers.specs.Segments.{IsRunOf};

    type Key = SegKey;

    type Run = Arc<Run<R>>;

    ghost named = { key_of };

    ghost gives = { IsRunOf };

    fn key(&self) -> SegKey {
        self.key
    }

    fn into_run(self, alloc: Global) -> Result<Arc<Run<R>>, AllocError> {
        let Self {
            key: _,
            entry,
            steps,
        } = self;
        let run = run_of_owned(alloc, entry, steps.into_vec())?;
        Ok(Arc::new(alloc, run)?)
    }
}
