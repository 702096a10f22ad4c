//! How many threads a run has, and how much room their mailboxes.

ghost use Rattle.std.specs.Prelude.{◌≡◌, ◌+◌, ◌*◌, ◌≤◌, IfSome, IfNone};
ghost use Rattle.split_run.specs.declared.TheConstants.{MOST_THREADS};
ghost use Rattle.split_run.specs.Plans.{IsPlan};

use crate::{MOST_NODES, MOST_THREADS};
use std::marker::Model;

/// The threads of a run and the room between them. It has no bearing on what a run answers.
#[derive(Clone, Copy, Debug, PartialEq, Eq)]
pub struct Plan {
    /// How many workers divide usage lines.
    pub(crate) workers: u64,
    /// How many readers keep the statements.
    pub(crate) readers: u64,
    /// How many nodes each worker has, in each mailbox or, in a pool, for all of them together.
    pub(crate) nodes: u64,
}

impl Model for Plan {
    ghost use Rattle.split_run.specs.Plans.{IsPlan, Planned};

    ghost Value = { Planned };

    ghost view = { λ plan. record { workers = plan.workers; readers = plan.readers; nodes = plan.nodes } };

    ghost inverse = { λ planned. record { workers = planned.workers; readers = planned.readers; nodes = planned.nodes } };

    ghost invariant = { λ plan. IsPlan (record { workers = plan.workers; readers = plan.readers; nodes = plan.nodes }) };
}

impl Plan {
    /// The plan with so many workers and readers, 1 to 8 each, and so many nodes, 1 to 64.
    pub fn new(workers: u64, readers: u64, nodes: u64) -> Option<Plan>
        ensures some { IfSome result (λ plan. (plan ≡ record { workers = workers; readers = readers; nodes = nodes }) × IsPlan plan) }
        ensures none { IfNone result (¬ IsPlan (record { workers = workers; readers = readers; nodes = nodes })) }
    {
        let threads = 1..=MOST_THREADS;
        if threads.contains(&workers)
            && threads.contains(&readers)
            && (1..=MOST_NODES).contains(&nodes)
        {
            Some(Plan {
                workers,
                readers,
                nodes,
            })
        } else {
            None
        }
    }

    /// How many threads a run has, workers and readers, 2 to 16.
    pub fn thread_count(self) -> u64
        ensures count { result ≡ self.workers + self.readers }
        ensures range { (2 ≤ result) × (result ≤ 2 * MOST_THREADS) }
    {
        self.workers + self.readers
    }
}
