ghost use Rattle.std.specs.Prelude.{◌≡◌, slice_get};
ghost use Rattle.ray_pipe.specs.HitGroup.{group_decision};
ghost use Rattle.ray_pipe.specs.Tables.{clients, table_at, table_in};

use crate::groups::Groups;
use ray_json::Listed;
use std::alloc::Global;
use std::marker::Model;

/// The tables of a recording's traces, the k-th for the k-th trace. Contracts see them as the list
/// of the tables, and of each command how many traces come before it. Own.
#[derive(Drop)]
pub struct Tables {
    groups: Listed<Groups>,
    counts: Vec<u32>,
    missing: Groups,
}

impl Model for Tables {
    ghost use Rattle.std.specs.Prelude.{◌≡◌};
    ghost use Rattle.ray_pipe.specs.HitGroup.{no_groups};
    ghost use Rattle.ray_pipe.specs.Tables.{TraceTables};

    ghost Value = { TraceTables };

    ghost view = { λ t. record { tables = t.groups; counts = t.counts.items } };

    ghost invariant = { λ t. t.missing ≡ no_groups };
}

impl Tables {
    pub(crate) fn new(alloc: Global, groups: Listed<Groups>, counts: Vec<u32>) -> Self
        ensures { result ≡ record { tables = groups; counts = counts.items } }
    {
        Tables {
            groups,
            counts,
            missing: Groups::new(0, 0, Vec::new(alloc)),
        }
    }

    /// The tables, at most 2^26, in the order of the traces.
    pub fn as_slice(&self) -> &[Groups]
        ensures { result.now ≡ self.now.tables }
    {
        self.groups.as_slice()
    }

    /// The client of command number `i`, from 0: the table of the trace that it is. For another
    /// command, which has no candidates, it is the table of the next trace, or, where there is
    /// none, one without groups, which ignores every candidate. Own.
    pub fn of_command(&self, i: u32) -> &Groups
        ensures table { result.now ≡ table_at self.now i }
        ensures client { group_decision result.now ≡ clients self.now i }
    {
        match self.counts.as_slice().get(i as usize) {
            Some(count) => self.table(*count),
            None => &self.missing,
        }
    }

    // Table number `k`, from 0, where it is there; else one without groups.
    fn table(&self, k: u32) -> &Groups
        ensures { result.now ≡ table_in (slice_get self.now.tables k) }
    {
        match self.groups.as_slice().get(k as usize) {
            Some(groups) => groups,
            None => &self.missing,
        }
    }
}
