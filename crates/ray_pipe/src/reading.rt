ghost use Rattle.serde_json.specs.View.{view};
ghost use Rattle.ray_pipe.specs.Reading.{Answers, counted, tables_of};

use crate::entries::listed_tables;
use crate::fault::TableFault;
use crate::groups::Groups;
use crate::tables::Tables;
use crate::traces::{Traces, traces_of};
use ray_cmd::Recording;
use ray_json::Listed;
use serde_json::Value;
use std::alloc::Global;

/// Reads a JSON value as the tables of a recording's traces: a list whose k-th entry belongs to the
/// k-th `trace`, an object of exactly `offset` and `stride`, each from 0 to 15, and `scripts`, a
/// list of at most 4,096 scripts. Own.
///
/// # Errors
///
/// `BadTable(k)` where entry `k` is the first that is outside this shape, holds a script that
/// `script_of` refuses, or belongs to a trace with a script of its own; where none is, but there
/// are more or fewer entries than traces, `k` is the lesser of the two numbers; and it is 0 where
/// the value is no list. `NoMemory` may come on any value.
pub fn read_tables(alloc: Global, value: &Value, rec: &Recording) -> Result<Tables, TableFault>
    ensures { Answers result (tables_of rec.now (view value.now)) }
{
    let Traces { scripted, counts } = traces_of(alloc, rec)?;
    let groups = listed_tables(alloc, &scripted, value)?;
    counted(alloc, &scripted, counts, groups)
}

// The tables, where there are as many as traces.
fn counted(
    alloc: Global,
    scripted: &[bool],
    counts: Vec<u32>,
    groups: Listed<Groups>,
) -> Result<Tables, TableFault>
    ensures { Answers result (counted scripted.now counts.items groups) }
{
    let count = groups.as_slice().len();
    if count == scripted.len() {
        Ok(Tables::new(alloc, groups, counts))
    } else {
        Err(TableFault::BadTable(count.min(scripted.len()) as u32))
    }
}
