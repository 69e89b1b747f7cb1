ghost use Rattle.ray_schedule.specs.Conflicts.{AreOrdered, IsForward, IsLocal};
ghost use Rattle.ray_schedule.specs.Laws.{EverySchedule, ArePermitted, WavesRun};
ghost use Rattle.ray_schedule.specs.Laws.{HoldsBelow, PartsArePermitted, FirstFaultBelow};

use crate::recorded::Recorded;

/// The law of schedules. Where each unit's outcome depends on what it reads alone, and conflicting
/// units are ordered, every permitted schedule has the outcomes, the memory and the first fault of
/// recording order, each fetch reads what it reads there, and each store still finds it.
pub fn every_schedule<R: Recorded>(recorded: &R)
    requires local { IsLocal (R.work recorded.now).device }
    requires ordered { let w = R.work recorded.now in AreOrdered w.device w.before w.count }
    ensures { EverySchedule (R.work recorded.now) }
{}

/// Which schedules are permitted: waves are, one after the other, whose numbers rise along the
/// order; and recording order is, where the order goes with it. So the law of schedules speaks of
/// some.
pub fn permitted_schedules<R: Recorded>(recorded: &R)
    requires { let w = R.work recorded.now in IsForward w.device w.before w.count }
    ensures { ArePermitted (R.work recorded.now) }
{}

/// A run in waves whose numbers rise along conflicts. Of each wave the units below a bound are
/// fetched, the bound comes down to the least faulty one, and those below it are stored. At the end
/// the bound is the first fault of recording order, whatever the waves met first.
pub fn runs_in_waves<R: Recorded>(recorded: &R)
    requires { IsLocal (R.work recorded.now).device }
    ensures { WavesRun (R.work recorded.now) }
{}

/// The commands below a number. All of this holds of their units alone, an order of these commands
/// alone permits the same, and the first fault is that of all where it is one of theirs.
pub fn first_commands<R: Recorded>(recorded: &R)
    requires local { IsLocal (R.work recorded.now).device }
    requires ordered { let w = R.work recorded.now in AreOrdered w.device w.before w.count }
    requires forward { let w = R.work recorded.now in IsForward w.device w.before w.count }
    ensures schedules { HoldsBelow EverySchedule (R.work recorded.now) }
    ensures permitted { HoldsBelow ArePermitted (R.work recorded.now) }
    ensures waves { HoldsBelow WavesRun (R.work recorded.now) }
    ensures parts { PartsArePermitted (R.work recorded.now) }
    ensures fault { FirstFaultBelow (R.work recorded.now) }
{}
