ghost use Rattle.ray_permitted.specs.Laws.{RunnableAreOrderly, OrdersSeparate, BarriersCarryOrder};
ghost use Rattle.ray_permitted.specs.Laws.{OrdersGoForward, SchedulesComeToTheRun};
ghost use Rattle.ray_permitted.specs.Laws.{UnrefusedBreakNoRule, RecordingComesToItsRun};
ghost use Rattle.ray_permitted.specs.Laws.{ActionsInTurnAreReady, ActionsInTurnReadTheSame};
ghost use Rattle.ray_permitted.specs.Laws.{SchedulesLeaveTheSame, RecordingOrderIsTheRun};
ghost use Rattle.ray_permitted.specs.Laws.{SomeArePermitted, LongestChainsRise};
ghost use Rattle.ray_permitted.specs.Laws.{LongestChainsSeparate};
ghost use Rattle.ray_permitted.specs.Laws.{WavesOfCommandsRun, WavesReadTheSame, WavesAreReady};
ghost use Rattle.ray_permitted.specs.Laws.{NumbersRise, OutcomesTellTheRun};
ghost use Rattle.ray_permitted.specs.Laws.{AtEachFetch, AtEachStore};

use ray_cmd::Recording;

/// A law: of accepted commands and an order that separates them, outcomes are told by what is read,
/// conflicting actions are ordered, and the order goes forward. An order in which what is covered
/// is ordered, and what stands before a `wait`, separates commands that break no rule; that of
/// barriers and waits is such an order. It does nothing. Own.
pub fn rules_give_order()
    ensures ordered { RunnableAreOrderly }
    ensures separate { OrdersSeparate }
    ensures barriers { BarriersCarryOrder }
{}

/// A law: every schedule of accepted commands that an order which separates them permits comes to
/// the run of recording order, and leaves its outcomes, its memory and its first fault. It does
/// nothing. Own.
pub fn schedules_come_to_the_run()
    ensures run { SchedulesComeToTheRun }
    ensures same { SchedulesLeaveTheSame }
    ensures order { RecordingOrderIsTheRun }
{}

/// A law: in an order that goes forward, as every order of commands does, recording order is
/// permitted, and so are waves whose numbers rise along the order, as those of the longest chains
/// do, which separate the commands besides. It does nothing. Own.
pub fn some_are_permitted()
    ensures permitted { SomeArePermitted }
    ensures forward { OrdersGoForward }
    ensures chains { LongestChainsRise }
    ensures separate { LongestChainsSeparate }
{}

/// A law: a run of commands in waves goes as in recording order, up to the first fault, each action
/// of a wave below that is ready there, and its outcomes tell the run. The numbers of waves may be
/// any that separate the commands. It does nothing. Own.
pub fn commands_run_in_waves()
    ensures waves { WavesOfCommandsRun }
    ensures rise { NumbersRise }
    ensures reads { WavesReadTheSame }
    ensures ready { WavesAreReady }
    ensures outcomes { OutcomesTellTheRun }
{}

/// A law: along a permitted schedule each fetch reads what its action reads in recording order, and
/// the action is ready there, where what it depends on gave an output. Each store still finds it
/// so. It does nothing. Own.
pub fn fetches_are_ready()
    ensures fetches { AtEachFetch }
    ensures stores { AtEachStore }
{}

/// A law: an action that may be asked for after what was done in turn is ready there, and reads
/// what it reads in recording order. What is asked is that the rules but V25 to V27 and V32 are
/// kept, that the earlier actions are stored which write what it reads or writes, and none of the
/// later ones that writes what it reads; and the same of each that was done. It does nothing. Own.
pub fn actions_in_turn_are_ready()
    ensures ready { ActionsInTurnAreReady }
    ensures reads { ActionsInTurnReadTheSame }
{}

/// A law: the commands of a recording before the one that is refused by the rules on the recording
/// alone, in some order, break no rule in that order, and so do all where none is refused. It does
/// nothing. Own.
pub fn unrefused_break_no_rule(rec: &Recording)
    ensures { UnrefusedBreakNoRule rec.now }
{
    rec.sources_law();
}

/// A law: every permitted schedule of all commands of a recording comes to its run, where none is
/// refused by the rules on the recording alone. It does nothing. Own.
pub fn recording_comes_to_its_run(rec: &Recording)
    ensures { RecordingComesToItsRun rec.now }
{
    rec.sources_law();
}
