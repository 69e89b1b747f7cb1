ghost use Rattle.ray_ready.specs.Laws.{AcceptedHaveScripts, ActionsAreReady};
ghost use Rattle.ray_ready.specs.Laws.{KeptAreAccepted, ReadinessIsLocal};
ghost use Rattle.ray_ready.specs.Laws.{ReadyIsDefined, RunsAreKnown, SourcesAreEnough};
ghost use Rattle.ray_ready.specs.Laws.{UnrefusedKeepRules};

use ray_cmd::Recording;

/// A law: each action of a command that may be run is ready in its turn, as long as every action
/// before it gave an output. It does nothing. Own.
pub fn actions_are_ready()
    ensures { ActionsAreReady }
{}

/// A law: the same where only those actions gave an output whose writes it reads, and those whose
/// writes these read, and so on, while others may have broken a data rule. It does nothing. Own.
pub fn sources_are_enough()
    ensures { SourcesAreEnough }
{}

/// A law: an action that is ready in a memory gives an output there, or breaks a data rule. It does
/// nothing. Own.
pub fn ready_is_defined()
    ensures { ReadyIsDefined }
{}

/// A law: of two memories that hold the same where an action reads, it is ready in both or in none.
/// It does nothing. Own.
pub fn readiness_is_local()
    ensures { ReadinessIsLocal }
{}

/// A law: the run of the first commands of a recording, where they may be run, comes to a text or
/// to a refusal. It does nothing. Own.
pub fn runs_are_known()
    ensures { RunsAreKnown }
{}

/// A law: each command before the one that is refused by the rules on the recording alone, in
/// whatever order of its commands, keeps the static rules, and so does each where none is refused.
/// It does nothing. Own.
pub fn unrefused_keep_rules()
    ensures { UnrefusedKeepRules }
{}

/// A law: the script of each command that may be run is one. It does nothing. Own.
pub fn accepted_have_scripts()
    ensures { AcceptedHaveScripts }
{}

/// A law: of a recording, the commands below a number may be run where they keep the static rules.
/// It does nothing. Own.
pub fn kept_are_accepted(rec: &Recording)
    ensures { KeptAreAccepted rec.now }
{
    rec.sources_law();
}
