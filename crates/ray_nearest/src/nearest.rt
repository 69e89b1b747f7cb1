ghost use Rattle.std.specs.Prelude.{◌≡◌, ◌+◌, ◌≤◌, IfOk, OnOk, None, option_map};
ghost use Rattle.ray_query.specs.Key.{commit_key, found_key, is_below, key_lt};
ghost use Rattle.ray_query.specs.Play.{play_one};
ghost use Rattle.ray_query.specs.Raw.{reduced_found};
ghost use Rattle.ray_nearest.specs.Answer.{answer_in};
ghost use Rattle.ray_nearest.specs.Scene.{IsScene, opened_in};
ghost use Rattle.ray_query.specs.Limits.{distance_of};
ghost use Rattle.ray_nearest.specs.Taking.{IsKnown, IsNext, Takes};
ghost use Rattle.ray_nearest.specs.TurnLaws.{turn_of};

use crate::scene::Scene;
use crate::turns::{Turns, is_within};
use crate::waiting::{Kept, Waiting};
use ray_flags::RayFlags;
use ray_geom::{Ratio, Steps};
use ray_query::{Client, Commit, Query, RawFound, parts_law, passing_law};
use std::alloc::AllocError as NoMemory;
use std::sync::ledger::Ledger;

/// What the trace of a ray commits in a scene: it opens nodes and plays what is found in rising
/// order of distance, and ends where all that waits is beyond the committed hit. None exactly where
/// the play of all that is found commits nothing. A step is taken for each primitive that is
/// tested, and these are no more than the primitives of opened leaves. Turns that wait in `turns`
/// are dropped; memory is taken for turns alone. `ray` is the ray's number in its trace. (Vulkan,
/// "Ray Traversal"; own: the order, and the bound.)
pub fn walk<S: Scene, C: Client, L: Ledger>(
    scene: &mut S,
    ray: u32,
    flags: RayFlags,
    client: &C,
    turns: &mut Turns,
    steps: &mut Steps<L>,
) -> Result<Option<Commit>, NoMemory>
    requires scene { IsScene (S.IsNode scene.old) (S.scene scene.old) }
    ensures answer { IfOk result (λ answer. answer
        ≡ answer_in (C.meaning client.now) ray flags (S.scene scene.old)) }
    ensures bound { IfOk result (λ answer. steps.new
        ≤ steps.old + opened_in (S.scene scene.old) (distance_of answer)) }
    ensures rising { steps.old ≤ steps.new }
    ensures kept { scene.new ≡ scene.old }
{
    passing_law();
    parts_law();
    turns.clear();
    scene.begin(turns)?;
    let mut query = Query::initialize(ray, flags);
    while let Some(turn) = next_turn(&query, turns) {
        take(scene, client, &mut query, turn, turns, steps)?;
    }
    Ok(query.committed())
}

// The next turn, if one is to be taken.
fn next_turn(query: &Query, turns: &mut Turns) -> Option<Waiting>
    ensures { IsNext query.now.state turns.old (option_map turn_of result) turns.new }
{
    if query.over() {
        return None;
    }
    let turn = turns.pop()?;
    if is_within(distance_of(query), turn.at) {
        Some(turn)
    } else {
        None
    }
}

// Takes a turn: opens a node, plays a candidate.
fn take<S: Scene, C: Client, L: Ledger>(
    scene: &mut S,
    client: &C,
    query: &mut Query,
    turn: Waiting,
    turns: &mut Turns,
    steps: &mut Steps<L>,
) -> Result<(), NoMemory>
    requires known { IsKnown (S.IsNode scene.old) (turn_of turn) }
    requires answered { query.old.asked ≡ None }
    ensures taken { OnOk result (Takes (C.meaning client.now) (S.scene scene.old) (turn_of turn)
        query.old turns.old steps.old query.new turns.new steps.new) }
    ensures rising { steps.old ≤ steps.new }
    ensures kept { scene.new ≡ scene.old }
{
    let Waiting { kept, .. } = turn;
    match kept {
        Kept::Node(node) => scene.open(node, distance_of(query), turns, steps),
        Kept::Candidate(found) => {
            play(query, client, &found);
            turns.keep(found);
            Ok(())
        }
    }
}

// Up to where the walk looks.
fn distance_of(query: &Query) -> Option<Ratio>
    ensures { result ≡ distance_of query.now.state.committed }
{
    let commit = query.committed()?;
    Some(Ratio::of(commit.t))
}

// Plays a candidate. It is put in lowest terms only where its key is below that of the committed
// hit: else it is passed over.
fn play<C: Client>(query: &mut Query, client: &C, found: &RawFound)
    requires { query.old.asked ≡ None }
    ensures { let q = query.old in
        let f = reduced_found found.now in
        query.new ≡ record q { state = play_one (C.meaning client.now) q.ray q.flags q.state f } }
{
    if is_below(query, found) {
        query.play_one(client, found.reduced());
    }
}

// Whether the key of what was found is below that of the committed hit, if there is one.
fn is_below(query: &Query, found: &RawFound) -> bool
    ensures { result ≡ is_below (found_key (reduced_found found.now)) query.now.state.committed }
{
    match query.committed() {
        Some(commit) => is_nearer(found, &commit),
        None => true,
    }
}

// Whether the key of what was found is below that of a committed hit.
fn is_nearer(found: &RawFound, commit: &Commit) -> bool
    ensures { result ≡ key_lt (found_key (reduced_found found.now)) (commit_key commit.now) }
{
    let geometry = found.geometry.cmp(&commit.found.geometry);
    let primitive = found.primitive.cmp(&commit.found.primitive);
    let instance = found.instance.cmp(&commit.found.instance);
    let distance = found.t.ratio().cmp(&Ratio::of(commit.t));
    distance
        .then(instance.then(geometry.then(primitive)))
        .is_lt()
}
