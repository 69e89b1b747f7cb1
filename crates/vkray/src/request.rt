ghost use Rattle.std.specs.Prelude.{◌≡◌, ◌<◌, ◌↔◌, IfNone, IfSome, IsTrue, Some, codes, decimal};
ghost use Rattle.ray_scene.specs.Grid.{IsScene};
ghost use Rattle.vkray.specs.declared.request.Scene.{Scene as AScene};
ghost use Rattle.vkray.specs.Words.{AreWords, AsksFor, IsGenerating, Requests};

use crate::asked::Asked;
use crate::self_words::self_run_of;
use crate::words::{is_number, is_text, is_within, read_number};

/// How large a made-up scene is. (Own.)
#[derive(Clone, Copy, Debug, PartialEq, Eq)]
pub struct Scene {
    /// The cells of a side of the grid, 1 to 256.
    pub side: u32,
    /// The layers of triangles, 1 to 4.
    pub layers: u32,
    /// The rays, 1 to 65,536.
    pub rays: u32,
}

/// The self run of a made-up scene. (Own.)
#[derive(Clone, Copy, Debug, PartialEq, Eq)]
pub struct SelfRun {
    /// The scene.
    pub scene: Scene,
    /// How many may fetch pieces at once, 1 to 64: 1 where none is said.
    pub workers: u32,
}

/// What the words after the program's name ask for. (Own.)
#[derive(Clone, Copy, Debug, PartialEq, Eq)]
pub enum Request {
    /// `run`, `check`, `queues` or `groups`: something of the input.
    Input(Asked),
    /// `gen SIDE LAYERS RAYS`: the recording of a made-up scene. No input is read.
    Generate(Scene),
    /// `selfrun SIDE LAYERS RAYS`, or the same with `--workers N` after it: the counts of what the
    /// run of that recording commits. No input is read.
    RunSelf(SelfRun),
}

impl Request {
    // What the words ask for. None where they are none of the program's.
    pub(crate) fn of_words(words: &[String]) -> Option<Request>
        ensures asked { IfSome result (λ request. Requests words.now request) }
        ensures bad { IfNone result (¬ AreWords words.now) }
    {
        match Asked::of_words(words) {
            Some(asked) => Some(Request::Input(asked)),
            None => match scene_of(words) {
                Some(scene) => Some(Request::Generate(scene)),
                None => match self_run_of(words) {
                    Some(asked) => Some(Request::RunSelf(asked)),
                    None => None,
                },
            },
        }
    }
}

// The scene whose recording the words ask for, where they do.
fn scene_of(words: &[String]) -> Option<Scene>
    ensures asked { IfSome result (λ scene. AsksFor words.now scene) }
    ensures none { IfNone result ((scene : AScene) → ¬ AsksFor words.now scene) }
{
    match numbers_of(words) {
        Some(scene) if asks_for(words, scene) => Some(scene),
        _ => None,
    }
}

// The numbers that stand in the last three of four words, however they are spelled.
fn numbers_of(words: &[String]) -> Option<Scene>
    ensures { (scene : AScene) → AsksFor words.now scene → result ≡ Some scene }
{
    match words {
        [_, side, layers, rays] => read_scene(side.as_str(), layers.as_str(), rays.as_str()),
        _ => None,
    }
}

// The numbers that three words spell.
pub(crate) fn read_scene(side: &str, layers: &str, rays: &str) -> Option<Scene>
    ensures { (scene : AScene) → IsScene scene.side scene.layers scene.rays
        → side.now ≡ decimal scene.side → layers.now ≡ decimal scene.layers
        → rays.now ≡ decimal scene.rays → result ≡ Some scene }
{
    let side = read_number(side)?;
    let layers = read_number(layers)?;
    let rays = read_number(rays)?;
    Some(Scene { side, layers, rays })
}

// Whether the words ask for the recording of this scene.
fn asks_for(words: &[String], scene: Scene) -> bool
    ensures { IsTrue result ↔ AsksFor words.now scene }
{
    is_scene(scene) && is_generating(words, scene)
}

// Whether a scene is within the limits.
pub(crate) fn is_scene(scene: Scene) -> bool
    ensures { IsTrue result ↔ IsScene scene.side scene.layers scene.rays }
{
    is_within(scene.side, 256) && is_within(scene.layers, 4) && is_within(scene.rays, 65_536)
}

// Whether the words are `gen` and the numbers of this scene.
fn is_generating(words: &[String], scene: Scene) -> bool
    ensures { IsTrue result ↔ IsGenerating words.now scene }
{
    match words {
        [op, side, layers, rays] => {
            spells(
                op.as_str(),
                side.as_str(),
                layers.as_str(),
                rays.as_str(),
                scene,
            )
        }
        _ => false,
    }
}

// Whether four words are these.
fn spells(op: &str, side: &str, layers: &str, rays: &str, scene: Scene) -> bool
    ensures { IsTrue result ↔ ((op.now ≡ codes "gen") × (side.now ≡ decimal scene.side)
        × (layers.now ≡ decimal scene.layers) × (rays.now ≡ decimal scene.rays)) }
{
    is_text(op, "gen")
        && is_number(side, scene.side)
        && is_number(layers, scene.layers)
        && is_number(rays, scene.rays)
}
