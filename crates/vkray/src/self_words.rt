// The words of a self run.
ghost use Rattle.std.specs.Prelude.{◌≡◌, ◌↔◌, IfNone, IfSome, IsTrue, Some, codes, decimal};
ghost use Rattle.vkray.specs.declared.request.SelfRun.{SelfRun as ASelfRun};
ghost use Rattle.vkray.specs.Words.{AreOfSelfRun, AreOfSelfRunBy, AskBy, AsksSelfRun};

use crate::asked::MOST_WORKERS;
use crate::request::{Scene, SelfRun, is_scene, read_scene};
use crate::words::{is_number, is_text, is_within, read_number};

// The self run that the words ask for, where they do.
pub(crate) fn self_run_of(words: &[String]) -> Option<SelfRun>
    ensures asked { IfSome result (λ asked. AsksSelfRun words.now asked) }
    ensures none { IfNone result ((asked : ASelfRun) → ¬ AsksSelfRun words.now asked) }
{
    match numbers_of(words) {
        Some(asked) if asks_for(words, asked) => Some(asked),
        _ => None,
    }
}

// The numbers that stand where those of a self run stand, however they are spelled.
fn numbers_of(words: &[String]) -> Option<SelfRun>
    ensures { (asked : ASelfRun) → AsksSelfRun words.now asked → result ≡ Some asked }
{
    match words {
        [_, side, layers, rays] => {
            let scene = read_scene(side.as_str(), layers.as_str(), rays.as_str())?;
            Some(SelfRun { scene, workers: 1 })
        }
        [_, side, layers, rays, _, workers] => {
            let scene = read_scene(side.as_str(), layers.as_str(), rays.as_str())?;
            let workers = read_number(workers.as_str())?;
            Some(SelfRun { scene, workers })
        }
        _ => None,
    }
}

// Whether the words ask for this self run.
fn asks_for(words: &[String], asked: SelfRun) -> bool
    ensures { IsTrue result ↔ AsksSelfRun words.now asked }
{
    is_scene(asked.scene) && ask_by(words, asked)
}

// Whether the words ask for a self run by so many workers.
fn ask_by(words: &[String], asked: SelfRun) -> bool
    ensures { IsTrue result ↔ AskBy words.now asked }
{
    (asked.workers == 1 && are_of_self_run(words, asked.scene))
        || (is_within(asked.workers, MOST_WORKERS)
            && are_of_self_run_by(words, asked.scene, asked.workers))
}

// Whether the words are `selfrun` and the numbers of this scene.
fn are_of_self_run(words: &[String], scene: Scene) -> bool
    ensures { IsTrue result ↔ AreOfSelfRun words.now scene }
{
    match words {
        [op, side, layers, rays] => {
            spells(
                op.as_str(),
                side.as_str(),
                layers.as_str(),
                rays.as_str(),
                scene,
            )
        }
        _ => false,
    }
}

// Whether the words are those, `--workers` and this number.
fn are_of_self_run_by(words: &[String], scene: Scene, workers: u32) -> bool
    ensures { IsTrue result ↔ AreOfSelfRunBy words.now scene workers }
{
    match words {
        [op, side, layers, rays, option, number] => {
            spells(
                op.as_str(),
                side.as_str(),
                layers.as_str(),
                rays.as_str(),
                scene,
            ) && spells_workers(option.as_str(), number.as_str(), workers)
        }
        _ => false,
    }
}

// Whether four words are these.
fn spells(op: &str, side: &str, layers: &str, rays: &str, scene: Scene) -> bool
    ensures { IsTrue result ↔ ((op.now ≡ codes "selfrun") × (side.now ≡ decimal scene.side)
        × (layers.now ≡ decimal scene.layers) × (rays.now ≡ decimal scene.rays)) }
{
    is_text(op, "selfrun")
        && is_number(side, scene.side)
        && is_number(layers, scene.layers)
        && is_number(rays, scene.rays)
}

// Whether two words are these.
fn spells_workers(option: &str, number: &str, workers: u32) -> bool
    ensures { IsTrue result ↔ ((option.now ≡ codes "--workers") × (number.now ≡ decimal workers)) }
{
    is_text(option, "--workers") && is_number(number, workers)
}
