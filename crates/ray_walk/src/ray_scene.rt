ghost use Rattle.std.specs.Prelude.{◌≡◌};
ghost use Rattle.ray_walk.specs.WideScene.{IsWideNode, wide_scene};

use crate::aim::Aim;
use crate::held::Held;
use crate::opening::{begin, open};
use crate::view::View;
use ray_geom::{Matrix, Ratio, Steps, object_ray};
use ray_nearest::{NoMemory, Scene, Turns, WalkNode};
use std::marker::Model;
use std::sync::ledger::Ledger;

/// What a walk looks at for one ray. It keeps the ray in the world, and the instance at which it
/// looked last.
#[derive(Drop)]
pub(crate) struct RayScene<'a> {
    view: View<'a>,
    world: Aim,
    held: Option<Held<'a>>,
}

impl<'a> Model for RayScene<'a> {
    ghost use Rattle.ray_walk.specs.Scenes.{IsKeeping};
    ghost use Rattle.ray_walk.specs.Traced.{Traced};

    ghost Value = { Traced };

    ghost view = { λ s. s.view };

    ghost invariant = { λ s. IsKeeping s.view s.world s.held };
}

impl<'a> RayScene<'a> {
    /// The scene of a view.
    pub(crate) fn new(view: View<'a>) -> RayScene<'a>
        ensures { result ≡ view.entry }
    {
        let world = Aim::new(object_ray(view.ray(), &Matrix::identity()));
        RayScene {
            view,
            world,
            held: None,
        }
    }
}

impl<'a> Scene for RayScene<'a> {
    ghost IsNode = { λ s. IsWideNode s };

    ghost scene = { λ s. wide_scene s };

    fn begin(&mut self, turns: &mut Turns) -> Result<(), NoMemory> {
        begin(&self.view, &mut self.world, &mut self.held, turns)
    }

    fn open<L: Ledger>(
        &mut self,
        node: WalkNode,
        limit: Option<Ratio>,
        turns: &mut Turns,
        steps: &mut Steps<L>,
    ) -> Result<(), NoMemory> {
        open(
            &self.view,
            &mut self.world,
            &mut self.held,
            node,
            limit,
            turns,
            steps,
        )
    }
}
