ghost use Rattle.std.specs.Prelude.{◌≡◌, Some, None};
ghost use Rattle.ray_geom.specs.Transform.{IsMatrix};
ghost use Rattle.ray_top.specs.Instances.{instance_from, matrix_from, told_instance};

use crate::instance::Instance;
use ray_bytes::InstanceRecord;
use ray_flags::InstanceFlags;
use ray_geom::Matrix;
use std::marker::Model;

/// An active instance as it is told, so that it can be lent. Contracts see it as its value.
#[derive(Debug, Drop)]
pub(crate) struct Placed {
    told: Instance,
}

impl Model for Placed {
    ghost use Rattle.std.specs.Prelude.{◌≡◌, true};
    ghost use Rattle.ray_top.specs.Instances.{InstanceValue, instance_value};

    ghost Value = { InstanceValue };

    ghost view = { λ p. instance_value p.told };

    ghost invariant = { λ p. p.told.active ≡ true };
}

impl Placed {
    // The instance of a record, with the id to which it refers.
    #[tactic(auto, unfolding(crate::specs::Instances::matrix_from))]
    pub(crate) fn new(from: &InstanceRecord, id: u32) -> Placed
        requires { IsMatrix (matrix_from from.now.rows) }
        ensures { result ≡ instance_from from.now id }
    {
        Placed {
            told: Instance {
                active: true,
                matrix: Matrix::of_words(from.rows),
                custom: from.custom,
                mask: from.mask,
                sbt: from.sbt,
                flags: InstanceFlags(from.flags % 16),
                id,
            },
        }
    }

    // The same instance.
    pub(crate) fn copy(&self) -> Placed
        ensures { result ≡ self.now }
    {
        Placed { told: self.told }
    }

    // The instance as it is told.
    pub(crate) fn told(&self) -> &Instance
        ensures { result.now ≡ told_instance (Some self.now) }
    {
        &self.told
    }

    // The id of its structure.
    pub(crate) fn id(&self) -> u32
        ensures { result ≡ self.now.id }
    {
        self.told.id
    }

    // Its transform.
    pub(crate) fn matrix(&self) -> &Matrix
        ensures { result.now ≡ self.now.matrix }
    {
        &self.told.matrix
    }
}

// An instance as it is told.
pub(crate) fn told(instance: &Option<Placed>) -> Instance
    ensures { result ≡ told_instance instance.now }
{
    match instance {
        Some(placed) => *placed.told(),
        None => inactive(),
    }
}

// The same instance.
pub(crate) fn copy(instance: &Option<Placed>) -> Option<Placed>
    ensures { result ≡ instance.now }
{
    match instance {
        Some(placed) => Some(placed.copy()),
        None => None,
    }
}

// What is told of an inactive instance.
fn inactive() -> Instance
    ensures { result ≡ told_instance None }
{
    Instance {
        active: false,
        matrix: Matrix::identity(),
        custom: 0,
        mask: 0,
        sbt: 0,
        flags: InstanceFlags(0),
        id: 0,
    }
}
