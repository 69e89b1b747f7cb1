ghost use Rattle.std.specs.Prelude.{◌≡◌, IfOk, OnOk, OnErr, [], length, slice_get, option_copied, false};
ghost use Rattle.ray_geometries.specs.Contents.{bounds_of, total_of, active_of, kind_of, count_of};
ghost use Rattle.ray_geometries.specs.Contents.{IsContents, IsGeometry, HasRoom, has_both_fast};
ghost use Rattle.ray_geometries.specs.Contents.{with_geometry};

use crate::geometry::Geometry;
use ray_flags::BuildFlags;
use ray_geom::Box3;
use std::alloc::{AllocError as NoMemory, Global};
use std::marker::Model;

/// The contents of a bottom structure, with what is counted of them: their bounds, how many
/// primitives there are, and how many are active. Contracts see the flags and the geometries alone.
/// (Vulkan, "Acceleration Structures")
#[derive(Drop)]
pub struct Contents {
    flags: BuildFlags,
    geometries: Vec<Geometry>,
    bounds: Option<Box3>,
    total: u32,
    active: u32,
}

impl Model for Contents {
    ghost use Rattle.ray_geometries.specs.Contents.{ContentsValue};
    ghost use Rattle.ray_geometries.specs.Tallies.{contents_value, IsTallied};

    ghost Value = { ContentsValue };

    ghost view = { λ c. contents_value c.flags c.geometries.items };

    ghost invariant = { λ c. IsTallied (contents_value c.flags c.geometries.items) c.bounds c.total
        c.active };
}

impl Contents {
    /// No geometries. The flags don't ask both for fast traces and for fast builds.
    pub fn new(alloc: Global, flags: BuildFlags) -> Contents
        requires { has_both_fast flags ≡ false }
        ensures { result ≡ record { flags = flags; geometries = [] } }
    {
        Contents {
            flags,
            geometries: Vec::new(alloc),
            bounds: None,
            total: 0,
            active: 0,
        }
    }

    /// Adds a geometry that is within the limits. With it there are at most 256, all of one kind,
    /// with at most 2^20 primitives together. Without memory for it all is as before.
    pub fn push(&mut self, geometry: Geometry) -> Result<(), NoMemory>
        requires room { HasRoom (kind_of geometry) (count_of geometry) self.old.geometries }
        requires limits { IsGeometry geometry }
        ensures ok { OnOk result (self.new ≡ with_geometry self.old geometry) }
        ensures err { OnErr result (self.new ≡ self.old) }
    {
        let tally = geometry.tally(self.bounds);
        let total = self.total + geometry.count() as u32;
        let active = self.active + tally.active as u32;
        self.geometries.push(geometry)?;
        self.bounds = tally.bounds;
        self.total = total;
        self.active = active;
        Ok(())
    }

    /// The same contents once more.
    pub fn copy(&self, alloc: Global) -> Result<Contents, NoMemory>
        ensures { IfOk result (λ copy. copy ≡ self.now) }
    {
        let geometries = copy_all(alloc, &self.geometries)?;
        Ok(Contents {
            flags: self.flags,
            geometries,
            bounds: self.bounds,
            total: self.total,
            active: self.active,
        })
    }

    /// The geometry of a number, if there is one.
    pub fn geometry(&self, geometry: u32) -> Option<&Geometry>
        ensures { option_copied result ≡ slice_get self.now.geometries geometry }
    {
        self.geometries.get(geometry as usize)
    }

    /// The geometries in order.
    pub fn as_slice(&self) -> &[Geometry]
        ensures { result.now ≡ self.now.geometries }
    {
        self.geometries.as_slice()
    }

    /// How many geometries there are: at most 256.
    pub fn geometries(&self) -> u32
        ensures value { result ≡ length self.now.geometries }
        ensures limits { IsContents self.now }
    {
        self.geometries.len() as u32
    }

    /// The flags of the build.
    pub fn flags(&self) -> BuildFlags
        ensures { result ≡ self.now.flags }
    {
        self.flags
    }

    /// The least box of the active primitives. None exactly where there is none.
    pub fn bounds(&self) -> Option<Box3>
        ensures { result ≡ bounds_of self.now.geometries }
    {
        self.bounds
    }

    /// How many primitives there are, inactive ones among them: at most 2^20.
    pub fn total(&self) -> u32
        ensures { result ≡ total_of self.now.geometries }
    {
        self.total
    }

    /// How many of them are active.
    pub fn active(&self) -> u32
        ensures { result ≡ active_of self.now.geometries }
    {
        self.active
    }
}

// The same geometries.
fn copy_all(alloc: Global, geometries: &Vec<Geometry>) -> Result<Vec<Geometry>, NoMemory>
    ensures { IfOk result (λ copy. copy.items ≡ geometries.now.items) }
{
    let mut copy = Vec::with_capacity(alloc, geometries.len())?;
    for g in geometries {
        copy.push(g.copy(alloc)?)?;
    }
    Ok(copy)
}
