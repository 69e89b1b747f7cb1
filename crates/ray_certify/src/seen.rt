// What a trace is through, and one of its rays.
ghost use Rattle.std.specs.Prelude.{◌≡◌, ◌↔◌, ◌<◌, ◌^◌, IfOk, IsTrue, OnOk, option_map};
ghost use Rattle.ray_candidates.specs.Candidates.{trace_answer};
ghost use Rattle.ray_flags.specs.Admission.{AsksBoth};
ghost use Rattle.ray_cert.specs.Certificates.{SupportsOver, name_of};
ghost use Rattle.ray_cert.specs.Spelling.{IsHitSmall};
ghost use Rattle.ray_geom.specs.Ratio.{parts_of};
ghost use Rattle.ray_memory.specs.Tracing.{lent};
ghost use Rattle.ray_certify.specs.Certified.{line_for};
ghost use Rattle.ray_certify.specs.Parts.{parts_in};
ghost use Rattle.ray_certify.specs.Scenes.{IsWhole, ray_seen, ray_through};
ghost use Rattle.ray_certify.specs.Verified.{IsCertifiedBy};

use crate::way::Way;
use ray_cert::{Cert, Named, Stated, StatedBottoms, check_cert, make_cert, write_cert};
use ray_geom::{Ray, Steps};
use ray_memory::TraceInputs;
use ray_query::Client;
use ray_walk::{QueryOptions, Turns, trace_ray};
use std::alloc::{AllocError as NoMemory, Global};
use std::marker::Brand;

// What a trace reads, with the stated trees of the structures that its instances name.
#[derive(Drop)]
pub struct Seen<'s> {
    pub inputs: TraceInputs<'s>,
    pub trees: Stated,
}

// The line of the certificate of a ray, without its end.
pub(crate) fn certificate_line<C: Client>(
    alloc: Global,
    seen: &Seen<'_>,
    way: Way,
    ray: &Ray,
    number: u32,
    client: &C,
    turns: &mut Turns,
) -> Result<Vec<u8>, NoMemory>
    requires whole { IsWhole seen.now }
    requires flags_agree { ¬ AsksBoth way.flags }
    ensures line { IfOk result (λ line. line.items
        ≡ line_for (ray_through way number (C.meaning client.now) seen.now)
        (ray_seen seen.now ray.now)) }
    ensures certifies { let r = ray_through way number (C.meaning client.now) seen.now in
        let s = ray_seen seen.now ray.now in OnOk result (IsCertifiedBy r s (line_for r s)) }
{
    let mut steps = Steps::<Brand>::zero();
    let (top, bottoms) = (seen.inputs.top, seen.inputs.bottoms);
    let options = QueryOptions {
        number,
        flags: way.flags,
        mask: way.mask,
    };
    let commit = trace_ray(top, bottoms, ray, options, client, turns, &mut steps)?;
    let stated = StatedBottoms {
        bottoms,
        trees: &seen.trees,
    };
    let cert = make_cert(alloc, top, &stated, ray, way.mask, commit, &mut steps)?;
    has_small_number(way);
    has_small_numbers(cert.named());
    write_cert(alloc, &cert, way.command, number)
}

// The numbers of what is named are of 32 bits.
fn has_small_numbers(named: Option<Named>)
    ensures { IsHitSmall named }
{
    if let Some(named) = named {
        are_small(named);
    }
}

// The number of a command is of 32 bits.
fn has_small_number(_way: Way)
    ensures { _way.command < 2 ^ 32 }
{}

// The same of a hit.
fn are_small(_named: Named)
    ensures instance { _named.instance < 2 ^ 32 }
    ensures geometry { _named.geometry < 2 ^ 32 }
    ensures primitive { _named.primitive < 2 ^ 32 }
{}

// Whether a certificate supports its hit for a ray.
pub(crate) fn supports<C: Client>(
    alloc: Global,
    seen: &Seen<'_>,
    way: Way,
    ray: &Ray,
    number: u32,
    client: &C,
    cert: &Cert,
) -> Result<bool, NoMemory>
    requires whole { IsWhole seen.now }
    requires flags_agree { ¬ AsksBoth way.flags }
    ensures exact { let s = lent seen.now.inputs in IfOk result (λ supports. IsTrue supports
        ↔ SupportsOver (C.meaning client.now) number way.flags (parts_of ray.now.tmax)
        (parts_in s.top.contents s.bottoms ray.now way.flags way.mask) cert.now) }
    ensures law { let s = lent seen.now.inputs in IfOk result (λ supports. IsTrue supports
        → option_map name_of (trace_answer (C.meaning client.now) s.top.contents s.bottoms
        ray.now number way.flags way.mask) ≡ cert.now.named) }
{
    let mut steps = Steps::<Brand>::zero();
    let options = QueryOptions {
        number,
        flags: way.flags,
        mask: way.mask,
    };
    let stated = StatedBottoms {
        bottoms: seen.inputs.bottoms,
        trees: &seen.trees,
    };
    check_cert(
        alloc,
        seen.inputs.top,
        &stated,
        ray,
        options,
        client,
        cert,
        &mut steps,
    )
}
