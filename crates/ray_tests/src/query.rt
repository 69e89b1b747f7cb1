ghost use Rattle.std.specs.Prelude.{◌≡◌, ◌==◌, if◌then◌else◌};
ghost use Rattle.ray_query.specs.declared.decision.Decision.TheVariants.{Confirm, Ignore};

use ray_flags::{Kind, RayFlags};
use ray_geom::Frac;
use ray_query::{ByFn, Candidate, Decision, Found, Function, Query, Step};
use std::alloc::{AllocError, Global};
use std::test::Fail;

// A whole distance.
fn whole(t: u32) -> Frac {
    Frac::new(t as u64, 1).unwrap()
}

// A triangle at this distance, not opaque, of the instance 0 and the geometry 0.
fn triangle(t: u32, primitive: u32) -> Found {
    Found {
        kind: Kind::Triangle,
        opaque: false,
        instance: 0,
        geometry: 0,
        primitive,
        custom: 5,
        sbt: 6,
        front: true,
        t: whole(t),
        exit: whole(t),
        u: Frac::zero(),
        v: Frac::zero(),
    }
}

// The distance of the committed hit.
fn distance(query: &Query) -> Option<Frac> {
    match query.committed() {
        Some(commit) => Some(commit.t),
        None => None,
    }
}

#[test]
fn offers_and_answers(rt: HostRuntime) {
    let mut query = Query::initialize(3, RayFlags::TERMINATE_ON_FIRST_HIT);
    let (first, second) = (triangle(4, 0), triangle(5, 1));
    let asked = Candidate {
        ray: 3,
        nth: 0,
        found: first,
    };
    assert_eq!(rt; query.offer(first), Step::Ask(asked));
    query.answer(Decision::Ignore);
    let asked = Candidate {
        ray: 3,
        nth: 1,
        found: second,
    };
    assert_eq!(rt; query.offer(second), Step::Ask(asked));
    assert!(rt; query.confirm() && query.over());
}

// Three triangles that aren't opaque, played by a function that confirms the offer of number 1.
fn played_by_second(alloc: Global) -> Result<Option<Frac>, AllocError> {
    let function: Function = Box::new(
        alloc,
        |c: &Candidate| -> Decision
            ensures { result ≡ if c.now.nth == 1 then Confirm else Ignore }
        {
            if c.nth == 1 {
                Decision::Confirm
            } else {
                Decision::Ignore
            }
        },
    )?;
    let client = ByFn::new(function);
    let mut query = Query::initialize(0, RayFlags(0));
    query.play(&client, &[triangle(3, 2), triangle(4, 1), triangle(5, 0)]);
    Ok(distance(&query))
}

#[test]
fn a_stored_function(rt: HostRuntime) -> Result<(), Fail> {
    assert_eq!(rt; played_by_second(rt.alloc())?, Some(whole(4)));
    Ok(())
}
