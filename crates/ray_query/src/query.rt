ghost use Rattle.std.specs.Prelude.{◌≡◌, ◌&&◌, true, false, not, Some, None, IsSome, IfSome};
ghost use Rattle.ray_query.specs.Play.{commits_unasked, counts, is_in_span, is_triangle};
ghost use Rattle.ray_query.specs.Play.{play, play_one};
ghost use Rattle.ray_query.specs.Machine.{IsOffered, after_commit, after_decision, query_of};
ghost use Rattle.ray_query.specs.Machine.{after_generation, answered, confirms, generates};
ghost use Rattle.ray_query.specs.declared.decision.Decision.TheVariants.{Confirm, Terminate};
ghost use Rattle.ray_query.specs.declared.decision.Decision.TheVariants.{GenerateAt};

use crate::candidate::Candidate;
use crate::client::Client;
use crate::commit::Commit;
use crate::decision::Decision;
use crate::found::Found;
use crate::key::Key;
use crate::step::Step;
use bitflags::Flags;
use ray_flags::{Kind, RayFlags};
use ray_geom::Frac;
use std::marker::Model;

/// A ray query: it is shown what is found on the ray's way, in rising order of keys, and keeps the
/// committed hit. (SPV_KHR_ray_query: OpTypeRayQueryKHR.)
#[derive(Drop)]
pub struct Query {
    ray: u32,
    flags: RayFlags,
    asked: Option<Found>,
    committed: Option<Commit>,
    offers: u64,
    over: bool,
}

impl Model for Query {
    ghost use Rattle.ray_query.specs.Machine.{QueryValue};

    ghost Value = { QueryValue };

    ghost view = { λ q. record {
      ray = q.ray;
      flags = q.flags;
      asked = q.asked;
      state = record { committed = q.committed; offers = q.offers; over = q.over };
    } };
}

impl Query {
    /// A query of the ray of this number in its trace. (OpRayQueryInitializeKHR.)
    pub fn initialize(ray: u32, flags: RayFlags) -> Query
        ensures { result ≡ query_of ray flags }
    {
        Query {
            ray,
            flags,
            asked: None,
            committed: None,
            offers: 0,
            over: false,
        }
    }

    /// Shows the query the next of what was found. (OpRayQueryProceedKHR.)
    pub fn offer(&mut self, f: Found) -> Step
        requires open { self.old.state.over ≡ false }
        requires answered { self.old.asked ≡ None }
        ensures { IsOffered self.old f result self.new }
    {
        if !self.counts(f, f.t) {
            return Step::Passed;
        }
        if commits_unasked(f) {
            self.commit(f, f.t);
            return Step::Committed;
        }
        let candidate = Candidate {
            ray: self.ray,
            nth: self.offers,
            found: f,
        };
        self.asked = Some(f);
        self.offers = self.offers.saturating_add(1);
        Step::Ask(candidate)
    }

    /// Answers the offer by a decision, which acts by `decided` of `specs/Play`.
    pub fn answer(&mut self, d: Decision)
        requires { IsSome self.old.asked }
        ensures { IfSome self.old.asked (λ f. self.new ≡ answered self.old f d) }
    {
        let f = self.take_asked();
        self.decide(f, d);
    }

    /// Confirms the triangle that is offered. True exactly where that counted: a box isn't
    /// confirmed, and a triangle counts where its key is below that of the committed hit.
    /// (OpRayQueryConfirmIntersectionKHR.)
    pub fn confirm(&mut self) -> bool
        requires { IsSome self.old.asked }
        ensures value { IfSome self.old.asked (λ f. result ≡ confirms f self.old.state) }
        ensures after { IfSome self.old.asked (λ f. self.new ≡ answered self.old f Confirm) }

        // What doesn't count leaves the committed hit.
        ensures kept { result ≡ false → self.new.state.committed ≡ self.old.state.committed }
    {
        let f = self.take_asked();
        self.commit_triangle(f)
    }

    /// Generates a hit of the box that is offered, at a distance. True exactly where that counted:
    /// a triangle isn't generated, and a box counts where the distance is from its entry to its
    /// exit and the key with this distance is below that of the committed hit.
    /// (OpRayQueryGenerateIntersectionKHR.)
    pub fn generate(&mut self, t: Frac) -> bool
        requires { IsSome self.old.asked }
        ensures value { IfSome self.old.asked (λ f. result ≡ generates f t self.old.state) }
        ensures after { IfSome self.old.asked (λ f. self.new ≡ answered self.old f (GenerateAt t)) }

        // What doesn't count leaves the committed hit.
        ensures kept { result ≡ false → self.new.state.committed ≡ self.old.state.committed }
    {
        let f = self.take_asked();
        is_in_span(f, t) && self.commit_box(f, t)
    }

    /// Ends the query. (OpRayQueryTerminateKHR.)
    pub fn terminate(&mut self)
        requires { IsSome self.old.asked }
        ensures { IfSome self.old.asked (λ f. self.new ≡ answered self.old f Terminate) }
    {
        self.asked = None;
        self.over = true;
    }

    /// Plays one candidate: shows it to the query, asks the client where it is offered, and answers
    /// by its decision. Where the query is over, nothing is done.
    pub fn play_one<C: Client>(&mut self, client: &C, f: Found)
        requires { self.old.asked ≡ None }
        ensures { let meaning = C.meaning client.now in self.new ≡ record self.old {
          state = play_one meaning self.old.ray self.old.flags self.old.state f;
        } }
    {
        if self.over {
            return;
        }
        if let Step::Ask(candidate) = self.offer(f) {
            self.answer(client.decide(&candidate));
        }
    }

    /// Plays candidates, one after the other. Their keys are to rise; else each is still played,
    /// but the play of such a list means nothing in Vulkan.
    pub fn play<C: Client>(&mut self, client: &C, found: &[Found])
        requires { self.old.asked ≡ None }
        ensures { let meaning = C.meaning client.now in self.new ≡ record self.old {
          state = play meaning self.old.ray self.old.flags self.old.state found.now;
        } }
    {
        for f in found {
            self.play_one(client, *f);
        }
    }

    /// Whether the query is over: nothing more is to be shown to it.
    pub fn over(&self) -> bool
        ensures { result ≡ self.now.state.over }
    {
        self.over
    }

    /// The committed hit. None exactly where no commit counted.
    pub fn committed(&self) -> Option<Commit>
        ensures { result ≡ self.now.state.committed }
    {
        self.committed
    }

    // What was offered, which is answered from now on.
    fn take_asked(&mut self) -> Found
        requires { IsSome self.old.asked }
        ensures asked { self.old.asked ≡ Some result }
        ensures after { self.new ≡ record self.old { asked = None } }
    {
        self.asked.take().unwrap()
    }

    // Does with what was offered what a decision says.
    fn decide(&mut self, f: Found, d: Decision)
        ensures { self.new ≡ after_decision self.old f d }
    {
        match d {
            Decision::Ignore => {}
            Decision::Confirm => {
                self.commit_triangle(f);
            }
            Decision::GenerateEntry => {
                self.commit_box(f, f.t);
            }
            Decision::GenerateExit => {
                self.commit_box(f, f.exit);
            }
            Decision::GenerateAt(t) => {
                if is_in_span(f, t) {
                    self.commit_box(f, t);
                }
            }
            Decision::Terminate => self.over = true,
            Decision::ConfirmTerminate => {
                if is_triangle(f.kind) {
                    self.commit(f, f.t);
                    self.over = true;
                }
            }
        }
    }

    // Commits a triangle at its distance, where that counts; whether it did.
    fn commit_triangle(&mut self, f: Found) -> bool
        ensures value { result ≡ confirms f self.old.state }
        ensures after { self.new ≡ after_decision self.old f Confirm }
    {
        is_triangle(f.kind) && self.commit(f, f.t)
    }

    // Commits a box at this distance, where that counts; whether it did.
    fn commit_box(&mut self, f: Found, t: Frac) -> bool
        ensures value { result ≡ not (is_triangle f.kind) && counts f t self.old.state }
        ensures after { self.new ≡ after_generation self.old f t }
    {
        !is_triangle(f.kind) && self.commit(f, t)
    }

    // Whether a commit at this distance counts.
    fn counts(&self, f: Found, t: Frac) -> bool
        ensures { result ≡ counts f t self.now.state }
    {
        match self.committed {
            Some(commit) => Key { t, ..f.key() } < commit.key(),
            None => true,
        }
    }

    // Commits at this distance, where that counts; whether it did.
    fn commit(&mut self, f: Found, t: Frac) -> bool
        ensures value { result ≡ counts f t self.old.state }
        ensures after { self.new ≡ after_commit self.old f t }
    {
        if !self.counts(f, t) {
            return false;
        }
        self.committed = Some(Commit { found: f, t });
        self.over = self.over || self.flags.contains(RayFlags::TERMINATE_ON_FIRST_HIT);
        true
    }
}

// Whether it commits without being offered: it is an opaque triangle.
fn commits_unasked(f: Found) -> bool
    ensures { result ≡ commits_unasked f }
{
    f.opaque && is_triangle(f.kind)
}

// Whether a kind is that of triangles.
fn is_triangle(kind: Kind) -> bool
    ensures { result ≡ is_triangle kind }
{
    matches!(kind, Kind::Triangle)
}

// Whether a distance is from the entry to the exit.
fn is_in_span(f: Found, t: Frac) -> bool
    ensures { result ≡ is_in_span f t }
{
    f.t <= t && t <= f.exit
}
