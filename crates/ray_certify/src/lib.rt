//! Certificates of a whole run: those of all rays of its traces, made and checked in recording
//! order.
//!
//! - [`certify`] runs a recording and gives the lines of its certificates, `certificates_of` of
//!   `specs/Certified`: for each ray of each trace, in recording order, the certificate of what
//!   testing every primitive commits, in the spelling of ray_cert;
//! - [`verify`] runs a recording and gives the [`Verdict`] on lines, by `IsVerdict` of
//!   `specs/Verified`: that each certifies the ray with its number, or which ray is the first that
//!   isn't certified. A line certifies a ray where it spells a certificate that supports its hit;
//! - [`ray_count`] is how many rays a recording's traces have.
//!
//! What is certified is the answer over all candidates: the clause `law` of [`verify`]. That each line
//! of [`certify`] certifies its ray is part of its clause, and that there is a line for each ray is
//! the law [`each_ray_has_its_line`].
//!
//! Both runs are those of ray_exec, command by command: their refusals are the run's own. It stands
//! on ray_exec (the run), ray_memory (what a trace reads), ray_cert (certificates), ray_walk (what
//! is committed, for those that are made; a checker's yes doesn't depend on it) and ray_inputs
//! (lines).
#![tactic(auto)]

mod certifying;
mod counting;
mod laws;
mod scene;
mod seen;
mod verdict;
mod verifying;
mod way;

pub use certifying::certify;
pub use counting::ray_count;
pub use laws::each_ray_has_its_line;
pub use verdict::Verdict;
pub use verifying::verify;
