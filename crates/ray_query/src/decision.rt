use ray_geom::Frac;

/// What a client decides on a candidate that it is offered. (SPV_KHR_ray_query: what a shader may
/// do with a candidate. The distances at which a box is generated are own.)
#[derive(Clone, Copy, Debug, PartialEq, Eq)]
pub enum Decision {
    /// Nothing is done.
    Ignore,
    /// A triangle commits at its distance; of a box nothing is done.
    /// (OpRayQueryConfirmIntersectionKHR.)
    Confirm,
    /// A box commits at its entry; of a triangle nothing is done.
    /// (OpRayQueryGenerateIntersectionKHR.)
    GenerateEntry,
    /// A box commits at its exit; of a triangle nothing is done.
    /// (OpRayQueryGenerateIntersectionKHR.)
    GenerateExit,
    /// A box commits at this distance where it lies from the entry to the exit, both included;
    /// else, and of a triangle, nothing is done. (OpRayQueryGenerateIntersectionKHR.)
    GenerateAt(Frac),
    /// The query ends. (OpRayQueryTerminateKHR.)
    Terminate,
    /// A triangle commits at its distance and the query ends; of a box nothing is done, and the
    /// query goes on. (OpRayQueryConfirmIntersectionKHR, then OpRayQueryTerminateKHR.)
    ConfirmTerminate,
}
