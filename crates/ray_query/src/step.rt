use crate::candidate::Candidate;

/// What a query does with what it is shown. (SPV_KHR_ray_query: what happens in
/// OpRayQueryProceedKHR.)
#[derive(Clone, Copy, Debug, PartialEq, Eq)]
pub enum Step {
    /// It is passed over, since its key isn't below that of the committed hit.
    Passed,
    /// It is an opaque triangle, and was committed without being offered.
    Committed,
    /// It is offered: the query waits for an answer.
    Ask(Candidate),
}
