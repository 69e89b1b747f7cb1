use crate::found::Found;

/// What is offered to a client. (SPV_KHR_ray_query: the candidate intersection that
/// OpRayQueryProceedKHR comes to.)
#[derive(Clone, Copy, Debug, PartialEq, Eq)]
pub struct Candidate {
    /// The ray's number in its trace.
    pub ray: u32,
    /// How many candidates of this query were offered before.
    pub nth: u64,
    /// What was found.
    pub found: Found,
}
