use crate::data_rule::DataRule;

/// A data rule that a geometry breaks, and where.
#[derive(Clone, Copy, Debug, PartialEq, Eq)]
pub struct DataFault {
    /// The broken rule.
    pub rule: DataRule,
    /// The geometry's number within its info.
    pub geometry: u32,
    /// The element's number within the geometry, where one element breaks the rule.
    pub element: Option<u32>,
}
