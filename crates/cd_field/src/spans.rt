// A span of a region.

/// The indices of a region from one to below another; none where `high` is not above `low`.
#[derive(Debug, Clone, Copy, PartialEq, Eq)]
pub(crate) struct Span {
    pub(crate) low: u32,
    pub(crate) high: u32,
}
