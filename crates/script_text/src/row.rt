use crate::script::Step;

/// What a line behind the head is.
#[derive(Debug, Drop)]
pub(crate) enum Row {
    /// Empty, or a remark.
    Skip,
    /// The beginning of a lane.
    Lane,
    /// A step of the lane that was begun last.
    Step(Step),
}
