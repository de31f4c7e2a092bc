//! What `unring` is asked for.

/// How many bytes an image has, where its next byte would go, and whether it is full.
#[derive(Clone, Copy, Drop)]
pub struct UnringPlan {
    pub size: usize,
    pub pointer: usize,
    pub full: bool,
}
