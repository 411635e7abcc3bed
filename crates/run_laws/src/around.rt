use grid_outside::Outside;

/// All that a run has around it: the disks, the stores and the ambient, what it reads and what it writes to.
pub struct Around<D, S, K, A, P> {
    pub outside: Outside<D, A, P>,
    pub source: S,
    pub sink: K,
}
