use mu_tree::Numbers;

/// The numbers, from 1, of the calls of each kind that fail.
#[derive(Debug, Drop)]
pub struct Faults {
    /// The failing calls of `take`.
    pub takes: Numbers,
    /// The failing calls of `tell`.
    pub tells: Numbers,
    /// The failing calls of the disk, of whichever of its six kinds.
    pub disks: Numbers,
}
