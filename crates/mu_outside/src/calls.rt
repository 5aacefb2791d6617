use mu_tree::Bytes;

/// What a call of a desk did.
#[derive(Debug, Drop)]
pub(crate) enum Call {
    /// It printed nothing and left the disk as it was.
    Silent,
    /// It printed these bytes.
    Told(Bytes),
    /// It wrote these bytes from this place on.
    Wrote(u64, Bytes),
    /// It failed to write from the first place up to the second.
    WriteFailed(u64, u64),
    /// It cut the disk to so many first bytes.
    Cut(u64),
    /// It failed to cut the disk to so many first bytes.
    CutFailed(u64),
    /// It made sure of what a read gives.
    Synced,
}
