use scan_model::{Items, UnitEnd};

/// What a scan of a made tree gives.
#[derive(Drop)]
pub struct MadeScan {
    /// One end for each unit, in order.
    pub ends: Items<UnitEnd>,
    /// The number of paths that were asked for, each of them once.
    pub paths: u64,
}
