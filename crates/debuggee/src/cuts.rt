//! How a run is cut into slices.

ghost use Rattle.std.specs.Prelude.{◌≡◌, ◌-◌, min, slice_get, unwrap_or};

/// The steps of a run's slices.
#[derive(Clone, Copy)]
pub struct Cuts<'a> {
    /// The steps of the first slices.
    pub listed: &'a [u32],
    /// The steps of each slice after these; 0 where there are no more.
    pub others: u32,
    /// The most steps in all.
    pub limit: u64,
}

impl Cuts<'_> {
    /// The steps of the next slice, after `slices` slices and `steps` steps; 0 if there is none.
    pub fn next(&self, slices: u64, steps: u64) -> u32
        ensures { result ≡ min (self.now.limit - steps)
            (unwrap_or (slice_get self.now.listed.now slices) self.now.others) }
    {
        let listed = self.listed.get(slices as usize).copied();
        let wanted = listed.unwrap_or(self.others);
        self.limit.saturating_sub(steps).min(u64::from(wanted)) as u32
    }
}
