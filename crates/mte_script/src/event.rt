//! The events of a script.

use tenant_terms::Terms;

/// The request of a script's line. Files are numbered from 1.
#[derive(Clone, Copy, Debug, PartialEq, Eq)]
pub enum Event {
    /// Admits a tenant.
    Admit {
        /// The tenant's number, 0 to 65535.
        id: u16,
        /// The file that is its image, from 1.
        image: u32,
        /// The file that is its input, from 1; 0 for no input.
        input: u32,
        /// Its seed, reservation, room and tag mode.
        terms: Terms,
    },
    /// Lets a tenant attempt at most `steps` instructions.
    Slice {
        /// The tenant's number.
        id: u16,
        /// At most 1048576.
        steps: u32,
    },
    /// Stops a tenant.
    Stop {
        /// The tenant's number.
        id: u16,
    },
}
