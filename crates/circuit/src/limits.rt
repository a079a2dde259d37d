// The limits of a circuit file; that of a type's edges is in the crate `switch`.
pub const MOST_BYTES: usize = 57344;

pub const MOST_TYPES: usize = 16;

pub const MOST_BRIDGES: usize = 256;

pub const MOST_INSTANCES: usize = 128;

pub const MOST_VECTORS: usize = 256;

pub const MOST_FAULTS: usize = 2048;
