//! The limits of a schema.

/// On the components of a schema.
pub const COMPONENTS_MAX: usize = 64;

/// On its declared sets, of all components.
pub const SETS_MAX: usize = 4096;

/// On its conjuncts.
pub const CONJUNCTS_MAX: usize = 4096;

/// On the nodes of all terms in its declared sets and conjuncts.
pub const NODES_MAX: usize = 65536;

/// On the height of each conjunct.
pub const HEIGHT_MAX: usize = 256;
