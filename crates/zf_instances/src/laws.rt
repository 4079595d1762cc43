//! Laws of the definitions.
ghost use Rattle.zf_instances.specs.{HaveSameEvents};

/// A search for instances is for the events of its schema.
pub fn same_events()
    ensures { HaveSameEvents }
{}
