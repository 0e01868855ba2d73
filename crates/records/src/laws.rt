// What is true of the records of every tree; each function carries one law.
ghost use Rattle.records.specs.Formed.{DerivedSound};
ghost use Rattle.records.specs.Siblings.{Measured};

/// A tree that the grammar derives, nesting at most 512 deep, is one that a pool can hold as loaded.
pub fn derived_is_sound()
    ensures { DerivedSound }
{}

/// A tree has as many records as it has nodes, and they nest as deep.
pub fn records_measure_trees()
    ensures { Measured }
{}
