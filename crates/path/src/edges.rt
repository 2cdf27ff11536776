// Readings at the edges of a window.
ghost use Rattle.path.specs.Edges.{Readings};

// How cyclic numbers are read where there are six of them: a table.
pub fn readings_hold()
    ensures { Readings }
{}
