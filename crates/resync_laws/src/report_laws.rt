//! The laws of the reports of any sources that can resume.

ghost use Rattle.std.specs.Prelude.{List};
ghost use Rattle.resync_laws.specs.Resumed.{Resumed, CanAll, PortPointLaw, PartLaw};

/// The first run whose cells have an ID begins with the first cell that has one.
pub fn port_point_law()
    ensures { PortPointLaw }
{}

/// Where each mapped source can resume, a source that gives no item before its point has in the report of the rest of a
/// capture the items that it has in the whole's from its point on, and no others.
pub fn part_law<K, V>()
    ensures { (ps : List (Resumed K V)) → CanAll ps → PartLaw ps }
{}
