//! Laws of captures whose front is lost, over the definitions alone: of a port, of sources, and of reports.

ghost use Rattle.std.specs.Prelude.{◌≡◌, ℕ, List, ◌++◌, None};
ghost use Rattle.resync_laws.specs.Names.{placed, port_reading, sources_by, stop_in};
ghost use Rattle.resync_laws.specs.Report.{ReportFollows};

pub use resync_grammars::port_laws::{port_pattern_law, port_rest_law};
pub use resync_grammars::source_laws::{
    itm_pattern_law, itm_rest_law, stp_pattern_law, stp_rest_law,
};
use source_events::Plan;

/// Where this plan reads a whole capture without a fault, the report of any rest of it, read with hunts, follows the
/// whole's.
pub fn report_rest_law(plan: &Plan)
    ensures { (lost left : List ℕ) →
        stop_in (sources_by plan.now) (port_reading plan.now.frames (placed (lost ++ left))) ≡ None →
        ReportFollows plan.now lost left }
{}
