//! The laws of reports.
ghost use Rattle.snap_check.specs.Laws.{EachTextHasAReport, HasOneReport};

/// Within each limit of events each text has a status and a report.
pub fn each_text_has_a_report()
    ensures { EachTextHasAReport }
{}

/// Within each limit of events a text has at most one status and one report: two programs that meet the contract answer the same.
pub fn one_report()
    ensures { HasOneReport }
{}
