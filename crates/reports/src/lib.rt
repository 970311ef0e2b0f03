// The loader's numbers (01, Rule text: the report; 02, Six): a fresh loader, a line counted, and the report. Each number stops at its limit.
#![tactic(auto)]

ghost use Rattle.std.specs.Prelude.{◌≡◌};
ghost use Rattle.reports.specs.Report.{fresh_loader, more, with_line, count, with_kept};

use refusals::Refusal;
use writes::Outcome;

// The report: how many lines, accepted, skipped and refused, and the number (from 1), the reason and the place of the first refused line, 0 where
// none. The place is that of the first bad byte where the reason is 3, and 0 for any other reason (02, Three). The last is how many accepted lines held
// the retired letter b (02, Six).
#[repr(C)]
#[derive(Clone, Copy, Debug, PartialEq, Eq)]
pub struct Report {
    pub lines: u32,
    pub accepted: u32,
    pub skipped: u32,
    pub refused: u32,
    pub first: u32,
    pub reason: u8,
    pub place: usize,
    pub bringup: u32,
}

// The loader between two calls: how many bytes of the line under way are kept (601: it has more than 600), and the report so far.
#[repr(C)]
#[derive(Clone, Copy, Debug, PartialEq, Eq)]
pub struct Loader {
    pub kept: usize,
    pub report: Report,
}

// A report of zeros.
pub const ZEROS: Report = Report {
    lines: 0,
    accepted: 0,
    skipped: 0,
    refused: 0,
    first: 0,
    reason: 0,
    place: 0,
    bringup: 0,
};

// A fresh loader: an empty kept line and a report of zeros.
pub fn fresh() -> Loader
    ensures { result ≡ fresh_loader }
{
    Loader {
        kept: 0,
        report: ZEROS,
    }
}

// One more, or the limit.
fn one_more(n: u32) -> u32
    ensures { result ≡ more n }
{
    if n < 4294967295 { n + 1 } else { n }
}

// The report with a line more, which was judged. The first refused one is kept.
fn with_line(report: Report, outcome: Result<Outcome, Refusal>) -> Report
    ensures { result ≡ with_line report outcome }
{
    let lines = one_more(report.lines);
    match outcome {
        Ok(Outcome::Skipped) => Report {
            lines,
            skipped: one_more(report.skipped),
            ..report
        },
        Ok(Outcome::Accepted(held)) => {
            let accepted = one_more(report.accepted);
            if held {
                return Report {
                    lines,
                    accepted,
                    bringup: one_more(report.bringup),
                    ..report
                };
            }
            Report {
                lines,
                accepted,
                ..report
            }
        }
        Err(refusal) => {
            let refused = one_more(report.refused);
            if report.refused == 0 {
                return Report {
                    lines,
                    refused,
                    first: lines,
                    reason: refusal.number(),
                    place: refusal.place(),
                    ..report
                };
            }
            Report {
                lines,
                refused,
                ..report
            }
        }
    }
}

// Counts a line that was judged; the next begins empty.
pub fn count_line(l: Loader, outcome: Result<Outcome, Refusal>) -> Loader
    ensures { result ≡ count l outcome }
{
    let report = with_line(l.report, outcome);
    Loader { kept: 0, report }
}

// The loader with another length of the kept line. Field by field: a report that is copied whole is read in larger parts than it was written in, and the
// processor waits for that, once a line.
pub fn keep(l: Loader, kept: usize) -> Loader
    ensures { result ≡ with_kept l kept }
{
    Loader {
        kept,
        report: Report {
            lines: l.report.lines,
            accepted: l.report.accepted,
            skipped: l.report.skipped,
            refused: l.report.refused,
            first: l.report.first,
            reason: l.report.reason,
            place: l.report.place,
            bringup: l.report.bringup,
        },
    }
}
