// The lines that the program writes (01, What the program reads and writes): the report and the answers, as bytes of an output.
#![tactic(auto)]

ghost use Rattle.std.specs.Prelude.{[], ◌∷◌, ◌++◌, ◌+◌, ◌≤◌, length};
ghost use Rattle.replies.specs.Replies.{line_room, decimal, DecimalReadsBack, report_text, word_of, answer_line};
ghost use Rattle.replies.specs.Within.{Put};

use access::Answer;
use answers::Shown;
use reports::Report;

// The most bytes of a line that is written.
pub const LINE_ROOM: usize = 77;

// Writes a number in decimal digits from index `at`, and answers the index behind it. Who calls it has made sure that there is room.
fn write_number(out: &mut [u8], at: usize, n: u32) -> usize
    requires { at + length (decimal n) ≤ length out.old }
    ensures { Put 10 out.old at (decimal n) out.new result }
{
    if n < 10 {
        out[at] = b'0' + n as u8;
        return at + 1;
    }
    let next = write_number(out, at, n / 10);
    out[next] = b'0' + (n % 10) as u8;
    next + 1
}

// The claim that a number in decimal digits, the definition's and so, by the contract above, the code's, reads back as that number.
pub fn decimal_reads_back()
    ensures { DecimalReadsBack }
{}

// Writes a number and the byte behind it.
fn write_field(out: &mut [u8], at: usize, n: u32, behind: u8) -> usize
    requires { at + 11 ≤ length out.old }
    ensures { Put 11 out.old at (decimal n ++ (behind ∷ [])) out.new result }
{
    let next = write_number(out, at, n);
    out[next] = behind;
    next + 1
}

// Writes the report on one line, from index `at`. Who calls it has made sure that there is room for it: `program::feed` and `program::finish` test that.
pub fn write_report(out: &mut [u8], at: usize, report: Report) -> usize
    requires { at + line_room ≤ length out.old }
    ensures { Put line_room out.old at (report_text report) out.new result }
{
    let a = write_field(out, at, report.lines, alphabet::SPACE);
    let b = write_field(out, a, report.accepted, alphabet::SPACE);
    let c = write_field(out, b, report.skipped, alphabet::SPACE);
    let d = write_field(out, c, report.refused, alphabet::SPACE);
    let e = write_field(out, d, report.first, alphabet::SPACE);
    let f = write_field(out, e, report.reason as u32, alphabet::SPACE);
    write_field(out, f, report.bringup, alphabet::NEWLINE)
}

// Writes an answer's word and a space.
fn write_word(out: &mut [u8], at: usize, answer: Answer) -> usize
    requires { at + 9 ≤ length out.old }
    ensures { Put 9 out.old at (word_of answer) out.new result }
{
    match answer {
        Answer::Granted(_) => {
            search::copy_at(out, at, b"granted ");
            at + 8
        }
        Answer::Denied(_) => {
            search::copy_at(out, at, b"denied ");
            at + 7
        }
        Answer::Override(_) => {
            search::copy_at(out, at, b"override ");
            at + 9
        }
        Answer::Refused(_) => {
            search::copy_at(out, at, b"refused ");
            at + 8
        }
    }
}

// Writes an answer on one line, from index `at`. Who calls it has made sure that there is room for it: `program::feed` and `program::finish` test that.
pub fn write_answer(out: &mut [u8], at: usize, answer: Answer) -> usize
    requires { at + line_room ≤ length out.old }
    ensures { Put line_room out.old at (answer_line answer) out.new result }
{
    let shown = Shown::from(answer);
    let word = write_word(out, at, answer);
    write_field(out, word, shown.number as u32, alphabet::NEWLINE)
}
