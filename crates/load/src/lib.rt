// Loading rule text in pieces (01, Rule text: a piece and the end call). The text may be cut anywhere; each line is judged whole, at its
// newline or at the end call.
#![tactic(auto)]

ghost use Rattle.std.specs.Prelude.{◌≡◌, true, length};
ghost use Rattle.alphabet.specs.Alphabet.{line_limit};
ghost use Rattle.store.specs.Layout.{Store, store};
ghost use Rattle.store.specs.Lent.{lent_mut, SameSlices};
ghost use Rattle.store.specs.LentWithin.{lent};
ghost use Rattle.text_lines.specs.Within.{NoNewline};
ghost use Rattle.load.specs.Loader.{end_kept, step_piece, ready, WhatReadyIs, load, piece_after, piece_answer, end_after, end_answer};
ghost use Rattle.load.specs.Within.{fed_loader, ended_loader};

use refusals::Refusal;
use reports::{Loader, Report};
use store::{Lent, LentMut};

// The kept length that marks a line of more bytes than a line may have.
const OVER_LONG: usize = alphabet::LINE_LIMIT + 1;

// Ends the kept line: it is judged whole and counted.
fn end_line(state: &mut LentMut, line: &[u8], l: Loader) -> Loader
    requires { ready (load (lent_mut state.old) line.now l) ≡ true }
    ensures loaded { load (lent_mut state.new) line.now result ≡ end_kept (load (lent_mut state.old) line.now l) }
    ensures same_slices { SameSlices state.old state.new }
{
    let kept = l.kept;
    if alphabet::LINE_LIMIT < kept {
        return reports::count_line(l, Err(Refusal::TooLong));
    }
    let outcome = writes::write_line(state, &line[..kept]);
    reports::count_line(l, outcome)
}

// Takes bytes of one line, none of them its newline. They join the kept line in one go, as many as there is room for. Who calls it has tested the
// line's size: `piece` here, and `program::feed` for a question line, which is kept as a line of rule text is.
pub fn take_run(line: &mut [u8], l: Loader, run: &[u8]) -> Loader
    requires { (length line.old ≡ line_limit) × NoNewline run.now }
    ensures { (st : Store) → load st line.new result ≡ step_piece (load st line.old l) run.now }
{
    let kept = l.kept;
    let n = run.len();
    if n == 0 {
        return l;
    }
    if alphabet::LINE_LIMIT < kept {
        return reports::keep(l, OVER_LONG);
    }
    let room = alphabet::LINE_LIMIT - kept;
    if n <= room {
        search::copy_at(line, kept, run);
        return reports::keep(l, kept + n);
    }
    search::copy_at(line, kept, &run[..room]);
    reports::keep(l, OVER_LONG)
}

// What the test below stands for, as a claim: it does nothing, and what it ensures is a theorem on the definition.
pub fn what_ready_is()
    ensures { WhatReadyIs }
{}

// Whether the lent state is undamaged, the loader too: refusal 0 otherwise.
pub fn is_ready(state: Lent, line: &[u8], l: Loader) -> bool
    ensures { result ≡ ready (load (lent state.entry) line.now l) }
{
    if !damage::undamaged(state) {
        return false;
    }
    if line.len() != alphabet::LINE_LIMIT {
        return false;
    }
    l.kept <= OVER_LONG
}

// Takes a piece of rule text: any bytes, any length, also none. Answers the loader for the next call.
pub fn piece(
    state: &mut LentMut,
    line: &mut [u8],
    l: Loader,
    text: &[u8],
) -> Result<Loader, Refusal>
    ensures value { result ≡ piece_answer (load (lent_mut state.old) line.old l) text.now }
    ensures loaded { load (lent_mut state.new) line.new (fed_loader l result) ≡
        piece_after (load (lent_mut state.old) line.old l) text.now }
    ensures same_slices { SameSlices state.old state.new }
{
    if !is_ready(state.shared(), line, l) {
        return Err(Refusal::Damaged);
    }
    let mut next = l;
    let mut i = 0;
    loop {
        let end = text_lines::line_end(text, i);
        next = take_run(line, next, &text[i..end]);
        if end == text.len() {
            return Ok(next);
        }
        next = end_line(state, line, next);
        i = end + 1;
    }
}

// The end call: bytes after the last newline are one more line; the report is answered, and a fresh loader for the next call.
pub fn end(state: &mut LentMut, line: &mut [u8], l: Loader) -> Result<(Report, Loader), Refusal>
    ensures value { result ≡ end_answer (load (lent_mut state.old) line.old l) }
    ensures loaded { load (lent_mut state.new) line.new (ended_loader l result) ≡
        end_after (load (lent_mut state.old) line.old l) }
    ensures same_slices { SameSlices state.old state.new }
{
    if !is_ready(state.shared(), line, l) {
        return Err(Refusal::Damaged);
    }
    let kept = l.kept;
    if kept == 0 {
        let report = l.report;
        return Ok((report, reports::fresh()));
    }
    let last = end_line(state, line, l);
    let report = last.report;
    Ok((report, reports::fresh()))
}
