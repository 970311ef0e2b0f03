// Rule lines and change-rule writes, judged by their bytes alone: refusals 1 to 5, before any table is looked at (01, Rule text and Single
// writes). Each field is judged where it stands in the line. In a rule line b is a placeholder (02, Six): it is dropped here,
// and nothing above knows more of it than whether a line held it.
#![tactic(auto)]

ghost use Rattle.std.specs.Prelude.{◌≡◌, true, false, IfOk, IfErr};
ghost use Rattle.refusals.specs.Refusals.{bad_label_at, same_labels};
ghost use Rattle.alphabet.specs.Alphabet.{bad_byte_in};
ghost use Rattle.alphabet.specs.Within.{class_table};
ghost use Rattle.lines.specs.Lines.{rule_of, bring_up_in, change_of};
ghost use Rattle.lines.specs.Within.{two_labels_at, formed_at, same_at, SpanInside, TwoLabels, rule_line_at, rule_said, RuleInside, RuleHeld, change_line_at, change_said, ChangeInside};

use alphabet::{Field, LabelField};
use refusals::Refusal;

// Where a field stands: line[start..end].
#[derive(Clone, Copy, Debug, PartialEq, Eq)]
pub struct Span {
    pub start: usize,
    pub end: usize,
}

// Where a line's two labels stand.
#[derive(Clone, Copy, Debug, PartialEq, Eq)]
pub struct Pair {
    pub subject: Span,
    pub object: Span,
}

// The same, with whether each is well formed.
#[derive(Clone, Copy, Debug, PartialEq, Eq)]
struct Labels {
    pair: Pair,
    subject_formed: bool,
    object_formed: bool,
}

// A rule that a line of rule text says: where its labels stand, its modes, and whether its access field held b.
#[derive(Clone, Copy, Debug, PartialEq, Eq)]
pub struct RuleLine {
    pub labels: Pair,
    pub modes: u8,
    pub bring_up: bool,
}

// A change that a change-rule write says: where its labels stand, the modes that it allows and those that it denies.
#[derive(Clone, Copy, Debug, PartialEq, Eq)]
pub struct ChangeLine {
    pub labels: Pair,
    pub allow: u8,
    pub deny: u8,
}

// The two labels that a line begins with, not judged yet; or nothing, where it has only blanks. Who calls it lends the table that
// `alphabet::classes` gives.
#[inline(always)]
fn two_labels(classes: &[u8], line: &[u8]) -> Result<Option<Labels>, Refusal>
    requires { classes.now ≡ class_table }
    ensures { result ≡ two_labels_at line.now }
{
    if alphabet::LINE_LIMIT < line.len() {
        return Err(Refusal::TooLong);
    }
    let LabelField::Part {
        start: a,
        end: b,
        formed: subject_formed,
    } = alphabet::next_label_field(classes, line, 0)
    else {
        return Ok(None);
    };
    let LabelField::Part {
        start: c,
        end: d,
        formed: object_formed,
    } = alphabet::next_label_field(classes, line, b)
    else {
        return Err(Refusal::WrongFields);
    };
    Ok(Some(Labels {
        pair: Pair {
            subject: Span { start: a, end: b },
            object: Span { start: c, end: d },
        },
        subject_formed,
        object_formed,
    }))
}

// That both labels of a line are well formed, or refusal 3 with the place of the first bad byte. Who calls it has read them from that line.
#[inline(always)]
fn check_formed(line: &[u8], labels: Labels) -> Result<(), Refusal>
    requires { TwoLabels line.now labels }
    ensures ok { IfOk result (λ _. formed_at line.now labels.pair ≡ true) }
    ensures err { IfErr result (λ why. (why ≡ bad_label_at (bad_byte_in line.now)) × (formed_at line.now labels.pair ≡ false)) }
{
    let Labels {
        pair: Pair { subject, object },
        subject_formed,
        object_formed,
    } = labels;
    if !subject_formed {
        return Err(alphabet::bad_label_at(&line[subject.start..subject.end], subject.start));
    }
    if !object_formed {
        return Err(alphabet::bad_label_at(&line[object.start..object.end], object.start));
    }
    Ok(())
}

// That the two labels of a line are not the same, or refusal 5.
#[inline(always)]
fn check_apart(line: &[u8], pair: Pair) -> Result<(), Refusal>
    requires { SpanInside line.now pair.subject × SpanInside line.now pair.object }
    ensures ok { IfOk result (λ _. same_at line.now pair ≡ false) }
    ensures err { IfErr result (λ why. (why ≡ same_labels) × (same_at line.now pair ≡ true)) }
{
    let Pair { subject, object } = pair;
    if search::same_bytes(
        &line[subject.start..subject.end],
        &line[object.start..object.end],
    ) {
        return Err(Refusal::SameLabels);
    }
    Ok(())
}

// What a line of rule text says, whatever the table: a rule; or nothing, where it has only blanks.
pub fn rule_line(line: &[u8]) -> Result<Option<RuleLine>, Refusal>
    ensures value { result ≡ rule_line_at line.now }
    ensures said { rule_said line.now result ≡ rule_of line.now }
    ensures rule_inside { RuleInside line.now result }
    ensures rule_held { RuleHeld result (bring_up_in line.now) }
{
    let classes = alphabet::classes();
    let Some(labels) = two_labels(&classes, line)? else {
        return Ok(None);
    };
    let pair = labels.pair;
    let Field::Part { start, end } = alphabet::next_field_in(&classes, line, pair.object.end) else {
        return Err(Refusal::WrongFields);
    };
    let Field::End = alphabet::next_field_in(&classes, line, end) else {
        return Err(Refusal::WrongFields);
    };
    check_formed(line, labels)?; // before the access field is read
    let Some(m) = modes::read_modes(&line[start..end], modes::LINE_LETTERS, true) else {
        return Err(Refusal::BadAccess);
    };
    check_apart(line, pair)?; // behind the access field
    Ok(Some(RuleLine {
        labels: pair,
        modes: m & modes::RULE_LETTERS,
        bring_up: m & modes::BRING_UP != 0,
    }))
}

// What a change-rule write says, whatever the table.
pub fn change_line(line: &[u8]) -> Result<ChangeLine, Refusal>
    ensures value { result ≡ change_line_at line.now }
    ensures said { change_said line.now result ≡ change_of line.now }
    ensures change_inside { ChangeInside line.now result }
{
    let classes = alphabet::classes();
    let Some(labels) = two_labels(&classes, line)? else {
        return Err(Refusal::WrongFields);
    };
    let pair = labels.pair;
    let Field::Part {
        start: allow_from,
        end: allow_to,
    } = alphabet::next_field_in(&classes, line, pair.object.end)
    else {
        return Err(Refusal::WrongFields);
    };
    let Field::Part {
        start: deny_from,
        end: deny_to,
    } = alphabet::next_field_in(&classes, line, allow_to)
    else {
        return Err(Refusal::WrongFields);
    };
    let Field::End = alphabet::next_field_in(&classes, line, deny_to) else {
        return Err(Refusal::WrongFields);
    };
    check_formed(line, labels)?; // before the two fields of modes are read
    let Some(allow) = modes::read_modes(&line[allow_from..allow_to], modes::CHANGE_LETTERS, true)
    else {
        return Err(Refusal::BadAccess);
    };
    let Some(deny) = modes::read_modes(&line[deny_from..deny_to], modes::CHANGE_LETTERS, true)
    else {
        return Err(Refusal::BadAccess);
    };
    check_apart(line, pair)?; // behind the two fields of modes
    Ok(ChangeLine {
        labels: pair,
        allow,
        deny,
    })
}
