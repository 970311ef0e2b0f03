// What each call answers, in 01's numbers: an exported function can't answer an enum, so a host gets a struct of plain numbers for it. Which
// number and values each case has, specs/Answers.antt says once for each answer.
#![tactic(auto)]

ghost use Rattle.std.specs.Prelude.{◌≡◌};
ghost use Rattle.access.specs.SevenRules.{denial_number};
ghost use Rattle.answers.specs.Answers.{shown, write_shown, revoke_shown, piece_shown, end_shown, output_shown, lookup_shown, search_shown, object_shown};

use access::{Answer, Denial};
use lookups::Cipso;
use new_object::ObjectLabel;
use numbers::CategorySet;
use refusals::Refusal;
use reports::{Loader, Report};

// What a question answers. Kind 0 is granted, 1 denied, 2 granted by override, 3 refused; the number is the rule's, or the refusal's.
#[repr(C)]
#[derive(Clone, Copy, Debug, PartialEq, Eq)]
pub struct Shown {
    pub kind: u8,
    pub number: u8,
    pub place: usize,
}

// What a write answers. `number` and `place` are the refusal's where `refused` is true and 0 otherwise; so in those that follow, where they
// have them.
#[repr(C)]
#[derive(Clone, Copy, Debug, PartialEq, Eq)]
pub struct Written {
    pub refused: bool,
    pub number: u8,
    pub place: usize,
}

// What revoke-subject answers: how many rules have that subject.
#[repr(C)]
#[derive(Clone, Copy, Debug, PartialEq, Eq)]
pub struct Counted {
    pub refused: bool,
    pub number: u8,
    pub count: usize,
    pub place: usize,
}

// What a piece of rule text answers: the loader for the next call.
#[repr(C)]
#[derive(Clone, Copy, Debug, PartialEq, Eq)]
pub struct Taken {
    pub refused: bool,
    pub number: u8,
    pub loader: Loader,
}

// What the end call answers: the report, and the loader for the next call.
#[repr(C)]
#[derive(Clone, Copy, Debug, PartialEq, Eq)]
pub struct Finished {
    pub refused: bool,
    pub number: u8,
    pub report: Report,
    pub loader: Loader,
}

// What a call that writes to a lent output answers: how many bytes were written.
#[repr(C)]
#[derive(Clone, Copy, Debug, PartialEq, Eq)]
pub struct Length {
    pub refused: bool,
    pub number: u8,
    pub length: usize,
}

// What a look-up by label answers. Kind 0 is a mapping, 1 none, 2 refused.
#[repr(C)]
#[derive(Clone, Copy, Debug, PartialEq, Eq)]
pub struct Mapped {
    pub kind: u8,
    pub number: u8,
    pub level: u8,
    pub count: u32,
    pub set: CategorySet,
    pub place: usize,
}

// What a look-up by level and set answers, in the table or in a run. Kind 0 is a label, by its number, 1 none, 2 refused.
#[repr(C)]
#[derive(Clone, Copy, Debug, PartialEq, Eq)]
pub struct Lowest {
    pub kind: u8,
    pub number: u8,
    pub label: usize,
}

// Which label a new object gets. Kind 0 is the creator's, 1 denied, 2 the folder's, 3 refused.
#[repr(C)]
#[derive(Clone, Copy, Debug, PartialEq, Eq)]
pub struct Labelled {
    pub kind: u8,
    pub number: u8,
    pub transmutes: bool,
}

// Where a label stands in the lent label store: `length` bytes from `start` on.
#[repr(C)]
#[derive(Clone, Copy, Debug, PartialEq, Eq)]
pub struct Part {
    pub refused: bool,
    pub number: u8,
    pub start: usize,
    pub length: usize,
}

// The number of the rule that denies.
fn denial_number(by: Denial) -> u8
    ensures { result ≡ denial_number by }
{
    match by {
        Denial::StarSubject => 1,
        Denial::AnyOther => 7,
    }
}

// The answer to a question in 01's numbers, for a host or a program to show.
impl From<Answer> for Shown {
    ghost from_gives = { λ answer told. told ≡ shown answer };

    fn from(answer: Answer) -> Shown {
        match answer {
            Answer::Granted(rule) => Shown {
                kind: 0,
                number: rule,
                place: 0,
            },
            Answer::Denied(rule) => Shown {
                kind: 1,
                number: denial_number(rule),
                place: 0,
            },
            Answer::Override(rule) => Shown {
                kind: 2,
                number: denial_number(rule),
                place: 0,
            },
            Answer::Refused(refusal) => Shown {
                kind: 3,
                number: refusal.number(),
                place: refusal.place(),
            },
        }
    }
}

// So for a write.
impl From<Result<(), Refusal>> for Written {
    ghost from_gives = { λ answer told. told ≡ write_shown answer };

    fn from(answer: Result<(), Refusal>) -> Written {
        match answer {
            Ok(()) => Written {
                refused: false,
                number: 0,
                place: 0,
            },
            Err(refusal) => Written {
                refused: true,
                number: refusal.number(),
                place: refusal.place(),
            },
        }
    }
}

// So for revoke-subject.
impl From<Result<usize, Refusal>> for Counted {
    ghost from_gives = { λ answer told. told ≡ revoke_shown answer };

    fn from(answer: Result<usize, Refusal>) -> Counted {
        match answer {
            Ok(count) => Counted {
                refused: false,
                number: 0,
                count,
                place: 0,
            },
            Err(refusal) => Counted {
                refused: true,
                number: refusal.number(),
                count: 0,
                place: refusal.place(),
            },
        }
    }
}

// So for a piece. `before` is the loader that was handed in.
pub fn piece_shown(before: Loader, answer: Result<Loader, Refusal>) -> Taken
    ensures { result ≡ piece_shown before answer }
{
    match answer {
        Ok(loader) => Taken {
            refused: false,
            number: 0,
            loader,
        },
        Err(refusal) => Taken {
            refused: true,
            number: refusal.number(),
            loader: before,
        },
    }
}

// So for the end call.
pub fn end_shown(before: Loader, answer: Result<(Report, Loader), Refusal>) -> Finished
    ensures { result ≡ end_shown before answer }
{
    match answer {
        Ok((report, loader)) => Finished {
            refused: false,
            number: 0,
            report,
            loader,
        },
        Err(refusal) => Finished {
            refused: true,
            number: refusal.number(),
            report: reports::ZEROS,
            loader: before,
        },
    }
}

// So for a text written to a lent output.
impl From<Result<usize, Refusal>> for Length {
    ghost from_gives = { λ answer told. told ≡ output_shown answer };

    fn from(answer: Result<usize, Refusal>) -> Length {
        match answer {
            Ok(length) => Length {
                refused: false,
                number: 0,
                length,
            },
            Err(refusal) => Length {
                refused: true,
                number: refusal.number(),
                length: 0,
            },
        }
    }
}

// So for a look-up by label.
impl From<Result<Option<Cipso>, Refusal>> for Mapped {
    ghost from_gives = { λ answer told. told ≡ lookup_shown answer };

    fn from(answer: Result<Option<Cipso>, Refusal>) -> Mapped {
        match answer {
            Ok(Some(mapped)) => Mapped {
                kind: 0,
                number: 0,
                level: mapped.level,
                count: mapped.count,
                set: mapped.set,
                place: 0,
            },
            Ok(None) => Mapped {
                kind: 1,
                number: 0,
                level: 0,
                count: 0,
                set: numbers::NO_CATEGORIES,
                place: 0,
            },
            Err(refusal) => Mapped {
                kind: 2,
                number: refusal.number(),
                level: 0,
                count: 0,
                set: numbers::NO_CATEGORIES,
                place: refusal.place(),
            },
        }
    }
}

// So for a look-up by level and set.
impl From<Result<Option<usize>, Refusal>> for Lowest {
    ghost from_gives = { λ answer told. told ≡ search_shown answer };

    fn from(answer: Result<Option<usize>, Refusal>) -> Lowest {
        match answer {
            Ok(Some(label)) => Lowest {
                kind: 0,
                number: 0,
                label,
            },
            Ok(None) => Lowest {
                kind: 1,
                number: 0,
                label: 0,
            },
            Err(refusal) => Lowest {
                kind: 2,
                number: refusal.number(),
                label: 0,
            },
        }
    }
}

// So for the label of a new object.
impl From<Result<ObjectLabel, Refusal>> for Labelled {
    ghost from_gives = { λ answer told. told ≡ object_shown answer };

    fn from(answer: Result<ObjectLabel, Refusal>) -> Labelled {
        match answer {
            Ok(ObjectLabel::CreatorLabel) => Labelled {
                kind: 0,
                number: 0,
                transmutes: false,
            },
            Ok(ObjectLabel::Denied) => Labelled {
                kind: 1,
                number: 0,
                transmutes: false,
            },
            Ok(ObjectLabel::FolderLabel(transmutes)) => Labelled {
                kind: 2,
                number: 0,
                transmutes,
            },
            Err(refusal) => Labelled {
                kind: 3,
                number: refusal.number(),
                transmutes: false,
            },
        }
    }
}
