// The static library: what a C program links. Each function hands its arguments to the function of its name in the crate balqirven, and
// promises what that one does, in the same clauses: tests/thin_library makes this file out of that crate's, and the gate holds it to it. No call has a
// condition. include/balqirven.h is the C side of it.
#![tactic(auto)]

ghost use Rattle.std.specs.Prelude.{◌≡◌, length, take, drop};
ghost use Rattle.store.specs.Layout.{store};
ghost use Rattle.store.specs.Judged.{fresh_answer, fresh_store};
ghost use Rattle.writes.specs.Writes.{change_answer, change_store};
ghost use Rattle.revoke.specs.Revoke.{revoke_answer, revoke_store};
ghost use Rattle.onlycap.specs.Onlycap.{onlycap_answer, onlycap_store};
ghost use Rattle.cipso.specs.Cipso.{map_answer, map_stored};
ghost use Rattle.lookups.specs.Lookups.{by_label_of, by_level_of};
ghost use Rattle.run.specs.Run.{run_of, records_of};
ghost use Rattle.access.specs.Access.{question_of};
ghost use Rattle.new_object.specs.NewObject.{object_label_of};
ghost use Rattle.listing.specs.Listing.{list_answer, list_out, label_given, label_answer};
ghost use Rattle.output.specs.Output.{text_answer, text_out};
ghost use Rattle.cipso_option.specs.Option.{option_answer, option_out, peer_given, peer_shown};
ghost use Rattle.fixed_load.specs.Records.{line_from, record_from};
ghost use Rattle.reports.specs.Report.{fresh_loader};
ghost use Rattle.load.specs.Loader.{load, piece_answer, piece_after, end_answer, end_after};
ghost use Rattle.answers.specs.Answers.{shown, write_shown, revoke_shown, piece_shown, end_shown, output_shown, lookup_shown, search_shown, object_shown, part_shown};

use answers::{Counted, Finished, Labelled, Length, Lowest, Mapped, Part, Shown, Taken, Written};
use cipso_option::PeerLabel;
use numbers::CategorySet;
use reports::Loader;
use run::Record;

// Makes a fresh table of lent memory.
#[unsafe(no_mangle)]
pub extern "C" fn bq_fresh_table(labels: &mut [u8], entries: &[u8], words: &mut [u64]) -> Written
    ensures value { result ≡ write_shown (fresh_answer (store labels.old entries.now words.old)) }
    ensures stored { store labels.new entries.now words.new ≡ fresh_store (store labels.old entries.now words.old) }
{
    balqirven::bq_fresh_table(labels, entries, words)
}

// A fresh loader.
#[unsafe(no_mangle)]
pub extern "C" fn bq_fresh_loader() -> Loader
    ensures { result ≡ fresh_loader }
{
    balqirven::bq_fresh_loader()
}

// Takes a piece of rule text: any bytes, any length, also none.
#[unsafe(no_mangle)]
pub extern "C" fn bq_piece(
    labels: &mut [u8],
    entries: &mut [u8],
    words: &mut [u64],
    line: &mut [u8],
    l: Loader,
    text: &[u8],
) -> Taken
    ensures value { result ≡ piece_shown l (piece_answer (load (store labels.old entries.old words.old) line.old l) text.now) }
    ensures loaded { load (store labels.new entries.new words.new) line.new result.loader
        ≡ piece_after (load (store labels.old entries.old words.old) line.old l) text.now }
{
    balqirven::bq_piece(labels, entries, words, line, l, text)
}

// The end call.
#[unsafe(no_mangle)]
pub extern "C" fn bq_end(
    labels: &mut [u8],
    entries: &mut [u8],
    words: &mut [u64],
    line: &mut [u8],
    l: Loader,
) -> Finished
    ensures value { result ≡ end_shown l (end_answer (load (store labels.old entries.old words.old) line.old l)) }
    ensures loaded { load (store labels.new entries.new words.new) line.new result.loader ≡ end_after (load (store labels.old entries.old words.old) line.old l) }
{
    balqirven::bq_end(labels, entries, words, line, l)
}

// Change-rule.
#[unsafe(no_mangle)]
pub extern "C" fn bq_change(
    labels: &mut [u8],
    entries: &mut [u8],
    words: &mut [u64],
    text: &[u8],
) -> Written
    ensures value { result ≡ write_shown (change_answer (store labels.old entries.old words.old) text.now) }
    ensures stored { store labels.new entries.new words.new ≡ change_store (store labels.old entries.old words.old) text.now }
{
    balqirven::bq_change(labels, entries, words, text)
}

// The onlycap list.
#[unsafe(no_mangle)]
pub extern "C" fn bq_onlycap(
    labels: &mut [u8],
    entries: &mut [u8],
    words: &mut [u64],
    text: &[u8],
) -> Written
    ensures value { result ≡ write_shown (onlycap_answer (store labels.old entries.old words.old) text.now) }
    ensures stored { store labels.new entries.new words.new ≡ onlycap_store (store labels.old entries.old words.old) text.now }
{
    balqirven::bq_onlycap(labels, entries, words, text)
}

// A CIPSO mapping.
#[unsafe(no_mangle)]
pub extern "C" fn bq_mapping(
    labels: &mut [u8],
    entries: &mut [u8],
    words: &mut [u64],
    text: &[u8],
) -> Written
    ensures value { result ≡ write_shown (map_answer (store labels.old entries.old words.old) text.now) }
    ensures stored { store labels.new entries.new words.new ≡ map_stored (store labels.old entries.old words.old) text.now }
{
    balqirven::bq_mapping(labels, entries, words, text)
}

// Revoke-subject.
#[unsafe(no_mangle)]
pub extern "C" fn bq_revoke(
    labels: &[u8],
    entries: &mut [u8],
    words: &[u64],
    label: &[u8],
) -> Counted
    ensures value { result ≡ revoke_shown (revoke_answer (store labels.now entries.old words.now) label.now) }
    ensures entries_after { entries.new ≡ (revoke_store (store labels.now entries.old words.now) label.now).entries }
{
    balqirven::bq_revoke(labels, entries, words, label)
}

// The mapping of a label.
#[unsafe(no_mangle)]
pub extern "C" fn bq_by_label(labels: &[u8], entries: &[u8], words: &[u64], label: &[u8]) -> Mapped
    ensures { result ≡ lookup_shown (by_label_of (store labels.now entries.now words.now) label.now) }
{
    balqirven::bq_by_label(labels, entries, words, label)
}

// The lowest-numbered label with a level and a set.
#[unsafe(no_mangle)]
pub extern "C" fn bq_by_level(
    labels: &[u8],
    entries: &[u8],
    words: &[u64],
    level: u64,
    set: CategorySet,
) -> Lowest
    ensures { result ≡ search_shown (by_level_of (store labels.now entries.now words.now) level set) }
{
    balqirven::bq_by_level(labels, entries, words, level, set)
}

// The lowest label number of a run, whose fields stand in three slices, a set as its three words, with a level and a set.
#[unsafe(no_mangle)]
pub extern "C" fn bq_lowest_of(
    labels: &[u64],
    levels: &[u64],
    sets: &[u64],
    level: u64,
    set: CategorySet,
) -> Lowest
    ensures { result ≡ search_shown (run_of (records_of labels.now levels.now sets.now) level set) }
{
    balqirven::bq_lowest_of(labels, levels, sets, level, set)
}

// The lowest label number of a run of records with a level and a set.
#[unsafe(no_mangle)]
pub extern "C" fn bq_lowest_in_run(run: &[Record], level: u64, set: CategorySet) -> Lowest
    ensures { result ≡ search_shown (run_of run.now level set) }
{
    balqirven::bq_lowest_in_run(run, level, set)
}

// The access check.
#[unsafe(no_mangle)]
pub extern "C" fn bq_question(
    labels: &[u8],
    entries: &[u8],
    words: &[u64],
    subject: &[u8],
    object: &[u8],
    request: &[u8],
    capable: bool,
) -> Shown
    ensures { result ≡ shown (question_of (store labels.now entries.now words.now) subject.now object.now request.now capable) }
{
    balqirven::bq_question(labels, entries, words, subject, object, request, capable)
}

// The label of a new object that a creator makes in a folder.
#[unsafe(no_mangle)]
pub extern "C" fn bq_new_object(
    labels: &[u8],
    entries: &[u8],
    words: &[u64],
    creator: &[u8],
    folder: &[u8],
    folder_transmutes: bool,
    is_folder: bool,
) -> Labelled
    ensures { result ≡ object_shown (object_label_of (store labels.now entries.now words.now) creator.now folder.now folder_transmutes is_folder) }
{
    balqirven::bq_new_object(
        labels,
        entries,
        words,
        creator,
        folder,
        folder_transmutes,
        is_folder,
    )
}

// Rule number k as text, at the front of a lent buffer.
#[unsafe(no_mangle)]
pub extern "C" fn bq_list_rule(
    labels: &[u8],
    entries: &[u8],
    words: &[u64],
    k: usize,
    out: &mut [u8],
) -> Length
    ensures value { result ≡ output_shown (list_answer (store labels.now entries.now words.now) k out.old) }
    ensures out_after { out.new ≡ list_out (store labels.now entries.now words.now) k out.old }
{
    balqirven::bq_list_rule(labels, entries, words, k, out)
}

// The packet option of a label, at the front of a lent buffer.
#[unsafe(no_mangle)]
pub extern "C" fn bq_write_option(
    labels: &[u8],
    entries: &[u8],
    words: &[u64],
    label: &[u8],
    out: &mut [u8],
) -> Length
    ensures value { result ≡ output_shown (option_answer (store labels.now entries.now words.now) label.now out.old) }
    ensures out_after { out.new ≡ option_out (store labels.now entries.now words.now) label.now out.old }
{
    balqirven::bq_write_option(labels, entries, words, label, out)
}

// The label that a packet option says.
#[unsafe(no_mangle)]
pub extern "C" fn bq_read_option(
    labels: &[u8],
    entries: &[u8],
    words: &[u64],
    option: &[u8],
) -> PeerLabel
    ensures { result ≡ peer_shown (peer_given (store labels.now entries.now words.now) option.now) }
{
    balqirven::bq_read_option(labels, entries, words, option)
}

// What the label of a number is answered with: done, or the refusal.
#[unsafe(no_mangle)]
pub extern "C" fn bq_label_check(labels: &[u8], entries: &[u8], words: &[u64], k: usize) -> Written
    ensures { result ≡ write_shown (label_answer (store labels.now entries.now words.now) k) }
{
    balqirven::bq_label_check(labels, entries, words, k)
}

// The very part of the lent label store that holds label k, by where it stands: an exported function can't answer a reference.
#[unsafe(no_mangle)]
pub extern "C" fn bq_label(labels: &[u8], entries: &[u8], words: &[u64], k: usize) -> Part
    ensures value { result ≡ part_shown k (length (label_given (store labels.now entries.now words.now) k)) (label_answer (store labels.now entries.now words.now) k) }
    ensures bytes { take result.length (drop result.start labels.now) ≡ label_given (store labels.now entries.now words.now) k }
{
    balqirven::bq_label(labels, entries, words, k)
}

// An old record of 53 bytes as a rule line, at the front of a lent buffer. Nothing but the two buffers is lent.
#[unsafe(no_mangle)]
pub extern "C" fn bq_record_to_line(bytes: &[u8], out: &mut [u8]) -> Length
    ensures value { result ≡ output_shown (text_answer (line_from bytes.now) out.old) }
    ensures out_after { out.new ≡ text_out (line_from bytes.now) out.old }
{
    balqirven::bq_record_to_line(bytes, out)
}

// A rule line, with or without its closing newline, as such a record.
#[unsafe(no_mangle)]
pub extern "C" fn bq_line_to_record(line: &[u8], out: &mut [u8]) -> Length
    ensures value { result ≡ output_shown (text_answer (record_from line.now) out.old) }
    ensures out_after { out.new ≡ text_out (record_from line.now) out.old }
{
    balqirven::bq_line_to_record(line, out)
}
