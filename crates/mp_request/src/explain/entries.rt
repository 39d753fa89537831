//! All explanations.
ghost use Rattle.std.specs.Prelude.{◌≡◌, ◌∷◌, [], IfOk, map};
ghost use Rattle.mp_modules.specs.Findings.{by_number};
ghost use Rattle.mp_modules.specs.Kinds.{all_kinds};
ghost use Rattle.mp_request.specs.explain.Subjects.{check_words, refusals, seat_refusals, subjects, text_faults};
ghost use Rattle.mp_request.specs.declared.explain.topic.Topic.TheVariants.{Text, Edit, Seat, Finding, Check, Kind, Steady};

use crate::explain::checks::{BECOMES, BUSY, DEADLOCK, LATE, UNDRIVEN, UNREAD};
use crate::explain::computing_kinds::{AND, JOIN, LESS, MUX, OR, SUB};
use crate::explain::data_kinds::{ADDC, BIT, REG, SUM, XORC};
use crate::explain::entry::Entry;
use crate::explain::event_kinds::{ARBITER, BUF, C, CALL, NOT, SELECT, TOGGLE, XOR};
use crate::explain::findings::{
    ACK_WHILE_IDLE, CALL_OVERLAP, CAPTURE_WHILE_HELD, DATA_AT_CAPTURE, DATA_WHILE_BUSY,
    DONE_WITHOUT_CALL, DONE_WITHOUT_GRANT, MERGE_COLLISION, PASS_WHILE_OPEN, REPEAT_REQUEST,
    REQUEST_WHILE_BUSY, SELECT_UNSTABLE, SETUP, WITHDRAWN,
};
use crate::explain::periods::STEADY;
use crate::explain::refusals_of_names::{
    ALREADY_DRIVEN, BAD_NAME, HISTORY_FULL, NAME_TAKEN, NO_SUCH_BUNDLE, NO_SUCH_MODULE,
    NO_SUCH_WIRE, OUT_OF_MEMORY, STILL_USED, TABLE_FULL,
};
use crate::explain::refusals_of_values::{
    BAD_BATCH, BAD_DELAY, BAD_LEVEL, BAD_PARAM, BAD_PORT, BAD_STIMULUS, BAD_WIDTH, IN_BATCH,
    NO_STIMULUS, WIDTH_MISMATCH, WRONG_PORTS,
};
use crate::explain::seat_refusals::{NO_WORK, NOT_A_DESIGNER, NOT_KEPT};
use crate::explain::text_faults::{
    BAD_FORMAT, BAD_NUMBER, LINE_OUT_OF_MEMORY, NO_HORIZON, NOT_ASCII, REFUSED, SECOND_HORIZON,
    TOO_LONG, UNKNOWN_STATEMENT, WORD_COUNT,
};
use std::alloc::{AllocError, Global};

/// The explanations of each code of a text, of an edit, of a seat and of a finding, by number, of each word of `check`, of each kind of module, and
/// of what `steady` writes.
/// `AllocError` comes if memory runs out.
///
/// Each group is a function of its own, since a proof takes more steps the more text its function names.
pub fn guide(alloc: Global) -> Result<Vec<Entry>, AllocError>
    ensures { IfOk result (λ guide. map (λ entry. entry.subject) guide.items ≡ subjects) }
{
    let mut guide = Vec::from_slice(alloc, text_faults())?;
    guide.extend_from_slice(refusals())?;
    guide.extend_from_slice(seat_refusals())?;
    guide.extend_from_slice(findings())?;
    guide.extend_from_slice(checks())?;
    guide.extend_from_slice(kinds())?;
    guide.extend_from_slice(periods())?;
    Ok(guide)
}

/// The codes of texts, by number.
fn text_faults() -> &'static [Entry]
    ensures { map (λ entry. entry.subject) result.now ≡ map Text text_faults }
{
    &[
        NOT_ASCII,
        UNKNOWN_STATEMENT,
        WORD_COUNT,
        BAD_NUMBER,
        NO_HORIZON,
        SECOND_HORIZON,
        REFUSED,
        TOO_LONG,
        LINE_OUT_OF_MEMORY,
        BAD_FORMAT,
    ]
}

/// The codes of edits, by number.
fn refusals() -> &'static [Entry]
    ensures { map (λ entry. entry.subject) result.now ≡ map Edit refusals }
{
    &[
        NAME_TAKEN,
        BAD_NAME,
        NO_SUCH_WIRE,
        NO_SUCH_MODULE,
        NO_SUCH_BUNDLE,
        BAD_WIDTH,
        BAD_LEVEL,
        BAD_DELAY,
        BAD_PORT,
        WRONG_PORTS,
        BAD_PARAM,
        WIDTH_MISMATCH,
        ALREADY_DRIVEN,
        STILL_USED,
        BAD_STIMULUS,
        NO_STIMULUS,
        TABLE_FULL,
        HISTORY_FULL,
        OUT_OF_MEMORY,
        BAD_BATCH,
        IN_BATCH,
    ]
}

/// The codes that come only at seats, by number.
fn seat_refusals() -> &'static [Entry]
    ensures { map (λ entry. entry.subject) result.now ≡ map Seat seat_refusals }
{
    &[NOT_A_DESIGNER, NO_WORK, NOT_KEPT]
}

/// The codes of findings, by number.
fn findings() -> &'static [Entry]
    ensures { map (λ entry. entry.subject) result.now ≡ map Finding by_number }
{
    &[
        MERGE_COLLISION,
        WITHDRAWN,
        SELECT_UNSTABLE,
        CALL_OVERLAP,
        DONE_WITHOUT_CALL,
        REPEAT_REQUEST,
        DONE_WITHOUT_GRANT,
        CAPTURE_WHILE_HELD,
        PASS_WHILE_OPEN,
        DATA_AT_CAPTURE,
        DATA_WHILE_BUSY,
        SETUP,
        REQUEST_WHILE_BUSY,
        ACK_WHILE_IDLE,
    ]
}

/// What `check` reports besides findings.
fn checks() -> &'static [Entry]
    ensures { map (λ entry. entry.subject) result.now ≡ map Check check_words }
{
    &[LATE, DEADLOCK, BECOMES, UNDRIVEN, UNREAD, BUSY]
}

/// What `steady` writes.
fn periods() -> &'static [Entry]
    ensures { map (λ entry. entry.subject) result.now ≡ Steady ∷ [] }
{
    &[STEADY]
}

/// The kinds of module.
fn kinds() -> &'static [Entry]
    ensures { map (λ entry. entry.subject) result.now ≡ map Kind all_kinds }
{
    &[
        BUF, NOT, XOR, C, TOGGLE, SELECT, CALL, ARBITER, REG, ADDC, XORC, SUM, BIT, AND, OR, SUB,
        LESS, MUX, JOIN,
    ]
}
