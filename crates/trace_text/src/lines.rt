//! The lines of a trace, each by its words.

ghost use Rattle.std.specs.Prelude.{◌≡◌, ◌<◌, ◌≤◌, IfOk, IfSome, map, option_map};
ghost use Rattle.trace_text.specs.Grammar.{access_said, event_by, event_said, free_event_said, load_event_said, store_event_said, take_event_said};
ghost use Rattle.trace_text.specs.Views.{rank_event};
ghost use Rattle.trace_text.specs.Words.{dot_parts, place_said, register_place_said};

use crate::traces::TraceEvent;
use crate::words::{dot_parts, hex_word_said, is_comment, place_said, register_place_said};
use rcce_audit::rank_said;
use scc_base::{CoreId, Event, Place};
use std::alloc::{AllocError, Global};

/// The place of a word.
fn place_in(alloc: Global, place: &[u8]) -> Result<Option<Place>, AllocError>
    ensures { IfOk result (λ said. said ≡ place_said (dot_parts place.now)) }
{
    let parts = dot_parts(alloc, place)?;
    Ok(place_said(parts.as_slice()))
}

/// The core of a register.
fn register_in(alloc: Global, place: &[u8]) -> Result<Option<CoreId>, AllocError>
    ensures { IfOk result (λ said. said ≡ register_place_said (dot_parts place.now)) }
{
    let parts = dot_parts(alloc, place)?;
    Ok(register_place_said(parts.as_slice()))
}

fn load_event_said(alloc: Global, place: &[u8], value: &[u8]) -> Result<Option<Event>, AllocError>
    ensures gives { IfOk result (λ said. said ≡ load_event_said place.now value.now) }
{
    let Some(place) = place_in(alloc, place)? else {
        return Ok(None);
    };
    match hex_word_said(value) {
        Some(value) => Ok(Some(Event::load(place, value))),
        None => Ok(None),
    }
}

fn store_event_said(alloc: Global, place: &[u8], value: &[u8]) -> Result<Option<Event>, AllocError>
    ensures gives { IfOk result (λ said. said ≡ store_event_said place.now value.now) }
{
    let Some(place) = place_in(alloc, place)? else {
        return Ok(None);
    };
    match hex_word_said(value) {
        Some(value) => Ok(Some(Event::store(place, value))),
        None => Ok(None),
    }
}

fn take_event_said(alloc: Global, place: &[u8], value: &[u8]) -> Result<Option<Event>, AllocError>
    ensures gives { IfOk result (λ said. said ≡ take_event_said place.now value.now) }
{
    let Some(core) = register_in(alloc, place)? else {
        return Ok(None);
    };
    match hex_word_said(value) {
        Some(value) if value <= 1 => Ok(Some(Event::take(core, value == 1))),
        _ => Ok(None),
    }
}

fn free_event_said(alloc: Global, place: &[u8], value: &[u8]) -> Result<Option<Event>, AllocError>
    ensures gives { IfOk result (λ said. said ≡ free_event_said place.now value.now) }
{
    let Some(core) = register_in(alloc, place)? else {
        return Ok(None);
    };
    match hex_word_said(value) {
        Some(0) => Ok(Some(Event::free(core))),
        _ => Ok(None),
    }
}

/// The event of an access, by its name.
fn access_said(
    alloc: Global,
    access: &[u8],
    place: &[u8],
    value: &[u8],
) -> Result<Option<Event>, AllocError>
    ensures gives { IfOk result (λ said. said ≡ access_said access.now place.now value.now) }
{
    if access == b"load".as_slice() {
        load_event_said(alloc, place, value)
    } else if access == b"store".as_slice() {
        store_event_said(alloc, place, value)
    } else if access == b"take".as_slice() {
        take_event_said(alloc, place, value)
    } else if access == b"free".as_slice() {
        free_event_said(alloc, place, value)
    } else {
        Ok(None)
    }
}

/// The event of an access of a rank.
fn event_by(
    alloc: Global,
    nue: u8,
    rank: &[u8],
    access: &[u8],
    place: &[u8],
    value: &[u8],
) -> Result<Option<TraceEvent>, AllocError>
    requires some { 1 ≤ nue }
    requires most { nue ≤ 48 }
    ensures gives { IfOk result (λ said. option_map rank_event said ≡ event_by nue rank.now access.now place.now value.now) }
    ensures valid { IfOk result (λ said. IfSome said (λ e. e.rank < nue)) }
{
    let Some(rank) = rank_said(rank, nue) else {
        return Ok(None);
    };
    match access_said(alloc, access, place, value)? {
        Some(event) => Ok(Some(TraceEvent { rank, event })),
        None => Ok(None),
    }
}

/// The event of a line, by its words.
pub(crate) fn event_said(
    alloc: Global,
    nue: u8,
    words: &[&[u8]],
) -> Result<Option<TraceEvent>, AllocError>
    requires some { 1 ≤ nue }
    requires most { nue ≤ 48 }
    ensures gives { IfOk result (λ said. option_map rank_event said ≡ event_said nue (map (λ word. word.now) words.now)) }
    ensures valid { IfOk result (λ said. IfSome said (λ e. e.rank < nue)) }
{
    match words {
        [rank, access, place, value, rest @ ..] => {
            if is_comment(rest) {
                event_by(alloc, nue, rank, access, place, value)
            } else {
                Ok(None)
            }
        }
        _ => Ok(None),
    }
}
