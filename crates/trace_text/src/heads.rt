//! The first line of a trace.

ghost use Rattle.std.specs.Prelude.{◌≡◌, IfOk, IfSome, map, option_map};
ghost use Rattle.trace_text.specs.Grammar.{all_hosts_said, are_head_words, head_of_words, hosts_said, no_hosts, head_values_said};
ghost use Rattle.trace_text.specs.Heads.{head_view, table_view};

use crate::hosts::{Head, Hosts};
use crate::words::{comma_parts, layout_said};
use rcce_audit::words::range_said;
use std::alloc::{AllocError, Global};

fn hosts_said(words: &[&[u8]]) -> Option<Hosts>
    ensures { option_map table_view result ≡ hosts_said (record { count = 0; hosts = no_hosts }) (map (λ word. word.now) words.now) }
{
    let mut hosts = Hosts::new();
    for word in words {
        let Some(next) = hosts.and(word) else {
            return None;
        };
        hosts = next;
    }
    Some(hosts)
}

/// A core for each of the ranks.
fn all_hosts_said(alloc: Global, nue: u8, word: &[u8]) -> Result<Option<Hosts>, AllocError>
    ensures gives { IfOk result (λ said. option_map (λ (hosts : Hosts). hosts.cores) said ≡ all_hosts_said nue word.now) }
    ensures all { IfOk result (λ said. IfSome said (λ hosts. hosts.count ≡ nue)) }
{
    let words = comma_parts(alloc, word)?;
    match hosts_said(words.as_slice()) {
        Some(hosts) if hosts.count == nue => Ok(Some(hosts)),
        _ => Ok(None),
    }
}

fn head_values_said(
    alloc: Global,
    nue: &[u8],
    layout: &[u8],
    hosts: &[u8],
) -> Result<Option<Head>, AllocError>
    ensures { IfOk result (λ said. option_map head_view said ≡ head_values_said nue.now layout.now hosts.now) }
{
    let Some(nue) = range_said(nue, 1, 48) else {
        return Ok(None);
    };
    let Some(layout) = layout_said(layout) else {
        return Ok(None);
    };
    let nue = nue as u8;
    match all_hosts_said(alloc, nue, hosts)? {
        Some(table) => {
            let hosts = table.cores;
            Ok(Some(Head { nue, layout, hosts }))
        }
        None => Ok(None),
    }
}

fn are_head_words(
    rcce: &[u8],
    trace: &[u8],
    version: &[u8],
    ranks: &[u8],
    flags: &[u8],
    cores: &[u8],
) -> bool
    ensures { result ≡ are_head_words rcce.now trace.now version.now ranks.now flags.now cores.now }
{
    rcce == b"rcce".as_slice()
        && trace == b"trace".as_slice()
        && version == b"1".as_slice()
        && ranks == b"nue".as_slice()
        && flags == b"layout".as_slice()
        && cores == b"hosts".as_slice()
}

/// What the first line says, by its words.
pub(crate) fn head_of_words(alloc: Global, words: &[&[u8]]) -> Result<Option<Head>, AllocError>
    ensures { IfOk result (λ said. option_map head_view said ≡ head_of_words (map (λ word. word.now) words.now)) }
{
    match words {
        [
            rcce,
            trace,
            version,
            ranks,
            nue,
            flags,
            layout,
            cores,
            hosts,
        ] => {
            if are_head_words(rcce, trace, version, ranks, flags, cores) {
                head_values_said(alloc, nue, layout, hosts)
            } else {
                Ok(None)
            }
        }
        _ => Ok(None),
    }
}
