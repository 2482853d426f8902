//! From a valid document to a configuration.
ghost use Rattle.std.specs.Prelude.{◌≡◌, ◌++◌, [], IfOk, IfSome, OnOk, map, option_map, List};
ghost use Rattle.conf_tree.specs.Document.{IsDocument};
ghost use Rattle.conf_tree.specs.View.{data_of};
ghost use Rattle.conf_validate.specs.Configuration.{configuration_of, default_format, format_of, max_body_of};
ghost use Rattle.conf_validate.specs.Kept.{IsKept};

use crate::applications::{applications_of, listeners_of};
use crate::conf::Conf;
use crate::destinations::{application_destinations, goals_of_listeners, goals_of_steps};
use crate::members::member_of;
use crate::routes::steps_of;
use crate::values::{number_in, part, text_in};
use conf_tree::Tree;
use std::alloc::{AllocError, Global};
use unit_types::{Bytes, DEFAULT_CONTENT_LIMIT};

/// What the document says.
pub(crate) fn configuration_of(alloc: Global, document: &Tree) -> Result<Conf, AllocError>
    requires document { IsDocument (data_of document.now) }
    requires kept { IsKept (configuration_of (data_of document.now)) }
    ensures { IfOk result (λ conf. conf ≡ configuration_of (data_of document.now)) }
{
    let listeners = listeners_of(alloc, document)?;
    let mut destinations = application_destinations(alloc, document)?;
    let steps = steps_of(alloc, document, &mut destinations)?;
    let listener_goals = goals_of_listeners(alloc, &listeners, &destinations)?;
    let step_goals = goals_of_steps(alloc, &steps, &destinations)?;
    Ok(Conf {
        applications: applications_of(alloc, document)?,
        listeners,
        destinations,
        steps,
        max_body: max_body_of(document),
        log_format: format_of(alloc, member_of(document, b"access_log"))?,
        listener_goals,
        step_goals,
    })
}

// ---- settings

fn max_body_of(document: &Tree) -> u64
    requires { IsDocument (data_of document.now) }
    ensures { result ≡ max_body_of (data_of document.now) }
{
    let http = part(member_of(document, b"settings"), b"http");
    match number_in(part(http, b"max_body_size")) {
        Some(size) => size,
        None => DEFAULT_CONTENT_LIMIT,
    }
}

fn format_of(alloc: Global, log: Option<&Tree>) -> Result<Option<Bytes>, AllocError>
    requires { IfSome log (λ t. IsDocument (data_of t.now)) }
    ensures { IfOk result
        (λ format. format ≡ format_of (option_map (λ t. data_of t.now) log.entry)) }
{
    match log {
        Some(log) => match text_in(alloc, member_of(log, b"format"))? {
            Some(text) => Ok(Some(text)),
            None => Ok(Some(default_format(alloc)?)),
        },
        None => Ok(None),
    }
}

fn default_format(alloc: Global) -> Result<Bytes, AllocError>
    ensures { IfOk result (λ format. format ≡ default_format) }
{
    Bytes::copy_of(
        alloc,
        b"$remote_addr \"$request_line\" $status $body_bytes_sent \"$header_referer\" \"$header_user_agent\"",
    )
}
