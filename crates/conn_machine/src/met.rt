//! The configuration that a connection met last.
ghost use Rattle.std.specs.Prelude.{◌≡◌, IfOk, option_map};
ghost use Rattle.conf_validate.specs.Current.{numbered};

use access_log::Format;
use conf_validate::{Conf, Current};
use std::alloc::{AllocError, Global};
use std::marker::Model;
use std::sync::Arc;

/// A configuration under its number, and the format of its log, parsed once. Contracts see number and configuration.
#[derive(Drop)]
pub(crate) struct Met {
    number: u64,
    conf: Arc<Conf>,
    format: Option<Format>,
}

impl Model for Met {
    ghost use Rattle.std.specs.Prelude.{◌≡◌};
    ghost use Rattle.std.specs.Arc.{arc_value};
    ghost use Rattle.conn_machine.specs.States.{Numbered};

    ghost Value = { Numbered };

    ghost view = { λ m. (m.number, arc_value m.conf) };

    ghost invariant = { λ m. m.format ≡ (arc_value m.conf).log_format };
}

impl Met {
    /// This configuration. Fails for want of memory alone.
    pub(crate) fn of(alloc: Global, current: &Current) -> Result<Met, AllocError>
        ensures { IfOk result (λ met. met ≡ numbered current.now) }
    {
        let another = current.another()?;
        let format = format_of(alloc, &another.conf)?;
        Ok(Met {
            number: another.number,
            conf: another.conf,
            format,
        })
    }

    /// Its number.
    pub(crate) fn number(&self) -> u64
        ensures { result ≡ self.now.0 }
    {
        self.number
    }

    /// What it says.
    pub(crate) fn conf(&self) -> &Conf
        ensures { result.now ≡ self.now.1 }
    {
        &self.conf
    }

    /// The format of its log, if it has one.
    pub(crate) fn format(&self) -> Option<&Format>
        ensures { option_map (λ f. f.now) result ≡ self.now.1.log_format }
    {
        self.format.as_ref()
    }
}

fn format_of(alloc: Global, conf: &Conf) -> Result<Option<Format>, AllocError>
    ensures { IfOk result (λ format. format ≡ conf.now.log_format) }
{
    // Each configuration keeps that its format is one.
    conf.is_kept();
    match conf.log_format() {
        Some(text) => Format::parse(alloc, text),
        None => Ok(None),
    }
}
