//! Formats of log lines.
ghost use Rattle.std.specs.Prelude.{◌≡◌, IfOk, IsTrue, Some, None, if◌then◌else◌};
ghost use Rattle.conf_validate.specs.Forms.{is_log_format};

use conf_validate::is_log_format;
use std::alloc::{AllocError, Global};
use std::marker::Model;
use unit_types::Bytes;

/// The format of a log line. Contracts see its text.
///
/// Its type keeps that the text is a log format.
#[derive(Debug, Drop)]
pub struct Format {
    text: Bytes,
}

impl Model for Format {
    ghost use Rattle.std.specs.Prelude.{List, ℕ, IsTrue};
    ghost use Rattle.conf_validate.specs.Forms.{is_log_format};

    ghost Value = { List ℕ };

    ghost view = { λ f. f.text };

    ghost invariant = { λ f. IsTrue (is_log_format f.text) };
}

impl Format {
    /// The format that the text says: at most 1,024 bytes, none of them below 0x20, and at most 32 variables, where each
    /// `$` begins a variable of a request, or `status`, `body_bytes_sent` or `request_line`. None where it breaks this.
    ///
    /// Fails for want of memory alone.
    pub fn parse(alloc: Global, text: &[u8]) -> Result<Option<Format>, AllocError>
        ensures { IfOk result (λ format. format
            ≡ (if is_log_format text.now then Some text.now else None)) }
    {
        if !is_log_format(text) {
            return Ok(None);
        }
        let text = Bytes::copy_of(alloc, text)?;
        Ok(Some(Format { text }))
    }

    /// The text, as it was parsed. It takes no memory.
    pub fn text(&self) -> &[u8]
        ensures value { result.now ≡ self.now }
        ensures form { IsTrue (is_log_format result.now) }
    {
        self.text.as_slice()
    }
}
