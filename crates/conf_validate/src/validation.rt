//! Validation.
ghost use Rattle.std.specs.Prelude.{◌≡◌, All, MatchResult, Some, None};
ghost use Rattle.conf_tree.specs.Document.{IsDocument};
ghost use Rattle.conf_tree.specs.View.{data_of};
ghost use Rattle.conf_validate.specs.Answers.{IsConfiguration, IsRefusal};
ghost use Rattle.unit_types.specs.Limits.{IsShortName};

use crate::compile::configuration_of;
use crate::conf::Conf;
use crate::fault::ConfFault;
use crate::walk::first_fault;
use conf_tree::Tree;
use std::alloc::Global;
use unit_types::Bytes;

/// The configuration that a document says, whose applications may have these handlers.
///
/// `Invalid` comes exactly where a rule is broken, and names the first one of the walk (`first_fault`); `Memory` is want
/// of memory.
pub fn validate(alloc: Global, document: &Tree, handlers: &[Bytes]) -> Result<Conf, ConfFault>
    requires document { IsDocument (data_of document.now) }
    requires short { All IsShortName handlers.now }
    ensures { MatchResult result (IsConfiguration (data_of document.now) handlers.now)
        (IsRefusal (data_of document.now) handlers.now) }
{
    match first_fault(alloc, document, handlers)? {
        Some(fault) => Err(ConfFault::Invalid(fault)),
        None => Ok(configuration_of(alloc, document)?),
    }
}
