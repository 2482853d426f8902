//! Names in lower case.
ghost use Rattle.std.specs.Prelude.{◌≡◌, ◌++◌, ◌∷◌, [], List, ℕ, IfOk};
ghost use Rattle.std.specs.Str.{str_to_ascii_lowercase};
ghost use Rattle.conf_validate.specs.Again.{IsAgain, Knows, KnowsOf};
ghost use Rattle.conf_validate.specs.Forms.{is_again};

use crate::place::Names;
use std::alloc::{AllocError, Global};
use std::collections::BTreeMap;

/// The names that were met, in lower case.
#[derive(Drop)]
pub(crate) struct LowerNames {
    names: BTreeMap<Vec<u8>, ()>,
}

impl LowerNames {
    /// No names.
    pub(crate) fn new(alloc: Global) -> LowerNames
        ensures { Knows result [] }
    {
        LowerNames {
            names: BTreeMap::new(alloc),
        }
    }

    /// Takes a name, and says whether it was met in any case before. Names of other objects than those of header fields
    /// aren't looked at.
    pub(crate) fn meet_of(
        &mut self,
        alloc: Global,
        names: Names,
        name: &[u8],
    ) -> Result<bool, AllocError>
        ensures again { IfOk result (λ again. (earlier : List (List ℕ))
            → KnowsOf names self.old earlier → IsAgain names earlier name.now again) }
        ensures known { IfOk result (λ again. (earlier : List (List ℕ))
            → KnowsOf names self.old earlier → KnowsOf names self.new (earlier ++ name.now ∷ [])) }
    {
        match names {
            Names::Header(_) => self.meet(alloc, name),
            _ => Ok(false),
        }
    }

    fn meet(&mut self, alloc: Global, name: &[u8]) -> Result<bool, AllocError>
        ensures again { IfOk result (λ again. (earlier : List (List ℕ)) → Knows self.old earlier
            → again ≡ is_again earlier name.now) }
        ensures known { IfOk result (λ again. (earlier : List (List ℕ)) → Knows self.old earlier
            → Knows self.new (earlier ++ name.now ∷ [])) }
    {
        let lower = lowercase(alloc, name)?;
        let old = match self.names.insert(lower, ()) {
            Ok(old) => old,
            Err(_) => return Err(AllocError),
        };
        Ok(old.is_some())
    }
}

/// The text in lower case.
///
/// Fails for want of memory alone.
pub(crate) fn lowercase(alloc: Global, text: &[u8]) -> Result<Vec<u8>, AllocError>
    ensures { IfOk result (λ lower. lower.items ≡ str_to_ascii_lowercase text.now) }
{
    text.iter().map(|b| b.to_ascii_lowercase()).collect(alloc)
}
