//! What holds of broken rules as they are defined.
ghost use Rattle.std.specs.Prelude.{◌≡◌, IsUtf8, List, Some, ℕ};
ghost use Rattle.serde_json.specs.Data.{Data};
ghost use Rattle.conf_tree.specs.Document.{IsDocument};
ghost use Rattle.conf_validate.specs.Valid.{fault_of};
ghost use Rattle.conf_validate.specs.declared.fault.Invalid.{Invalid};

/// The path of a broken rule is UTF-8, as the document's names are, so it can be written as a JSON text.
pub fn paths_of_faults_are_texts()
    ensures { (document : Data) (handlers : List (List ℕ)) (fault : Invalid) → IsDocument document
        → fault_of document handlers ≡ Some fault → IsUtf8 fault.path }
{}
