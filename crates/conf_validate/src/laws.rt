//! What holds of the definitions themselves: each function's contract is a law, and its body is empty.
ghost use Rattle.std.specs.Prelude.{◌≡◌, All, codes, List, None, ℕ};
ghost use Rattle.serde_json.specs.Data.{Data};
ghost use Rattle.serde_json.specs.Find.{get};
ghost use Rattle.conf_tree.specs.Document.{IsDocument};
ghost use Rattle.conf_validate.specs.Configuration.{configuration_of};
ghost use Rattle.conf_validate.specs.Laws.{AsksOnlyFor, HasGoal, HasNoChanges};
ghost use Rattle.conf_validate.specs.Plain.{ChangesNothing, Finds, IsPlain, Leads, passes_of, plain_table};
ghost use Rattle.conf_validate.specs.Valid.{fault_by, fault_of};

/// Where no pass and no location of a document has a `$`, the whole has no `access_log`, and no action a `rewrite` or
/// `response_headers`, the first broken rule is that of the plain table, which knows neither variables nor these members.
pub fn plain_documents_keep_the_plain_rules()
    ensures { (document : Data) (handlers : List (List ℕ)) → IsDocument document → IsPlain document
        → fault_of document handlers ≡ fault_by plain_table document handlers }
{}

/// The configuration of a document that is plain in this sense has no log, and its steps rewrite and change nothing.
pub fn plain_documents_change_nothing()
    ensures log { (document : Data) → IsPlain document
        → (configuration_of document).log_format ≡ None }
    ensures steps { (document : Data) → IsPlain document
        → All ChangesNothing (configuration_of document).steps }
{}

/// The same of a document without `access_log` and of one whose actions have no `rewrite` and no `response_headers`, where
/// its texts have a `$` too.
pub fn documents_without_changes_change_nothing()
    ensures log { (document : Data) → get (codes "access_log") document ≡ None
        → (configuration_of document).log_format ≡ None }
    ensures steps { (document : Data) → HasNoChanges document
        → All ChangesNothing (configuration_of document).steps }
{}

/// In a valid document each pass of a listener or of a step's action that has no `$` has its goal in the configuration.
pub fn passes_have_goals()
    ensures { (document : Data) (handlers : List (List ℕ)) → fault_of document handlers ≡ None
        → All (HasGoal (configuration_of document)) (passes_of document) }
{}

/// The configuration of a valid document asks only for the handlers that it was validated with: each of its applications
/// has one of them, and a request goes to no other, also where a pass has variables.
pub fn configurations_ask_for_handlers()
    ensures { (document : Data) (handlers : List (List ℕ)) → fault_of document handlers ≡ None
        → AsksOnlyFor handlers (configuration_of document) }
{}

/// In a valid document that is plain, each pass of a listener or of a step's action names the routes, which
/// are an array, or a route or an application that is there.
pub fn plain_passes_find_their_targets()
    ensures { (document : Data) (handlers : List (List ℕ)) → IsPlain document
        → fault_of document handlers ≡ None → All (Finds document) (passes_of document) }
{}

/// So each of these passes leads to steps of the document, all with actions, or to an application of the document, whose
/// handler is there.
pub fn plain_passes_lead_somewhere()
    ensures { (document : Data) (handlers : List (List ℕ)) → IsPlain document
        → fault_of document handlers ≡ None → All (Leads document handlers) (passes_of document) }
{}
