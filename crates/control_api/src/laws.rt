//! What holds of the replies as they are defined.
ghost use Rattle.std.specs.Prelude.{◌≡◌, ◌≢◌, ◌++◌, Bool, false, List, ℕ};
ghost use Rattle.control_api.specs.Control.{content_limit, control_reply};
ghost use Rattle.http_front.specs.NextUnit.{next_unit, wait};
ghost use Rattle.serde_json.specs.Data.{Data};

use http_front::laws_of_units;

/// Where what stands at the front of the bytes needs no more of them, the reply and the documents are the same for every
/// input that these bytes begin, so it may be written before the client has closed.
pub fn decided_requests_stay()
    ensures { (documents : List Data) (names : List (List ℕ)) (bytes more : List ℕ) (ended : Bool)
        → (next_unit bytes false content_limit).found ≢ wait
        → control_reply documents names (bytes ++ more) ended
        ≡ control_reply documents names bytes false }
{
    laws_of_units();
}
