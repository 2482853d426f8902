//! What holds of the definitions themselves: each function's contract is a law, and its body is empty.
ghost use Rattle.std.specs.Prelude.{◌≡◌, All, List, ℕ};
ghost use Rattle.serde_json.specs.Data.{Data};
ghost use Rattle.unit_types.specs.declared.message.Request.{Request};
ghost use Rattle.conf_validate.specs.Configuration.{Configuration, configuration_of};
ghost use Rattle.conf_validate.specs.Kept.{IsKept};
ghost use Rattle.conf_validate.specs.Plain.{IsPlain};
ghost use Rattle.route_match.specs.Plain.{HasPlainLocation, HasPlainPasses, plain_last_step_of, plain_location_of, plain_target_of};
ghost use Rattle.route_match.specs.Passes.{Ends};
ghost use Rattle.route_match.specs.Target.{last_step_of, location_of, outcome_of, target_of};
ghost use Rattle.route_match.specs.There.{IsOutcome, IsTargetThere};
ghost use Rattle.route_match.specs.declared.walk.Outcome.{Outcome};

/// What an outcome tells is so: an application and its timeout are those of the configuration, and the step passes to it; a
/// return is what its step does; and what ends without a step has the status 404 or 500.
pub fn outcomes_are_there()
    ensures { (conf : Configuration) (listener : List ℕ) (request : Request) → IsKept conf
        → IsOutcome conf request (outcome_of conf listener request) }
{}

/// The outcome is what the relation over passes says, and it says one alone.
pub fn outcomes_follow_passes()
    ensures is { (conf : Configuration) (listener : List ℕ) (request : Request)
        → Ends conf request listener (outcome_of conf listener request) }
    ensures one { (conf : Configuration) (listener : List ℕ) (request : Request) (outcome : Outcome)
        → Ends conf request listener outcome → outcome ≡ outcome_of conf listener request }
{}

/// The application or the step of each target is one of the configuration.
pub fn targets_are_there()
    ensures { (conf : Configuration) (listener : List ℕ) (request : Request) → IsKept conf
        → IsTargetThere conf (target_of conf listener request) }
{}

/// Where no pass of a listener or a step has a `$`, each target and each last step is that of the walk which looks passes
/// up as they stand and knows nothing of variables.
pub fn plain_passes_need_no_variables()
    ensures target { (conf : Configuration) (listener : List ℕ) (request : Request)
        → HasPlainPasses conf
        → target_of conf listener request ≡ plain_target_of conf listener request }
    ensures step { (conf : Configuration) (listener : List ℕ) (request : Request)
        → HasPlainPasses conf
        → last_step_of conf listener request ≡ plain_last_step_of conf listener request }
{}

/// Where no location has a `$`, the location of a step's reply is its text as it stands.
pub fn plain_locations_stay()
    ensures { (conf : Configuration) (step : ℕ) (request : Request)
        → All HasPlainLocation conf.steps
        → location_of conf step request ≡ plain_location_of conf step }
{}

/// So it is for each document that is plain.
pub fn plain_documents_need_no_variables()
    ensures target { (document : Data) (listener : List ℕ) (request : Request) → IsPlain document
        → target_of (configuration_of document) listener request
        ≡ plain_target_of (configuration_of document) listener request }
    ensures step { (document : Data) (listener : List ℕ) (request : Request) → IsPlain document
        → last_step_of (configuration_of document) listener request
        ≡ plain_last_step_of (configuration_of document) listener request }
    ensures location { (document : Data) (step : ℕ) (request : Request) → IsPlain document
        → location_of (configuration_of document) step request
        ≡ plain_location_of (configuration_of document) step }
{}
