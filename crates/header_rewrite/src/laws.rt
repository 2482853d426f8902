//! What holds of the definitions themselves: each function's contract is a law, and its body is empty.
ghost use Rattle.std.specs.Prelude.{◌≡◌, ◌<◌, ◌≤◌, ◌^◌, ℕ, List, Option, All, IsTrue, length};
ghost use Rattle.conf_validate.specs.Configuration.{Configuration};
ghost use Rattle.conf_validate.specs.Forms.{is_rewrite};
ghost use Rattle.conf_validate.specs.Plain.{ChangesNothing};
ghost use Rattle.http_front.specs.Target.{raw_path_of};
ghost use Rattle.path_normal.specs.Path.{normal_path_of};
ghost use Rattle.unit_types.specs.declared.message.Reply.{Reply};
ghost use Rattle.unit_types.specs.declared.message.Request.{Request};
ghost use Rattle.header_rewrite.specs.Bounds.{HasShortTexts, path_limit, target_limit};
ghost use Rattle.header_rewrite.specs.ResponseHeaders.{fielded_of};
ghost use Rattle.header_rewrite.specs.Rewrite.{rewritten_by, rewritten_of, rewritten_path};

/// The path of a rewritten target is the rewritten path: its raw path, made normal, is that path again.
pub fn rewritten_targets_have_their_paths()
    ensures { (text : List ℕ) (request : Request)
        → All (λ b. b < 2 ^ 8) (rewritten_path text request)
        → normal_path_of (raw_path_of (rewritten_by text request).target)
        ≡ (rewritten_by text request).path }
{}

/// A rewritten path and its target are short where no text of the request is longer than a head.
pub fn rewritten_targets_are_short()
    ensures path { (text : List ℕ) (request : Request) → IsTrue (is_rewrite text)
        → HasShortTexts request → length (rewritten_by text request).path ≤ path_limit }
    ensures target { (text : List ℕ) (request : Request) → IsTrue (is_rewrite text)
        → HasShortTexts request → length (rewritten_by text request).target ≤ target_limit }
{}

/// Where no step has a `rewrite` or `response_headers`, requests and replies stay as they are.
pub fn steps_that_change_nothing_leave_all()
    ensures request { (conf : Configuration) (step : Option ℕ) (request : Request)
        → All ChangesNothing conf.steps → rewritten_of conf step request ≡ request }
    ensures reply { (conf : Configuration) (step : Option ℕ) (request : Request) (reply : Reply)
        → All ChangesNothing conf.steps → fielded_of conf step request reply ≡ reply }
{}
