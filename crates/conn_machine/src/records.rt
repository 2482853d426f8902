//! How long the record of what a handler is asked is.
ghost use Rattle.std.specs.Prelude.{◌≡◌, ◌≤◌, Bool, List, ℕ, None};
ghost use Rattle.unit_types.specs.Limits.{IsShortName, content_limit_max};
ghost use Rattle.unit_types.specs.declared.message.Addr.{Addr};
ghost use Rattle.conf_validate.specs.Configuration.{Configuration};
ghost use Rattle.conf_validate.specs.Kept.{IsKept};
ghost use Rattle.header_rewrite.specs.Rewrite.{rewrite_of_step};
ghost use Rattle.http_front.specs.Message.{Message, request_of};
ghost use Rattle.http_front.specs.NextUnit.{next_unit, request};
ghost use Rattle.request_context.specs.Record.{asked_with};
ghost use Rattle.route_match.specs.Target.{last_step_of};
ghost use Rattle.conn_machine.specs.Answers.{Connection};
ghost use Rattle.conn_machine.specs.Asking.{asked_of};
ghost use Rattle.conn_machine.specs.Records.{HasShortRecord, plain_record_limit, rewritten_record_limit};

use header_rewrite::rewritten_targets_are_short;
use http_front::laws_of_units;
use request_context::{request_record_length, short_requests_can_be_written};

/// What a handler is asked for a request that was found can be written as a record, whatever the stream. It has at most
/// 10,350,000 bytes, and at most 10,065,536 where the step by which the request came to the handler has no `rewrite`; so has
/// the record of a request as it came, under each name of at most 255 bytes.
pub fn laws_of_records()
    ensures came { (bytes : List ℕ) (ended : Bool) (limit : ℕ) (m : Message) (used stream : ℕ)
        (name : List ℕ) (from to : Addr) → (next_unit bytes ended limit).found ≡ request m used
        → limit ≤ content_limit_max → IsShortName name
        → HasShortRecord plain_record_limit (asked_with stream name (request_of from to m)) }
    ensures plain { (c : Connection) (conf : Configuration) (bytes : List ℕ) (ended : Bool)
        (m : Message) (used stream : ℕ) → IsKept conf
        → (next_unit bytes ended conf.max_body).found ≡ request m used
        → rewrite_of_step conf (last_step_of conf c.listener (request_of c.from c.to m)) ≡ None
        → HasShortRecord plain_record_limit (asked_of c conf stream (request_of c.from c.to m)) }
    ensures rewritten { (c : Connection) (conf : Configuration) (bytes : List ℕ) (ended : Bool)
        (m : Message) (used stream : ℕ) → IsKept conf
        → (next_unit bytes ended conf.max_body).found ≡ request m used
        → HasShortRecord rewritten_record_limit (asked_of c conf stream (request_of c.from c.to m)) }
{
    laws_of_units();
    request_record_length();
    short_requests_can_be_written();
    rewritten_targets_are_short();
}
