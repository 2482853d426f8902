//! What holds of every course of a connection. Each function does nothing: its contract is the law.
ghost use Rattle.std.specs.Prelude.{◌≡◌, ◌≢◌, ◌↔◌, ◌<◌, ◌≤◌, ◌||◌, ◌++◌, ◌∷◌, Bool, true, false, List, [], ℕ, length, take, Option, Some, None, slice_get};
ghost use Rattle.std.specs.List.{AllByRecursion};
ghost use Rattle.std.specs.Option.{is_some};
ghost use Rattle.unit_types.specs.declared.message.Reply.{Reply};
ghost use Rattle.unit_types.specs.declared.message.Request.{Request};
ghost use Rattle.serde_json.specs.Data.{Data};
ghost use Rattle.conf_validate.specs.Configuration.{Configuration, configuration_of};
ghost use Rattle.conf_validate.specs.Kept.{IsKept};
ghost use Rattle.conf_validate.specs.Laws.{HasNoChanges};
ghost use Rattle.conf_validate.specs.Plain.{IsPlain};
ghost use Rattle.http_front.specs.Front.{head_begun};
ghost use Rattle.http_front.specs.Message.{Message, request_of};
ghost use Rattle.http_front.specs.NextUnit.{Found, bad, cut, next_unit, request, wait};
ghost use Rattle.http_front.specs.Session.{Session, plain_session_of, request_limit};
ghost use Rattle.http_front.specs.Written.{error_reply};
ghost use Rattle.request_context.specs.Record.{asked_with};
ghost use Rattle.request_context.specs.declared.asked.Asked.{Asked};
ghost use Rattle.route_match.specs.Target.{target_of};
ghost use Rattle.conn_machine.specs.declared.receipt.Kind.{Kind};
ghost use Rattle.conn_machine.specs.declared.receipt.Kind.TheVariants.{App, Busy, Cut, Gone, Late, Memory, Own};
ghost use Rattle.conn_machine.specs.declared.receipt.Need.TheVariants.{Ask, Close, Read};
ghost use Rattle.conn_machine.specs.declared.receipt.Receipt.{Receipt};
ghost use Rattle.conn_machine.specs.declared.receipt.Why.{Why};
ghost use Rattle.conn_machine.specs.Answers.{Connection, reply_to};
ghost use Rattle.conn_machine.specs.Asking.{asked_of, is_app, is_same_asked, timeout_in};
ghost use Rattle.conn_machine.specs.Asks.{asks_left, asks_of};
ghost use Rattle.conn_machine.specs.Calls.{Account, IsSound, Reaches, on_answer, on_bytes, on_end, on_gone, opened, wrote};
ghost use Rattle.conn_machine.specs.Connections.{Call, HasWritten, MayAllCome, account_behind, bytes_of};
ghost use Rattle.conn_machine.specs.Laws.{ArePlain, NeverFall, plain_connection, plain_receipts_of};
ghost use Rattle.conn_machine.specs.One.{IsServedByOne, after_reply};
ghost use Rattle.conn_machine.specs.Records.{HasShortRecord, rewritten_record_limit};
ghost use Rattle.conn_machine.specs.Sessions.{course_of, is_under_way, log_lines_of, session_of};
ghost use Rattle.conn_machine.specs.States.{Agrees, Fits, Follows, GoesOn, IsSettled, Numbered, State, Told, asking_of, counted, is_ask, is_over, need_of, unit_under};
ghost use Rattle.conn_machine.specs.Steps.{at_end, begin, closed_by, fed, given_up, nothing, replied, shown, taken_up, with_bytes, with_given, with_receipt, with_written};
ghost use Rattle.conn_machine.specs.Unchanged.{plain_reply_to, unchanged_reply_to};
ghost use Rattle.conn_machine.specs.Turns.{ends, ends_between, is_why, receipt_of, replies, turn_of};

use crate::records::laws_of_records;
use conf_validate::{documents_without_changes_change_nothing, plain_documents_change_nothing};
use http_front::laws_of_units;
use route_match::plain_documents_need_no_variables;

/// However a connection goes, its state follows what came and went: more bytes and their end, a head that is complete, a
/// reply, an end without a reply, and what is shown as written.
pub fn laws_of_steps()
    ensures begin { (c : Connection) → Follows c nothing begin }
    ensures fed { (c : Connection) (t : Told) (s : State) (piece : List ℕ) → Follows c t s → s.ended
        ≡ false → s.given_up ≡ false → Follows c (with_bytes piece t) (fed s piece) }
    ensures ended { (c : Connection) (t : Told) (s : State) → Follows c t s
        → Follows c t (at_end s) }
    ensures head { (c : Connection) (t : Told) (s : State) (bound : Numbered) → Follows c t s
        → s.closed ≡ false → s.bound ≡ None → head_begun s.unused ≡ true → s.last ≤ bound.0
        → Follows c (with_given (bound.0, Some bound.1) t) (taken_up bound s) }
    ensures reply { (c : Connection) (t : Told) (s : State) (bound : Numbered) (r : Receipt)
        (request : Option Request) (reply : Reply) (used : ℕ) → Follows c t s → s.closed ≡ false
        → s.bound ≡ Some bound → r.conf ≡ bound.0 → turn_of c bound.1 r (unit_under bound.1 s).found
        ≡ replies request reply used → Follows c (with_receipt r t)
        (replied c bound request reply used s) }
    ensures end { (c : Connection) (t : Told) (s : State) (bound : Numbered) (r : Receipt)
        → Follows c t s → s.closed ≡ false → s.bound ≡ Some bound → r.conf ≡ bound.0
        → turn_of c bound.1 r (unit_under bound.1 s).found ≡ ends
        → Follows c (with_receipt r t) (closed_by bound.0 s) }
    ensures between { (c : Connection) (t : Told) (s : State) (r : Receipt) → Follows c t s
        → s.closed ≡ false → s.bound ≡ None → head_begun s.unused ≡ false → ends_between r.kind
        ≡ true → s.last ≤ r.conf → Follows c (with_receipt r (with_given (r.conf, None) t))
        (given_up (closed_by r.conf s)) }
    ensures given_up { (c : Connection) (t : Told) (s : State) → Follows c t s
        → Follows c t (given_up s) }
    ensures shown { (c : Connection) (t : Told) (s : State) (front rest : List ℕ) → Follows c t s
        → s.out ≡ front ++ rest → Follows c (with_written front t) (shown rest s) }
{
    laws_of_units();
}

/// Between two calls what was shown and what isn't yet shown, together, are the session of all that came, and the lines are
/// its lines; a request under way counts there as one whose client hung up. Both are a front of the session however it goes
/// on. Where nothing is left to show, a connection is to be closed exactly where its session is, or where its input ended and
/// no request is under way. Where it needs bytes, nothing is found to answer yet. Something is asked exactly where a reply is
/// needed.
pub fn laws_of_ends()
    ensures session { (c : Connection) (t : Told) (s : State) (confs : List Configuration)
        → Follows c t s → IsSettled c s → Agrees confs t.given
        → session_of c confs (counted s.bound t.receipts) t.bytes s.ended
        ≡ Some (record { written = t.written ++ s.out; closed = s.closed || is_some s.bound }) }
    ensures lines { (c : Connection) (t : Told) (s : State) (confs : List Configuration)
        → Follows c t s → IsSettled c s → Agrees confs t.given
        → log_lines_of c confs t.receipts t.bytes s.ended ≡ Some s.lines }
    ensures way { (c : Connection) (t : Told) (s : State) (confs : List Configuration)
        → Follows c t s → IsSettled c s → Agrees confs t.given
        → is_under_way c confs t.receipts t.bytes s.ended ≡ is_some s.bound }
    ensures front { (c : Connection) (t : Told) (s : State) (confs : List Configuration)
        (receipts : List Receipt) (more : List ℕ) (ended : Bool) (session : Session) → Follows c t s
        → Agrees confs t.given → Fits s.bound receipts → GoesOn s more ended
        → session_of c confs (t.receipts ++ receipts) (t.bytes ++ more) ended ≡ Some session
        → (rest : List ℕ) × (session.written ≡ (t.written ++ s.out) ++ rest) }
    ensures over { (c : Connection) (t : Told) (s : State) (confs : List Configuration)
        → Follows c t s → IsSettled c s → Agrees confs t.given → s.given_up ≡ false → s.out ≡ []
        → (need_of c s ≡ Close) ↔ (is_over (session_of c confs t.receipts t.bytes s.ended) s.ended
        ≡ true) }
    ensures reads { (c : Connection) (s : State) → IsSettled c s → need_of c s ≡ Read
        → ((bound : Numbered) → s.bound ≡ Some bound → (unit_under bound.1 s).found ≡ wait)
        × (s.bound ≡ None → (limit : ℕ) → (next_unit s.unused s.ended limit).found ≡ wait) }
    ensures asks { (c : Connection) (s : State) → is_some (asking_of c s) ≡ is_ask (need_of c s) }
{
    laws_of_units();
}

/// What a receipt makes of what is found at the front of the bytes, kind by kind. A handler's receipt has the stream under
/// which it was asked. A request was turned away where no run was free for its record, or where the reply to another request
/// came under its stream. Two asked values count as the same exactly where they are equal.
pub fn laws_of_turns()
    ensures app { (c : Connection) (conf : Configuration) (number stream : ℕ) (m : Message)
        (used : ℕ) → is_app (target_of conf c.listener (request_of c.from c.to m)) ≡ true
        → 0 < stream → turn_of c conf (receipt_of number stream App) (request m used)
        ≡ replies (Some (request_of c.from c.to m)) (reply_to c conf
        (request_of c.from c.to m)) used }
    ensures own { (c : Connection) (conf : Configuration) (number : ℕ) (m : Message) (used : ℕ)
        → is_app (target_of conf c.listener (request_of c.from c.to m)) ≡ false
        → turn_of c conf (receipt_of number 0 Own) (request m used)
        ≡ replies (Some (request_of c.from c.to m)) (reply_to c conf
        (request_of c.from c.to m)) used }
    ensures refusal { (c : Connection) (conf : Configuration) (number status : ℕ)
        → turn_of c conf (receipt_of number 0 Own) (bad status)
        ≡ replies None (error_reply status) 0 }
    ensures busy { (c : Connection) (conf : Configuration) (number stream : ℕ) (m : Message)
        (used : ℕ) (cause : Why) → is_app (target_of conf c.listener (request_of c.from c.to m))
        ≡ true → is_why (asked_of c conf stream (request_of c.from c.to m)) cause ≡ true
        → turn_of c conf (receipt_of number stream (Busy cause)) (request m used)
        ≡ replies (Some (request_of c.from c.to m)) (error_reply 503) used }
    ensures late { (c : Connection) (conf : Configuration) (number stream : ℕ) (m : Message)
        (used seconds deadline now : ℕ)
        → timeout_in (target_of conf c.listener (request_of c.from c.to m)) ≡ Some seconds
        → 0 < stream → deadline ≤ now → turn_of c conf (receipt_of number stream
        (Late deadline now)) (request m used)
        ≡ replies (Some (request_of c.from c.to m)) (error_reply 503) used }
    ensures cut { (c : Connection) (conf : Configuration) (number : ℕ)
        → turn_of c conf (receipt_of number 0 Cut) cut ≡ ends }
    ensures gone { (c : Connection) (conf : Configuration) (number stream : ℕ) (found : Found)
        → turn_of c conf (receipt_of number stream Gone) found ≡ ends }
    ensures memory { (c : Connection) (conf : Configuration) (number stream : ℕ) (found : Found)
        → turn_of c conf (receipt_of number stream Memory) found ≡ ends }
    ensures same { (a b : Asked) → (is_same_asked a b ≡ true) ↔ (a ≡ b) }
{}

/// The session of a connection: a longer list of configurations changes nothing; the numbers of the configurations never
/// fall, and there are at most 1,000 receipts. Where the input ended and each request was answered by a handler or by the
/// server or was cut, under one configuration, it is the session with that configuration's limit and answers; and each input
/// that ended has such receipts, whose kinds what is found and its target say.
pub fn laws_of_sessions()
    ensures longer { (c : Connection) (confs more : List Configuration) (receipts : List Receipt)
        (bytes : List ℕ) (ended : Bool) (session : Session)
        → session_of c confs receipts bytes ended ≡ Some session
        → session_of c (confs ++ more) receipts bytes ended ≡ Some session }
    ensures lines { (c : Connection) (confs more : List Configuration) (receipts : List Receipt)
        (bytes : List ℕ) (ended : Bool) (lines : List ℕ) → log_lines_of c confs receipts bytes ended
        ≡ Some lines → log_lines_of c (confs ++ more) receipts bytes ended ≡ Some lines }
    ensures rises { (c : Connection) (confs : List Configuration) (receipts : List Receipt)
        (bytes : List ℕ) (ended : Bool) (session : Session)
        → session_of c confs receipts bytes ended ≡ Some session → NeverFall 0 receipts }
    ensures count { (c : Connection) (confs : List Configuration) (receipts : List Receipt)
        (bytes : List ℕ) (ended : Bool) (session : Session)
        → session_of c confs receipts bytes ended ≡ Some session → length receipts ≤ request_limit }
    ensures plain { (c : Connection) (confs : List Configuration) (conf : Configuration)
        (number : ℕ) (receipts : List Receipt) (bytes : List ℕ) (session : Session)
        → slice_get confs number ≡ Some conf → ArePlain number receipts
        → session_of c confs receipts bytes true ≡ Some session → session
        ≡ plain_session_of (plain_connection c conf) true bytes }
    ensures answered { (c : Connection) (confs : List Configuration) (conf : Configuration)
        (number stream : ℕ) (bytes : List ℕ) → slice_get confs number ≡ Some conf → 0 < stream
        → ArePlain number (plain_receipts_of c conf number stream bytes)
        × (session_of c confs (plain_receipts_of c conf number stream bytes) bytes true
        ≡ Some (plain_session_of (plain_connection c conf) true bytes)) }
{
    laws_of_units();
}

/// However a connection is called, its account stays sound: its state follows what came and went, each request that the server
/// can answer itself is answered, and more requests may come while it is open.
pub fn laws_of_calls()
    ensures opened { (c : Connection) → IsSound c opened }
    ensures bytes { (c : Connection) (current : Numbered) (a : Account) (piece : List ℕ)
        → IsSound c a → Reaches current a → a.state.ended ≡ false → a.state.given_up ≡ false
        → IsSound c (on_bytes c current piece a) }
    ensures end { (c : Connection) (current : Numbered) (a : Account) → IsSound c a
        → Reaches current a → IsSound c (on_end c current a) }
    ensures answer { (c : Connection) (current bound : Numbered) (a : Account) (r : Receipt)
        (request : Request) (reply : Reply) (used : ℕ) → IsSound c a → Reaches current a
        → a.state.bound ≡ Some bound → r.conf ≡ bound.0
        → turn_of c bound.1 r (unit_under bound.1 a.state).found ≡ replies (Some request) reply used
        → IsSound c (on_answer c current bound r request reply used a) }
    ensures gone { (c : Connection) (current : Numbered) (a : Account) (stream : ℕ) (k : Kind)
        → IsSound c a → Reaches current a → ends_between k ≡ true
        → IsSound c (on_gone current.0 stream k a) }
    ensures wrote { (c : Connection) (a : Account) (n : ℕ) → IsSound c a → IsSound c (wrote n a) }
{
    laws_of_units();
}

/// A whole connection: at the end of any call, what was written is a front of what the session of all bytes given and of its
/// receipts writes, and all of it where nothing is left to show. So it is of each sound account, and behind any calls an
/// account is sound.
pub fn laws_of_connections()
    ensures written { (c : Connection) (confs : List Configuration) (calls : List Call)
        → MayAllCome c opened calls → Agrees confs (account_behind c opened calls).told.given
        → HasWritten c confs (bytes_of calls) (account_behind c opened calls) }
    ensures sound { (c : Connection) (calls : List Call) → MayAllCome c opened calls
        → IsSound c (account_behind c opened calls) }
    ensures account { (c : Connection) (confs : List Configuration) (a : Account) → IsSound c a
        → Agrees confs a.told.given → HasWritten c confs a.told.bytes a }
{
    laws_of_units();
}

/// Of a connection under one configuration, whose whole input came and whose requests are answered by handlers and by the server.
/// From the first call on so it stays; a reply leaves fewer requests that may come. It needs no more bytes, so where nothing is left
/// to show and nothing is asked, it is to be closed; and then what was written is its session with the limit and the answers of
/// that configuration.
pub fn laws_of_one_configuration()
    ensures begins { (c : Connection) (current : Numbered) (bytes : List ℕ)
        → IsServedByOne c current bytes [] (on_end c current (on_bytes c current bytes opened)) }
    ensures replied { (c : Connection) (current bound : Numbered) (bytes written : List ℕ)
        (a : Account) (stream : ℕ) (m : Message) (used : ℕ)
        → IsServedByOne c current bytes written a → 0 < stream → need_of c a.state ≡ Ask
        → a.state.bound ≡ Some bound → (unit_under bound.1 a.state).found ≡ request m used
        → IsServedByOne c current bytes written (after_reply c current bound a stream m used)
        × ((after_reply c current bound a stream m used).state.left < a.state.left) }
    ensures wrote { (c : Connection) (current : Numbered) (bytes written : List ℕ) (a : Account)
        (n : ℕ) → IsServedByOne c current bytes written a
        → IsServedByOne c current bytes (written ++ take n a.state.out) (wrote n a) }
    ensures reads { (c : Connection) (current : Numbered) (bytes written : List ℕ) (a : Account)
        → IsServedByOne c current bytes written a → need_of c a.state ≢ Read }
    ensures closes { (c : Connection) (current : Numbered) (bytes written : List ℕ) (a : Account)
        → IsServedByOne c current bytes written a → a.state.out ≡ [] → asking_of c a.state ≡ None
        → need_of c a.state ≡ Close }
    ensures ends { (c : Connection) (current : Numbered) (bytes written : List ℕ) (a : Account)
        → IsServedByOne c current bytes written a → need_of c a.state ≡ Close
        → written ≡ (plain_session_of (plain_connection c current.1) true bytes).written }
{
    laws_of_units();
}

/// What the handlers are asked on a connection under one configuration, whose whole input came and whose requests are all
/// answered, is what its bytes ask: in the beginning all of that is left; what is asked is the first of it, and the reply takes
/// it away; where nothing is asked and nothing is left to show, none of it is left. These are at most 1,000, and under a valid
/// configuration each can be written as a record of at most 10,350,000 bytes, whatever the stream.
pub fn laws_of_asks()
    ensures begins { (c : Connection) (current : Numbered) (bytes : List ℕ)
        → asks_left c current (on_end c current (on_bytes c current bytes opened))
        ≡ asks_of c current.1 bytes }
    ensures asked { (c : Connection) (current bound : Numbered) (bytes written : List ℕ)
        (a : Account) (asked : List ℕ × Request) (stream : ℕ) (m : Message) (used : ℕ)
        → IsServedByOne c current bytes written a → asking_of c a.state ≡ Some asked
        → a.state.bound ≡ Some bound → (unit_under bound.1 a.state).found ≡ request m used
        → asks_left c current a
        ≡ asked ∷ asks_left c current (after_reply c current bound a stream m used) }
    ensures wrote { (c : Connection) (current : Numbered) (a : Account) (n : ℕ)
        → asks_left c current (wrote n a) ≡ asks_left c current a }
    ensures closes { (c : Connection) (current : Numbered) (bytes written : List ℕ) (a : Account)
        → IsServedByOne c current bytes written a → a.state.out ≡ [] → asking_of c a.state ≡ None
        → asks_left c current a ≡ [] }
    ensures few { (c : Connection) (conf : Configuration) (bytes : List ℕ)
        → length (asks_of c conf bytes) ≤ request_limit }
    ensures short { (c : Connection) (conf : Configuration) (bytes : List ℕ) (stream : ℕ)
        → IsKept conf → AllByRecursion (λ asked. HasShortRecord rewritten_record_limit
        (asked_with stream asked.0 asked.1)) (asks_of c conf bytes) }
{
    laws_of_units();
    laws_of_records();
}

/// The replies of a document whose steps neither rewrite nor change anything are those of a definition that knows neither,
/// and those of a plain document are those of a definition that knows no variables either.
pub fn answers_without_changes()
    ensures unchanged { (c : Connection) (document : Data) (r : Request) → HasNoChanges document
        → reply_to c (configuration_of document) r ≡ unchanged_reply_to c (configuration_of document) r }
    ensures plain { (c : Connection) (document : Data) (r : Request) → IsPlain document
        → reply_to c (configuration_of document) r ≡ plain_reply_to c (configuration_of document) r }
{
    documents_without_changes_change_nothing();
    plain_documents_change_nothing();
    plain_documents_need_no_variables();
}
