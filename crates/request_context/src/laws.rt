//! Laws on records. Each function here does nothing: its contract is the law.
ghost use Rattle.std.specs.Prelude.{◌≡◌, ◌≤◌, ◌++◌, [], List, ℕ, length};
ghost use Rattle.unit_types.specs.Limits.{record_limit};
ghost use Rattle.unit_types.specs.Record.{reply_record};
ghost use Rattle.unit_types.specs.declared.message.Reply.{Reply};
ghost use Rattle.request_context.specs.declared.asked.Asked.{Asked};
ghost use Rattle.request_context.specs.Parts.{IsCut, part_size, piece_size, parts_of, pieces_of};
ghost use Rattle.request_context.specs.Record.{HasRecord, HasReplyRecord, IsRecordable, request_record, request_record_size, reply_record_size};

/// No request record begins another one, and two that are equal are of one request.
pub fn request_records_differ()
    ensures { (a : Asked) (b : Asked) (rest : List ℕ) → HasRecord a → HasRecord b
        → request_record a ++ rest ≡ request_record b → (a ≡ b) × (rest ≡ []) }
{}

/// No reply record begins another one, and two that are equal are of one reply.
pub fn reply_records_differ()
    ensures { (a : Reply) (b : Reply) (rest : List ℕ) → HasReplyRecord a → HasReplyRecord b
        → reply_record a ++ rest ≡ reply_record b → (a ≡ b) × (rest ≡ []) }
{}

/// The length of a request record is the sum of its parts' lengths.
pub fn request_record_length()
    ensures { (asked : Asked) → length (request_record asked) ≡ request_record_size asked }
{}

/// A request whose record is short can be written: each length and the number of its fields fit.
pub fn short_requests_can_be_written()
    ensures { (asked : Asked) → asked.request.minor ≤ 1 → request_record_size asked ≤ record_limit
        → IsRecordable asked }
{}

/// The length of a reply record is the sum of its parts' lengths.
pub fn reply_record_length()
    ensures { (reply : Reply) → length (reply_record reply) ≡ reply_record_size reply }
{}

/// The parts of a reply record, joined, are the record; all but the last have 262,144 bytes.
pub fn parts_join()
    ensures { (bytes : List ℕ) → IsCut part_size bytes (parts_of bytes) }
{}

/// The pieces of a request record, or of a part of a reply record, joined, are its bytes; all but the last have 16,384
/// bytes.
pub fn pieces_join()
    ensures { (bytes : List ℕ) → IsCut piece_size bytes (pieces_of bytes) }
{}
