//! What holds of every reading of a connection's bytes.
ghost use Rattle.std.specs.Prelude.{◌≡◌, ◌≢◌, ◌<◌, ◌≤◌, ◌++◌, ◌↔◌, ◌||◌, Bool, true, false, List, [], ℕ, length, Some, None, IsTrue};
ghost use Rattle.httparse.specs.Grammar.{ChunkLine, ReadsChunkLine, chunk_size};
ghost use Rattle.http_front.specs.ChunkLine.{chunk_size_of};
ghost use Rattle.http_front.specs.declared.next_unit.Next.TheVariants as Answer;
ghost use Rattle.http_front.specs.Bounds.{IsBounded};
ghost use Rattle.http_front.specs.Front.{HeadBegun, head_begun};
ghost use Rattle.http_front.specs.Kept.{fed, at_end};
ghost use Rattle.http_front.specs.Message.{Message};
ghost use Rattle.http_front.specs.NextUnit.{next_unit, request, bad, finished, wait};
ghost use Rattle.http_front.specs.Reading.{Reading, has_begun, is_final, is_request, next_answer, next_reading};
ghost use Rattle.http_front.specs.Session.{Connection, plain_session_of};

/// What is found at the front of the bytes stays however the input goes on, unless more bytes were needed to tell; behind
/// a complete head so does whether `100 Continue` is due, which it isn't before. After the end of the input no more bytes
/// are needed. Where it ended between requests nothing is due, and behind a complete head it never ends so. A request lies
/// in the bytes that were given, has a byte at least, and is bounded by the limits of a head and of a content. The bytes are
/// refused with the status of an error.
pub fn laws_of_units()
    ensures stays { (bytes more : List ℕ) (ended : Bool) (limit : ℕ)
        → ((next_unit bytes false limit).found ≢ wait)
        → next_unit (bytes ++ more) ended limit ≡ next_unit bytes false limit }
    ensures begun { (bytes more : List ℕ) → HeadBegun bytes → HeadBegun (bytes ++ more) }
    ensures due { (bytes more : List ℕ) (ended : Bool) (limit : ℕ) → HeadBegun bytes
        → (next_unit (bytes ++ more) ended limit).continue_due
        ≡ (next_unit bytes false limit).continue_due }
    ensures begins { (bytes : List ℕ) (ended : Bool) (limit : ℕ)
        → IsTrue (next_unit bytes ended limit).continue_due → HeadBegun bytes }
    ensures tells { (bytes : List ℕ) (limit : ℕ) → (next_unit bytes true limit).found ≢ wait }
    ensures over { (bytes : List ℕ) (ended : Bool) (limit : ℕ)
        → (next_unit bytes ended limit).found ≡ finished
        → (next_unit bytes ended limit).continue_due ≡ false }
    ensures unfinished { (bytes : List ℕ) (ended : Bool) (limit : ℕ) → HeadBegun bytes
        → (next_unit bytes ended limit).found ≢ finished }
    ensures fits { (bytes : List ℕ) (ended : Bool) (limit : ℕ) (m : Message) (used : ℕ)
        → (next_unit bytes ended limit).found ≡ request m used
        → (0 < used) × (used ≤ length bytes) }
    ensures bounded { (bytes : List ℕ) (ended : Bool) (limit : ℕ) (m : Message) (used : ℕ)
        → (next_unit bytes ended limit).found ≡ request m used → IsBounded limit m }
    ensures status { (bytes : List ℕ) (ended : Bool) (limit status : ℕ)
        → (next_unit bytes ended limit).found ≡ bad status
        → (400 ≤ status) × (status < 600) }
{}

/// What a reader answers. Behind the end of the input it needs no more bytes. `Continue` comes once for a request, whatever is
/// fed between: it is told from then on until the request is answered, and where it is told it isn't the answer. After `Bad`,
/// `End` and `Cut` the answer comes again, whatever is fed, and behind the end of the input. A request has begun once a call
/// has found its head complete.
pub fn laws_of_answers()
    ensures needs { (r : Reading) (limit : ℕ) → r.ended ≡ true
        → next_answer r limit ≢ Answer.NeedMore }
    ensures once { (r : Reading) (limit again : ℕ) → next_answer r limit ≡ Answer.Continue
        → next_answer (next_reading r limit) again ≢ Answer.Continue }
    ensures tells { (r : Reading) (limit : ℕ) → next_answer r limit ≡ Answer.Continue
        → (next_reading r limit).is_told ≡ true }
    ensures told { (r : Reading) (limit : ℕ) → r.is_told ≡ true
        → next_answer r limit ≢ Answer.Continue }
    ensures stays { (r : Reading) (limit : ℕ) → r.is_told ≡ true
        → is_request (next_answer r limit) ≡ false
        → (next_reading r limit).is_told ≡ true }
    ensures again { (r : Reading) (limit again : ℕ) → is_final (next_answer r limit) ≡ true
        → next_answer (next_reading r limit) again ≡ next_answer r limit }
    ensures fed { (r : Reading) (limit again : ℕ) (more : List ℕ) → r.ended ≡ false
        → is_final (next_answer r limit) ≡ true
        → next_answer (fed (next_reading r limit) more) again ≡ next_answer r limit }
    ensures over { (r : Reading) (limit again : ℕ) → r.ended ≡ false
        → is_final (next_answer r limit) ≡ true
        → next_answer (at_end (next_reading r limit)) again ≡ next_answer r limit }
    ensures begun { (r : Reading) (limit : ℕ) → is_request (next_answer r limit) ≡ false
        → has_begun (next_reading r limit) ≡ (head_begun r.unread || has_begun r) }
{}

/// The session of bytes that go on begins with the session of a front of them.
pub fn laws_of_sessions()
    ensures { (c : Connection) (ended : Bool) (bytes more : List ℕ) → (rest : List ℕ)
        × ((plain_session_of c ended (bytes ++ more)).written
        ≡ (plain_session_of c false bytes).written ++ rest) }
{}

/// The law of `chunk_size_of`: a line says a size exactly where the grammar of `httparse` has it as a line of that size.
pub fn laws_of_chunk_lines()
    ensures some { (line : List ℕ) (size : ℕ)
        → (chunk_size_of line ≡ Some size) ↔
        ((l : ChunkLine) × ReadsChunkLine line l [] × (chunk_size l ≡ size)) }
    ensures none { (line : List ℕ)
        → (chunk_size_of line ≡ None) ↔ ((l : ChunkLine) → ¬ (ReadsChunkLine line l [])) }
{}
