//! A block of bytes as one request head (RFC 9112, sections 2 to 5).
ghost use Rattle.std.specs.Prelude.{◌≡◌, ◌≤◌, ◌+◌, ◌↔◌, List, ℕ, Some, None, length, IfSome, IfNone};
ghost use Rattle.httparse.specs.Grammar.{RequestHead};
ghost use Rattle.httparse.specs.Spans.{IsRequestAt, IsRequestWithin};
ghost use Rattle.http_front.specs.Front.{blank_len};
ghost use Rattle.http_front.specs.Head.{head_of, head_in, lines_in, IsHead};

use httparse::Status;
use httparse::spans::{HeaderSpan, RequestSpans, parse_request};

/// The law of `head_of`: a block is read as a head exactly where the grammar of `httparse` has it as that head.
pub fn laws_of_heads()
    ensures some { (block : List ℕ) (h : RequestHead) → (head_of block ≡ Some h) ↔ IsHead block h }
    ensures none { (block : List ℕ)
        → (head_of block ≡ None) ↔ ((h : RequestHead) → ¬ (IsHead block h)) }
{}

/// Where the parts of a block that is one whole head stand. A block with more lines than `headers` has room for is none;
/// beside that `None` comes exactly where the block is no head.
pub(crate) fn whole_head(block: &[u8], headers: &mut [HeaderSpan]) -> Option<RequestSpans>
    requires no_empty_line { blank_len block.now ≡ 0 }
    ensures few { IfSome result (λ _. length (lines_in block.now) ≤ length headers.old + 2) }
    ensures is { IfSome result (λ _. head_of block.now ≡ Some (head_in block.now)) }
    ensures at { IfSome result
        (λ spans. IsRequestAt block.now headers.new spans (head_in block.now)) }
    ensures within { IfSome result (IsRequestWithin block.now headers.new) }
    ensures none { IfNone result
        (length (lines_in block.now) ≤ length headers.old + 2 → head_of block.now ≡ None) }
{
    match parse_request(block, headers) {
        Ok(Status::Complete(spans)) => {
            if spans.len == block.len() {
                Some(spans)
            } else {
                None
            }
        }
        Ok(Status::Partial) => None,
        Err(_) => None,
    }
}
