//! The handlers that a program brings along.
ghost use Rattle.std.specs.Prelude.{◌≡◌, ◌≤◌, List, ℕ, All, IfOk};
ghost use Rattle.unit_types.specs.declared.field.Field.{Field};
ghost use Rattle.unit_types.specs.declared.message.Reply.{Reply};
ghost use Rattle.unit_types.specs.declared.message.Request.{Request};
ghost use Rattle.unit_types.specs.Handlers.{IsNameList, IsReply};

use crate::bytes::Bytes;
use crate::message::{Reply, Request};
use std::alloc::{AllocError, Global};

/// The handlers of a program: named functions from requests to replies.
///
/// `reply_of name request` is what they mean. It depends on the type of the handlers, the name and the request alone,
/// so the same question has the same answer at each time and in each thread.
pub trait Handlers {
    /// The reply of the handler of that name to that request.
    ghost reply_of: { List ℕ → Request → Reply };

    /// The names that `names` shows.
    ghost listed: { Self → List (List ℕ) };

    /// The handlers' names: distinct, ascending by their bytes, each of at most 255 bytes.
    fn names(&self) -> &[Bytes]
        ensures { result.now ≡ listed self.now };

    /// The reply of the handler `name` to `request`. It takes every name, also one that isn't listed.
    ///
    /// Fails for want of memory alone.
    fn reply(&self, alloc: Global, name: &[u8], request: &Request) -> Result<Reply, AllocError>
        ensures { IfOk result (λ r. r ≡ reply_of name.now request.now) };

    /// The names are a list of names.
    ghost names_fit: { (handlers : Self) → IsNameList (listed handlers) };

    /// Each reply can be written as HTTP and as a record.
    ghost replies_fit: { (name : List ℕ) (request : Request) → IsReply (reply_of name request) };
}
