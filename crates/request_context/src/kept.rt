//! What a collector keeps of the request whose reply it collects.
ghost use Rattle.std.specs.Prelude.{◌≡◌, ◌↔◌, IsTrue, Some};
ghost use Rattle.request_context.specs.declared.asked.Asked.{Asked};
ghost use Rattle.request_context.specs.Record.{IsRecordOf};

use crate::asked::Asked;
use crate::comparing::is_record_of;
use crate::fronts::u64_at;
use std::marker::Model;
use unit_types::Bytes;

/// A request with its stream and handler, as a value or as its record.
#[derive(Drop)]
enum Form {
    Value(Asked),
    Record(Bytes),
}

/// What a collector keeps of a request; contracts see the request in both forms.
#[derive(Drop)]
pub(crate) struct Kept {
    form: Form,
}

impl Model for Kept {
    ghost use Rattle.request_context.specs.declared.asked.Asked.{Asked};

    ghost Value = { Asked };

    ghost use Rattle.request_context.specs.Comparing.{asked_of, IsForm};

    ghost view = { λ k. asked_of k.form };

    ghost invariant = { λ k. IsForm k.form };
}

impl Kept {
    // The request.
    pub(crate) fn of(asked: Asked) -> Kept
        ensures { result ≡ asked }
    {
        Kept {
            form: Form::Value(asked),
        }
    }

    // The request of which this is the record.
    pub(crate) fn over(posted: Bytes) -> Kept
        requires { (asked : Asked) × IsRecordOf posted (Some asked) }
        ensures { (asked : Asked) → IsRecordOf posted (Some asked) → result ≡ asked }
    {
        Kept {
            form: Form::Record(posted),
        }
    }

    pub(crate) fn stream(&self) -> u64
        ensures { result ≡ self.now.stream }
    {
        match &self.form {
            Form::Value(asked) => asked.stream,
            Form::Record(bytes) => match u64_at(bytes.as_slice()) {
                Some((stream, _)) => stream,
                None => unreachable!(),
            },
        }
    }

    // Whether it is this request. The short texts are compared first, the content last.
    pub(crate) fn is_equal(&self, other: &Asked) -> bool
        ensures { IsTrue result ↔ (other.now ≡ self.now) }
    {
        match &self.form {
            Form::Value(asked) => other.is_equal(asked),
            Form::Record(bytes) => is_record_of(bytes.as_slice(), other),
        }
    }
}
