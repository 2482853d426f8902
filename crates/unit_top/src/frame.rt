//! What the frames of a script get, and what they post.
ghost use Rattle.std.specs.Prelude.{◌≡◌, ◌+◌, ◌<◌, ◌≤◌, ◌^◌, false, IfOk, OnOk};
ghost use Rattle.std.specs.Option.{unwrap_or};
ghost use Rattle.conf_book.specs.Books.{documents_of};
ghost use Rattle.conf_validate.specs.Ports.{port_of};
ghost use Rattle.script_frames.specs.Frames.{Connection as ToListener, HungUp};
ghost use Rattle.script_frames.specs.Left.{said};
ghost use Rattle.unit_top.specs.Exchange.{connection_bytes, frame_outcome};
ghost use Rattle.unit_top.specs.Posting.{HasPosted, kept};
ghost use Rattle.unit_top.specs.Trace.{frame_posts};
ghost use Rattle.unit_top.specs.declared.connection.Arrived.{Arrived};

use crate::connection::{Arrived, connection_output, withdraw_first};
use crate::fabric::Output;
use conf_book::Book;
use conf_validate::port_of;
use control_api::control;
use plain_fabric::Plain;
use script_frames::Frame;
use std::alloc::{AllocError, Global};
use unit_types::{Bytes, Handlers};

// What comes on a connection to a listener.
fn arrived(alloc: Global, listener: &[u8], bytes: &[u8]) -> Result<Arrived, AllocError>
    ensures { IfOk result (λ arrived. arrived ≡ record {
      listener = listener.now;
      port = unwrap_or (port_of listener.now) 0;
      bytes = bytes.now;
    }) }
{
    Ok(Arrived {
        listener: Bytes::copy_of(alloc, listener)?,
        port: port_of(listener).unwrap_or(0),
        bytes: Bytes::copy_of(alloc, bytes)?,
    })
}

/// What comes on a connection to a listener gets, under the newest configuration of the book.
///
/// Fails for want of memory alone.
fn connection_reply<H: Handlers>(
    alloc: Global,
    handlers: &H,
    book: &Book,
    plain: &mut Plain<H>,
    output: Output,
    listener: &[u8],
    bytes: &[u8],
) -> Result<Bytes, AllocError>
    requires whole { plain.old.failed ≡ false }
    requires early { plain.old.drawn + 1000 < 2 ^ 48 }
    requires kept { plain.old.trace ≡ kept output plain.old.trace }
    ensures reply { IfOk result (λ reply. reply
        ≡ connection_bytes H.reply_of (documents_of book.now) listener.now bytes.now) }
    ensures posted { OnOk result (HasPosted output H.reply_of (frame_posts H.reply_of
        (documents_of book.now) (ToListener listener.now bytes.now)) plain.old plain.new) }
    ensures few { OnOk result (plain.new.drawn ≤ plain.old.drawn + 1000) }
{
    // Its newest configuration is what its newest document says.
    book.is_book();
    let arrived = arrived(alloc, listener, bytes)?;
    connection_output(alloc, handlers, plain, output, arrived, book.newest())
}

/// What comes on a connection whose client has hung up: the first request that it asks is posted, and cancelled.
///
/// Fails for want of memory alone.
fn hang_up<H: Handlers>(
    alloc: Global,
    book: &Book,
    plain: &mut Plain<H>,
    output: Output,
    listener: &[u8],
    bytes: &[u8],
) -> Result<(), AllocError>
    requires whole { plain.old.failed ≡ false }
    requires early { plain.old.drawn + 1000 < 2 ^ 48 }
    requires kept { plain.old.trace ≡ kept output plain.old.trace }
    ensures posted { OnOk result (HasPosted output H.reply_of (frame_posts H.reply_of
        (documents_of book.now) (HungUp listener.now bytes.now)) plain.old plain.new) }
    ensures few { OnOk result (plain.new.drawn ≤ plain.old.drawn + 1000) }
{
    book.is_book();
    let arrived = arrived(alloc, listener, bytes)?;
    withdraw_first(alloc, plain, output, arrived, book.newest())
}

/// What a frame gets. A change of the configuration is published in the book, and requests go through the fabric.
///
/// Fails for want of memory alone.
pub(crate) fn frame_reply<H: Handlers>(
    alloc: Global,
    handlers: &H,
    book: &mut Book,
    plain: &mut Plain<H>,
    output: Output,
    frame: Frame<'_>,
) -> Result<Bytes, AllocError>
    requires whole { plain.old.failed ≡ false }
    requires early { plain.old.drawn + 1000 < 2 ^ 48 }
    requires kept { plain.old.trace ≡ kept output plain.old.trace }
    ensures reply { IfOk result (λ reply. reply ≡ (frame_outcome H.reply_of book.old.names
        (documents_of book.old) (said frame.entry)).reply) }
    ensures documents { IfOk result (λ _. documents_of book.new ≡ (frame_outcome H.reply_of
        book.old.names (documents_of book.old) (said frame.entry)).documents) }
    ensures names { book.new.names ≡ book.old.names }
    ensures posted { OnOk result (HasPosted output H.reply_of (frame_posts H.reply_of
        (documents_of book.old) (said frame.entry)) plain.old plain.new) }
    ensures few { OnOk result (plain.new.drawn ≤ plain.old.drawn + 1000) }
{
    match frame {
        Frame::Control(bytes) => control(alloc, book, bytes),
        Frame::Connection { listener, bytes } => {
            connection_reply(alloc, handlers, book, plain, output, listener, bytes)
        }
        Frame::HungUp { listener, bytes } => {
            hang_up(alloc, book, plain, output, listener, bytes)?;
            Ok(Bytes::of(Vec::new(alloc)))
        }
    }
}
