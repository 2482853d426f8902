//! How a machine answers what it finds at the front of its bytes, and how a call that fails is taken back.
ghost use Rattle.std.specs.Prelude.{◌≡◌, ◌<◌, ◌≤◌, ◌-◌, ◌⊎◌, ◌||◌, true, false, Some, None, ◌++◌, IfOk, OnOk, OnErr, IfSome, option_map, drop, length, take};
ghost use Rattle.std.specs.Option.{is_some};
ghost use Rattle.conf_validate.specs.Current.{numbered};
ghost use Rattle.http_front.specs.Kept.{HasRead, marked};
ghost use Rattle.http_front.specs.Reading.{HasSmallStatus, Reading, has_begun, is_request, next_answer, next_reading};
ghost use Rattle.http_front.specs.declared.next_unit.Next.TheVariants as Answer;
ghost use Rattle.http_front.specs.Session.{request_limit};
ghost use Rattle.http_front.specs.Written.{continue_bytes};
ghost use Rattle.route_match.specs.Target.{outcome_of};
ghost use Rattle.route_match.specs.There.{IsOutcome};
ghost use Rattle.conn_machine.specs.Asking.{is_app};
ghost use Rattle.conn_machine.specs.Answers.{Connection, is_to_head, own_reply};
ghost use Rattle.conn_machine.specs.Calls.{Account, settled};
ghost use Rattle.conn_machine.specs.Settling.{FindsFront, Grows, IsAnswered, IsFound, IsToldOn, Settles, finished_in, has_met, logged_in, place_of, recovered, replied_in, taken_back, taken_up_in, written_in};
ghost use Rattle.conn_machine.specs.Shows.{IsAfter, IsPendingBy, Shows, Stands, bound_in, number_or};
ghost use Rattle.conn_machine.specs.States.{Numbered};
ghost use Rattle.conn_machine.specs.Turns.{receipt_of};

use crate::answers::{closes, own_reply};
use crate::machine::Machine;
use crate::met::Met;
use crate::pending::{Pending, pending_by};
use crate::receipt::{Kind, Receipt};
use access_log::line;
use conf_validate::Current;
use http_front::{Next, content_len, continue_reply, error_reply, is_head_request, write_http};
use route_match::{Outcome, outcome};
use std::alloc::{AllocError, Global};
use std::mem::replace;
use unit_types::{Bytes, Handlers, Reply, Request};

/// Where a machine stood when a call began.
#[derive(Clone, Copy, Drop)]
pub struct Place {
    pub is_under_way: bool,
    pub left: u64,
    pub last: u64,
    pub ended: bool,
    pub closed: bool,
    /// How many bytes weren't written, how many the lines had, and how many receipts there were.
    pub out: usize,
    pub lines: usize,
    pub receipts: usize,
}

impl<H: Handlers> Machine<H> {
    // one request after the other, as far as the server answers them itself
    pub(crate) fn settle(&mut self, alloc: Global, current: &Current) -> Result<(), AllocError>
        requires { IsAfter self.old.met (numbered current.now) }
        ensures ok { OnOk result ((c : Connection) (a : Account) → Stands H.reply_of c a self.old
            → Shows H.reply_of c (settled c (numbered current.now) request_limit a) self.new) }
        ensures after { (next : Numbered) → IsAfter self.old.met next
            → IsAfter (Some (numbered current.now)) next → IsAfter self.new.met next }
        ensures ended { self.new.ended ≡ self.old.ended }
        ensures given_up { self.new.given_up ≡ self.old.given_up }
        ensures going { OnErr result (self.new.closed ≡ false) }
        ensures grows { Grows self.old self.new }
    {
        self.is_bounded();
        while self.may_settle() {
            self.is_bounded();
            let goes = self.settle_one(alloc, current)?;
            if !goes {
                return Ok(());
            }
        }
        self.is_bounded();
        Ok(())
    }

    // what each machine keeps of how many requests may still come, as a fact of its value; it does nothing
    pub(crate) fn is_bounded(&self)
        ensures most { self.now.left ≤ request_limit }
        ensures one { self.now.closed ≡ false → 1 ≤ self.now.left }
        ensures way { self.now.is_under_way ≡ true → is_some self.now.met ≡ true }
    {
        let _left = self.left;
    }

    // whether the next request may be settled: the connection is open, and none waits
    fn may_settle(&self) -> bool
        ensures going { result ≡ true → self.now.closed ≡ false }
        ensures none { result ≡ true → self.now.pending ≡ None }
        ensures over { result ≡ false → self.now.closed ≡ false → is_some self.now.pending ≡ true }
    {
        !self.closed && self.pending.is_none()
    }

    // the request at the front, if its head is complete; says whether the next one follows
    fn settle_one(&mut self, alloc: Global, current: &Current) -> Result<bool, AllocError>
        requires after { IsAfter self.old.met (numbered current.now) }
        requires going { self.old.closed ≡ false }
        requires none { self.old.pending ≡ None }
        ensures ok { IfOk result (λ goes. (c : Connection) (a : Account)
            → Stands H.reply_of c a self.old
            → Settles H.reply_of c (numbered current.now) a goes self.new) }
        ensures left { IfOk result (λ goes. goes ≡ true → self.new.left < self.old.left) }
        ensures going { OnErr result (self.new.closed ≡ false) }
        ensures met { (self.new.met ≡ self.old.met) ⊎ (self.new.met ≡ Some (numbered current.now)) }
        ensures grows { Grows self.old self.new }
    {
        match self.next_found(alloc, current)? {
            Some(next) => self.answer(alloc, next),
            None => Ok(false),
        }
    }

    // what the reader finds at the front, where its head is complete; its request is under way then
    fn next_found(&mut self, alloc: Global, current: &Current) -> Result<Option<Next>, AllocError>
        requires after { IsAfter self.old.met (numbered current.now) }
        requires going { self.old.closed ≡ false }
        requires none { self.old.pending ≡ None }
        ensures ok { IfOk result (λ next. (c : Connection) (a : Account)
            → Stands H.reply_of c a self.old
            → FindsFront H.reply_of c (numbered current.now) a next self.new) }
        ensures way { IfOk result (λ next. IfSome next (λ next.
            (is_some (bound_in self.new) ≡ true) × HasSmallStatus next)) }
        ensures going { self.new.closed ≡ false }
        ensures none { self.new.pending ≡ None }
        ensures met { (self.new.met ≡ self.old.met) ⊎ (self.new.met ≡ Some (numbered current.now)) }
        ensures left { self.new.left ≡ self.old.left }
        ensures grows { Grows self.old self.new }
    {
        match self.bound() {
            Some(met) => {
                let limit = met.conf().max_body();
                Ok(Some(self.read_next(alloc, limit)?))
            }
            None => self.first_found(alloc, current),
        }
    }

    // the same, where no request is under way
    fn first_found(&mut self, alloc: Global, current: &Current) -> Result<Option<Next>, AllocError>
        requires after { IsAfter self.old.met (numbered current.now) }
        requires going { self.old.closed ≡ false }
        requires none { self.old.pending ≡ None }
        requires free { bound_in self.old ≡ None }
        ensures ok { IfOk result (λ next. (c : Connection) (a : Account)
            → Stands H.reply_of c a self.old
            → FindsFront H.reply_of c (numbered current.now) a next self.new) }
        ensures way { IfOk result (λ next. IfSome next (λ next.
            (is_some (bound_in self.new) ≡ true) × HasSmallStatus next)) }
        ensures going { self.new.closed ≡ false }
        ensures none { self.new.pending ≡ None }
        ensures met { (self.new.met ≡ self.old.met) ⊎ (self.new.met ≡ Some (numbered current.now)) }
        ensures left { self.new.left ≡ self.old.left }
        ensures grows { Grows self.old self.new }
    {
        let limit = current.conf.max_body();
        let next = self.read_next(alloc, limit)?;
        if self.has_begun(&next) {
            self.take_up(alloc, current)?;
            Ok(Some(self.tell_on(alloc, limit, next)?))
        } else {
            Ok(None)
        }
    }

    // whether the head is complete of what the reader found this answer for
    fn has_begun(&self, next: &Next) -> bool
        ensures { (r : Reading) → HasRead r self.now.reader
            → result ≡ (is_request next.now || has_begun r) }
    {
        is_request(next) || self.reader.has_begun()
    }

    // tells the client to go on, where that is due, and what the reader finds then
    #[tactic(auto, using(crate::proofs::FoundLemmas::told_plain, crate::proofs::FoundLemmas::told_result))]
    fn tell_on(&mut self, alloc: Global, limit: u64, next: Next) -> Result<Next, AllocError>
        requires { HasSmallStatus next }
        ensures told { IfOk result (λ found. IsToldOn self.old limit next found self.new) }
        ensures small { IfOk result HasSmallStatus }
        ensures going { self.new.closed ≡ self.old.closed }
        ensures none { self.new.pending ≡ self.old.pending }
        ensures met { self.new.met ≡ self.old.met }
        ensures way { bound_in self.new ≡ bound_in self.old }
        ensures left { self.new.left ≡ self.old.left }
        ensures grows { Grows self.old self.new }
    {
        match next {
            Next::Continue => {
                self.tell_continue()?;
                self.read_next(alloc, limit)
            }
            _ => Ok(next),
        }
    }

    // the reader's next answer
    fn read_next(&mut self, alloc: Global, limit: u64) -> Result<Next, AllocError>
        ensures value { self.new ≡ record self.old { reader = self.new.reader } }
        ensures answer { IfOk result (λ next. (r : Reading) → HasRead r self.old.reader
            → next ≡ next_answer r limit) }
        ensures ok { OnOk result ((r : Reading) → HasRead r self.old.reader
            → HasRead (next_reading r limit) self.new.reader) }
        ensures grows { Grows self.old self.new }
        ensures small { IfOk result HasSmallStatus }
    {
        self.reader.next(alloc, limit)
    }

    // `100 Continue` is to be written
    fn tell_continue(&mut self) -> Result<(), AllocError>
        ensures ok { OnOk result
            (self.new ≡ record self.old { out = self.old.out ++ continue_bytes true }) }
        ensures err { OnErr result (self.new ≡ self.old) }
        ensures grows { Grows self.old self.new }
    {
        self.out.append(continue_reply())
    }

    // the request at the front is under way by this configuration
    fn take_up(&mut self, alloc: Global, current: &Current) -> Result<(), AllocError>
        requires { IsAfter self.old.met (numbered current.now) }
        ensures ok { OnOk result (self.new ≡ taken_up_in (numbered current.now) self.old) }
        ensures err { OnErr result (self.new ≡ self.old) }
    {
        if !self.has_met(current.number) {
            self.meet(Met::of(alloc, current)?);
        }
        self.is_under_way = true;
        Ok(())
    }

    // the newest request has this configuration; the one where the call began is kept
    fn meet(&mut self, met: Met)
        ensures { self.new ≡ record self.old { met = Some met; former = recovered self.old } }
    {
        let former = replace(&mut self.met, Some(met));
        if self.former.is_none() {
            self.former = former;
        }
    }

    // whether the newest request has the configuration of this number
    fn has_met(&self, number: u64) -> bool
        ensures { result ≡ has_met number self.now.met }
    {
        match &self.met {
            Some(met) => met.number() == number,
            None => false,
        }
    }

    // the server's own answer to what is found of the request under way; says whether the next request follows
    fn answer(&mut self, alloc: Global, next: Next) -> Result<bool, AllocError>
        requires going { self.old.closed ≡ false }
        requires way { is_some (bound_in self.old) ≡ true }
        requires none { self.old.pending ≡ None }
        requires small { HasSmallStatus next }
        ensures ok { IfOk result (λ goes. (c : Connection) (bound : Numbered) (a : Account)
            → IsFound H.reply_of c bound a next self.old
            → IsAnswered H.reply_of c bound a goes self.new) }
        ensures met { self.new.met ≡ self.old.met }
        ensures left { IfOk result (λ goes. goes ≡ true → self.new.left < self.old.left) }
        ensures going { OnErr result (self.new.closed ≡ false) }
        ensures grows { Grows self.old self.new }
    {
        match next {
            Next::Request(request) => self.serve(alloc, request),
            Next::Bad(status) => {
                let refusal = error_reply(alloc, status)?;
                self.reply(alloc, None, &refusal, 0, Kind::Own)?;
                Ok(false)
            }
            Next::Cut => {
                let number = self.number_or(0);
                self.end_with(number, 0, Kind::Cut);
                Ok(false)
            }
            _ => Ok(false),
        }
    }

    // the server's own answer to a request; where it goes to an application, it waits for the handler
    fn serve(&mut self, alloc: Global, request: Request) -> Result<bool, AllocError>
        requires going { self.old.closed ≡ false }
        requires way { is_some (bound_in self.old) ≡ true }
        ensures ok { IfOk result (λ goes. (c : Connection) (bound : Numbered) (a : Account)
            → IsFound H.reply_of c bound a (Answer.Request request) self.old
            → IsAnswered H.reply_of c bound a goes self.new) }
        ensures met { self.new.met ≡ self.old.met }
        ensures left { IfOk result (λ goes. goes ≡ true → self.new.left < self.old.left) }
        ensures going { OnErr result (self.new.closed ≡ false) }
        ensures grows { Grows self.old self.new }
    {
        let (outcome, own) = self.routed(alloc, &request)?;
        match own {
            Some(reply) => {
                self.reply(alloc, Some(&request), &reply, 0, Kind::Own)?;
                Ok(true)
            }
            None => {
                let pending = self.pending_for(alloc, outcome, request)?;
                self.pending = Some(pending);
                Ok(false)
            }
        }
    }

    // how the request came where it goes, and the server's own reply, where it has one
    fn routed(
        &self,
        alloc: Global,
        request: &Request,
    ) -> Result<(Outcome, Option<Reply>), AllocError>
        requires { is_some (bound_in self.now) ≡ true }
        ensures outcome { IfOk result (λ routed. (bound : Numbered) → bound_in self.now ≡ Some bound
            → routed.0 ≡ outcome_of bound.1 self.now.listener request.now) }
        ensures reply { IfOk result (λ routed. (bound : Numbered) → bound_in self.now ≡ Some bound
            → routed.1 ≡ own_reply bound.1 routed.0 request.now) }
        ensures facts { IfOk result (λ routed. (bound : Numbered) → bound_in self.now ≡ Some bound
            → IsOutcome bound.1 request.now routed.0) }
        ensures status { IfOk result (λ routed. IfSome routed.1 (λ r. r.status < 1000)) }
    {
        let Some(met) = self.bound() else {
            unreachable!();
        };
        let conf = met.conf();
        let came = outcome(conf, self.listener.as_slice(), request);
        let own = own_reply(alloc, conf, came, request)?;
        Ok((came, own))
    }

    // the request that came by this outcome to an application, as it waits
    fn pending_for(
        &self,
        alloc: Global,
        outcome: Outcome,
        request: Request,
    ) -> Result<Pending, AllocError>
        requires way { is_some (bound_in self.now) ≡ true }
        requires facts { (bound : Numbered) → bound_in self.now ≡ Some bound
            → IsOutcome bound.1 request outcome }
        requires goes { is_app outcome.target ≡ true }
        ensures { IfOk result (λ pending. (bound : Numbered) → bound_in self.now ≡ Some bound
            → IsPendingBy bound.1 outcome pending request) }
    {
        let Some(met) = self.bound() else {
            unreachable!();
        };
        pending_by(alloc, met.conf(), outcome, request)
    }

    // puts a reply behind what is to be written, with its line and its receipt
    pub(crate) fn reply(
        &mut self,
        alloc: Global,
        request: Option<&Request>,
        reply: &Reply,
        stream: u64,
        kind: Kind,
    ) -> Result<(), AllocError>
        requires going { self.old.closed ≡ false }
        requires way { is_some (bound_in self.old) ≡ true }
        requires status { reply.now.status < 1000 }
        ensures ok { OnOk result ((bound : Numbered) → bound_in self.old ≡ Some bound
            → self.new ≡ replied_in bound (receipt_of bound.0 stream kind)
            (option_map (λ r. r.now) request.entry) reply.now self.old) }
        ensures met { self.new.met ≡ self.old.met }
        ensures left { OnOk result (self.new.left < self.old.left) }
        ensures going { OnErr result (self.new.closed ≡ false) }
        ensures grows { Grows self.old self.new }
    {
        let head = is_to_head(request);
        let close = closes(request, self.left);
        self.log_reply(request, reply, head)?;
        self.write_reply(alloc, reply, head, close)?;
        self.finish(stream, kind, close)
    }

    // the line of the log that tells of a reply
    #[tactic(auto, unfolding(crate::specs::Answers::reply_line))]
    fn log_reply(
        &mut self,
        request: Option<&Request>,
        reply: &Reply,
        head: bool,
    ) -> Result<(), AllocError>
        requires status { reply.now.status < 1000 }
        requires head { head ≡ is_to_head (option_map (λ r. r.now) request) }
        ensures ok { OnOk result ((bound : Numbered) → bound_in self.old ≡ Some bound → self.new
            ≡ logged_in bound (option_map (λ r. r.now) request.entry) reply.now self.old) }
        ensures err { OnErr result (self.new ≡ self.old) }
        ensures grows { Grows self.old self.new }
        ensures left { self.new.left ≡ self.old.left }
        ensures met { self.new.met ≡ self.old.met }
        ensures way { bound_in self.new ≡ bound_in self.old }
        ensures going { self.new.closed ≡ self.old.closed }
    {
        if let Some(met) = &self.met
            && let Some(format) = met.format()
        {
            let len = content_len(reply, head) as u64;
            line(
                format,
                self.from,
                request,
                reply.status,
                len,
                &mut self.lines,
            )?;
        }
        Ok(())
    }

    // its bytes
    fn write_reply(
        &mut self,
        alloc: Global,
        reply: &Reply,
        head: bool,
        close: bool,
    ) -> Result<(), AllocError>
        requires { reply.now.status < 1000 }
        ensures ok { OnOk result (self.new ≡ written_in reply.now head close self.old) }
        ensures met { self.new.met ≡ self.old.met }
        ensures left { self.new.left ≡ self.old.left }
        ensures going { self.new.closed ≡ self.old.closed }
        ensures err { OnErr result (self.new ≡ self.old) }
        ensures grows { Grows self.old self.new }
    {
        write_http(alloc, reply, head, close, &mut self.out)
    }

    // its receipt; the request under way has ended
    fn finish(&mut self, stream: u64, kind: Kind, close: bool) -> Result<(), AllocError>
        requires going { self.old.closed ≡ false }
        requires more { close ≡ false → 1 ≤ self.old.left - 1 }
        ensures ok { OnOk result
            (self.new ≡ finished_in (number_or (bound_in self.old) 0) stream kind close self.old) }
        ensures err { OnErr result (self.new ≡ self.old) }
        ensures grows { Grows self.old self.new }
        ensures met { self.new.met ≡ self.old.met }
        ensures left { OnOk result (self.new.left < self.old.left) }
    {
        self.receipts.reserve(2)?;
        let number = self.number_or(0);
        self.receipts.push_reserved(Receipt {
            conf: number,
            stream,
            kind,
        });
        self.is_under_way = false;
        self.pending = None;
        self.left -= 1;
        self.last = number;
        self.closed = close;
        Ok(())
    }

    // where it stands, as a call begins; its reader is marked too
    pub(crate) fn place(&self) -> Place
        ensures { result ≡ place_of self.now }
    {
        Place {
            is_under_way: self.is_under_way,
            left: self.left,
            last: self.last,
            ended: self.ended,
            closed: self.closed,
            out: self.out.as_slice().len() - self.written,
            lines: self.lines.as_slice().len(),
            receipts: self.receipts.len(),
        }
    }

    // goes back to where it stood, behind a call that failed; the request that waited then is its caller's to bring back
    pub(crate) fn go_back(&mut self, alloc: Global, place: Place)
        requires going { self.old.closed ≡ false }
        requires way { place.is_under_way ≡ true → is_some (recovered self.old) ≡ true }
        requires left { (place.left ≤ request_limit) × (place.closed ≡ false → 1 ≤ place.left) }
        ensures held { self.new ≡ record (taken_back place self.old) { reader = self.new.reader } }
        ensures reader { (r : Reading) → HasRead r (marked self.old.reader)
            → HasRead r self.new.reader }
    {
        self.recover();
        self.reader.go_back();
        self.is_under_way = place.is_under_way;
        self.pending = None;
        self.left = place.left;
        self.last = place.last;
        self.ended = place.ended;
        self.closed = place.closed;
        cut_behind(alloc, &mut self.out, self.written, place.out);
        cut_to(alloc, &mut self.lines, place.lines);
        self.receipts.truncate(place.receipts);
    }

    // the newest configuration is again the one where the call began
    fn recover(&mut self)
        ensures { self.new ≡ record self.old { met = recovered self.old; former = None } }
    {
        if let Some(former) = self.former.take() {
            self.met = Some(former);
        }
    }
}

// of what stands behind those that are written, the bytes cut to so many
fn cut_behind(alloc: Global, bytes: &mut Bytes, written: usize, len: usize)
    requires { written ≤ length bytes.old }
    ensures cut { drop written bytes.new ≡ take len (drop written bytes.old) }
    ensures within { written ≤ length bytes.new }
{
    let left = bytes.as_slice().len() - written;
    cut_to(alloc, bytes, written + len.min(left));
}

// the bytes cut to so many
fn cut_to(alloc: Global, bytes: &mut Bytes, len: usize)
    ensures { bytes.new ≡ take len bytes.old }
{
    let mut items = replace(bytes, Bytes::of(Vec::new(alloc))).into_vec();
    items.truncate(len);
    *bytes = Bytes::of(items);
}

fn is_request(next: &Next) -> bool
    ensures { result ≡ is_request next.now }
{
    match next {
        Next::Request(_) => true,
        _ => false,
    }
}

// whether a reply is to a HEAD request
fn is_to_head(request: Option<&Request>) -> bool
    ensures { result ≡ is_to_head (option_map (λ r. r.now) request.entry) }
{
    match request {
        Some(request) => is_head_request(request),
        None => false,
    }
}
