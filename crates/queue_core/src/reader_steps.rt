//! The steps of the reader of a mailbox of a pool.

ghost use Rattle.std.specs.Prelude.{◌≡◌, ◌<◌, length, false, Some, None, true, if◌then◌else◌};
ghost use Rattle.queue_core.specs.declared.step.Stepped.TheVariants.{Moved, NotNow};
ghost use Rattle.queue_core.specs.Pooled.{IsPooled, reader_in};
ghost use Rattle.queue_core.specs.declared.item.Took.TheVariants.{Busy};
ghost use Rattle.queue_core.specs.declared.reader.ReaderPoint.TheVariants.{NodeHead, Second, StubHead};
ghost use Rattle.queue_core.specs.PoolSteps.{answers, give_back, goes_to, has_next as next_is, is_at_stub as at_stub};
ghost use Rattle.queue_core.specs.PoolSteps.{is_last as at_last, load_head, load_next, may_use as may_be_used, passes};
ghost use Rattle.queue_core.specs.PoolSteps.{stub_link_at, stub_null_at, stub_swap_at, takes};

use crate::item::Took;
use crate::reader::{Reader, ReaderPoint};
use crate::state::State;
use crate::step::Stepped;
use crate::words::{NULL, Node, link_to, linked_node};

impl State {
    /// Whether the tail is the stub.
    fn is_at_stub(&self, b: u64) -> bool
        requires pooled { IsPooled self.now }
        requires mailbox { b < length self.now.heads }
        ensures { result ≡ at_stub b self.now }
    {
        self.reader(b).tail == self.stub(b)
    }

    /// Whether the tail has a next node.
    fn has_next(&self, b: u64) -> bool
        requires pooled { IsPooled self.now }
        requires mailbox { b < length self.now.heads }
        ensures { result ≡ next_is b self.now }
    {
        self.node(self.reader(b).tail).next != NULL
    }

    /// Whether nothing was exchanged in after the tail.
    fn is_last(&self, b: u64) -> bool
        requires pooled { IsPooled self.now }
        requires mailbox { b < length self.now.heads }
        ensures { result ≡ at_last b self.now }
    {
        self.head(b) == link_to(self.reader(b).tail)
    }

    /// Whether the reader may read and give back a node.
    fn may_use(&self, b: u64, n: u64) -> bool
        requires { b < length self.now.readers }
        ensures { result ≡ may_be_used (reader_in self.now b).point b n self.now }
    {
        match self.reader(b).point {
            ReaderPoint::Rest => self.is_held(b, n),
            _ => false,
        }
    }

    /// Passes the tail.
    fn pass(&mut self, b: u64)
        requires pooled { IsPooled self.old }
        requires mailbox { b < length self.old.heads }
        requires next { next_is b self.old ≡ true }
        ensures { self.new ≡ passes b self.old }
    {
        let reader = self.reader(b);
        let tail = linked_node(self.node(reader.tail).next);
        self.set_reader(b, Reader { tail, ..reader });
    }

    /// Takes the tail, a sender's node, and ends the take.
    fn take(&mut self, b: u64)
        requires pooled { IsPooled self.old }
        requires mailbox { b < length self.old.heads }
        requires next { next_is b self.old ≡ true }
        ensures { self.new ≡ takes b self.old }
    {
        let taken = self.reader(b).tail;
        self.pass(b);
        self.answer(b, Took::Held(taken));
        self.set_holder(taken, Some(b));
    }

    /// Loads the next of the stub, which is the tail.
    fn leave_stub(&mut self, b: u64)
        requires pooled { IsPooled self.old }
        requires mailbox { b < length self.old.heads }
        ensures { self.new ≡ (if next_is b self.old then goes_to b Second (passes b self.old) else goes_to b StubHead self.old) }
    {
        if self.has_next(b) {
            self.pass(b);
            self.go_to(b, ReaderPoint::Second);
        } else {
            self.go_to(b, ReaderPoint::StubHead);
        }
    }

    /// Loads the next of a sender's node, which is the tail.
    fn leave_node(&mut self, b: u64)
        requires pooled { IsPooled self.old }
        requires mailbox { b < length self.old.heads }
        ensures { self.new ≡ (if next_is b self.old then takes b self.old else goes_to b NodeHead self.old) }
    {
        if self.has_next(b) {
            self.take(b);
        } else {
            self.go_to(b, ReaderPoint::NodeHead);
        }
    }

    /// Loads the next of the tail once more.
    fn leave_last(&mut self, b: u64)
        requires pooled { IsPooled self.old }
        requires mailbox { b < length self.old.heads }
        ensures { self.new ≡ (if next_is b self.old then takes b self.old else answers b Busy self.old) }
    {
        if self.has_next(b) {
            self.take(b);
        } else {
            self.answer(b, Took::Busy);
        }
    }

    /// Loads the next of the tail.
    pub(crate) fn load_next(&mut self, b: u64) -> Stepped
        requires pooled { IsPooled self.old }
        requires mailbox { b < length self.old.heads }
        ensures moved { result ≡ Moved → load_next b self.old ≡ Some self.new }
        ensures not_now { result ≡ NotNow → (load_next b self.old ≡ None) × (self.new ≡ self.old) }
    {
        match self.reader(b).point {
            ReaderPoint::Rest => {
                if self.is_at_stub(b) {
                    self.leave_stub(b);
                } else {
                    self.leave_node(b);
                }
            }
            ReaderPoint::Second => {
                if self.is_at_stub(b) {
                    return Stepped::NotNow;
                }
                self.leave_node(b);
            }
            ReaderPoint::Last => self.leave_last(b),
            ReaderPoint::StubHead
            | ReaderPoint::NodeHead
            | ReaderPoint::Null
            | ReaderPoint::Swap
            | ReaderPoint::Link(_) => return Stepped::NotNow,
        }
        Stepped::Moved
    }

    /// Loads the head.
    pub(crate) fn load_head(&mut self, b: u64) -> Stepped
        requires pooled { IsPooled self.old }
        requires mailbox { b < length self.old.heads }
        ensures moved { result ≡ Moved → load_head b self.old ≡ Some self.new }
        ensures not_now { result ≡ NotNow → (load_head b self.old ≡ None) × (self.new ≡ self.old) }
    {
        let is_last = self.is_last(b);
        match self.reader(b).point {
            ReaderPoint::StubHead => self.answer(b, if is_last { Took::Empty } else { Took::Busy }),
            ReaderPoint::NodeHead => {
                if is_last {
                    self.go_to(b, ReaderPoint::Null);
                } else {
                    self.answer(b, Took::Busy);
                }
            }
            ReaderPoint::Rest
            | ReaderPoint::Second
            | ReaderPoint::Null
            | ReaderPoint::Swap
            | ReaderPoint::Link(_)
            | ReaderPoint::Last => return Stepped::NotNow,
        }
        Stepped::Moved
    }

    /// Stores null as the next of the stub.
    pub(crate) fn stub_null(&mut self, b: u64) -> Stepped
        requires pooled { IsPooled self.old }
        requires mailbox { b < length self.old.heads }
        ensures moved { result ≡ Moved → stub_null_at (reader_in self.old b).point b self.old ≡ Some self.new }
        ensures not_now { result ≡ NotNow → (stub_null_at (reader_in self.old b).point b self.old ≡ None) × (self.new ≡ self.old) }
    {
        let ReaderPoint::Null = self.reader(b).point else {
            return Stepped::NotNow;
        };
        let stub = self.stub(b);
        let node = self.node(stub);
        self.set_node(stub, Node { next: NULL, ..node });
        self.go_to(b, ReaderPoint::Swap);
        Stepped::Moved
    }

    /// Exchanges the head for the stub.
    pub(crate) fn stub_swap(&mut self, b: u64) -> Stepped
        requires pooled { IsPooled self.old }
        requires mailbox { b < length self.old.heads }
        ensures moved { result ≡ Moved → stub_swap_at (reader_in self.old b).point b self.old ≡ Some self.new }
        ensures not_now { result ≡ NotNow → (stub_swap_at (reader_in self.old b).point b self.old ≡ None) × (self.new ≡ self.old) }
    {
        let ReaderPoint::Swap = self.reader(b).point else {
            return Stepped::NotNow;
        };
        let before = linked_node(self.head(b));
        let head = link_to(self.stub(b));
        self.go_to(b, ReaderPoint::Link(before));
        self.set_head(b, head);
        Stepped::Moved
    }

    /// Stores the link to the stub in the node that was the head.
    pub(crate) fn stub_link(&mut self, b: u64) -> Stepped
        requires pooled { IsPooled self.old }
        requires mailbox { b < length self.old.heads }
        ensures moved { result ≡ Moved → stub_link_at (reader_in self.old b).point b self.old ≡ Some self.new }
        ensures not_now { result ≡ NotNow → (stub_link_at (reader_in self.old b).point b self.old ≡ None) × (self.new ≡ self.old) }
    {
        let ReaderPoint::Link(before) = self.reader(b).point else {
            return Stepped::NotNow;
        };
        let next = link_to(self.stub(b));
        let node = self.node(before);
        self.set_node(before, Node { next, ..node });
        self.go_to(b, ReaderPoint::Last);
        Stepped::Moved
    }

    /// Loads a word of a node that is held.
    pub(crate) fn load_held(&self, b: u64, n: u64) -> Stepped
        requires { b < length self.now.readers }
        ensures moved { result ≡ Moved → may_be_used (reader_in self.now b).point b n self.now ≡ true }
        ensures not_now { result ≡ NotNow → may_be_used (reader_in self.now b).point b n self.now ≡ false }
    {
        if self.may_use(b, n) {
            Stepped::Moved
        } else {
            Stepped::NotNow
        }
    }

    /// Adds 1 to the turn of a node that is held, and holds it no longer.
    pub(crate) fn give_back(&mut self, b: u64, n: u64) -> Stepped
        requires pooled { IsPooled self.old }
        requires mailbox { b < length self.old.heads }
        ensures moved { result ≡ Moved → give_back b n self.old ≡ Some self.new }
        ensures not_now { result ≡ NotNow → (give_back b n self.old ≡ None) × (self.new ≡ self.old) }
    {
        if !self.may_use(b, n) {
            return Stepped::NotNow;
        }
        let node = self.node(n);
        let turn = node.turn.wrapping_add(1);
        self.set_node(n, Node { turn, ..node });
        self.set_holder(n, None);
        Stepped::Moved
    }
}
