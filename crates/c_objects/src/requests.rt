//! The queue of what a program asks of its terminal beyond drawing.
ghost use Rattle.std.specs.Prelude.{◌≡◌, ◌++◌, length, map, encode_utf8, IfOk, OnOk, OnErr};
ghost use Rattle.std.specs.Prelude.{if◌then◌else◌};
ghost use Rattle.c_objects.specs.Requests as specs;
ghost use Rattle.c_objects.specs.Requests.{no_requests, telling, one_dropped, behind, of_kind, intermediates};
ghost use Rattle.c_objects.specs.Requests.{Queues, Takes, Told, Leaves};

use crate::draft::Draft;
use crate::plain::CRequest;
use crate::queue::{NoPlace, Queue};
use crate::told::{begin, left_text, push_csi, push_osc};
use std::alloc::{AllocError, Global};
use std::marker::Model;
use vt100::capture::RowContents;
use vt100::{Call, Callbacks, Screen};

/// The waiting requests, the oldest first, how many requests weren't queued, and what else is queued.
#[derive(Drop)]
pub struct Requests {
    waiting: Queue,
    draft: Draft,
    dropped: usize,
    unknown: bool,
    rows: bool,
    alloc: Global,
}

impl Model for Requests {
    ghost use Rattle.c_objects.specs.Requests.{RequestsView};

    ghost Value = { RequestsView };

    ghost view = { λ q. record {
      waiting = q.waiting;
      dropped = q.dropped;
      tells_unknown = q.unknown;
      tells_rows = q.rows;
    } };
}

impl Requests {
    /// An empty queue, with room for all the requests that may wait, and for some of their texts. Refused if the
    /// allocation of this room fails.
    pub(crate) fn new(alloc: Global) -> Result<Requests, AllocError>
        ensures { IfOk result (λ q. q ≡ no_requests) }
    {
        Ok(Requests {
            waiting: Queue::new(alloc)?,
            draft: Draft::new(alloc)?,
            dropped: 0,
            unknown: false,
            rows: false,
            alloc,
        })
    }

    /// Sets whether what the screen doesn't know is queued from now on, and whether rows that leave it for good are.
    pub(crate) fn tell(&mut self, unknown: bool, rows: bool)
        ensures { self.new ≡ telling unknown rows self.old }
    {
        self.unknown = unknown;
        self.rows = rows;
    }

    /// Queues a request of this kind. If the queue is full, its text is too long, or there is neither room nor memory
    /// for its text, it is counted as dropped.
    // Not inlined: few streams have requests, and the code that reads other streams is then faster.
    #[inline(never)]
    fn queue(&mut self, kind: u8, size: (u16, u16), letters: &[u8], text: &[u8])
        ensures { Queues self.old (record {
          kind = kind;
          rows = size.0;
          cols = size.1;
          letters = length letters.now;
          text = letters.now ++ text.now;
        }) self.new }
    {
        self.draft.clear();
        self.draft.push(letters);
        self.draft.push(text);
        let queued = self
            .waiting
            .push(kind, size, letters.len(), self.draft.text());
        self.count(queued);
    }

    /// Counts a request as dropped, if it found no place.
    fn count(&mut self, queued: Result<(), NoPlace>)
        ensures queued { OnOk queued (self.new ≡ self.old) }
        ensures dropped { OnErr queued (self.new ≡ one_dropped self.old) }
    {
        if queued.is_err() {
            self.dropped = self.dropped.saturating_add(1);
        }
    }

    /// Queues a text about something that the screen doesn't know, after the first two intermediates, if such
    /// requests are wanted.
    // Not inlined, for the same reason as `queue`.
    #[inline(never)]
    fn queue_unknown(&mut self, kind: u8, first: Option<u8>, second: Option<u8>, text: &[u8])
        ensures { Told self.old.tells_unknown self.old (behind kind (intermediates first second) text.now) self.new }
    {
        if !self.unknown {
            return;
        }
        let letters = begin(&mut self.draft, first, second);
        self.draft.push(text);
        let queued = self.waiting.push(kind, (0, 0), letters, self.draft.text());
        self.count(queued);
    }

    /// Queues a character that the screen doesn't know, if such requests are wanted.
    fn queue_char(&mut self, c: char)
        ensures { Told self.old.tells_unknown self.old (of_kind 8 (encode_utf8 c)) self.new }
    {
        let mut room = [0; 4];
        let text = c.encode_utf8(&mut room);
        self.queue_unknown(8, None, None, text.as_bytes());
    }

    /// Queues a control sequence that the screen doesn't know, if such requests are wanted.
    #[inline(never)]
    fn queue_csi(&mut self, first: Option<u8>, second: Option<u8>, params: &[&[u16]], last: char)
        ensures { Told self.old.tells_unknown self.old
            (behind 11 (intermediates first second) (specs.csi_text (map (λ g. g.now) params.now) last)) self.new }
    {
        if !self.unknown {
            return;
        }
        let letters = begin(&mut self.draft, first, second);
        push_csi(&mut self.draft, params, last);
        let queued = self.waiting.push(11, (0, 0), letters, self.draft.text());
        self.count(queued);
    }

    /// Queues an operating system command that the screen doesn't know, if such requests are wanted.
    #[inline(never)]
    fn queue_osc(&mut self, pieces: &[&[u8]])
        ensures { Told self.old.tells_unknown self.old (of_kind 12 (specs.osc_text (map (λ p. p.now) pieces.now)))
            self.new }
    {
        if !self.unknown {
            return;
        }
        self.draft.clear();
        push_osc(&mut self.draft, pieces);
        let queued = self.waiting.push(12, (0, 0), 0, self.draft.text());
        self.count(queued);
    }

    /// Queues a row that leaves for good, if rows are wanted, however many requests wait. If an allocation fails, the
    /// row is counted as dropped.
    #[inline(never)]
    fn queue_row(&mut self, contents: &RowContents<'_>, alternate: bool)
        ensures { Leaves self.old contents.now alternate self.new }
    {
        if !self.rows {
            return;
        }
        let queued = match left_text(self.alloc, contents) {
            Some(text) => self
                .waiting
                .push_row(kind_of_row(alternate), text.into_bytes()),
            None => Err(NoPlace),
        };
        self.count(queued);
    }

    /// Copies the oldest request and returns its kind, or 0 if none waits. The request is removed if its text fits.
    pub(crate) fn take(&mut self, to: &mut [u8], reported: &mut CRequest) -> i32
        ensures { Takes to.old to.new reported.new self.old result self.new }
    {
        self.waiting.take(self.dropped, to, reported)
    }
}

/// The kind of a row that leaves the alternate screen, or the main one.
fn kind_of_row(alternate: bool) -> u8
    ensures { result ≡ (if alternate then 14 else 13) }
{
    if alternate { 14 } else { 13 }
}

/// Queues the calls that C can receive, and rows if they are wanted. Leaves the screen as it is.
impl Callbacks for Requests {
    ghost use Rattle.c_objects.specs.Requests.{Receives, Leaves};

    ghost step = { λ c v k d w. Receives c v k d w };

    ghost scrolls = { λ c v a d. Leaves c v a d };

    fn call(&mut self, _screen: &mut Screen, call: Call<'_>) {
        match call {
            Call::AudibleBell => self.queue(1, (0, 0), b"", b""),
            Call::VisualBell => self.queue(2, (0, 0), b"", b""),
            Call::Resize(rows, cols) => self.queue(3, (rows, cols), b"", b""),
            Call::SetWindowIconName(name) => self.queue(4, (0, 0), b"", name),
            Call::SetWindowTitle(title) => self.queue(5, (0, 0), b"", title),
            Call::CopyToClipboard(letters, data) => self.queue(6, (0, 0), letters, data),
            Call::PasteFromClipboard(letters) => self.queue(7, (0, 0), letters, b""),
            Call::UnhandledChar(c) => self.queue_char(c),
            Call::UnhandledControl(control) => self.queue_unknown(9, None, None, &[control]),
            Call::UnhandledEscape(first, second, last) => {
                self.queue_unknown(10, first, second, &[last]);
            }
            Call::UnhandledCsi(first, second, params, last) => {
                self.queue_csi(first, second, params, last);
            }
            Call::UnhandledOsc(pieces) => self.queue_osc(pieces),
        }
    }

    fn on_scroll(&mut self, contents: RowContents<'_>, alternate_screen: bool) {
        self.queue_row(&contents, alternate_screen);
    }
}
