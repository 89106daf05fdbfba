//! The hub.
ghost use Rattle.std.specs.Prelude.{◌≡◌, ◌≢◌, ◌*◌, ◌≤◌, false, IfOk, IsOkAnd, OnOk, OnErr, Err, Some, None};
ghost use Rattle.std.specs.Prelude.{MatchOption, IsSome};
ghost use Rattle.std.specs.Option.{option_map};
ghost use Rattle.std.specs.Result.{result_map_both};
ghost use Rattle.slab.specs.Slab.{get, with_value};
ghost use Rattle.termrelay.specs.Frame.{IsShortFrame};
ghost use Rattle.termrelay.specs.declared.answer.Answer.TheVariants.{Difference, TooLong};
ghost use Rattle.termrelay.specs.declared.error.HubError.TheVariants.{Memory, UnknownClient};

use crate::answer::Answer;
use crate::client::Client;
use crate::client_record::ClientRecord;
use crate::error::HubError;
use crate::frame::Frame;
use crate::frames::{Due, SharedFrames};
use byte_streams::ByteSink;
use slab::Slab;
use std::alloc::Global;
use std::marker::Model;
use std::num::NonZeroU16;
use std::sync::Arc;
use vt100::{Parser, Screen};

/// One program's screen, and clients that are sent frames of it.
///
/// A client's frames, read one after another, make a terminal of the screen's size show what the screen shows. Each
/// frame starts from what the one before it showed, so the hub keeps each client's screen at its last frame. Clients
/// whose last frames showed the same moment share the next one.
///
/// If a call can be refused for several reasons, an unknown client comes first, then a failed hub, then a failed
/// allocation.
#[derive(Drop)]
pub struct Hub {
    parser: Parser<()>,
    clients: Slab<ClientRecord>,
    /// The frames that the clients share.
    frames: SharedFrames,
    alloc: Global,
}

impl Model for Hub {
    ghost use Rattle.termrelay.specs.Hub.{HubState, as_kept};

    ghost Value = { HubState as_kept };

    ghost use Rattle.termrelay.specs.HubFields.{hub_of, IsHub};

    ghost view = { hub_of };

    ghost invariant = { IsHub };
}

impl Hub {
    ghost use Rattle.termrelay.specs.Hub.{clients_in, shown_in, Puts, IsNewHub, Feeds, Resizes, Attaches, Detaches};
    ghost use Rattle.termrelay.specs.Hub.{Frames, OwesOneFrame, OwesLocalFrame, PumpsClient, size_in, is_failed};
    ghost use Rattle.termrelay.specs.Joins.{Redraws, DrawsWhole, Forks};

    /// A hub with a blank screen of this size, without scrollback rows and without clients. Fails only if an allocation
    /// fails.
    pub fn new(alloc: Global, rows: NonZeroU16, cols: NonZeroU16) -> Result<Self, HubError>
        ensures new { IfOk result (λ hub. IsNewHub rows.value cols.value hub) }
        ensures memory { OnErr result (result ≡ Err Memory) }
    {
        Ok(Hub {
            parser: Parser::new(alloc, rows, cols, 0)?,
            clients: Slab::new(alloc),
            frames: SharedFrames::new(alloc),
            alloc,
        })
    }

    /// The program's screen. The hub has failed exactly when its screen has.
    pub fn screen(&self) -> &Screen
        ensures { result.now ≡ self.now.parser.screen }
    {
        self.parser.screen()
    }

    fn has_failed(&self) -> bool
        ensures { result ≡ self.now.parser.screen.failed }
    {
        self.parser.screen().failed()
    }

    /// Gives the program's next bytes to the screen. A feed may end anywhere, also inside a character or an escape
    /// sequence.
    ///
    /// If an allocation fails, the hub has failed: it makes no further frames, but pending bytes can still be pumped.
    /// Only the first switch to the alternate screen since the start or a full reset allocates memory. Other bytes are
    /// refused only by a hub that has failed.
    pub fn feed(&mut self, bytes: &[u8]) -> Result<(), HubError>
        ensures { Feeds self.old bytes.now result self.new }
    {
        if self.has_failed() {
            return Err(HubError::Failed);
        }
        if bytes.is_empty() {
            return Ok(());
        }
        self.frames.change();
        self.parser.process(bytes)?;
        Ok(())
    }

    /// Gives the screen another size. Every client ends, also if the size stays the same. Fails only if an allocation
    /// fails or the hub has failed; then nothing has changed.
    pub fn resize(&mut self, rows: NonZeroU16, cols: NonZeroU16) -> Result<(), HubError>
        ensures { Resizes self.old rows.value cols.value result self.new }
    {
        if self.has_failed() {
            return Err(HubError::Failed);
        }
        let mut screen = self.parser.screen().clone()?;
        screen.set_size(rows, cols)?;
        self.frames = SharedFrames::new(self.alloc);
        self.clients.clear();
        *self.parser.screen_mut() = screen;
        Ok(())
    }

    /// Adds a client, which has had no frame. Fails only if an allocation fails or the hub has failed; then nothing has
    /// changed.
    pub fn attach(&mut self) -> Result<Client, HubError>
        ensures { Attaches self.old result self.new }
    {
        if self.has_failed() {
            return Err(HubError::Failed);
        }
        match self.clients.insert(ClientRecord::new()) {
            Ok(key) => Ok(Client::from_key(key)),
            Err(_) => Err(HubError::Memory),
        }
    }

    /// Adds a client that has what this one has once it has read all its frames. No bytes wait for the new client. Its
    /// next frame starts from the screen at this one's last frame, which the two share.
    ///
    /// A terminal that has read this client's frames so far, or its [`redraw`](Self::redraw), goes on with the new
    /// client's frames. If this client has had no frame, the call does what [`attach`](Self::attach) does. Fails only
    /// for an unknown client, if the hub has failed or if an allocation fails; then nothing has changed.
    pub fn fork(&mut self, client: Client) -> Result<Client, HubError>
        ensures { Forks self.old client result self.new }
    {
        let fork = match self.clients.get(client.key()) {
            Some(_) if self.has_failed() => return Err(HubError::Failed),
            Some(record) => record.fork()?,
            None => return Err(HubError::UnknownClient),
        };
        match self.clients.insert(fork) {
            Ok(key) => Ok(Client::from_key(key)),
            Err(_) => Err(HubError::Memory),
        }
    }

    /// Ends the client. Its pending bytes are dropped. Fails only for an unknown client.
    pub fn detach(&mut self, client: Client) -> Result<(), HubError>
        ensures { Detaches self.old client result self.new }
    {
        match self.clients.try_remove(client.key()) {
            Some(_) => Ok(()),
            None => Err(HubError::UnknownClient),
        }
    }

    /// The bytes of the client's last frame that haven't been pumped yet. Unless the hub has failed, these are at most
    /// 1,024 bytes for each cell of the screen, and 1,024 more (`short`). When a hub fails, the same bytes still wait
    /// for its clients. Fails only for an unknown client.
    pub fn owed(&self, client: Client) -> Result<&[u8], HubError>
        ensures owed { MatchOption (clients_in self.now client) (result ≡ Err UnknownClient)
            (λ c. IsOkAnd result (λ bytes. bytes.now ≡ c.owed)) }
        ensures short { is_failed self.now ≡ false → IfOk result (λ bytes. IsShortFrame (size_in self.now) bytes.now) }
    {
        match self.clients.get(client.key()) {
            Some(record) => Ok(record.owed()),
            None => Err(HubError::UnknownClient),
        }
    }

    /// What draws, on a fresh terminal of the screen's size, what the client shows once it has read all its frames.
    /// Frames that still wait for the client count as read. Nothing changes.
    ///
    /// It is the first frame of the screen at the client's last frame, or no bytes if the client has had no frame. A
    /// terminal that has read the redraw goes on with the client's later frames. The answer is `None` if the redraw
    /// would be longer than 2,097,150 bytes. Fails only for an unknown client, if the hub has failed or if an
    /// allocation fails.
    pub fn redraw(&self, client: Client) -> Result<Option<Vec<u8>>, HubError>
        ensures { Redraws self.now client
            (result_map_both (λ redraw. option_map (λ text. text.items) redraw) (λ error. error) result) }
    {
        match self.clients.get(client.key()) {
            Some(_) if self.has_failed() => Err(HubError::Failed),
            Some(record) => record.redraw(self.alloc),
            None => Err(HubError::UnknownClient),
        }
    }

    /// A frame for a stream that several terminals read. It draws what the client shows once it has read all its
    /// frames, on any terminal of the screen's size, whatever frames the terminal has read before. Nothing changes.
    ///
    /// It is the client's [`redraw`](Self::redraw), with what turns off each mouse mode, encoding and cursor style
    /// after its start mark (xterm's private modes 9, 1000, 1002, 1003, 1005 and 1006, and DECSCUSR 0). So terminals
    /// can begin with it, and those that have read the client's frames so far show the same after it. All go on with
    /// the client's later frames.
    ///
    /// The answer is `None` if the client has had no frame, or if the bytes would be more than 2,097,150. Fails only
    /// for an unknown client, if the hub has failed or if an allocation fails.
    pub fn whole_frame(&self, client: Client) -> Result<Option<Vec<u8>>, HubError>
        ensures { DrawsWhole self.now client
            (result_map_both (λ whole. option_map (λ text. text.items) whole) (λ error. error) result) }
    {
        match self.clients.get(client.key()) {
            Some(_) if self.has_failed() => Err(HubError::Failed),
            Some(record) => record.whole_frame(self.alloc),
            None => Err(HubError::UnknownClient),
        }
    }

    /// Writes the bytes that wait for the client to a writer. It doesn't flush the writer, and writes nothing if no
    /// bytes wait.
    ///
    /// The first error of a write ends the call and is returned, also if the write was interrupted. A write that takes
    /// no byte is an error of kind `WriteZero`. Bytes that were taken are no longer pending. If a write returns more
    /// than the number of bytes it was offered, it counts as having taken all of them.
    pub fn pump<T: ByteSink>(&mut self, client: Client, to: &mut T) -> Result<(), HubError>
        ensures { PumpsClient T.takes self.old client to.old result to.new self.new }
    {
        match self.clients.get_mut(client.key()) {
            Some(record) => match record.pump(to) {
                Ok(()) => Ok(()),
                Err(error) => Err(HubError::Write(error)),
            },
            None => Err(HubError::UnknownClient),
        }
    }

    /// Asks for a frame for the client. If the answer brings a frame, its bytes wait for the client from now on, and
    /// the client's next frame starts from the present screen. If the call fails, or with any other answer, nothing has
    /// changed.
    ///
    /// The answer is `Held` while the program is in a synchronized update of its own: it has set private mode 2026 and
    /// hasn't reset it. Then no memory is allocated. There is no timeout: only the program, a full reset or a resize
    /// ends the update. Till then a host can go on showing the last frame. Or it can resize to the same size, which
    /// ends the update and every client, and attach again.
    ///
    /// The answer is `TooLong` if the frame would be longer than 2,097,150 bytes, its marks included. The text is made
    /// first, so this answer allocates memory too. It never comes on a screen of at most 2,000 cells (`small`). A later
    /// frame may be shorter; else a host can resize to fewer cells.
    ///
    /// Whatever the answer is, at most 1,024 bytes for each cell of the screen, and 1,024 more, wait for the client
    /// (`short`).
    ///
    /// The body of a difference touches only local cells (`local`): cells that differ, and some in rows that differ and
    /// in the row right below each. In those rows, these are empty cells and the cells of the first and the last
    /// column. Of a wide character both cells are touched. If the cursor waits to wrap at the end of a row, the last
    /// cell of one row may also be touched.
    pub fn frame(&mut self, client: Client) -> Result<Answer, HubError>
        ensures frames { Frames self.old client result self.new }
        ensures short { OnOk result (OwesOneFrame self.new client) }
        ensures local { IfOk result (λ answer. answer ≡ Difference → OwesLocalFrame self.old client self.new) }
        ensures small { IfOk result (λ answer. (size_in self.old).rows * (size_in self.old).cols ≤ 2000
            → answer ≢ TooLong) }
    {
        let Some(record) = self.clients.get(client.key()) else {
            return Err(HubError::UnknownClient);
        };
        let screen = self.parser.screen();
        if screen.failed() {
            return Err(HubError::Failed);
        }
        if let Some(answer) = record.waits(screen) {
            return Ok(answer);
        }
        match self.frames.due(record, screen)? {
            Due::Frame(frame) => {
                let answer = frame.answer();
                self.frames.reuse(owe(&mut self.clients, client, frame));
                Ok(answer)
            }
            Due::Without(answer) => Ok(answer),
        }
    }
}

/// A frame waits for the client from now on. Returns the frame before it.
fn owe(clients: &mut Slab<ClientRecord>, client: Client, frame: Arc<Frame>) -> Option<Arc<Frame>>
    requires { IsSome (get clients.old client) }
    ensures { clients.new ≡ with_value clients.old client (record { owed = frame.value.text; last = Some frame.value }) }
{
    match clients.get_mut(client.key()) {
        Some(record) => record.owe(frame),
        None => None,
    }
}
