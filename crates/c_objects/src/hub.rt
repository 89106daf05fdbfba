//! The calls of a hub.
ghost use Rattle.std.specs.Prelude.{◌≡◌, IfOk, IfErr, IsSomeAnd, is_some, Err};
ghost use Rattle.termrelay.specs.Hub.{clients_in};
ghost use Rattle.termrelay.specs.Joins.{DrawsWhole as hub_draws_whole};
ghost use Rattle.c_objects.specs.Cells.{HubHasCells};
ghost use Rattle.c_objects.specs.Codes.{IsRefusal};
ghost use Rattle.c_objects.specs.Objects.{HubDoes, HubSays};
ghost use Rattle.c_objects.specs.Hubs.{IsNewHubOf, IsNoObjectCode, Feeds, Resizes, Attaches, Detaches, Frames, Sends};
ghost use Rattle.c_objects.specs.Hubs.{Forks, Owes, Redraws, DrawsWhole, Looks, HasCell, HasRow, HasContents};
ghost use Rattle.c_objects.specs.Hubs.{ShowsCell, ShowsRow, ShowsContents};
ghost use Rattle.c_objects.specs.Limits.{Within};

use crate::cells::copy_screen_cells;
use crate::code::{
    BAD_SIZE, MEMORY, NO_CELL, NOT_OWED, OK, OTHER_KIND, TOO_LARGE, TOO_LONG, UNKNOWN_CLIENT,
    code_of, frame_code, refusal_code,
};
use crate::copy::{copy_prefix, copy_text};
use crate::look::{screen_look, set_cell};
use crate::object::Object;
use crate::plain::{CCell, CLook};
use crate::sent::SoMany;
use crate::size::is_within;
use std::alloc::Global;
use std::num::NonZeroU16;
use termrelay::{Client, Hub, HubError};
use vt100::Screen;

/// Makes a hub with a blank screen of this size, and without clients. Refused for a size without cells, and if an
/// allocation fails.
pub fn new_hub(alloc: Global, rows: u16, cols: u16) -> Result<Box<Object>, i32>
    ensures new { IfOk result (λ b. IsNewHubOf rows cols b.value) }
    ensures refused { IfErr result (λ code. IsNoObjectCode rows cols code) }
{
    let (Some(rows), Some(cols)) = (NonZeroU16::new(rows), NonZeroU16::new(cols)) else {
        return Err(BAD_SIZE);
    };
    let hub = match Hub::new(alloc, rows, cols) {
        Ok(hub) => hub,
        Err(_) => return Err(MEMORY),
    };
    match Box::new(alloc, Object::Hub(hub)) {
        Ok(b) => Ok(b),
        Err(_) => Err(MEMORY),
    }
}

/// Feeds the program's next bytes to a hub.
pub fn feed(object: &mut Object, bytes: &[u8]) -> i32
    ensures { HubDoes (Feeds bytes.now) object.old result object.new }
{
    match object {
        Object::Hub(hub) => code_of(hub.feed(bytes)),
        _ => OTHER_KIND,
    }
}

fn resize_hub(hub: &mut Hub, rows: u16, cols: u16) -> i32
    ensures { Resizes rows cols hub.old result hub.new }
{
    match (NonZeroU16::new(rows), NonZeroU16::new(cols)) {
        (Some(rows), Some(cols)) => code_of(hub.resize(rows, cols)),
        _ => BAD_SIZE,
    }
}

/// Gives a hub's screen another size. All clients end.
pub fn resize(object: &mut Object, rows: u16, cols: u16) -> i32
    ensures { HubDoes (Resizes rows cols) object.old result object.new }
{
    match object {
        Object::Hub(hub) => resize_hub(hub, rows, cols),
        _ => OTHER_KIND,
    }
}

fn resize_hub_within(hub: &mut Hub, rows: u16, cols: u16, most_cells: usize) -> i32
    ensures { Within most_cells rows cols (Resizes rows cols) hub.old result hub.new }
{
    if is_within(rows, cols, most_cells) {
        resize_hub(hub, rows, cols)
    } else {
        TOO_LARGE
    }
}

/// Gives a hub's screen another size of at most `most_cells` cells. All clients end.
pub fn resize_within(object: &mut Object, rows: u16, cols: u16, most_cells: usize) -> i32
    ensures { HubDoes (Within most_cells rows cols (Resizes rows cols)) object.old result object.new }
{
    match object {
        Object::Hub(hub) => resize_hub_within(hub, rows, cols, most_cells),
        _ => OTHER_KIND,
    }
}

fn attach_to(hub: &mut Hub, client: &mut usize) -> i32
    ensures attached { Attaches client.old client.new hub.old result hub.new }
    ensures refused { IsRefusal result → client.new ≡ client.old }
{
    match hub.attach() {
        Ok(new) => {
            *client = new.key();
            OK
        }
        Err(error) => refusal_code(error),
    }
}

/// Attaches a new client to a hub, and sets `client` to its key.
pub fn attach(object: &mut Object, client: &mut usize) -> i32
    ensures attached { HubDoes (Attaches client.old client.new) object.old result object.new }
    ensures refused { IsRefusal result → client.new ≡ client.old }
{
    match object {
        Object::Hub(hub) => attach_to(hub, client),
        _ => OTHER_KIND,
    }
}

fn fork_in(hub: &mut Hub, client: Client, fork: &mut usize) -> i32
    ensures forked { Forks client fork.old fork.new hub.old result hub.new }
    ensures refused { IsRefusal result → fork.new ≡ fork.old }
{
    match hub.fork(client) {
        Ok(new) => {
            *fork = new.key();
            OK
        }
        Err(error) => refusal_code(error),
    }
}

/// Adds a client that starts from what this one has once it has read all its frames, and sets `fork` to its key.
pub fn fork(object: &mut Object, client: usize, fork: &mut usize) -> i32
    ensures forked { HubDoes (Forks client fork.old fork.new) object.old result object.new }
    ensures refused { IsRefusal result → fork.new ≡ fork.old }
{
    match object {
        Object::Hub(hub) => fork_in(hub, Client::from_key(client), fork),
        _ => OTHER_KIND,
    }
}

/// Detaches a client from a hub.
pub fn detach(object: &mut Object, client: usize) -> i32
    ensures { HubDoes (Detaches client) object.old result object.new }
{
    match object {
        Object::Hub(hub) => code_of(hub.detach(Client::from_key(client))),
        _ => OTHER_KIND,
    }
}

/// Asks a hub for a frame for a client. The bytes of a new frame then wait for the client.
pub fn frame(object: &mut Object, client: usize) -> i32
    ensures { HubDoes (Frames client) object.old result object.new }
{
    match object {
        Object::Hub(hub) => frame_code(hub.frame(Client::from_key(client))),
        _ => OTHER_KIND,
    }
}

fn copy_owed(hub: &Hub, client: Client, to: &mut [u8], count: &mut usize) -> i32
    ensures owed { Owes client to.old to.new count.new hub.now result }
    ensures refused { IsRefusal result → (to.new ≡ to.old) × (count.new ≡ count.old) }
{
    match hub.owed(client) {
        Ok(bytes) => {
            copy_prefix(bytes, to, count);
            OK
        }
        Err(_) => UNKNOWN_CLIENT,
    }
}

/// Copies as many as fit of the bytes that wait for a client, and sets `count` to how many wait.
pub fn owed(object: &Object, client: usize, to: &mut [u8], count: &mut usize) -> i32
    ensures owed { HubSays (Owes client to.old to.new count.new) object.now result }
    ensures refused { IsRefusal result → (to.new ≡ to.old) × (count.new ≡ count.old) }
{
    match object {
        Object::Hub(hub) => copy_owed(hub, Client::from_key(client), to, count),
        _ => OTHER_KIND,
    }
}

fn copy_redraw(hub: &Hub, client: Client, to: &mut [u8], count: &mut usize) -> i32
    ensures redraws { Redraws client to.old to.new count.new hub.now result }
    ensures refused { IsRefusal result → (to.new ≡ to.old) × (count.new ≡ count.old) }
{
    match hub.redraw(client) {
        Ok(Some(text)) => {
            copy_prefix(&text, to, count);
            OK
        }
        Ok(None) => {
            *count = 0;
            TOO_LONG
        }
        Err(error) => refusal_code(error),
    }
}

/// Copies as many as fit of the bytes that draw what a client shows once it has read all its frames, and sets `count`
/// to how many there are. If they are more than a terminal buffers, none are copied and `count` is 0.
pub fn redraw(object: &Object, client: usize, to: &mut [u8], count: &mut usize) -> i32
    ensures redraws { HubSays (Redraws client to.old to.new count.new) object.now result }
    ensures refused { IsRefusal result → (to.new ≡ to.old) × (count.new ≡ count.old) }
{
    match object {
        Object::Hub(hub) => copy_redraw(hub, Client::from_key(client), to, count),
        _ => OTHER_KIND,
    }
}

/// Whether the client has had a frame. Before its first frame its redraw is empty.
fn has_had_frame(hub: &Hub, client: Client) -> Result<bool, HubError>
    ensures had { IfOk result (λ had. IsSomeAnd (clients_in hub.now client) (λ c. had ≡ is_some c.base)) }
    ensures refused { IfErr result (λ error. hub_draws_whole hub.now client (Err error)) }
{
    match hub.redraw(client)? {
        Some(text) => Ok(!text.is_empty()),
        None => Ok(true),
    }
}

fn copy_whole_frame(hub: &Hub, client: Client, to: &mut [u8], count: &mut usize) -> i32
    ensures draws { DrawsWhole client to.old to.new count.new hub.now result }
    ensures refused { IsRefusal result → (to.new ≡ to.old) × (count.new ≡ count.old) }
{
    match hub.whole_frame(client) {
        Ok(Some(text)) => {
            copy_prefix(&text, to, count);
            OK
        }
        Ok(None) => match has_had_frame(hub, client) {
            Ok(had) => {
                *count = 0;
                if had { TOO_LONG } else { OK }
            }
            Err(error) => refusal_code(error),
        },
        Err(error) => refusal_code(error),
    }
}

/// Copies as many as fit of the bytes of a client's whole frame, and sets `count` to how many there are. They draw
/// what the client shows once it has read all its frames, on any terminal that has read frames. Before the client's
/// first frame, or if they are more than a terminal buffers, none are copied and `count` is 0.
pub fn whole_frame(object: &Object, client: usize, to: &mut [u8], count: &mut usize) -> i32
    ensures draws { HubSays (DrawsWhole client to.old to.new count.new) object.now result }
    ensures refused { IsRefusal result → (to.new ≡ to.old) × (count.new ≡ count.old) }
{
    match object {
        Object::Hub(hub) => copy_whole_frame(hub, Client::from_key(client), to, count),
        _ => OTHER_KIND,
    }
}

fn tell_sent(hub: &mut Hub, client: Client, count: usize) -> i32
    ensures { Sends client count hub.old result hub.new }
{
    match hub.owed(client) {
        Ok(bytes) => {
            if count > bytes.len() {
                return NOT_OWED;
            }
        }
        Err(_) => return UNKNOWN_CLIENT,
    }
    let mut so_many = SoMany { left: count };
    // A write that takes no byte ends the pump, if bytes are left.
    let _end = hub.pump(client, &mut so_many);
    OK
}

/// Reports to a hub that the first `count` pending bytes were sent to a client.
pub fn sent(object: &mut Object, client: usize, count: usize) -> i32
    ensures { HubDoes (Sends client count) object.old result object.new }
{
    match object {
        Object::Hub(hub) => tell_sent(hub, Client::from_key(client), count),
        _ => OTHER_KIND,
    }
}

/// Reads the size, the cursor and the modes of a hub's screen.
pub fn look(object: &Object, look: &mut CLook) -> i32
    ensures looks { HubSays (Looks look.new) object.now result }
    ensures refused { IsRefusal result → look.new ≡ look.old }
{
    match object {
        Object::Hub(hub) => {
            *look = screen_look(hub.screen());
            OK
        }
        _ => OTHER_KIND,
    }
}

/// Copies a cell of a screen. Refused for a place outside it.
pub(crate) fn copy_cell(screen: &Screen, row: u16, col: u16, to: &mut CCell) -> i32
    ensures cell { ShowsCell screen.now row col to.new result }
    ensures refused { IsRefusal result → to.new ≡ to.old }
{
    match screen.cell(row, col) {
        Some(cell) => {
            set_cell(cell, to);
            OK
        }
        None => NO_CELL,
    }
}

/// Copies a cell of a hub's screen. Refused for a place outside it.
pub fn cell(object: &Object, row: u16, col: u16, to: &mut CCell) -> i32
    ensures cell { HubSays (HasCell row col to.new) object.now result }
    ensures refused { IsRefusal result → to.new ≡ to.old }
{
    match object {
        Object::Hub(hub) => copy_cell(hub.screen(), row, col, to),
        _ => OTHER_KIND,
    }
}

/// Copies the cells of a row of a hub's screen. Refused for a row outside it.
pub fn row_cells(
    object: &Object,
    row: u16,
    to: &mut [CCell],
    count: &mut usize,
    wrapped: &mut u8,
) -> i32
    ensures cells { HubSays (HubHasCells row to.old to.new count.new wrapped.new) object.now result }
    ensures refused { IsRefusal result → (to.new ≡ to.old) × (count.new ≡ count.old) × (wrapped.new ≡ wrapped.old) }
{
    match object {
        Object::Hub(hub) => copy_screen_cells(hub.screen(), row, to, count, wrapped),
        _ => OTHER_KIND,
    }
}

/// Copies the text of a row of a screen, as UTF-8.
pub(crate) fn copy_row(screen: &Screen, row: u16, to: &mut [u8], count: &mut usize) -> i32
    ensures text { ShowsRow screen.now row to.old to.new count.new result }
    ensures refused { IsRefusal result → (to.new ≡ to.old) × (count.new ≡ count.old) }
{
    let cols = screen.size().1.get();
    copy_text(screen.contents_between(row, 0, row, cols), to, count)
}

/// Copies the text of a row of a hub's screen, as UTF-8.
pub fn row_text(object: &Object, row: u16, to: &mut [u8], count: &mut usize) -> i32
    ensures text { HubSays (HasRow row to.old to.new count.new) object.now result }
    ensures refused { IsRefusal result → (to.new ≡ to.old) × (count.new ≡ count.old) }
{
    match object {
        Object::Hub(hub) => copy_row(hub.screen(), row, to, count),
        _ => OTHER_KIND,
    }
}

/// Copies the text of all rows of a screen, as UTF-8.
pub(crate) fn copy_contents(screen: &Screen, to: &mut [u8], count: &mut usize) -> i32
    ensures text { ShowsContents screen.now to.old to.new count.new result }
    ensures refused { IsRefusal result → (to.new ≡ to.old) × (count.new ≡ count.old) }
{
    copy_text(screen.contents(), to, count)
}

/// Copies the text of all rows of a hub's screen, as UTF-8.
pub fn contents(object: &Object, to: &mut [u8], count: &mut usize) -> i32
    ensures text { HubSays (HasContents to.old to.new count.new) object.now result }
    ensures refused { IsRefusal result → (to.new ≡ to.old) × (count.new ≡ count.old) }
{
    match object {
        Object::Hub(hub) => copy_contents(hub.screen(), to, count),
        _ => OTHER_KIND,
    }
}
