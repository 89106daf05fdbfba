//! What hubs refuse: those that were refused memory at a feed, and clients that aren't known.

use crate::relays::calls::{called, is_done};
use crate::relays::hubs::Seat;
use crate::relays::writers::Writer;
use case_player::StepError;
use std::num::NonZeroU16;
use termrelay::runs::{Call, Reply};
use termrelay::{Client, Hub, HubError};

/// The error of a step whose call was refused memory. A feed may have failed its hub, and must have if `must_fail`; any
/// other call changed nothing.
pub fn refusal(hub: &mut Hub, seats: &[Seat], must_fail: bool) -> StepError {
    if hub.screen().failed() {
        return failed(hub, seats);
    }
    if must_fail {
        return StepError::Wrong("a feed was refused memory, and the hub goes on");
    }
    StepError::Memory
}

// The hub has failed. It refuses what would change its screen or show it, and still knows and serves its clients.
fn failed(hub: &mut Hub, seats: &[Seat]) -> StepError {
    if !refuses(hub) {
        return StepError::Wrong("a failed hub does what it has to refuse");
    }
    for seat in seats {
        if !seat.has_ended && !serves(hub, seat) {
            return StepError::Wrong("a failed hub doesn't send what it owed");
        }
    }
    StepError::Ended
}

// Whether a failed hub refuses everything, and knows no client that it didn't attach.
fn refuses(hub: &mut Hub) -> bool {
    let (one, nobody) = (NonZeroU16::MIN, Client::from_key(usize::MAX));
    is_failed(hub, &Call::Feed(b"x"))
        && is_failed(hub, &Call::Attach)
        && is_failed(hub, &Call::Resize(one, one))
        && is_unknown(hub, &Call::Frame(nobody))
        && is_unknown(hub, &Call::Pump(nobody, &[]))
}

// Whether a client gets no frame, is sent its pending bytes, and ends.
fn serves(hub: &mut Hub, seat: &Seat) -> bool {
    let mut writer = Writer::new();
    is_failed(hub, &Call::Frame(seat.client))
        && is_done(&called(hub, &Call::Pump(seat.client, &[]), &mut writer))
        && is_done(&called(hub, &Call::Detach(seat.client), &mut writer))
        && writer.pumped.all == seat.owed
}

fn is_failed(hub: &mut Hub, call: &Call<'_>) -> bool {
    let reply = called(hub, call, &mut Writer::new());
    matches!(reply, Reply::Refused(HubError::Failed))
}

fn is_unknown(hub: &mut Hub, call: &Call<'_>) -> bool {
    let reply = called(hub, call, &mut Writer::new());
    matches!(reply, Reply::Refused(HubError::UnknownClient))
}

/// Whether no call of the hub knows the client.
pub fn is_unknown_to(hub: &mut Hub, client: Client) -> bool {
    matches!(hub.owed(client), Err(HubError::UnknownClient))
        && is_unknown(hub, &Call::Frame(client))
        && is_unknown(hub, &Call::Pump(client, &[]))
        && is_unknown(hub, &Call::Detach(client))
}
